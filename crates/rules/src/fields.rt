// The header's fields. The number of elements is not among them: it is that of the elements, and
// the reserved byte says nothing.
ghost use Rattle.std.specs.Prelude.{◌≡◌};
ghost use Rattle.rules.specs.Backoffs.{bad_backoff, bad_backoffs};

use slots::MiniSlot;

// The exponents of a backoff window, at first and at most.
#[derive(Clone, Copy, PartialEq, Eq)]
pub struct Backoff {
    pub start: u8,
    pub end: u8,
}

#[derive(Clone, Copy, PartialEq, Eq)]
pub struct Fields {
    pub channel: u8,
    pub count: u8,
    pub start: MiniSlot,
    pub ack: MiniSlot,
    pub ranging: Backoff,
    pub data: Backoff,
}

impl Backoff {
    pub const LARGEST: u8 = 15;

    // Over 15, or a start above its end.
    pub fn bad(self) -> bool
        ensures { result ≡ bad_backoff self }
    {
        (Backoff::LARGEST < self.start) | (Backoff::LARGEST < self.end) | (self.end < self.start)
    }
}

impl Fields {
    pub fn bad_backoffs(self) -> bool
        ensures { result ≡ bad_backoffs self }
    {
        self.ranging.bad() | self.data.bad()
    }
}
