// Why a call is refused, by the name and the number of document 01's table, and the element at fault.
ghost use Rattle.std.specs.Prelude.{◌≡◌};
ghost use Rattle.rules.specs.Refusals.{number_of, refusal};

#[derive(Clone, Copy, PartialEq, Eq)]
pub enum Reason {
    Short = 1,
    Count = 2,
    Length = 3,
    Backoff = 4,
    Use = 5,
    Sid = 6,
    Place = 7,
    Span = 8,
    Grant = 9,
    Null = 10,
    Room = 11,
    Channel = 12,
    Description = 13,
    Stale = 14,
    Late = 15,
    Busy = 16,
    Size = 17,
    Held = 18,
    Full = 19,
    Passed = 20,
    Unannounced = 21,
    Ack = 22,
    Plan = 23,
    Selfcheck = 24,
}

// From Room on the element is 0.
#[derive(Clone, Copy, PartialEq, Eq)]
pub struct Refusal {
    pub reason: Reason,
    pub element: u32,
}

impl Reason {
    pub fn number(self) -> u32
        ensures { result ≡ number_of self }
    {
        self as u32
    }
}

// A refusal that names no element.
impl From<Reason> for Refusal {
    ghost from_gives = { λ reason r. r ≡ refusal reason 0 };

    fn from(reason: Reason) -> Refusal {
        Refusal { reason, element: 0 }
    }
}
