// Mini-slot times and timestamps: two counters of 32 bits that roll over. They are separate units,
// and meet only in `begins`.
ghost use Rattle.std.specs.Prelude.{◌≡◌};
ghost use Rattle.slots.specs.Time.{ahead, earlier, moved_on};
ghost use Rattle.slots.specs.Begins.{begins_at, number_of, size_fault};

// The count of mini-slots.
#[derive(Clone, Copy, PartialEq, Eq)]
pub struct MiniSlot(pub u32);

// The count of the headend's clock: 64 of these are one tick of 64/9.216 microseconds.
#[derive(Clone, Copy, PartialEq, Eq)]
pub struct Timestamp(pub u32);

impl MiniSlot {
    pub const SMALLEST_M: u32 = 1;

    pub const LARGEST_M: u32 = 7;

    // The forward distance: how far `other` lies ahead, counting over the roll-over.
    pub fn ahead(self, other: MiniSlot) -> u32
        ensures { result ≡ ahead 32 self.0 other.0 }
    {
        other.0.wrapping_sub(self.0)
    }

    pub fn earlier(self, other: MiniSlot) -> bool
        ensures { result ≡ earlier 32 self.0 other.0 }
    {
        let distance = self.ahead(other);
        (1 <= distance) & (distance < 2147483648)
    }

    pub fn moved_on(self, n: u32) -> MiniSlot
        ensures { result.0 ≡ moved_on 32 self.0 n }
    {
        MiniSlot(self.0.wrapping_add(n))
    }

    // The timestamp at which this mini-slot begins, where a mini-slot is 2^m ticks; none, where no
    // such mini-slot size exists.
    pub fn begins(self, m: u32) -> Option<Timestamp>
        ensures { (result ≡ begins_at self.0 m) × (number_of result ≡ size_fault m) }
    {
        if m < MiniSlot::SMALLEST_M {
            return None;
        }
        if MiniSlot::LARGEST_M < m {
            return None;
        }
        let count = (self.0 as u64) * ((1u64 << m) * 64);
        Some(Timestamp((count % 4294967296) as u32))
    }
}
