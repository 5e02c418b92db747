// What a set of MAPs spans, kept as MAPs are added one by one: no earlier one is looked at again.
ghost use Rattle.std.specs.Prelude.{◌≡◌};
ghost use Rattle.slots.specs.Span.{within, both, further, widened, added, added_to};

use crate::time::MiniSlot;

// Nothing: no MAP yet. Lost: there are MAPs, and they have no span. Over: E and L.
#[derive(Clone, Copy)]
pub enum Span {
    Nothing,
    Lost,
    Over {
        earliest: MiniSlot,
        latest: MiniSlot,
    },
}

impl Span {
    pub const LONGEST_MAP: u32 = 4096;

    pub fn new() -> Span
        ensures { result ≡ Span.Nothing }
    {
        Span::Nothing
    }

    // The span with one MAP more; none where it is too long to be a MAP: the span stays as it was.
    pub fn add(self, start: MiniSlot, length: u32) -> Option<Span>
        ensures { result ≡ added_to 32 self start.0 length }
    {
        if Span::LONGEST_MAP < length {
            return None;
        }
        Some(with_map(self, start, length))
    }
}

fn with_map(span: Span, start: MiniSlot, length: u32) -> Span
    ensures { result ≡ added 32 span start.0 length }
{
    match span {
        Span::Nothing => Span::Over {
            earliest: start,
            latest: start.moved_on(length),
        },
        Span::Lost => Span::Lost,
        Span::Over { earliest, latest } => widen(earliest, latest, start, start.moved_on(length)),
    }
}

// Only the old earliest start and the new one can be the start of all: whatever else qualifies
// would have qualified before.
fn widen(earliest: MiniSlot, latest: MiniSlot, start: MiniSlot, end: MiniSlot) -> Span
    ensures { result ≡ widened 32 earliest.0 latest.0 start.0 end.0 }
{
    if both(earliest, start, end) {
        return Span::Over {
            earliest,
            latest: further(earliest, latest, end),
        };
    }
    if both(start, earliest, latest) {
        return Span::Over {
            earliest: start,
            latest: further(start, latest, end),
        };
    }
    Span::Lost
}

fn within(from: MiniSlot, time: MiniSlot) -> bool
    ensures { result ≡ within 32 from.0 time.0 }
{
    from.ahead(time) < 2147483648
}

fn both(from: MiniSlot, one: MiniSlot, other: MiniSlot) -> bool
    ensures { result ≡ both 32 from.0 one.0 other.0 }
{
    within(from, one) & within(from, other)
}

fn further(from: MiniSlot, one: MiniSlot, other: MiniSlot) -> MiniSlot
    ensures { result.0 ≡ further 32 from.0 one.0 other.0 }
{
    if from.ahead(one) < from.ahead(other) {
        return other;
    }
    one
}
