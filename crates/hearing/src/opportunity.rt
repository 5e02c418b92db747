// What a MAP's elements hold for a station. They are gone through once, and an interval's end is
// looked for only where it may be the station's; where a station defers, whole intervals are passed
// at once, however many opportunities they give.
ghost use Rattle.std.specs.Prelude.{◌≡◌, not, [], ◌∷◌, ◌<◌};
ghost use Rattle.message.specs.Lists.{is_empty};
ghost use Rattle.message.specs.Map.{intervals, pendings_to};
ghost use Rattle.message.specs.Reading.{map_of};
ghost use Rattle.hearing.specs.Opportunities.{contention};
ghost use Rattle.hearing.specs.Scan.{first_of, found_in, waiting_with, apart, passed_by};

use crate::map::Map;
use rules::{Element, granting, within};
use slots::MiniSlot;
use station::Phase;
use std::ops::ControlFlow;

// The data bursts of a station, and the first usable Request to its own SID.
#[derive(Clone, Copy, PartialEq, Eq)]
pub(crate) struct Found {
    pub bursts: u32,
    pub own: Option<MiniSlot>,
}

const BROADCAST: u32 = 0x3FFF;

fn first_of(own: Option<MiniSlot>, time: MiniSlot) -> Option<MiniSlot>
    ensures { result ≡ first_of own (time.0 ∷ []) }
{
    own.or(Some(time))
}

// One interval to the station's SID more.
fn noted(found: Found, e: Element, length: u32, start: MiniSlot, r: u32) -> Found
    requires { found.bursts < 4294967295 }
    ensures { result ≡ found_in start.0 e.sid r found (record { sid = e.sid; iuc = e.iuc; first = e.offset; length = length } ∷ []) }
{
    let own = found.own;
    if granting(e.iuc) {
        return Found {
            bursts: found.bursts + 1,
            own,
        };
    }
    if (e.iuc != 1) | (length < r) {
        return found;
    }
    Found {
        bursts: found.bursts,
        own: first_of(own, start.moved_on(e.offset)),
    }
}

// 0 where it gives none; and where r is 0, so that nothing is divided by it: an Option would leave that to
// be asked again.
fn step_of(e: Element, r: u32) -> u32
    ensures { result ≡ apart r e.sid e.iuc }
{
    match e.iuc {
        1 if e.sid == BROADCAST => r,
        2 if within(0x3FF1, 0x3FFE, e.sid) && r <= e.sid - 0x3FF0 => e.sid - 0x3FF0,
        _ => 0,
    }
}

impl Map<'_> {
    pub(crate) fn find(self, sid: u32, r: u32) -> Found
        ensures { result ≡ found_in self.entry.reading.fields.start.0 sid r (record { bursts = 0; own = None }) (intervals (map_of self.entry.bytes.now).elements) }
    {
        let start = self.reading.fields.start;
        let mut found = Found {
            bursts: 0,
            own: None,
        };
        for i in 0..self.reading.null {
            let e = self.element(i);
            if e.sid == sid {
                let next = self.element(i + 1);
                found = noted(found, e, next.offset - e.offset, start, r);
            }
        }
        found
    }

    // Whether a pending for the SID follows the Null.
    fn pending(self, sid: u32) -> bool
        ensures { result ≡ not (is_empty (pendings_to sid (map_of self.entry.bytes.now).elements)) }
    {
        (self.reading.null + 1..self.reading.n).any(|i| self.element(i).grants_sid(sid))
    }

    // "Waiting with a pending": only a station that waits asks for one.
    pub(crate) fn waiting_with_pending(self, sid: u32, phase: Phase) -> bool
        ensures { result ≡ waiting_with (not (is_empty (pendings_to sid (map_of self.entry.bytes.now).elements))) phase }
    {
        match phase {
            Phase::Waiting { .. } => self.pending(sid),
            _ => false,
        }
    }

    // 4, without a Request to the own SID: the contention opportunities of each interval together.
    // The first mini-slot of the one that is sent in, or how many are left to pass.
    pub(crate) fn pass(self, r: u32, mut left: u32) -> ControlFlow<MiniSlot, u32>
        ensures { result ≡ passed_by (contention r (map_of self.entry.bytes.now)) left }
    {
        let start = self.reading.fields.start;
        for i in 0..self.reading.null {
            let e = self.element(i);
            let step = step_of(e, r);
            if step != 0 {
                let next = self.element(i + 1);
                let count = (next.offset - e.offset) / step;
                if left < count {
                    return ControlFlow::Break(start.moved_on(e.offset + left * step));
                }
                left -= count;
            }
        }
        ControlFlow::Continue(left)
    }
}
