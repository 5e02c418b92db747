// The first and the last step of an accepted MAP on a station's phase.
ghost use Rattle.std.specs.Prelude.{◌≡◌};
ghost use Rattle.message.specs.Reading.{map_of};
ghost use Rattle.hearing.specs.Opportunities.{contention, own};
ghost use Rattle.hearing.specs.Scan.{first_of, sent_in};
ghost use Rattle.hearing.specs.Steps.{granted, sending, waiting_since, sent_by};

use crate::map::Map;
use slots::MiniSlot;
use station::{Phase, Station};
use std::ops::ControlFlow;

// 1. There is a grant.
pub(crate) fn after_grant(pending: bool, phase: Phase) -> Phase
    ensures { result ≡ granted pending phase }
{
    if !pending {
        return Phase::Idle;
    }
    match phase {
        Phase::Waiting { .. } => phase,
        _ => Phase::Idle,
    }
}

// The opportunity that a Deferring station sends in, or how many it has left to pass.
fn sent_in(map: Map, r: u32, first: Option<MiniSlot>, left: u32) -> ControlFlow<MiniSlot, u32>
    ensures { result ≡ sent_in first (contention r (map_of map.entry.bytes.now)) left }
{
    match first {
        Some(time) => ControlFlow::Break(time),
        None => map.pass(r, left),
    }
}

// 4. Deferring: the first usable Request to the own SID, or contention.
pub(crate) fn after_deferring(st: Station, map: Map, first: Option<MiniSlot>, phase: Phase) -> Phase
    requires { first ≡ first_of None (own st.sid st.r (map_of map.bytes.now)) }
    ensures { result ≡ sending (own st.sid st.r (map_of map.entry.bytes.now)) (contention st.r (map_of map.entry.bytes.now)) phase }
{
    let Phase::Deferring {
        exponent,
        left,
        retries,
        size,
    } = phase
    else {
        return phase;
    };
    match sent_in(map, st.r, first, left) {
        // "Sending makes it Waiting, request time the opportunity's first mini-slot."
        ControlFlow::Break(time) => Phase::Waiting {
            exponent,
            retries,
            time,
            size,
        },
        ControlFlow::Continue(left) => Phase::Deferring {
            exponent,
            left,
            retries,
            size,
        },
    }
}

fn waiting_since(phase: Phase) -> Option<MiniSlot>
    ensures { result ≡ waiting_since phase }
{
    match phase {
        Phase::Waiting { time, .. } => Some(time),
        _ => None,
    }
}

// The request of step 4, by the phases before and after it.
pub(crate) fn sent_by(before: Phase, after: Phase) -> Option<MiniSlot>
    ensures { result ≡ sent_by before after }
{
    match before {
        Phase::Deferring { .. } => waiting_since(after),
        _ => None,
    }
}
