// The headend's record.
ghost use Rattle.std.specs.Prelude.{◌≡◌, ◌≤◌, length};
ghost use Rattle.headend.specs.Requests.{spare, held_of};
ghost use Rattle.headend.specs.Records.{with_places};

use rules::{Backoff, Refusal};
use slots::MiniSlot;

// A request: who, for how many mini-slots, and sent in which.
#[derive(Clone, Copy, PartialEq, Eq)]
pub struct Request {
    pub sid: u32,
    pub size: u32,
    pub first: MiniSlot,
}

// The requests held stand in the order taken. Places from `held` on are spare. The count stands beside
// the array: the memory is fixed, and a record handed in may say more than 64 (17, `record_fault`).
#[derive(Clone, Copy)]
pub struct Headend {
    pub next: MiniSlot,
    pub ack: MiniSlot,
    pub channel: u8,
    pub count: u8,
    pub ranging: Backoff,
    pub data: Backoff,
    pub short: u32,
    pub held: u32,
    pub requests: [Request; 64],
}

// By value, as the station's steps are: the headend after it, which a refusal leaves as it came, and the
// answer.
#[derive(Clone, Copy)]
pub struct Taking {
    pub headend: Headend,
    pub answer: Result<(), Refusal>,
}

impl Request {
    // What stands in a spare place.
    pub const SPARE: Request = Request {
        sid: 0,
        size: 0,
        first: MiniSlot(0),
    };
}

// The record with other times and other places held, its set-up as it was.
pub fn with_places(
    h: Headend,
    next: MiniSlot,
    ack: MiniSlot,
    held: u32,
    requests: [Request; 64],
) -> Headend
    ensures { result ≡ with_places h next ack held requests }
{
    Headend {
        next,
        ack,
        held,
        requests,
        ..h
    }
}

impl Headend {
    // The requests held: of a record handed in, never more than there are places.
    pub fn held_requests(&self) -> &[Request]
        ensures held { result.now ≡ held_of self.now }
        ensures few { length result.now ≤ 64 }
    {
        let n = self.held.min(Headend::MOST_HELD) as usize;
        &self.requests[..n]
    }
}
