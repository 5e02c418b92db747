// What a station answers to a MAP.
use rules::Refusal;
use slots::MiniSlot;
use station::Station;

// The number of data bursts, and the request sent, by its first mini-slot, if one was.
#[derive(Clone, Copy, PartialEq, Eq)]
pub struct Answer {
    pub bursts: u32,
    pub request: Option<MiniSlot>,
}

// By value, as document 01 has the steps ("Forms by place"): the station after it, which a refusal leaves as
// it came, and the answer.
#[derive(Clone, Copy, PartialEq, Eq)]
pub struct Hearing {
    pub station: Station,
    pub answer: Result<Answer, Refusal>,
}
