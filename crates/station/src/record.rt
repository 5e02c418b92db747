// A station's record and its phases, and what is refused in it.
ghost use Rattle.std.specs.Prelude.{◌≡◌, not};
ghost use Rattle.rules.specs.Sids.{unicast};
ghost use Rattle.station.specs.Records.{bad_size, bad_r, bad_phase, record_fault};

use rules::{Reason, Refusal, unicast, within};
use slots::MiniSlot;

// What becomes of the packet that was offered. `size` is the packet's, in mini-slots.
#[derive(Clone, Copy, PartialEq, Eq)]
pub enum Phase {
    Idle,
    Wanting {
        size: u32,
    },
    Deferring {
        exponent: u32,
        left: u32,
        retries: u32,
        size: u32,
    },
    Waiting {
        exponent: u32,
        retries: u32,
        time: MiniSlot,
        size: u32,
    },
}

// `end` is the end of the last MAP that was accepted, if there was one.
#[derive(Clone, Copy, PartialEq, Eq)]
pub struct Station {
    pub sid: u32,
    pub channel: u8,
    pub count: u8,
    pub r: u32,
    pub end: Option<MiniSlot>,
    pub phase: Phase,
}

// By value, as document 01 has the steps ("Forms by place"): the station after it, which a refusal leaves as
// it came, and the answer.
#[derive(Clone, Copy, PartialEq, Eq)]
pub struct Offering {
    pub station: Station,
    pub answer: Result<(), Refusal>,
}

impl Station {
    pub const MOST_RETRIES: u32 = 16;

    pub const LARGEST_PACKET: u32 = 255;

    pub const LARGEST_R: u32 = 16;

    pub const LARGEST_EXPONENT: u32 = 15;

    pub const MOST_LEFT: u32 = 32767;

    pub const LARGEST_TABLE: usize = 32;
}

// A packet's limit, r's below and a grant's (headend) are three numbers of the paper, each tested where it
// stands; what they share is `within`.
pub(crate) fn bad_size(size: u32) -> bool
    ensures { result ≡ bad_size size }
{
    !within(1, Station::LARGEST_PACKET, size)
}

pub(crate) fn bad_r(r: u32) -> bool
    ensures { result ≡ bad_r r }
{
    !within(1, Station::LARGEST_R, r)
}

// Only the fields that a phase has are looked at.
fn bad_phase(phase: Phase) -> bool
    ensures { result ≡ bad_phase phase }
{
    match phase {
        Phase::Idle => false,
        Phase::Wanting { size } => bad_size(size),
        Phase::Deferring {
            exponent,
            left,
            retries,
            size,
        } => {
            bad_size(size)
                | (Station::LARGEST_EXPONENT < exponent)
                | (Station::MOST_RETRIES < retries)
                | (Station::MOST_LEFT < left)
        }
        Phase::Waiting {
            exponent,
            retries,
            time: _,
            size,
        } => {
            bad_size(size)
                | (Station::LARGEST_EXPONENT < exponent)
                | (Station::MOST_RETRIES < retries)
        }
    }
}

// Why a record handed in is refused.
pub fn record_fault(st: Station) -> Result<(), Reason>
    ensures { result ≡ record_fault st }
{
    if !unicast(st.sid) {
        return Err(Reason::Sid);
    }
    if bad_r(st.r) {
        return Err(Reason::Size);
    }
    if bad_phase(st.phase) {
        return Err(Reason::Size);
    }
    Ok(())
}
