// A station's record as twelve numbers.
ghost use Rattle.std.specs.Prelude.{◌≡◌};
ghost use Rattle.firmware.specs.Layout.{known, end_in, remembered, undeferred, parts_of, phase_of, parts_in, out_of_range, numbers_of};
ghost use Rattle.firmware.specs.Scan.{station_in};

use rules::Reason;
use slots::MiniSlot;
use station::{Phase, Station};

// The state's number, and every field that some state has.
#[derive(Clone, Copy)]
pub(crate) struct Parts {
    pub state: u32,
    pub size: u32,
    pub exponent: u32,
    pub left: u32,
    pub retries: u32,
    pub time: u32,
}

// C has no enum with fields: the states by number.
const IDLE: u32 = 0;

const WANTING: u32 = 1;

const DEFERRING: u32 = 2;

const WAITING: u32 = 3;

// C has no Option: whether there is a mini-slot ..
pub(crate) fn flag(time: Option<MiniSlot>) -> u32
    ensures { result ≡ known time }
{
    u32::from(time.is_some())
}

// .. and which, or 0.
pub(crate) fn time_in(time: Option<MiniSlot>) -> u32
    ensures { result ≡ end_in time }
{
    time.map_or(0, |time| time.0)
}

// .. out of C's record; replay's lines, where a bad number is `Bad`, have a `remembered` of their own.
fn remembered(known: u32, end: u32) -> Option<MiniSlot>
    ensures { result ≡ remembered known end }
{
    (known != 0).then_some(MiniSlot(end))
}

// The parts of a state that has a size at most.
fn undeferred(state: u32, size: u32) -> Parts
    ensures { result ≡ undeferred state size }
{
    Parts {
        state,
        size,
        exponent: 0,
        left: 0,
        retries: 0,
        time: 0,
    }
}

impl From<Phase> for Parts {
    ghost from_gives = { λ phase p. p ≡ parts_of phase };

    fn from(phase: Phase) -> Parts {
        match phase {
            Phase::Idle => undeferred(IDLE, 0),
            Phase::Wanting { size } => undeferred(WANTING, size),
            Phase::Deferring {
                exponent,
                left,
                retries,
                size,
            } => Parts {
                exponent,
                left,
                retries,
                ..undeferred(DEFERRING, size)
            },
            Phase::Waiting {
                exponent,
                retries,
                time,
                size,
            } => Parts {
                exponent,
                retries,
                time: time.0,
                ..undeferred(WAITING, size)
            },
        }
    }
}

impl From<Parts> for Phase {
    ghost from_gives = { λ p phase. phase ≡ phase_of p };

    fn from(p: Parts) -> Phase {
        let Parts {
            state,
            size,
            exponent,
            left,
            retries,
            time,
        } = p;
        match state {
            IDLE => Phase::Idle,
            WANTING => Phase::Wanting { size },
            DEFERRING => Phase::Deferring {
                exponent,
                left,
                retries,
                size,
            },
            _ => Phase::Waiting {
                exponent,
                retries,
                time: MiniSlot(time),
                size,
            },
        }
    }
}

fn parts_in(rec: &[u32; 12]) -> Parts
    ensures { result ≡ parts_in rec.now }
{
    Parts {
        state: rec[6],
        size: rec[7],
        exponent: rec[8],
        left: rec[9],
        retries: rec[10],
        time: rec[11],
    }
}

// Whether the numbers are no record's at all.
fn out_of_range(rec: &[u32; 12]) -> bool
    ensures { result ≡ out_of_range rec.now }
{
    (255 < rec[1]) | (255 < rec[2]) | (1 < rec[4]) | (WAITING < rec[6])
}

// The station, where the numbers are a record's.
pub(crate) fn station_in(rec: &[u32; 12]) -> Result<Station, Reason>
    ensures { result ≡ station_in rec.now }
{
    if out_of_range(rec) {
        return Err(Reason::Size);
    }
    Ok(Station {
        sid: rec[0],
        channel: rec[1] as u8,
        count: rec[2] as u8,
        r: rec[3],
        end: remembered(rec[4], rec[5]),
        phase: Phase::from(parts_in(rec)),
    })
}

pub(crate) fn numbers(st: Station) -> [u32; 12]
    ensures { result ≡ numbers_of st }
{
    let p = Parts::from(st.phase);
    [
        st.sid,
        u32::from(st.channel),
        u32::from(st.count),
        st.r,
        flag(st.end),
        time_in(st.end),
        p.state,
        p.size,
        p.exponent,
        p.left,
        p.retries,
        p.time,
    ]
}
