// Hearing a MAP.
ghost use Rattle.std.specs.Prelude.{◌≡◌, not};
ghost use Rattle.slots.specs.Time.{earlier};
ghost use Rattle.message.specs.Reading.{map_of};
ghost use Rattle.hearing.specs.Hearing.{stale, hear_fault, heard_in, hear_of};
ghost use Rattle.hearing.specs.Scan.{hearable_in, taken_in};

use crate::answer::{Answer, Hearing};
use crate::map::Map;
use crate::steps::{after_deferring, after_grant, sent_by};
use backoff::ready_phase;
use message::{Reading, read};
use rules::{Fields, Reason, Refusal};
use slots::MiniSlot;
use station::{Phase, Station, record_fault};

// The answer to a MAP and the station after it; or the refusal, with the station as it came. MAP, present and
// draw are the call of the paper, here and where a record or a table is lent: a struct of them would be made
// for one call.
pub fn hear(station: Station, bytes: &[u8], present: MiniSlot, draw: u16) -> Hearing
    ensures { result ≡ hear_of station bytes.now present.0 draw }
{
    match hearable(station, bytes, present) {
        Ok(reading) => heard(station, Map { bytes, reading }, draw),
        Err(why) => Hearing {
            station,
            answer: Err(why),
        },
    }
}

// What was read, where it is for this station, now.
fn hearable(st: Station, bytes: &[u8], present: MiniSlot) -> Result<Reading, Refusal>
    ensures { result ≡ hearable_in st bytes.now present.0 }
{
    record_fault(st)?;
    let reading = read(bytes)?;
    hear_fault(st, reading.fields, present)?;
    Ok(reading)
}

fn stale(end: Option<MiniSlot>, start: MiniSlot) -> bool
    ensures { result ≡ stale 32 end start.0 }
{
    match end {
        None => false,
        Some(time) => !(time.ahead(start) < 2147483648),
    }
}

fn late(present: MiniSlot, start: MiniSlot) -> bool
    ensures { result ≡ not (earlier 32 present.0 start.0) }
{
    !present.earlier(start)
}

// Why a MAP that was read is not for this station, now.
fn hear_fault(st: Station, fields: Fields, present: MiniSlot) -> Result<(), Reason>
    ensures { result ≡ hear_fault st fields present.0 }
{
    if fields.channel != st.channel {
        return Err(Reason::Channel);
    }
    if fields.count != st.count {
        return Err(Reason::Description);
    }
    if stale(st.end, fields.start) {
        return Err(Reason::Stale);
    }
    if late(present, fields.start) {
        return Err(Reason::Late);
    }
    Ok(())
}

fn heard(st: Station, map: Map, draw: u16) -> Hearing
    ensures { result ≡ heard_in st (map_of map.entry.bytes.now) draw }
{
    let taken = take(st, map, draw);
    let Reading { fields, length, .. } = map.reading;
    Hearing {
        station: Station {
            end: Some(fields.start.moved_on(length)),
            phase: taken.phase,
            ..st
        },
        answer: Ok(taken.answer),
    }
}

// What the four steps come to.
#[derive(Clone, Copy, PartialEq, Eq)]
pub(crate) struct Taken {
    pub phase: Phase,
    pub answer: Answer,
}

fn take(st: Station, map: Map, draw: u16) -> Taken
    ensures { result ≡ taken_in st (map_of map.entry.bytes.now) draw }
{
    let found = map.find(st.sid, st.r);
    let waits = map.waiting_with_pending(st.sid, st.phase);
    if found.bursts != 0 {
        return Taken {
            phase: after_grant(waits, st.phase),
            answer: Answer {
                bursts: found.bursts,
                request: None,
            },
        };
    }
    let ready = ready_phase(waits, map.reading.fields, draw, st.phase);
    let after = after_deferring(st, map, found.own, ready);
    Taken {
        phase: after,
        answer: Answer {
            bursts: 0,
            request: sent_by(ready, after),
        },
    }
}
