// The calls on one station: each puts its answer into the text, and the station after it into its
// place.
use crate::bad::Bad;
use crate::numbers::at;
use crate::print::{Numbers, OfStation, Part, Refused};
use hearing::Answer;
use slots::MiniSlot;
use station::{Phase, Station};
use stream::Text;

// A station that no set-up has touched.
pub fn untouched() -> Station {
    Station {
        sid: 0,
        channel: 0,
        count: 0,
        r: 0,
        end: None,
        phase: Phase::Idle,
    }
}

fn shown(station: Station, out: &mut Text) {
    out.put(b"station");
    OfStation(station).put(out);
}

pub fn show(stations: &mut [Station], numbers: &[u32], out: &mut Text) -> Result<(), Bad> {
    let (station, numbers) = at(stations, numbers)?;
    let [] = <[u32; 0]>::try_from(numbers)?;
    shown(*station, out);
    Ok(())
}

pub fn set_up(stations: &mut [Station], numbers: &[u32], out: &mut Text) -> Result<(), Bad> {
    let (station, numbers) = at(stations, numbers)?;
    let [sid, channel, count, r] = <[u32; 4]>::try_from(numbers)?;
    match Station::new(sid, u8::try_from(channel)?, u8::try_from(count)?, r) {
        Ok(ready) => {
            *station = ready;
            shown(ready, out);
        }
        Err(why) => Refused(why).put(out),
    }
    Ok(())
}

// docs/REPLAY.md's numbers, here and in `phase`; firmware has its own for C, on which nothing else can
// stand, and its states are range-checked before: here a bad one is `Bad`.
fn remembered(known: u32, end: u32) -> Result<Option<MiniSlot>, Bad> {
    match known {
        0 => Ok(None),
        1 => Ok(Some(MiniSlot(end))),
        _ => Err(Bad),
    }
}

// STATE SIZE EXPONENT LEFT RETRIES TIME
fn phase([state, size, exponent, left, retries, time]: [u32; 6]) -> Result<Phase, Bad> {
    let time = MiniSlot(time);
    match state {
        0 => Ok(Phase::Idle),
        1 => Ok(Phase::Wanting { size }),
        2 => Ok(Phase::Deferring {
            exponent,
            left,
            retries,
            size,
        }),
        3 => Ok(Phase::Waiting {
            exponent,
            retries,
            time,
            size,
        }),
        _ => Err(Bad),
    }
}

pub fn record(stations: &mut [Station], numbers: &[u32], out: &mut Text) -> Result<(), Bad> {
    let (station, numbers) = at(stations, numbers)?;
    let [sid, channel, count, r, known, end, parts @ ..] = numbers else {
        return Err(Bad);
    };
    *station = Station {
        sid: *sid,
        channel: u8::try_from(*channel)?,
        count: u8::try_from(*count)?,
        r: *r,
        end: remembered(*known, *end)?,
        phase: phase(<[u32; 6]>::try_from(parts)?)?,
    };
    shown(*station, out);
    Ok(())
}

pub fn offer(stations: &mut [Station], numbers: &[u32], out: &mut Text) -> Result<(), Bad> {
    let (station, numbers) = at(stations, numbers)?;
    let [size] = <[u32; 1]>::try_from(numbers)?;
    let offering = station.offer(size);
    *station = offering.station;
    match offering.answer {
        Ok(()) => out.put(b"offered"),
        Err(why) => Refused(why).put(out),
    }
    OfStation(*station).put(out);
    Ok(())
}

fn heard(answer: Answer, out: &mut Text) {
    out.put(b"heard");
    Numbers(&[answer.bursts]).put(out);
    match answer.request {
        None => out.put(b" none"),
        Some(first) => Numbers(&[first.0]).put(out),
    }
}

pub fn hear(
    stations: &mut [Station],
    numbers: &[u32],
    bytes: &[u8],
    out: &mut Text,
) -> Result<(), Bad> {
    let (station, numbers) = at(stations, numbers)?;
    let [present, draw] = <[u32; 2]>::try_from(numbers)?;
    let hearing = hearing::hear(*station, bytes, MiniSlot(present), u16::try_from(draw)?);
    *station = hearing.station;
    match hearing.answer {
        Ok(answer) => heard(answer, out),
        Err(why) => Refused(why).put(out),
    }
    OfStation(*station).put(out);
    Ok(())
}
