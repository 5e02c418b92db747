// The exported functions. C has no Result: each gives 0, or a refusal's number and leaves what it was lent as it came.
ghost use Rattle.std.specs.Prelude.{◌≡◌};
ghost use Rattle.message.specs.Reading.{read_of};
ghost use Rattle.message.specs.Grants.{grant_of};
ghost use Rattle.station.specs.Offering.{set_up_of};
ghost use Rattle.firmware.specs.Calls.{field_numbers, code_in, read_into, grant_into, set_up_into, offer_code, offer_into, hear_code, hear_into, hear_answer};
ghost use Rattle.firmware.specs.Scan.{put_in, grant_numbers, station_in, offered_to, heard_at};

use crate::layout::{flag, numbers, station_in, time_in};
use crate::refusals::code_of;
use hearing::{Answer, hear};
use message::{Granted, Reading};
use rules::{Fields, Refusal};
use slots::MiniSlot;
use station::Station;

// Numbers for C, and a function, as `From` would be for types of others.
fn field_numbers(reading: Reading) -> [u32; 11]
    ensures { result ≡ field_numbers reading }
{
    let Fields {
        channel,
        count,
        start,
        ack,
        ranging,
        data,
    } = reading.fields;
    [
        u32::from(channel),
        u32::from(count),
        reading.n,
        start.0,
        ack.0,
        u32::from(ranging.start),
        u32::from(ranging.end),
        u32::from(data.start),
        u32::from(data.end),
        reading.null,
        reading.length,
    ]
}

// C has no Option: whether there is a grant, and its first mini-slot and length, or 0.
fn grant_numbers(granted: Option<Granted>) -> [u32; 3]
    ensures { result ≡ grant_numbers granted }
{
    match granted {
        Some(granted) => [1, granted.first.0, granted.length],
        None => [0, 0, 0],
    }
}

// 0, with the answer's numbers in their place; or the refusal, with the place as it came.
fn put<const N: usize>(answer: Result<[u32; N], Refusal>, place: &mut [u32; N]) -> u32
    ensures { (result ≡ code_in answer.entry) × (place.new ≡ put_in answer.entry place.old) }
{
    match answer {
        Ok(numbers) => {
            *place = numbers;
            0
        }
        Err(why) => code_of(why),
    }
}

#[unsafe(no_mangle)]
pub extern "C" fn wickbadger_read(bytes: &[u8], fields: &mut [u32; 11]) -> u32
    ensures { (result ≡ code_in (read_of bytes.now)) × (fields.new ≡ read_into (read_of bytes.now) fields.old) }
{
    put(message::read(bytes).map(field_numbers), fields)
}

#[unsafe(no_mangle)]
pub extern "C" fn wickbadger_grant(bytes: &[u8], sid: u32, k: u32, grant: &mut [u32; 3]) -> u32
    ensures { (result ≡ code_in (grant_of bytes.now sid k)) × (grant.new ≡ grant_into (grant_of bytes.now sid k) grant.old) }
{
    put(message::grant(bytes, sid, k).map(grant_numbers), grant)
}

#[unsafe(no_mangle)]
pub extern "C" fn wickbadger_set_up(
    sid: u32,
    channel: u8,
    count: u8,
    r: u32,
    rec: &mut [u32; 12],
) -> u32
    ensures { (result ≡ code_in (set_up_of sid channel count r)) × (rec.new ≡ set_up_into (set_up_of sid channel count r) rec.old) }
{
    put(Station::new(sid, channel, count, r).map(numbers), rec)
}

// The station after an offer that it takes.
fn offered_to(rec: &[u32; 12], size: u32) -> Result<Station, Refusal>
    ensures { result ≡ offered_to (station_in rec.now) size }
{
    let o = station_in(rec)?.offer(size);
    o.answer?;
    Ok(o.station)
}

#[unsafe(no_mangle)]
pub extern "C" fn wickbadger_offer(rec: &mut [u32; 12], size: u32) -> u32
    ensures { (result ≡ offer_code rec.old size) × (rec.new ≡ offer_into rec.old size) }
{
    put(offered_to(rec, size).map(numbers), rec)
}

// The station after a MAP that it hears, and its answer.
fn heard_at(
    rec: &[u32; 12],
    bytes: &[u8],
    present: u32,
    draw: u16,
) -> Result<(Station, Answer), Refusal>
    ensures { result ≡ heard_at (station_in rec.now) bytes.now present draw }
{
    let h = hear(station_in(rec)?, bytes, MiniSlot(present), draw);
    let answer = h.answer?;
    Ok((h.station, answer))
}

#[unsafe(no_mangle)]
pub extern "C" fn wickbadger_hear(
    rec: &mut [u32; 12],
    bytes: &[u8],
    present: u32,
    draw: u16,
    heard: &mut [u32; 3],
) -> u32
    ensures { (result ≡ hear_code rec.old bytes.now present draw) × ((rec.new ≡ hear_into rec.old bytes.now present draw) × (heard.new ≡ hear_answer rec.old bytes.now present draw heard.old)) }
{
    match heard_at(rec, bytes, present, draw) {
        Ok((st, answer)) => {
            *rec = numbers(st);
            *heard = [answer.bursts, flag(answer.request), time_in(answer.request)];
            0
        }
        Err(why) => code_of(why),
    }
}
