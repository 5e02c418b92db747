// The call on a part of the station places, which hear one MAP together.
use crate::bad::Bad;
use crate::print::{Code, Numbers, Part};
use lent::hear_forty;
use slots::MiniSlot;
use station::Station;
use stream::Text;

// The draws given, into the front of the room. Not by `triples`: a draw is one number, which may be out
// of range. One function for both needs a width in its trait and a clause that it isn't 0: no plainer.
fn draws_in<'a>(given: &[u32], room: &'a mut [u16; 40]) -> Result<&'a [u16], Bad> {
    let draws = room.get_mut(..given.len()).ok_or(Bad)?;
    for (draw, n) in draws.iter_mut().zip(given) {
        *draw = u16::try_from(*n)?;
    }
    Ok(draws)
}

pub fn hear(
    stations: &mut [Station; 40],
    numbers: &[u32],
    bytes: &[u8],
    out: &mut Text,
) -> Result<(), Bad> {
    let [first, count, present, places, given @ ..] = numbers else {
        return Err(Bad);
    };
    let first = *first as usize;
    let count = *count as usize;
    if 40 < first || 40 - first < count {
        return Err(Bad);
    }
    let mut draws = [0u16; 40];
    let draws = draws_in(given, &mut draws)?;
    let mut answers = [9999u32; 40];
    let answers = answers.get_mut(..*places as usize).ok_or(Bad)?;
    let present = MiniSlot(*present);
    let heard = hear_forty(*stations, first, count, bytes, present, draws, answers);
    let after = heard.stations;
    *stations = after;
    out.put(b"table");
    Code(heard.answer).put(out);
    Numbers(answers).put(out);
    Ok(())
}
