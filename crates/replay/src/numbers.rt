// What a line's numbers say, beyond one number alone.
use crate::bad::Bad;
use headend::Request;
use rules::{Backoff, Element};
use slots::MiniSlot;

// The place that the first number names, and the other numbers.
pub fn at<'a, 'n, T>(
    places: &'a mut [T],
    numbers: &'n [u32],
) -> Result<(&'a mut T, &'n [u32]), Bad> {
    let (place, rest) = numbers.split_first().ok_or(Bad)?;
    let place = places.get_mut(*place as usize).ok_or(Bad)?;
    Ok((place, rest))
}

fn backoff(start: u32, end: u32) -> Result<Backoff, Bad> {
    Ok(Backoff {
        start: u8::try_from(start)?,
        end: u8::try_from(end)?,
    })
}

// What each MAP of a channel says: its number, the UCD count, and the ranging and the data backoff.
pub fn of_channel(
    [channel, count, rs, re, ds, de]: [u32; 6],
) -> Result<(u8, u8, Backoff, Backoff), Bad> {
    Ok((
        u8::try_from(channel)?,
        u8::try_from(count)?,
        backoff(rs, re)?,
        backoff(ds, de)?,
    ))
}

// What three numbers of a line say: a trait of this program's own, as `From` would be for types of others.
pub trait Triple: Copy {
    fn of(numbers: [u32; 3]) -> Self;
}

impl Triple for Element {
    fn of([sid, iuc, offset]: [u32; 3]) -> Element {
        Element { sid, iuc, offset }
    }
}

impl Triple for Request {
    fn of([sid, size, first]: [u32; 3]) -> Request {
        Request {
            sid,
            size,
            first: MiniSlot(first),
        }
    }
}

// The triples of some numbers, put into the front of the room; behind them it stays as it was.
pub fn triples<'a, T: Triple>(numbers: &[u32], room: &'a mut [T]) -> Result<&'a [T], Bad> {
    if numbers.len() % 3 != 0 {
        return Err(Bad);
    }
    let triples = room.get_mut(..numbers.len() / 3).ok_or(Bad)?;
    for (triple, three) in triples.iter_mut().zip(numbers.chunks_exact(3)) {
        *triple = T::of(<[u32; 3]>::try_from(three)?);
    }
    Ok(triples)
}
