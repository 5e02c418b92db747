// A line of the script: a word, then numbers, then at most one hex token, with single spaces
// between.
use crate::bad::Bad;
use crate::words::Word;

#[derive(Clone, Copy)]
pub struct Line<'a> {
    pub word: Word,
    pub numbers: &'a [u32],
    pub bytes: Option<&'a [u8]>,
}

// One to ten digits: std's `parse` would take a sign, too.
fn number(token: &[u8]) -> Result<u32, Bad> {
    if token.is_empty() || 10 < token.len() {
        return Err(Bad);
    }
    let mut number: u32 = 0;
    for digit in token {
        if !digit.is_ascii_digit() {
            return Err(Bad);
        }
        let tens = number.checked_mul(10).ok_or(Bad)?;
        number = tens.checked_add((*digit - b'0') as u32).ok_or(Bad)?;
    }
    Ok(number)
}

// In lower case: std's `to_digit` would take capitals, too.
fn hex_digit(letter: u8) -> Result<u8, Bad> {
    match letter {
        b'0'..=b'9' => Ok(letter - b'0'),
        b'a'..=b'f' => Ok(letter - b'a' + 10),
        _ => Err(Bad),
    }
}

// The bytes of a hex token, two digits each, put into the room.
fn bytes_of<'a>(hex: Option<&[u8]>, room: &'a mut [u8]) -> Result<Option<&'a [u8]>, Bad> {
    let Some(digits) = hex else {
        return Ok(None);
    };
    if digits.len() % 2 != 0 {
        return Err(Bad);
    }
    let bytes = room.get_mut(..digits.len() / 2).ok_or(Bad)?;
    for (byte, pair) in bytes.iter_mut().zip(digits.chunks_exact(2)) {
        *byte = hex_digit(pair[0])? << 4 | hex_digit(pair[1])?;
    }
    Ok(Some(bytes))
}

impl<'a> Line<'a> {
    pub const MOST_NUMBERS: usize = 740;

    pub const MOST_BYTES: usize = 1000;

    // The numbers and the bytes are put into the lent rooms.
    pub fn parse(
        line: &[u8],
        numbers: &'a mut [u32],
        bytes: &'a mut [u8],
    ) -> Result<Line<'a>, Bad> {
        let mut tokens = line.split(|b| *b == b' ');
        let word = Word::try_from(tokens.next().ok_or(Bad)?)?;
        let mut count = 0;
        let mut hex = None;
        for token in tokens {
            // Nothing stands behind the hex token.
            if hex.is_some() {
                return Err(Bad);
            }
            match token {
                [b'x', digits @ ..] => hex = Some(digits),
                _ => {
                    *numbers.get_mut(count).ok_or(Bad)? = number(token)?;
                    count += 1;
                }
            }
        }
        Ok(Line {
            word,
            numbers: numbers.get(..count).ok_or(Bad)?,
            bytes: bytes_of(hex, bytes)?,
        })
    }

    // The bytes of a call whose line a hex token ends.
    pub fn hex(self) -> Result<&'a [u8], Bad> {
        self.bytes.ok_or(Bad)
    }

    // The numbers of a call whose line none ends.
    pub fn alone(self) -> Result<&'a [u32], Bad> {
        match self.bytes {
            Some(_) => Err(Bad),
            None => Ok(self.numbers),
        }
    }
}
