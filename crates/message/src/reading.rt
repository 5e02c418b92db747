// A message read: its fields, how many elements, where the Null stands and the map length.
ghost use Rattle.std.specs.Prelude.{◌≡◌, true, false, ◌+◌, ◌-◌, ◌*◌, ◌≤◌, length};
ghost use Rattle.rules.specs.Rules.{walked, nothing_yet};
ghost use Rattle.message.specs.Lists.{listed};
ghost use Rattle.message.specs.Element.{element_in};
ghost use Rattle.message.specs.Reading.{header_fault, read_of};
ghost use Rattle.message.specs.Scan.{checked_by};

use crate::element::element_in;
use crate::fields::{bad_backoffs_in, fields_of};
use rules::{
    Fields, Progress, Reason, Refusal, Whole, advance, ended, fault, nothing_yet, standing_fault,
};

#[derive(Clone, Copy, PartialEq, Eq)]
pub struct Reading {
    pub fields: Fields,
    pub n: u32,
    pub null: u32,
    pub length: u32,
}

impl Reading {
    pub const MOST_ELEMENTS: u32 = 240;
}

// The message's own refusals before any element.
fn header_fault(bytes: &[u8]) -> Result<(), Reason>
    ensures { result ≡ header_fault bytes.now }
{
    if bytes.len() < 16 {
        return Err(Reason::Short);
    }
    let n = u32::from(bytes[2]);
    if n == 0 {
        return Err(Reason::Count);
    }
    if Reading::MOST_ELEMENTS < n {
        return Err(Reason::Count);
    }
    if bytes.len() != 16 + 4 * (n as usize) {
        return Err(Reason::Length);
    }
    if bad_backoffs_in(bytes) {
        return Err(Reason::Backoff);
    }
    Ok(())
}

// The elements in order, up to the first that is at fault: a loop that yields it by break, as document
// 01 has it ("Forms by place"). At the Null the rest has a loop of its own, with fewer rules to look at.
fn walk(bytes: &[u8], n: u32) -> Result<Whole, Refusal>
    requires { 16 + 4 * n ≤ length bytes.now }
    ensures { result ≡ walked 0 nothing_yet (listed (element_in bytes.now) 0 n) }
{
    let mut p = nothing_yet();
    let mut i: u32 = 0;
    loop {
        if n <= i {
            break ended(p, n);
        }
        let e = element_in(bytes, i as usize);
        if let Err(reason) = fault(p, e) {
            break Err(Refusal { reason, element: i });
        }
        p = advance(p, e, i);
        i += 1;
        if p.closed {
            break walk_rest(bytes, n, p, i);
        }
    }
}

fn walk_rest(bytes: &[u8], n: u32, p: Progress, from: u32) -> Result<Whole, Refusal>
    requires { (p.closed ≡ true) × ((p.granting ≡ false) × ((from ≤ n) × (16 + 4 * n ≤ length bytes.now))) }
    ensures { result ≡ walked from p (listed (element_in bytes.now) from (n - from)) }
{
    for i in from..n {
        let e = element_in(bytes, i as usize);
        if let Err(reason) = standing_fault(p, e) {
            return Err(Refusal { reason, element: i });
        }
    }
    ended(p, n)
}

// What the checks of a message come to, and the bytes alone don't tell. `read` and `grant` both stand
// on it: the checks are compiled once, and what is left of `read` is short enough to be inlined.
#[derive(Clone, Copy, PartialEq, Eq)]
pub(crate) struct Checked {
    pub n: u32,
    pub whole: Whole,
}

pub(crate) fn check(bytes: &[u8]) -> Result<Checked, Refusal>
    ensures { result ≡ checked_by (read_of bytes.now) }
{
    header_fault(bytes)?;
    let n = u32::from(bytes[2]);
    let whole = walk(bytes, n)?;
    Ok(Checked { n, whole })
}

pub fn read(bytes: &[u8]) -> Result<Reading, Refusal>
    ensures { result ≡ read_of bytes.now }
{
    let checked = check(bytes)?;
    Ok(Reading {
        fields: fields_of(bytes),
        n: checked.n,
        null: checked.whole.null,
        length: checked.whole.length,
    })
}
