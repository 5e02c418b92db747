// The rules of the elements, one test each, and the first that an element breaks.
ghost use Rattle.std.specs.Prelude.{◌≡◌};
ghost use Rattle.rules.specs.Sids.{within, unicast, sid_allowed};
ghost use Rattle.rules.specs.Rules.{granting, unknown_use, misordered, wrong_sid, misplaced, too_far, grant_too_long, standing_fault, fault_of, nothing_yet, advanced, ended_at};

use crate::element::Element;
use crate::refusal::{Reason, Refusal};

// What the elements passed so far tell of the next one. Once the Null has closed the intervals,
// `offset` stays the map length. Flags, and not an enum of the two states: `fault`, `advance` and
// `ended` answer on every mix of them.
#[derive(Clone, Copy, PartialEq, Eq)]
pub struct Progress {
    pub first: bool,
    pub closed: bool,
    pub null: u32,
    pub offset: u32,
    pub granting: bool,
}

// What the elements of a MAP come to: where the Null stands, and the map length.
#[derive(Clone, Copy, PartialEq, Eq)]
pub struct Whole {
    pub null: u32,
    pub length: u32,
}

pub fn within(low: u32, high: u32, x: u32) -> bool
    ensures { result ≡ within low high x }
{
    (low <= x) & (x <= high)
}

pub fn granting(iuc: u32) -> bool
    ensures { result ≡ granting iuc }
{
    (iuc == 5) | (iuc == 6)
}

// "Unicast means 0x0001..0x1FFF"
pub fn unicast(sid: u32) -> bool
    ensures { result ≡ unicast sid }
{
    within(0x0001, 0x1FFF, sid)
}

// Document 01's table of the SIDs allowed by use.
pub fn sid_allowed(iuc: u32, sid: u32) -> bool
    ensures { result ≡ sid_allowed iuc sid }
{
    if iuc == 1 {
        return within(0x0001, 0x3DFF, sid) | within(0x3E01, 0x3EFF, sid) | (sid == 0x3FFF);
    }
    if iuc == 2 {
        return within(0x2000, 0x3DFF, sid) | within(0x3FF1, 0x3FFE, sid);
    }
    if iuc == 3 {
        return within(0x2000, 0x3DFF, sid) | (sid == 0x3FFF);
    }
    if iuc == 7 {
        return sid == 0;
    }
    unicast(sid)
}

fn unknown_use(e: Element) -> bool
    ensures { result ≡ unknown_use e }
{
    !within(1, 8, e.iuc)
}

fn wrong_sid(e: Element) -> bool
    ensures { result ≡ wrong_sid e }
{
    !sid_allowed(e.iuc, e.sid)
}

fn misordered(p: Progress, e: Element) -> bool
    ensures { result ≡ misordered p e }
{
    if p.closed {
        return !(granting(e.iuc) | (e.iuc == 8));
    }
    (e.iuc == 8) | (p.first & (e.iuc == 7))
}

fn misplaced(p: Progress, e: Element) -> bool
    ensures { result ≡ misplaced p e }
{
    if p.closed {
        return e.offset != p.offset;
    }
    if p.first {
        return e.offset != 0;
    }
    e.offset <= p.offset
}

fn too_far(p: Progress, e: Element) -> bool
    ensures { result ≡ too_far p e }
{
    !p.closed & (Element::LONGEST_MAP < e.offset)
}

fn grant_too_long(p: Progress, e: Element) -> bool
    ensures { result ≡ grant_too_long p e }
{
    p.granting & ((p.offset as u64) + Element::LONGEST_GRANT < (e.offset as u64))
}

// The first of 5, 10, 6, 7 that an element breaks. After the Null no other can be broken. Inlined, so that
// each loop of a reader has a copy for its own `closed`: called, it doubles the time of a read.
#[inline(always)]
pub fn standing_fault(p: Progress, e: Element) -> Result<(), Reason>
    ensures { result ≡ standing_fault p e }
{
    if unknown_use(e) {
        return Err(Reason::Use);
    }
    if misordered(p, e) {
        return Err(Reason::Null);
    }
    if wrong_sid(e) {
        return Err(Reason::Sid);
    }
    if misplaced(p, e) {
        return Err(Reason::Place);
    }
    Ok(())
}

// The first rule that an element breaks.
pub fn fault(p: Progress, e: Element) -> Result<(), Reason>
    ensures { result ≡ fault_of p e }
{
    standing_fault(p, e)?;
    if too_far(p, e) {
        return Err(Reason::Span);
    }
    if grant_too_long(p, e) {
        return Err(Reason::Grant);
    }
    Ok(())
}

pub fn nothing_yet() -> Progress
    ensures { result ≡ nothing_yet }
{
    Progress {
        first: true,
        closed: false,
        null: 0,
        offset: 0,
        granting: false,
    }
}

pub fn advance(p: Progress, e: Element, i: u32) -> Progress
    ensures { result ≡ advanced p e i }
{
    if p.closed {
        return p;
    }
    if e.iuc == 7 {
        return Progress {
            first: false,
            closed: true,
            null: i,
            offset: e.offset,
            granting: false,
        };
    }
    Progress {
        first: false,
        closed: false,
        null: 0,
        offset: e.offset,
        granting: granting(e.iuc),
    }
}

pub fn ended(p: Progress, n: u32) -> Result<Whole, Refusal>
    ensures { result ≡ ended_at n p }
{
    if p.closed {
        return Ok(Whole {
            null: p.null,
            length: p.offset,
        });
    }
    Err(Refusal {
        reason: Reason::Null,
        element: n,
    })
}
