// The k-th grant to a SID before the Null.
ghost use Rattle.std.specs.Prelude.{◌≡◌, ◌+◌, ◌-◌, ◌*◌, ◌≤◌, length};
ghost use Rattle.message.specs.Element.{element_at};
ghost use Rattle.message.specs.Lists.{listed};
ghost use Rattle.message.specs.Grants.{kth_grant, granted_at, grant_of};
ghost use Rattle.message.specs.Scan.{hits, passed_by};

use crate::element::element_at;
use crate::fields::fields_of;
use crate::reading::check;
use rules::{Element, Refusal};
use slots::MiniSlot;

// By first mini-slot and length.
#[derive(Clone, Copy, PartialEq, Eq)]
pub struct Granted {
    pub first: MiniSlot,
    pub length: u32,
}

// A grant within a MAP.
#[derive(Clone, Copy, PartialEq, Eq)]
pub struct Found {
    pub offset: u32,
    pub length: u32,
}

fn hits(e: Element, sid: u32, left: u32) -> bool
    ensures { result ≡ hits e sid left }
{
    e.grants_sid(sid) & (left == 0)
}

// How many grants are left to pass once an element that isn't the one has been.
fn passed(e: Element, sid: u32, left: u32) -> u32
    ensures { result ≡ passed_by e sid left }
{
    if e.grants_sid(sid) {
        return left.saturating_sub(1);
    }
    left
}

fn find_grant(bytes: &[u8], n: u32, sid: u32, k: u32) -> Option<Found>
    requires { length bytes.now ≤ 16 + 4 * n }
    ensures { result ≡ kth_grant (listed (element_at bytes.now) 0 n) sid k }
{
    let mut left = k;
    let mut e = element_at(bytes, 0);
    for i in 0..n {
        if e.iuc == 7 {
            return None;
        }
        let next = element_at(bytes, (i as usize) + 1);
        if hits(e, sid, left) {
            return Some(Found {
                offset: e.offset,
                length: next.offset.saturating_sub(e.offset),
            });
        }
        left = passed(e, sid, left);
        e = next;
    }
    None
}

fn granted_at(start: MiniSlot, found: Option<Found>) -> Option<Granted>
    ensures { result ≡ granted_at start.0 found }
{
    let found = found?;
    Some(Granted {
        first: start.moved_on(found.offset),
        length: found.length,
    })
}

// None, where there is no such grant; or why the message is refused.
pub fn grant(bytes: &[u8], sid: u32, k: u32) -> Result<Option<Granted>, Refusal>
    ensures { result ≡ grant_of bytes.now sid k }
{
    let checked = check(bytes)?;
    let start = fields_of(bytes).start;
    Ok(granted_at(start, find_grant(bytes, checked.n, sid, k)))
}
