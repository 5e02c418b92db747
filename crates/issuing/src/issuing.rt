// A MAP issued.
ghost use Rattle.std.specs.Prelude.{◌≡◌, ◌+◌, ◌*◌, ◌≤◌, length};
ghost use Rattle.rules.specs.Refusals.{refusal};
ghost use Rattle.message.specs.Reading.{read_of};
ghost use Rattle.issuing.specs.Plan.{total};
ghost use Rattle.issuing.specs.Issue.{bad_ack, bad_plan, refuses, call_fault, places_of, moved_to, issue_of, issue_into};
ghost use Rattle.issuing.specs.Scan.{message_by, selfchecked, accepted_into};

use crate::plan::{Plan, elements_of, fields_of, plan_within};
use headend::{Headend, Request, record_fault, with_places};
use message::read;
use rules::{Reason, Refusal};
use slots::MiniSlot;
use writer::lay_out;

// By value, as the station's steps are: the headend after it, which a refusal leaves as it came, and how many
// bytes the MAP has, or why there is none.
#[derive(Clone, Copy)]
pub struct Issuing {
    pub headend: Headend,
    pub answer: Result<u32, Refusal>,
}

// New - old exceeds next start - old: plain forward distances, so that old and next start both pass.
fn bad_ack(h: Headend, new: MiniSlot) -> bool
    ensures { result ≡ bad_ack h new.0 }
{
    let old = h.ack;
    let next = h.next;
    old.ahead(next) < old.ahead(new)
}

fn bad_plan(c: u32, budget: u32) -> bool
    ensures { result ≡ bad_plan c budget }
{
    (c == 0) | (Headend::LONGEST_MAP < budget) | (budget < c)
}

// What is wrong before the MAP is made. Ack Time, c and budget are the call of the paper.
fn call_fault(h: Headend, ack: MiniSlot, c: u32, budget: u32, room: usize) -> Result<(), Reason>
    ensures { result ≡ call_fault h ack.0 c budget room }
{
    record_fault(h)?;
    if bad_ack(h, ack) {
        return Err(Reason::Ack);
    }
    if bad_plan(c, budget) {
        return Err(Reason::Plan);
    }
    if room < 24 + 4 * (h.held as usize) {
        return Err(Reason::Room);
    }
    Ok(())
}

fn refuses(bytes: &[u8]) -> bool
    ensures { result ≡ refuses (read_of bytes.now) }
{
    read(bytes).is_err()
}

// These requests, in the first places.
fn placed(requests: &[Request]) -> [Request; 64]
    requires { length requests.now ≤ 64 }
    ensures { result ≡ places_of requests.now }
{
    let mut places = [Request::SPARE; 64];
    places[..requests.len()].copy_from_slice(requests);
    places
}

// The record once a MAP of this length leaves these requests pending.
fn moved_to(h: Headend, ack: MiniSlot, map_length: u32, pending: &[Request]) -> Headend
    requires { length pending.now ≤ 64 }
    ensures { result ≡ moved_to h ack.0 map_length pending.now }
{
    let next = h.next.moved_on(map_length);
    with_places(h, next, ack, pending.len() as u32, placed(pending))
}

fn refused(h: Headend, reason: Reason) -> Issuing
    ensures { result ≡ record { headend = h; answer = Err (refusal reason 0) } }
{
    Issuing {
        headend: h,
        answer: Err(Refusal::from(reason)),
    }
}

// 24: the headend's own MAP may be one that the reader refuses. The lent bytes hold it only where it is not.
fn selfcheck(own: &[u8], out: &mut [u8]) -> Result<(), Reason>
    requires { length own.now ≤ length out.old }
    ensures { (result ≡ selfchecked own.now) × (out.new ≡ accepted_into own.now out.old) }
{
    if refuses(own) {
        return Err(Reason::Selfcheck);
    }
    out[..own.len()].copy_from_slice(own);
    Ok(())
}

// The MAP made in an array of the headend's own, and checked there before a lent byte is touched.
fn put_map(h: Headend, ack: MiniSlot, c: u32, plan: Plan, out: &mut [u8]) -> Result<(), Reason>
    requires { (length plan.granted.now + length plan.pending.now ≤ 64) × ((c + total plan.granted.now ≤ 4096) × (24 + 4 * (length plan.granted.now + length plan.pending.now) ≤ length out.old)) }
    ensures { (result ≡ selfchecked (message_by h ack.0 c plan.entry.granted.now plan.entry.pending.now)) × (out.new ≡ accepted_into (message_by h ack.0 c plan.entry.granted.now plan.entry.pending.now) out.old) }
{
    let elements = elements_of(plan, h.short, c);
    let n = plan.granted.len() + plan.pending.len() + 2;
    let mut own = [0; 280];
    lay_out(fields_of(h, ack), &elements[..n], &mut own);
    selfcheck(&own[..16 + 4 * n], out)
}

pub fn issue(headend: Headend, ack: MiniSlot, c: u32, budget: u32, out: &mut [u8]) -> Issuing
    ensures { (result ≡ issue_of headend ack.0 c budget (length out.old)) × (out.new ≡ issue_into headend ack.0 c budget out.old) }
{
    if let Err(reason) = call_fault(headend, ack, c, budget, out.len()) {
        return refused(headend, reason);
    }
    let plan = plan_within(headend.held_requests(), budget - c);
    if let Err(reason) = put_map(headend, ack, c, plan, out) {
        return refused(headend, reason);
    }
    Issuing {
        headend: moved_to(headend, ack, c + plan.total, plan.pending),
        answer: Ok(24 + 4 * headend.held),
    }
}
