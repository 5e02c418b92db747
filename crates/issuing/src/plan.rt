// The plan of a MAP: which requests are granted, and its elements.
ghost use Rattle.std.specs.Prelude.{◌≡◌, cond, ◌++◌, ◌+◌, ◌≤◌, leb, length, take, drop};
ghost use Rattle.issuing.specs.Plan.{granted, pending, total, grants, pendings, elements_of};
ghost use Rattle.issuing.specs.Issue.{plan_fields};

use headend::{Headend, Request};
use rules::{Element, Fields};
use slots::MiniSlot;

// What a plan grants and leaves pending, in held order, and the granted mini-slots together.
#[derive(Clone, Copy)]
pub(crate) struct Plan<'a> {
    pub granted: &'a [Request],
    pub pending: &'a [Request],
    pub total: u32,
}

// How many requests are granted, and their mini-slots together.
#[derive(Clone, Copy)]
struct Grants {
    count: usize,
    total: u32,
}

// Full sizes in held order, stopping at the first that would pass the room.
fn grants_within(held: &[Request], room: u32) -> Grants
    ensures { (result.count ≡ length (granted room held.now)) × (result.total ≡ total (granted room held.now)) }
{
    let mut left = room;
    for (count, q) in held.iter().enumerate() {
        if left < q.size {
            return Grants {
                count,
                total: room - left,
            };
        }
        left -= q.size;
    }
    Grants {
        count: held.len(),
        total: room - left,
    }
}

pub(crate) fn plan_within(held: &[Request], room: u32) -> Plan<'_>
    ensures granted { result.granted.now ≡ granted room held.now }
    ensures pending { result.pending.now ≡ pending room held.now }
    ensures total { result.total ≡ total (granted room held.now) }
{
    let grants = grants_within(held, room);
    let (granted, pending) = held.split_at(grants.count);
    Plan {
        granted,
        pending,
        total: grants.total,
    }
}

fn use_of(size: u32, short: u32) -> u32
    ensures { result ≡ cond (leb size short) 5 6 }
{
    if size <= short {
        return 5;
    }
    6
}

// The grants, one after the other from an offset on, and where they end.
fn put_grants(granted: &[Request], short: u32, from: u32, out: &mut [Element]) -> u32
    requires { (length granted.now ≤ length out.old) × (from + total granted.now ≤ 4096) }
    ensures { (result ≡ from + total granted.now) × (out.new ≡ grants short from granted.now ++ drop (length granted.now) out.old) }
{
    let mut offset = from;
    for (k, q) in granted.iter().enumerate() {
        out[k] = Element {
            sid: q.sid,
            iuc: use_of(q.size, short),
            offset,
        };
        offset += q.size;
    }
    offset
}

// The pendings, all at the map length.
// Tried: `out.iter_mut().zip(pending)`, here and in `put_grants`: the search left it open, and no invariant was found.
fn put_pendings(pending: &[Request], offset: u32, out: &mut [Element])
    requires { length pending.now ≤ length out.old }
    ensures { out.new ≡ pendings offset pending.now ++ drop (length pending.now) out.old }
{
    for (k, q) in pending.iter().enumerate() {
        out[k] = Element {
            sid: q.sid,
            iuc: 5,
            offset,
        };
    }
}

pub(crate) fn fields_of(h: Headend, ack: MiniSlot) -> Fields
    ensures { result ≡ plan_fields h ack.0 }
{
    let start = h.next;
    Fields {
        channel: h.channel,
        count: h.count,
        start,
        ack,
        ranging: h.ranging,
        data: h.data,
    }
}

// The elements, in the first places: broadcast Request of c, the grants, the Null, the pendings.
pub(crate) fn elements_of(plan: Plan, short: u32, c: u32) -> [Element; 66]
    requires { (length plan.granted.now + length plan.pending.now ≤ 64) × (c + total plan.granted.now ≤ 4096) }
    ensures { take (length plan.entry.granted.now + length plan.entry.pending.now + 2) result ≡ elements_of short c plan.entry.granted.now plan.entry.pending.now }
{
    let g = plan.granted.len();
    // The first element, in each place until another is stored there.
    let mut elements = [Element {
        sid: 0x3FFF,
        iuc: 1,
        offset: 0,
    }; 66];
    let length = put_grants(plan.granted, short, c, &mut elements[1..]);
    elements[g + 1] = Element {
        sid: 0,
        iuc: 7,
        offset: length,
    };
    put_pendings(plan.pending, length, &mut elements[g + 2..]);
    elements
}
