// A request taken.
ghost use Rattle.std.specs.Prelude.{◌≡◌, ◌<◌, eqb};
ghost use Rattle.std.specs.List.{list_any};
ghost use Rattle.headend.specs.Records.{request_fault, joined, request_of};

use crate::record::{Headend, Request, Taking, with_places};
use crate::setup::record_fault;
use rules::{Reason, Refusal};
use slots::MiniSlot;

fn any_of(sid: u32, held: &[Request]) -> bool
    ensures { result ≡ list_any (λ q. eqb q.sid sid) held.now }
{
    held.iter().any(|q| q.sid == sid)
}

fn request_fault(h: Headend, q: Request) -> Result<(), Reason>
    ensures { result ≡ request_fault h q }
{
    record_fault(h)?;
    if q.bad_sid() {
        return Err(Reason::Sid);
    }
    if q.bad_size() {
        return Err(Reason::Size);
    }
    if q.first.earlier(h.ack) {
        return Err(Reason::Passed);
    }
    if !q.first.earlier(h.next) {
        return Err(Reason::Unannounced);
    }
    if any_of(q.sid, h.held_requests()) {
        return Err(Reason::Held);
    }
    if Headend::MOST_HELD <= h.held {
        return Err(Reason::Full);
    }
    Ok(())
}

fn joined(h: Headend, q: Request) -> Headend
    requires { h.held < 64 }
    ensures { result ≡ joined h q }
{
    let mut requests = h.requests;
    requests[h.held as usize] = q;
    with_places(h, h.next, h.ack, h.held + 1, requests)
}

impl Headend {
    // Of a request's three numbers, as every caller has them.
    pub fn request(self, sid: u32, size: u32, first: MiniSlot) -> Taking
        ensures { result ≡ request_of self (record { sid = sid; size = size; first = first }) }
    {
        let q = Request { sid, size, first };
        match request_fault(self, q) {
            Ok(()) => Taking {
                headend: joined(self, q),
                answer: Ok(()),
            },
            Err(reason) => Taking {
                headend: self,
                answer: Err(Refusal::from(reason)),
            },
        }
    }
}
