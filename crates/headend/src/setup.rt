// Set-up, and the check of a record handed in.
ghost use Rattle.std.specs.Prelude.{◌≡◌, not};
ghost use Rattle.std.specs.List.{list_any};
ghost use Rattle.rules.specs.Sids.{unicast};
ghost use Rattle.headend.specs.Records.{set_up_of, bad_size, record_fault};

use crate::record::{Headend, Request};
use rules::{Backoff, Reason, Refusal, unicast, within};
use slots::MiniSlot;

impl Headend {
    pub const MOST_HELD: u32 = 64;

    pub const LONGEST_MAP: u32 = 4096;

    pub const LONGEST_GRANT: u32 = 255;

    pub fn new(
        next: MiniSlot,
        channel: u8,
        count: u8,
        ranging: Backoff,
        data: Backoff,
        short: u32,
    ) -> Result<Headend, Refusal>
        ensures { result ≡ set_up_of next channel count ranging «data» short }
    {
        if ranging.bad() | data.bad() {
            return Err(Refusal::from(Reason::Backoff));
        }
        Ok(Headend {
            next,
            ack: next,
            channel,
            count,
            ranging,
            data,
            short,
            held: 0,
            requests: [Request::SPARE; 64],
        })
    }
}

impl Request {
    pub(crate) fn bad_sid(self) -> bool
        ensures { result ≡ not (unicast self.sid) }
    {
        !unicast(self.sid)
    }

    pub(crate) fn bad_size(self) -> bool
        ensures { result ≡ bad_size self.size }
    {
        !within(1, Headend::LONGEST_GRANT, self.size)
    }
}

// A function for each of the two: in one function the check would not tell their closures apart.
fn any_bad_sid(held: &[Request]) -> bool
    ensures { result ≡ list_any (λ q. not (unicast q.sid)) held.now }
{
    held.iter().any(|q| q.bad_sid())
}

fn any_bad_size(held: &[Request]) -> bool
    ensures { result ≡ list_any (λ q. bad_size q.size) held.now }
{
    held.iter().any(|q| q.bad_size())
}

// What is wrong with a record handed in.
pub fn record_fault(h: Headend) -> Result<(), Reason>
    ensures { result ≡ record_fault h }
{
    let held = h.held_requests();
    if h.ranging.bad() | h.data.bad() {
        return Err(Reason::Backoff);
    }
    if any_bad_sid(held) {
        return Err(Reason::Sid);
    }
    if Headend::MOST_HELD < h.held {
        return Err(Reason::Size);
    }
    if any_bad_size(held) {
        return Err(Reason::Size);
    }
    Ok(())
}
