// Set-up of a station, and the offer of a packet.
ghost use Rattle.std.specs.Prelude.{◌≡◌, not};
ghost use Rattle.station.specs.Offering.{set_up_of, idle, offer_fault, offer_of};

use crate::record::{Offering, Phase, Station, bad_r, bad_size, record_fault};
use rules::{Reason, Refusal, unicast};

impl Station {
    pub fn new(sid: u32, channel: u8, count: u8, r: u32) -> Result<Station, Refusal>
        ensures { result ≡ set_up_of sid channel count r }
    {
        if !unicast(sid) {
            return Err(Refusal::from(Reason::Sid));
        }
        if bad_r(r) {
            return Err(Refusal::from(Reason::Size));
        }
        Ok(Station {
            sid,
            channel,
            count,
            r,
            end: None,
            phase: Phase::Idle,
        })
    }

    pub fn offer(self, size: u32) -> Offering
        ensures { result ≡ offer_of self size }
    {
        match offer_fault(self, size) {
            Ok(()) => Offering {
                station: Station {
                    phase: Phase::Wanting { size },
                    ..self
                },
                answer: Ok(()),
            },
            Err(reason) => Offering {
                station: self,
                answer: Err(Refusal::from(reason)),
            },
        }
    }
}

fn busy(phase: Phase) -> bool
    ensures { result ≡ not (idle phase) }
{
    !matches!(phase, Phase::Idle)
}

// Why an offer is refused.
fn offer_fault(st: Station, size: u32) -> Result<(), Reason>
    ensures { result ≡ offer_fault st size }
{
    record_fault(st)?;
    if busy(st.phase) {
        return Err(Reason::Busy);
    }
    if bad_size(size) {
        return Err(Reason::Size);
    }
    Ok(())
}
