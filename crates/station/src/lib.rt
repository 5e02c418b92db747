// A modem's station for one SID: its record, set-up, and the offer of a packet.
#![tactic(auto)]

pub mod offering;
pub mod record;

pub use record::{Offering, Phase, Station, record_fault};
