// A small headend: set-up, its record, and the requests that it holds.
#![tactic(auto)]

pub mod record;
mod request;
pub mod setup;

pub use record::{Headend, Request, Taking, with_places};
pub use setup::record_fault;
