// The MAP message body of ITU-T J.112 Annex C, written.
#![tactic(auto)]

pub mod writing;

pub use writing::{lay_out, write};
