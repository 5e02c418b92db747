// The headend's MAPs: which requests are granted, and the MAP issued.
#![tactic(auto)]

pub mod issuing;
mod plan;

pub use issuing::{Issuing, issue};
