// What a capture of MAP bodies says: a line for each MAP, the first that is bad, and the span.
#![tactic(auto)]

pub mod bodies;
pub mod lines;
pub mod reporting;

pub use reporting::{LONGEST_INPUT, ROOM, enough, report};
