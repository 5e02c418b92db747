// The upstream channel's two counters, and the span of a set of MAPs.
#![tactic(auto)]

pub mod span;
pub mod time;

pub use span::Span;
pub use time::{MiniSlot, Timestamp};
