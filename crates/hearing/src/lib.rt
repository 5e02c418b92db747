// A station that hears a MAP: when it may speak.
#![tactic(auto)]

pub mod answer;
pub mod hearing;
mod map;
pub mod opportunity;
pub mod steps;

pub use answer::{Answer, Hearing};
pub use hearing::hear;
