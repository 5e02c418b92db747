// A station that waits for an answer, or begins to defer: how far it backs off.
#![tactic(auto)]

pub mod backoff;
pub mod steps;

pub use steps::ready_phase;
