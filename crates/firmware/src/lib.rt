// What the modem's firmware calls, in C: numbers and byte slices alone.
#![tactic(auto)]

pub mod calls;
pub mod layout;
pub mod refusals;
