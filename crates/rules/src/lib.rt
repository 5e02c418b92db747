// What a MAP may say: its fields, its elements, the rules that they keep, and the refusals.
#![tactic(auto)]

pub mod element;
pub mod fields;
pub mod refusal;
pub mod rules;

pub use element::Element;
pub use fields::{Backoff, Fields};
pub use refusal::{Reason, Refusal};
pub use rules::{
    Progress, Whole, advance, ended, fault, granting, nothing_yet, sid_allowed, standing_fault,
    unicast, within,
};
