// The MAP message body of ITU-T J.112 Annex C, from the channel ID byte on: how it is read.
#![tactic(auto)]

pub mod after;
pub mod element;
pub mod fields;
pub mod grants;
pub mod reading;

pub use after::after_null;
pub use element::element_at;
pub use grants::{Granted, grant};
pub use reading::{Reading, read};
