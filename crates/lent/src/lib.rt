// All that is lent of stations: one record, a table of them that hears one MAP, and a part of forty records by value.
#![tactic(auto)]

pub mod forty;
pub mod in_place;
pub mod table;

pub use forty::{Forty, hear_forty};
pub use in_place::{hear_in_place, offer_in_place};
pub use table::hear_table;
