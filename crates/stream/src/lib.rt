// Standard input and output for programs that never hide a failure: one that failed has written one
// line on standard error, and one that did not has written nothing there.
#![tactic(auto)]

pub mod reading;
mod reason;
pub mod telling;
pub mod text;

pub use reading::{some, whole};
pub use telling::{Failed, complain, tell, tell_line};
pub use text::Text;
