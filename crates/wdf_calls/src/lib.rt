//! The framework calls: what each answers and what it does, one row a call; and, for the calls that wait,
//! when the wait is over and what is done then.
//!
//! # Choices
//!
//! - **At which level do locks wait?** Wait locks and the locks of passive interrupts at level 0, others at the
//!   lock's level. So a frame that waits for one of the former may leave its processor, and another spins.
//! - **When does a call's condition count, before or after its first part?** After it. What is tested is said of the
//!   state at hand, before the call; a law says that the two agree after every run.
#![tactic(auto)]

mod answers;
mod arguments;
mod creation;
mod deferred;
mod locks;
mod queues;
mod requests;
mod table;
mod waits;

pub use answers::Outcome;
pub use arguments::{class_in, number_in, value_in};
pub use table::outcome;
pub use waits::{do_second, is_met, is_met_then};
