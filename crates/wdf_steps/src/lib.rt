//! What an event of the machine is and does: the event that a processor's top frame takes next, what may come, and the state
//! after an event.
//!
//! # Choices
//!
//! - **Why are `own_event` and `step` functions and not methods of the state?** They need the plan as much as the
//!   state, and the crates that answer for a rule know nothing of the others.
#![tactic(auto)]

mod allowed;
mod frames;
mod own;
mod taking;
mod view;

pub use allowed::{is_cpu, may, may_park, may_unpark};
pub use own::{own_event, wait_is_over, waits_on};
pub use taking::step;
