//! Queue control: the modes of the queues, their notification, and the devices that are closed.
#![tactic(auto)]

mod control;
mod modes;

pub use control::Control;
pub use modes::delivers_in;
