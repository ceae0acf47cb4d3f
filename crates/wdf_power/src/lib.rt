//! Power: which devices have their queues up and their hardware, and how far the requests that the
//! driver holds from power-managed queues have come.
//!
//! # Choices
//!
//! - **Why does it only say whether EvtIoStop has started (`stop_was_asked`)?** Whether one is due depends on other
//!   parts too, so `wdf_starts` says it.
//! - **Where is it kept whether a device has its queues up?** In the part for power alone. A queue's mode doesn't
//!   know it, so the two can't disagree.
#![tactic(auto)]

mod holdings;
mod opening;
mod power;

pub use power::Power;
