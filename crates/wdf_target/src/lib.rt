//! The I/O targets: which are stopped, and what is sent to each.
//!
//! # Choices
//!
//! - **How does a target keep what is sent to it?** As a list of the requests by rising id, and not in the order in
//!   which they came: completion routines start by the least id, which is then the first of the list. Its length is
//!   bounded by the target's depth. The order in which requests were sent is kept by the target's agent, which is done
//!   with the earliest first.
#![tactic(auto)]

mod target;
mod targets;

pub use targets::Targets;
