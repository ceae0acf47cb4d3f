//! The checker of the law on idle runs: the first event of a list that breaks it. Only tests call it.
//!
//! It goes through the events in turn, and keeps of each device with an `IDLE_TIMEOUT` what those before have said.
//!
//! # Choices
//!
//! - **Does it use what the policy of `wdf_idle` keeps?** No. The policy keeps a set of as many requests as a run can
//!   have, since it hears of runs alone. Here any list of events is tested, and what is kept is what the words of the
//!   law say of it. Only which registers a device has, and what takes a device away, are asked of `wdf_idle`.
//! - **Of which devices does it keep something?** Of those that a register `IDLE_TIMEOUT` names, declared or not: so
//!   its answer is exact for any plan.
#![tactic(auto)]

mod checker;
mod rest;
mod watch;
mod watches;

pub use checker::check;
