//! A plan with tables over it, and what it says of its queues, interrupts, classes, callbacks and agents, by
//! id and by number: what the rules of the machine ask.
//!
//! # Choices
//!
//! - **Who builds tables over a plan?** `IndexedPlan` of `wdf_plan_index`, once, before a run. It has the ids of the
//!   devices and of the targets, what belongs to each device, the scripts by the names of their owners, which
//!   handler each queue has for each type of requests, which queue each device has for it, and whether something declares a
//!   cleanup or a destroy callback. Its model is the plan itself, so no contract speaks of tables,
//!   and more of them change no contract.
//! - **Who asks `wdf_declared` instead?** Who has a plan and no tables: the parts and the agents, as they are made.
#![tactic(auto)]

mod agents;
mod belongings;
mod callbacks;
mod classes;
mod handlers;
mod indexed;
mod keys;
mod owners;
mod places;
mod queues;
mod serving;
mod tables;

pub use belongings::Belongings;
pub use indexed::IndexedPlan;
pub use owners::{Owner, ids_of};
