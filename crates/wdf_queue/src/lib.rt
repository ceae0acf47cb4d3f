//! The queues: who waits in which, and how many requests the driver holds from each.
#![tactic(auto)]

mod dispatch;
mod queues;

pub use queues::Queues;
