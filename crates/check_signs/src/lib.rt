//! What one event says to the laws of a trace: the request that it completes, the presentation that it is, the device that
//! it enters, and so on. Each function is the definition of its name in `wdf_laws`.
#![tactic(auto)]

mod events;

pub use events::{
    acknowledged, arrived, arrived_at, begun_for, begun_on, called, called_well, cancel_posted,
    cleaned, completed, destroyed, ended_on, given_up, headed, mark_undone, passed, passed_for,
    presented, tailed, taken, told,
};
