//! Why something of a state waits: the least frame and the least request of which something is so, which
//! processors are left for a start, who holds a lock, and what keeps a stage.
#![tactic(auto)]

mod asked;
mod causes;
mod cpus;
mod keepers;
mod least;
mod queues;
mod stages;

pub use causes::{
    by_frame, by_frame_on, by_lock, by_request, least_holder, least_lock_holder, scope_is_held,
};
pub use cpus::{DISPATCH_LEVEL, PASSIVE_LEVEL, cpu_of_dpc, head_lock, no_cpu};
pub use keepers::{least_resume_holder, no_cpu_for_resume};
pub use least::{
    least_held_from, least_on, least_returning_to, least_running, least_sent_to, least_waiting_for,
};
pub use queues::{least_ahead, least_waiting};
pub use stages::stage_cause;
