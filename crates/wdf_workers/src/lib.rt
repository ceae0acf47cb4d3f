//! The machine run by threads: a worker for each processor, one for the framework and the clock, one for the agents. The
//! core is in a turnstile, and one worker at a time takes it, applies one event at most and gives it back.
//!
//! # Choices
//!
//! - **Why is `run_threads` no call of `wdf_run`?** It is in `wdf_workers`, above `wdf_run` and `wdf_turn`. So a
//!   change of the workers doesn't try the edits of `wdf_run` again, and who runs by picks needs no threads.
//! - **What do the workers do?** `wdf_crew` says it: it is the same for a run that is watched. Here is what they share, and
//!   how a run begins and ends.
//! - **How often does a worker try?** It has four turns for each event of `limit`, and at most 2^32 - 1.
//! - **How does the caller finish?** By `run_order` with no picks, since a missing pick is 0. Where the workers came
//!   to the end it adds nothing.
//! - **What says that the journal is a run?** The core's own invariant: each core that comes out of a turnstile is
//!   one. The turnstile adds that it is a core of this plan, whose journal begins with the given one.
#![tactic(auto)]

mod crew;
mod run;
mod state;

pub use run::{finish, run_threads, shift_of};
pub use state::RunState;
