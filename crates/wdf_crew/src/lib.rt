//! The workers of a run, whatever it is that they carry on. A value with a history is in a turnstile. One worker at a time
//! takes it, adds one event at most and gives it back.
//!
//! # Choices
//!
//! - **Why does no function here know the machine?** What the workers do is the same for a run that is watched and for one
//!   that isn't. So it is proved once, for any value that has a history.
//! - **Whose seat is the first?** A worker's, as each seat is: there is one seat for each worker. It is the last of
//!   the row, so that the others are taken off first and joined into it.
//! - **When does a worker stop early?** Where it has the value and nothing may follow; and where in 33 of its turns it had
//!   the value and nothing to add, while nobody added anything. So a run ends soon where no thread can be made: each worker
//!   then waits for others that don't run, leaves, and the caller does the rest.
//! - **What does a worker do after a turn that added nothing?** It looks up to a hundred times whether the history has
//!   grown, before its next turn. Without that it would use all its turns up while one event is done, and the caller
//!   would do the run; and it would search the machine anew though nothing has changed. It waits for nobody: the looks
//!   are counted. Between two looks it calls `rest` of the gate. That of the program sleeps, so that on a busy machine
//!   no idle worker takes the processor of one that has work. A worker that didn't get the value looks fewer times: it may
//!   be the only one that can go on, and all others would wait for it.
//! - **How does who waits for the workers learn that they have ended?** One seat takes the value once more and tells it. The
//!   turnstile isn't closed for that: a closure that holds a turnstile can't be proved, one that borrows it can.
//! - **Why are `Side` of `wdf_ready` and `Crew` of `wdf_crew` two enums with the same rows?** Neither crate stands on
//!   the other: the search for events knows of no threads, and the workers carry on any history. They meet in
//!   `wdf_workers`, where a match turns one into the other. Below both there is only `wdf_base`.
#![tactic(auto)]

mod advance;
mod beside;
mod crew;
mod seats;
mod shared;
mod worker;

pub use advance::{Advance, Progress};
pub use beside::worked_beside;
pub use crew::{Crew, crew_of};
pub use shared::{seated, share, worked};
pub use worker::Shift;
