//! Starts and ends of callbacks, steps of Plug and Play and power sequences, cleanups and ends of
//! objects: when each may come, and what it does. (KMDF, but for what is marked own)
//!
//! # Choices
//!
//! - **How is a step after `queues_up` made to wait?** The step itself waits, until no resume is due and no
//!   EvtIoResume runs. So the lists of steps have no stage for it. It is the step that is next when `queues_up` is
//!   passed; those after it don't wait again.
//! - **What does it mean that a frame holds an object?** That the object is a lock, or an interrupt, and the frame
//!   has its lock.
#![tactic(auto)]

mod checks;
mod deeds;
mod drained;
mod lines;
mod objects;
mod ranks;
mod sequences;
mod settled;
mod starts;

pub use checks::handle_id;
pub use deeds::{end_callback, new_frame, start_callback};
pub use drained::is_drained;
pub use lines::shown;
pub use objects::{callback_over, clean_ready, destroy_ready, is_finished, is_unused};
pub use ranks::{is_ready_for, rank_ready, rank_ready_for};
pub use sequences::{may_pass, pass_stage, resumes_over, stage_ready, step_of, step_ready};
pub use settled::{is_quiet, is_settled};
pub use starts::{level_fits, life_fits, may_start};
