//! The story of a run's ending, for a person: which rule was broken, in which callback, and who had the object; or what waits
//! for what, and in which circle.
//!
//! # Choices
//!
//! - **From where is it told?** From the run's events, its wait list, and how the objects are at its end that the faulting call
//!   names. So it is a function of the run; `wdf_explain_run` reads these off a core.
//! - **Which object has a story?** Each that the call names: a stale handle may be any of its arguments. Where the fault is of no
//!   call, the last events on its processor are told.
//! - **How many events are shown?** The last six about an object.
//! - **What is a circle?** Lines of the wait list of which each names the next as its cause. One is told, where there is one.
#![tactic(auto)]

mod about;
mod asked;
mod circle;
mod fault;
mod links;
mod numbers;
mod rules;
mod standing;
mod story;
mod stuck;
mod told;
mod turns;
mod words;

pub use asked::Asked;
pub use story::story_of;
pub use told::{Doing, Having, Standing};
pub use turns::Turn;
