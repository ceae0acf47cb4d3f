//! The kind of an ending: in what the runs of two seeds end alike.
//!
//! # Choices
//!
//! - **What is left out of a wait list?** The numbers of frames and of requests, which differ from run to run where the cause
//!   is one. A line without them is its form, and a kind has each form once.
//! - **In which order are the forms?** In that of their bytes. A wait list begins with the frames in the order in which they
//!   began, and two callbacks that wait for one another are the same knot whichever began first.
//! - **Why is a kind a text?** It is written, compared and sorted, and nothing else is asked of it.
#![tactic(auto)]

mod forms;
mod kinds;

pub use kinds::{kind_text, line_of_fault};
