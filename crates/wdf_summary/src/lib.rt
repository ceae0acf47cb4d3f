//! The summary of a run: how many events it has, how many requests arrived and how many were completed.
//!
//! # Choices
//!
//! - **What does `load N` count?** As requests the arrivals that were answered with a request. As completions each
//!   call of `WdfRequestComplete` that was done and each completion by the framework. So both are seen from the
//!   events alone, as in the laws of a trace.
#![tactic(auto)]

mod counts;
mod events;
mod text;

pub use text::summary;
