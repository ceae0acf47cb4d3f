//! Laws on texts: the first refusal of a scenario's text, and where the trace begins in an input of `replay`.
#![tactic(auto)]

pub mod first_refusals;
pub mod trace_marks;
