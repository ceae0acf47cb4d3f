//! The text of a run, in definitions; and the lines of a trace, cut from its bytes.
#![tactic(auto)]

mod lines;

pub use lines::{from_place, line_at, text_of_line};
