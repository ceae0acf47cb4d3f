//! The input of `replay`: a scenario, a line `trace`, and a trace.
//!
//! # Choices
//!
//! - **Where does a trace begin in the input of `replay`?** After the first line whose only token is `trace`, by the
//!   tokens of the scenario's language. So blanks, tabs, a CR and a comment may be there too. `trace x` and `traces`
//!   are other lines, which no scenario has. A `trace` that no line feed ends is such a line too, with an empty trace
//!   after it.
#![tactic(auto)]

mod mark;
mod parts;

pub use parts::{Parts, split};
