//! The pipe from the workers of a run to its printer.
//!
//! # Choices
//!
//! - **Why a queue under a rule?** No clause can name what a shared queue holds. The rule says that what was sent is what
//!   was taken, followed by what the queue holds; each end's pass knows its side, and both together know it all.
//! - **Can a send find the pipe full?** No: the pass that sends knows how much was sent, and that is less than the pipe's
//!   places.
//! - **How does the printer wait?** It sleeps, and each item that is sent wakes it. No clause says that it wakes.
#![tactic(auto)]

mod item;
mod pipe;

pub use item::Item;
pub use pipe::{Account, Desk, InOrder, Pipe, PipePass, lay, put_together};
