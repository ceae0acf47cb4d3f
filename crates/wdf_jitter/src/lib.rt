//! A scene whose `at` lines are moved to later ticks, so that what stands at different ticks may race.
//!
//! # Choices
//!
//! - **By how much is a line moved?** By what is left of a word after a division: 0 to `most` ticks. What that would bring past
//!   the last tick of the language goes to the last tick, so that the moved scene has a plan where the scene has one.
//! - **Which lines have a word?** Each, though only `at` lines are moved. So the word of a line is known by the line's place.
#![tactic(auto)]

mod copied;
mod moved;

pub use moved::{LAST_TICK, moved_scene};
