//! What the events of a trace have said so far, for the laws of a trace.
//!
//! Parents, classes and children are read from the whole list first. Then each event is taken in turn. What the laws' words
//! ask of those before is kept: when each sign came last, and short lists by device, queue and parent.
//!
//! # Choices
//!
//! - **By what is a sign looked up?** By a key of this crate: its kind and its ids. [`wdf_laws::Sign`] is a word of the
//!   laws, on which the program stands, so what this checker alone needs isn't derived there.
#![tactic(auto)]

mod begun;
mod key;
mod kin;
mod lists;
mod maps;
mod past;
mod shown;
mod signs;

pub use begun::{Frames, is_on};
pub use past::{Past, event_at};
pub use shown::Shown;
