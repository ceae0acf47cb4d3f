//! The processors of a run: which callbacks run or wait where, and how high.
//!
//! # Choices
//!
//! - **Where are the frames?** In the slots of `wdf_slots`, by number. The number of a frame is that of its event, and few
//!   frames are there at a time. A list of all numbers would have an entry of 504 bytes for each event. A frame that ends
//!   gives its slot back.
//! - **How does a frame go on?** In its slot: a [`FrameUpdate`] says what changes, and the rest isn't copied.
#![tactic(auto)]

mod acts;
mod cpus;
mod frame_test;
mod frame_update;
mod frames;
mod fresh;
mod levels;
mod order;
mod readers;
mod slots;
mod stack;
mod untils;

pub use cpus::Cpus;
pub use frame_update::FrameUpdate;
