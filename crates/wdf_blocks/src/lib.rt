//! The lines of a scene, each in its block: what a block gives, what a line declares, and the variables of a callback.
//!
//! # Choices
//!
//! - **Where is a line?** Each line is placed once (`Lines`), and kept with its block, its device and how many of
//!   each thing come before it, some 230 bytes. The lists of a plan are then gathered by walks that only read.
#![tactic(auto)]

pub mod attribute;
pub mod block;
pub mod declaration;
pub mod forms;
pub mod placed;
pub mod reserved;
pub mod variables;
pub mod walk;
