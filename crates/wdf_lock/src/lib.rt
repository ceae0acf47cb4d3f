//! The locks of a run: who holds which, and which scope lock a callback needs.
//!
//! # Choices
//!
//! - **Why does giving a lock back take no frame?** A lock has one holder.
#![tactic(auto)]

mod held;
mod holders;
mod locks;
mod scope;

pub use locks::Locks;
pub use scope::{lock_of_callback, scope_of, scope_of_object};
