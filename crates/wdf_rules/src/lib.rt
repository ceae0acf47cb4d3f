//! The faults of a driver: the first row of the table that what a frame is about to do meets, in any
//! view of the state.
//!
//! # Choices
//!
//! - **When is a flag 0, or an action 2?** Where the argument is that number. A status or an object is neither. So a
//!   call with one there counts as having the flag set, and may be too high, or wait in its own scope, before it is a
//!   script error.
//! - **Which arguments can be stale?** Those that the call's row asks to be objects. An object where a number or a
//!   status is asked for is a script error, also where it is gone.
#![tactic(auto)]

mod arguments;
mod faults;
mod groups;
mod view;

pub use faults::fault_of;
pub use view::View;
