//! The tries of a range of seeds by many threads: what they come to is what one thread finds.
//!
//! # Choices
//!
//! - **How is a range shared out?** By halves, and the halves by halves, each in a thread of its own where one can be made. A
//!   half that has fewer seeds than a thread is worth isn't halved.
//! - **When is it told how far a hunt is?** Between rounds, which are as long as who is told wants them. A round has threads of
//!   its own, so short rounds keep them waiting.
#![tactic(auto)]

mod halves;
mod rounds;

pub use halves::hunt_threads;
pub use rounds::{Progress, hunt_rounds};
