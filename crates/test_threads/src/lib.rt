//! Tests of threads: the turnstile, over a value that is a list of events; that the workers of a run do the work; the
//! word `run` through the top call. No test rests on the order in which the threads get on.
//!
//! # Choices
//!
//! - **What does a test show of the workers?** That two of them are there at once. A gate holds each worker in its
//!   first pass until two have come, and the test fails where a hold is given up. So it rests on no order of threads.
//!   And that the workers do the work, and not the caller after them: all but the agents' worker are held in their
//!   second pass until an agent has heard of an event. Its agents are the program's, and count what they hear.
#![tactic(auto)]

mod alone;
#[cfg(test)]
mod call;
#[cfg(test)]
mod faults;
#[cfg(test)]
mod fed;
mod holds;
mod log;
mod pair;
#[cfg(test)]
mod rounds;
#[cfg(test)]
mod rows;
#[cfg(test)]
mod runs;
mod scenario;
#[cfg(test)]
mod texts;
#[cfg(test)]
mod top_workers;
#[cfg(test)]
mod watching;
#[cfg(test)]
mod words;
#[cfg(test)]
mod workers;

pub use alone::take_alone;
pub use holds::{TwoEnter, UntilHeard, Watch};
pub use log::Log;
pub use pair::close_pair;
pub use scenario::DEVICE_SCOPE;
