//! A live printer: the lines of a run are written while its workers go on.
//!
//! # Choices
//!
//! - **What makes the lines those of the run, in order?** A pipe from the workers to the printer with one pass that sends. The
//!   pass is in the turnstile's value, beside the machine. So only the seat that holds the machine sends. Whenever a seat
//!   may take it, what has been sent is the journal, and nothing more or the end mark behind it.
//! - **Which of the two has the new thread?** The printer. Where no thread can be made, the call in the new thread is
//!   made last: the workers come to their end first, and then all is printed. The other way round the printer would wait
//!   for workers that don't run.
//! - **Does a worker wait for the printer?** The pipe has a place for each event that a run may have and one for the
//!   end mark, so it is never full.
//! - **What if a write fails?** The printer ends. The workers go on to the end of the run.
//! - **Why has the printer a plan of its own?** The machine owns its plan, and goes from worker to worker.
#![tactic(auto)]

mod beside;
mod printer;
mod rest;
mod run;
mod watched;

pub use printer::{Printed, print_all, write_event};
pub use rest::write_watched;
pub use run::watch;
pub use watched::Watched;
