//! The program: the top call for all words, with threads, and that call over any reader and any writer.
//!
//! # Choices
//!
//! - **What if there is no memory for the words?** 15, as for any other memory; nothing was read. `wdf_arguments` says what else the
//!   system may refuse.
//! - **Why are the promises of the top call one record?** `Promises` is said of `top` for its words, and of `serve`
//!   for the words after the program's name. So `serve` says all that `top` says, and no clause is written twice.
//! - **Where is `top`?** In `wdf_serve`, above `wdf_top` and `wdf_workers`. So a change on the side of the threads
//!   doesn't prove the plain call again, which takes long, and the plain call needs no handle. It is one crate with
//!   `serve`, since each crate more in the longest chain costs the gate minutes. What `run` writes is said in the
//!   plain call's own terms: another way to answer an input, of which the lemmas on faults, statuses and sinks hold
//!   as of the other forms.
//! - **What does the program's gate do?** Nothing: `OpenGate` lets each worker pass. Gates that hold workers are for
//!   tests.
#![tactic(auto)]

mod call;
mod gate;
mod program;
mod run;
mod words;

pub use call::top;
pub use gate::{OpenGate, SleepingGate};
pub use program::serve;
