//! The program `kmdfview` over any source and any sink: a scenario and its trace in, a picture and a status out.
//!
//! # Choices
//!
//! - **What is refused?** What `kmdfsim replay` refuses, by the same line and with the same status, but for its limit on inputs.
//!   So a picture is of a run of the written machine, and of no other text.
//! - **Why may an input be longer than one of `kmdfsim`?** A run of 200,000 events has a trace of many times 1,048,576 bytes, and it
//!   is such a run that one wants to look at. The scenario in it is as short as ever.
//! - **Why doesn't it use the top call of `kmdfsim`?** That says a verdict and keeps its run for itself. The crates below it
//!   are the same.
#![tactic(auto)]

mod bad;
mod drawn;
mod judged;
mod read;
mod top;
mod words;

pub use bad::Bad;
pub use drawn::Drawn;
pub use read::RUN_LIMIT;
pub use top::view;
pub use words::Form;
