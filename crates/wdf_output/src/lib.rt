//! What is written to a sink: texts, the lines of refusals, and the traces of runs.
#![tactic(auto)]

mod page;
mod refusal;
mod texts;
mod trace;

pub use refusal::Refusal;
pub use texts::{say, tell};
pub use trace::{status_of, write_end, write_line, write_run};
