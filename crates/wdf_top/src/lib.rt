//! The top call without threads: words and bytes in, bytes and a status out.
//!
//! # Choices
//!
//! - **What does `replay` answer first?** Why the scenario has no plan, with 10 or 11; only then the verdict on the
//!   trace, which needs a plan. The picks of the scenario say nothing of the verdict, since a trace has its own
//!   order.
//! - **Where does the number in `accepted finished N` come from?** From the core: after an accepted trace its run is
//!   on the core, and its events are counted there.
//! - **Why are the picks copied before a run?** The core owns the plan while the run goes on. The copy is made before
//!   the first step, as all memory is.
#![tactic(auto)]

mod agents;
mod generated;
mod laws;
mod lint;
mod load;
mod run;
mod scenario;
mod top;
mod verdict;
mod words;

pub use agents::RunAgent;
pub use laws::{one_trace_a_plan, plans_of_texts_are_resolved, traces_are_of_runs};
pub use run::opening;
pub use scenario::{plan_of_text, read_plan, read_plan_and_copy};
pub use top::top_plain;
pub use words::number_word;
