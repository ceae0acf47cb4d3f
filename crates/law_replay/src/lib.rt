//! Laws on the traces that `replay` accepts: they are exactly the texts of runs that have ended.
#![tactic(auto)]

pub mod fitting_agents;
pub mod fitting_plans;
pub mod lines_of_texts;
pub mod texts_of_runs;
pub mod verdicts;
