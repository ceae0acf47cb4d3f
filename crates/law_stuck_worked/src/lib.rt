//! Stuck runs, computed from the definitions. For each, a law says that its events are the run which the written
//! machine makes of its plan, and that it ends stuck. It also says that the parts of the machine agree in each of its
//! states, and which lines its wait list has. Together with the stuck runs of `law_machine_worked` they show each form of line
//! with each of its causes; one cause needs a target that never answers, which of the program's agents only a connector
//! of `stack` may be. The scenarios and traces are in `scenarios/stuck`, `scenarios/spinning` and `scenarios/silent`.
#![tactic(auto)]

pub mod silent_runs;
pub mod spinning_runs;
pub mod stuck_runs;
