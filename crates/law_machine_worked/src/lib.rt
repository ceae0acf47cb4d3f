//! Worked runs, for each a law. It says that the events are the run which the written machine makes of its plan, and
//! that the run ends as the trace says. It also says that the parts of the machine agree in each of the run's states,
//! and why the run is stuck, if it is. The scenarios and traces are in `tools/runs`.
#![tactic(auto)]

pub mod runs_of_power;
pub mod runs_of_processors;
pub mod runs_of_requests;
pub mod runs_of_serial;
pub mod runs_of_targets;
