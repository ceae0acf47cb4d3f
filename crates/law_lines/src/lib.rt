//! Laws on the lines of runs: how a text is cut into lines, and that each event of a run is one that a line gives.
//!
//! # Choices
//!
//! - **Why does the law that events are of the plan have premises on numbers?** A resolved plan doesn't bound its
//!   literal numbers, nor the numbers of its lines; its types do. So the law asks for that, in `HasFittingNumbers`,
//!   which the plan of each text has. Nor are the agents bounded in general, so `HasFittingAgents` asks that what
//!   they post and show fits as long as they hear events of the plan; the program's agents do.
#![tactic(auto)]

pub mod frame_values;
pub mod plan_events;
pub mod run_lines;
