//! Free runs: the agents may be others at each event, and time may pass at any place. Every run is a free run. What is so at
//! each place of a free run, of locks and of frames, as it is of a run.
#![tactic(auto)]

pub mod laws;
