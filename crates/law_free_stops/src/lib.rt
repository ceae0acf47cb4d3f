//! Stops in free runs: while a callback EvtIoStop is there, its device takes no step down or up. Callbacks with one lock don't run
//! at one time.
#![tactic(auto)]

pub mod laws;
