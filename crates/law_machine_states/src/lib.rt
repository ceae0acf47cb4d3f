//! Laws over all runs of the machine: what its states agree on of marks, cleanups and frames, and of sequences; what starts
//! are allowed by, what calls name, and what a request is that the driver makes.
#![tactic(auto)]

pub mod objects;
pub mod sequences;
