//! Laws of the static check, whatever the agents are. In a run of a clean plan no request is given up, marked or acknowledged that the
//! callback doesn't have, none is completed or marked against its mark, and no callback takes a lock that it holds, gives back one
//! that it didn't take, or ends with one.
#![tactic(auto)]

pub mod laws;
