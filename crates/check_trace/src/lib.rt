//! The checker of the nine laws of a trace: the first law that a list of events breaks, and where. Only tests call it.
//!
//! It goes through the events in turn, and tests each by what `check_past` keeps of those before.
//!
//! # Choices
//!
//! - **Why is the checker a crate of its own?** The laws are definitions, and the crates of laws over all runs are
//!   built on them. So a change of the checker proves none of these again. What one event says to the laws is in
//!   `check_signs`, on which the checker is built: a wrong body there is tried without the checker's proofs. What all
//!   events so far have said is in `check_past`: its tables say what the words of the laws say of them. So a wrong
//!   law is tried in `check_trace` without the proofs of the tables, and each test of a law is proved equal to the
//!   law over that list.
#![tactic(auto)]

mod checker;
mod laws;
mod order;
mod power;

pub use checker::check;
