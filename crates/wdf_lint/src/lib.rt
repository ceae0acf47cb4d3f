//! The static check of scripts: a walk of each callback's statements alone, which finds what breaks a rule on the way.
#![tactic(auto)]

mod atoms;
pub mod findings;
mod lines;
mod paths;
mod rules;
mod search;
mod state;
pub mod static_check;
mod steps;
mod walked;

pub use findings::FindingList;
pub use static_check::{LintAnswer, lint};
