//! Tests of the table of a hunt: what is written of some tries, and of tables that are added, what comments expect of a run, its
//! kind by that, and scenes that words move. All worked out by hand.
#![tactic(auto)]

#[cfg(test)]
mod expectations;
#[cfg(test)]
mod jitter;
#[cfg(test)]
mod sums;
#[cfg(test)]
mod tables;
