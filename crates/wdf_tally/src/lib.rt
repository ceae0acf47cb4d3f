//! Counts by id that know which ids they count: the first of these from an id on is found without a look at each id.
#![tactic(auto)]

mod tally;

pub use tally::Tally;
