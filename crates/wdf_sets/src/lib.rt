//! Sets of ids below a bound: members come and go, are counted below an id, and are found by
//! their number or from an id on, without a look at each id. A search passes over words of 64 ids that have none.
#![tactic(auto)]

mod bits;
mod id_set;
mod several;
mod words;

pub use id_set::IdSet;
pub use several::{four_sets, two_sets};
