//! Tests of the tree of objects, by hand-made cases.
#![tactic(auto)]

#[cfg(test)]
mod acts;
#[cfg(test)]
mod cases;
#[cfg(test)]
mod facts;
#[cfg(test)]
mod openings;
