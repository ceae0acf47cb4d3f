//! Tests of the static check over texts: what `lint` answers to the plan of a text, worked out by hand.
#![tactic(auto)]

#[cfg(test)]
mod big;
#[cfg(test)]
mod cases;
