//! Tests of the table of faults, in views made by hand.
#![tactic(auto)]

#[cfg(test)]
mod first;
#[cfg(test)]
mod handles;
#[cfg(test)]
mod others;
#[cfg(test)]
mod requests;
#[cfg(test)]
mod sight;
#[cfg(test)]
mod values;
