//! Tests of the plain types: words, plans that are read by number, equality.
#![tactic(auto)]

#[cfg(test)]
mod equality;
#[cfg(test)]
mod events;
#[cfg(test)]
mod plans;
#[cfg(test)]
mod words;
