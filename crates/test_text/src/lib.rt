//! Tests of scenes and of the two builders, of the reading and printing of a scenario's text, and of the
//! generated scenario.
#![tactic(auto)]

#[cfg(test)]
mod generated;
#[cfg(test)]
mod parsing;
#[cfg(test)]
mod plans;
#[cfg(test)]
mod scenes;
#[cfg(test)]
mod words;
