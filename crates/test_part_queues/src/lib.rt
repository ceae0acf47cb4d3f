//! Tests of the queues, their control, and the requests, by hand-made cases.
#![tactic(auto)]

#[cfg(test)]
mod control;
#[cfg(test)]
mod maps;
#[cfg(test)]
mod plans;
#[cfg(test)]
mod queues;
#[cfg(test)]
mod requests;
#[cfg(test)]
mod trials;
