//! Tests over the traces of worked runs. Each line is read against the plan of its scenario, and written again as it
//! is. The agents of the plan, fed the run's events, have each post due that the run has. The checker of the laws of a
//! trace finds nothing in them, and the first broken law where one is broken.
#![tactic(auto)]

#[cfg(test)]
mod agents;
#[cfg(test)]
mod checked;
#[cfg(test)]
mod checker;
#[cfg(test)]
mod lines;
#[cfg(test)]
mod others;
#[cfg(test)]
mod trials;
#[cfg(test)]
mod waits;
#[cfg(test)]
mod worked;
