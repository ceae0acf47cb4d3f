//! Tests over worked runs in which idle devices sleep. The agents of `idle`, fed a run's events, have each post due that
//! the run has. The checker of the law on such runs finds nothing in them, and the first event that breaks it in lists that
//! were broken by hand.
#![tactic(auto)]

#[cfg(test)]
mod agents;
#[cfg(test)]
mod broken;
#[cfg(test)]
mod longest;
#[cfg(test)]
mod plans;
#[cfg(test)]
mod runs;
#[cfg(test)]
mod traces;
