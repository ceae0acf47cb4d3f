//! Tests of what plans declare, of power, of Plug and Play, and of the targets, by hand-made cases.
#![tactic(auto)]

#[cfg(test)]
mod belongings;
#[cfg(test)]
mod declared;
#[cfg(test)]
mod plans;
#[cfg(test)]
mod pnp;
#[cfg(test)]
mod power;
#[cfg(test)]
mod targets;
#[cfg(test)]
mod trials;
