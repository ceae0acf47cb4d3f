//! Plug and Play and power sequences: the steps of each list, and what a device has left of them.
#![tactic(auto)]

mod interrupt;
mod lists;
mod opening;
mod pnp;
mod sequence;

pub use pnp::Pnp;
