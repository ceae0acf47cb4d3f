//! Text code that several crates need: the numbers that decimal digits write.
#![tactic(auto)]

mod decimals;
#[cfg(test)]
mod tests;

pub use decimals::{is_number, small_number};
