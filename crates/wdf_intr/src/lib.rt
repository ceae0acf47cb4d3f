//! The interrupts of a run: which are enabled.
#![tactic(auto)]

mod interrupts;

pub use interrupts::Interrupts;
