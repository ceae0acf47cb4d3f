//! The scenarios and the traces of the worked runs in tools/runs and tools/idle, as tables for tests.
#![tactic(auto)]

pub mod idle;
pub mod power;
pub mod processors;
pub mod requests;
pub mod serial;
pub mod targets;
mod worked;

pub use worked::Worked;
