//! The statuses of the programs, by what they mean.
//!
//! # Choices
//!
//! - **Why a crate of its own?** A table of tries and an answer of the static check have a status too, and both stand on little.
//! - **Why do contracts have the numbers?** They are what a caller of the program sees, and a reader compares them with the table
//!   of statuses in the guide. So a number that is changed here alone is refused where it is written.
#![tactic(auto)]

/// How a call ends. Its number is the status: `exit as u8`.
#[derive(Clone, Copy)]
pub enum Exit {
    /// The run finished, or all was in order.
    Fine = 0,
    /// A run broke a rule, or a file isn't as it should be.
    Broken = 1,
    /// The words are no form.
    Usage = 2,
    /// The run ended in a fault of the driver.
    Fault = 3,
    /// The run is stuck.
    Stuck = 4,
    /// The run came to its limit of events.
    Limit = 5,
    /// A trace or a table has a bad line.
    BadLine = 6,
    /// The static check found something.
    Findings = 7,
    /// The text is no scenario.
    NoScene = 10,
    /// The scenario has no plan.
    NoPlan = 11,
    /// A read failed.
    ReadFault = 12,
    /// A write failed.
    WriteFault = 13,
    /// The input is longer than it may be.
    TooLarge = 14,
    /// There is no memory.
    NoMemory = 15,
}
