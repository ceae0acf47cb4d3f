//! The table of a hunt: which kinds of endings came, how often, and the plainest run of each.
//!
//! # Choices
//!
//! - **What is an entry?** A row too: a try of one seed is a row that counts 1. So a table of tries and the sum of tables
//!   are one thing, and the order in which rows are added doesn't matter.
//! - **Where is a kind looked for?** In the rows, one after the other. A scenario has few kinds of endings.
#![tactic(auto)]

mod lines;
mod row;
mod tally;

pub use row::Row;
pub use tally::Tally;
