//! The program `kmdfhunt` over any source and any sink: how the runs of many seeds of a scenario end.
//!
//! # Choices
//!
//! - **What is refused?** What `kmdfsim` refuses, by the same line and with the same status.
//! - **How many seeds?** From 1 to 2^32 - 1, none of them past the last seed. So counts fit, and so does the sum of events.
#![tactic(auto)]

mod explain;
mod read;
mod story;
mod suite;
mod sum;
mod table;
mod top;
mod words;

pub use suite::{suite_line, unread_file_line};
pub use top::hunt;
pub use wdf_hunters::Progress;
pub use words::{Form, Range, suite_of};
