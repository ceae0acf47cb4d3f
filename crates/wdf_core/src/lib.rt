//! The machine of one run: its plan, the events so far, what may follow them, and how it ends.
#![tactic(auto)]

mod machine;
mod waits;

pub use machine::Core;
pub use wdf_waits::WaitPlace;
