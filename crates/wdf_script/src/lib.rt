//! Driver scripts: what the statement does at which a frame is, with its expressions evaluated.
//! It takes no memory, and any plan and any frame will do.
//!
//! # Choices
//!
//! - **How is an expression evaluated?** From an operator to its operands, which come before it, as the code does. So
//!   the evaluation ends on every plan.
//! - **What does a script do that no scenario has?** A node or an operand whose number isn't there has no value, and
//!   neither has an operand that doesn't come before its operator. A statement or a script whose number isn't there
//!   ends the callback with SUCCESS. So what a frame is about to do is said of every plan and every frame, and no
//!   caller has to show anything.
//! - **What if an argument of a call had no value?** It would be the number 0. Arguments are atoms, and an atom
//!   always has a value, so no text gives such a call.
#![tactic(auto)]

mod arguments;
mod expressions;
pub mod laws;
mod operators;
mod statements;

pub use expressions::value_of;
pub use statements::{line_of, next, statement_at};
