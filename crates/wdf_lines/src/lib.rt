//! The lines of a trace are written: one for each event, one for the ending, and those of the wait list. Beside them short
//! messages of bytes and numbers.
//!
//! # Choices
//!
//! - **What is a line?** Its number, and then words, each after one blank. The definition of each kind of event is a
//!   list of words, one row a kind. So a line is read by its words, and only the definition of a word says what it
//!   may hold.
//! - **What does printing ask of its plan?** Nothing. A name, class, register or agent that the plan doesn't have
//!   prints as nothing. So no caller has to show that an event's numbers are the plan's, and the answer is exact for
//!   every event.
//! - **How does an agent print?** Agent 0 as `pnp`. An agent from 1 on has a name. Where a declared device or target
//!   has that name, it prints as an object with that one's id; else it is an app, and prints as its name. This holds
//!   whatever the agent posts.
//! - **How long is a line?** Less than 512 bytes, which is the room that it has. The longest that the rows allow is a
//!   call with three objects and an object as answer: 241 bytes with a number of 20 digits.
#![tactic(auto)]

mod endings;
mod line;
mod lines;
mod message;
mod pieces;

pub use endings::{ending_line, ending_word, wait_line};
pub use line::{LINE_LIMIT, Line};
pub use lines::{line_of, rewrite};
pub use message::{Message, one_number, two_numbers};
pub use pieces::{class_name, name_bytes, register_name};
