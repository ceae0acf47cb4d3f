//! The lines of a scenario and their tokens: a line is read from its tokens, its expressions into the scene, and the
//! tokens of each line of a scene are written.
//!
//! # Choices
//!
//! - **What is the grammar?** The spelling: `written_tokens` gives the tokens of each line of the language, in one
//!   table. What the code does is a reading function, and two laws tie them: a line of the language is read from the
//!   tokens that spell it, and what is read is spelled by its tokens.
//! - **Which name may come where a form has a name?** Any name, also one that is a keyword or a status: the plan
//!   refuses what it can't mean. In an expression a word is a status, else a part of the running callback, else a
//!   name.
//! - **What is BadLine and not a refusal of the plan?** A target's STATUS that is no status name; a number where a
//!   call needs a class; a call with another count of arguments. Then `scope inherit` and `level inherit` in the
//!   `driver` block, and a second `driver`, `pnp` or `order` block. Each shows from the line and the blocks before
//!   it, without a look at names.
//! - **How deep may things nest?** Parentheses of an expression 16, `if` and `repeat` of a callback 16 open at a time
//!   (the `on` block isn't counted). The seventeenth makes its own line a BadLine.
//! - **May an `order` block have several `picks` lines?** Yes; their numbers are taken one line after the other.
//! - **How are expressions numbered?** In the order of the text: the left operand with all its parts, the right one,
//!   the operator. The definition says so for whole trees, and each node has one place.
#![tactic(auto)]

mod cursor;
mod exprs;
mod forms;
mod laws;
mod line_tokens;
mod plain_tokens;
mod statements;

pub use laws::spelled_lines_are_read;
pub use line_tokens::add_line;
pub use statements::{Form, read_line};
