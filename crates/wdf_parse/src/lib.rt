//! The text of a scenario: read to a scene, and printed in canonical form.
//!
//! # Choices
//!
//! - **Which line is "one past the last"?** A text that ends in LF has no empty last line: for `cpus 1` and LF it is
//!   line 2, for the empty text line 1.
//! - **Where may `version 2` come?** It is no form of a line, but the one line before the first three. The same line
//!   elsewhere, or with another number, is a BadLine.
//! - **Which line opened an `if` after its `else`?** The `if` line, so `Unclosed` names it.
//! - **Which size of text is read?** At most 1,048,576 bytes, as a condition of `parse`: line numbers, columns and
//!   node numbers then fit 32 bits. An empty list of `picks` is no line.
#![tactic(auto)]

mod laws;
mod parsing;
mod place;
mod printing;
mod reader;
mod refusal;

pub use laws::{one_scene, printed_is_read_back, scenes_are_well_formed};
pub use parsing::{TEXT_LIMIT, parse};
pub use printing::print;
pub use refusal::ParseRefusal;
pub use wdf_scene_lines::spelled_lines_are_read;
pub use wdf_tokens::spelled_tokens_are_read;
