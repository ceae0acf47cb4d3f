//! The whole input of a source, read to its end, and no further than one byte past the limit.
#![tactic(auto)]

mod input;

pub use input::{INPUT_LIMIT, InputError, read_whole, read_within};
