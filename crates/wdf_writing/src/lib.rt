//! A text of any length that is being written: bytes, words and numbers are added at its end.
#![tactic(auto)]

mod text;

pub use text::Text;
