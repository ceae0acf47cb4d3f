//! The tree of objects: kinds, parents, lives, references and context cells.
//!
//! # Choices
//!
//! - **Where are the objects?** In the slots of `wdf_slots`, by id. No id is used again, and an entry has 152 bytes, so a list of
//!   all would grow with the objects that a run made. One that is gone gives its slot back. The nearest device of each id
//!   and the lists of children are by id, in 4 and 48 bytes an id.
//! - **What else does `ask_delete` take?** The room in which it gathers the subtree.
//! - **How is an object found whose turn to be cleaned up has come?** From an id on (`turn_from`), or by its number
//!   among them (`turn_at`). One that may be destroyed is found by its number (`end_at`), a cleaned one from an id on
//!   (`cleaned_from`). Those of them that aren't arrived requests are found by a second set (`next_counted_turn`,
//!   `next_counted_cleaned`): callbacks can start on those alone.
#![tactic(auto)]

mod tree;

pub use tree::{CreateRefusal, Subtree, Tree};
