//! Families of lists of ids, linked both ways: an item is on at most one list, comes at either
//! end, and leaves from any place, each in constant time.
//!
//! # Choices
//!
//! - **Why are list nodes in no `slab`?** A slab hands out keys and uses them again, and ids are never used again. So each
//!   list and each item would need a map from its id to a key, of 4 bytes, where its two links have 8. Here an entry is at
//!   its id in a vector whose room is taken before the run, and a list is linked in such vectors. So no act takes memory,
//!   a look-up is one index, and the model is the definition's list by id.
#![tactic(auto)]

mod links;
mod members;
mod rings;
mod table;

pub use links::Links;
