//! Maps by id in memory that was taken before: lists of entries by id, with a blank entry for every
//! id that was never written; counts by id; lists of entries by rising id. Beside them the lesser of
//! two ids.
//!
//! # Choices
//!
//! - **What of an id that no map has?** Such an object is gone, and what is no request is done. Maps are lists by id,
//!   with an inert entry for the id 0, so that a look-up needs no premise.
//! - **Why do some questions go over all entries for an id from `OBJECTS` on?** No object has such an id, so no run
//!   comes there. A question to a part asks nothing of an id, so that no function above has a premise on ids. The
//!   counts by id are an array of `OBJECTS` numbers. A premise would go through every function that asks; a hash
//!   table would cost every event.
//! - **In which order are lists that no rule orders?** By rising id. So there is one such list, and the first that is
//!   found is the least.
#![tactic(auto)]

mod counts;
mod entry;
mod least;
mod map;
mod rising;

pub use counts::Counts;
pub use entry::Entry;
pub use least::lesser_if;
pub use map::{entry_at, is_id, object_at, put_at};
pub use rising::Rising;
