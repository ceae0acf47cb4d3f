//! Maps by id whose entries are in slots: an entry that is removed is blank, and the next one takes its slot.
//!
//! # Choices
//!
//! - **Where are the entries?** In the kit's `slab`, and beside it one more than the key of each id's slot, in 32 bits. No
//!   two ids have the same key, so nothing in a slot has to name its id.
//! - **What of an id that has no slot?** It says what is blank, as in the maps of `wdf_maps`. The type of the entries
//!   says what that is, and how many ids there may be ([`ById`]), so no function that reads such a map has a premise on
//!   it.
//! - **How is an entry changed in its place?** [`Slots::at_mut`] lends it; an id that has none gets a slot first.
//! - **Which memory does it take?** The room of all is taken before the run, and what isn't touched is address space alone. So
//!   it takes 4 bytes for each id that came, and a slot for each of the most that were there at a time.
#![tactic(auto)]

mod by_id;
mod slots;

pub use by_id::ById;
pub use slots::Slots;
