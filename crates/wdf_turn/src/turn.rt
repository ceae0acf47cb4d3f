//! A turnstile is a table of two words and a slot.
ghost use Rattle.std.specs.Prelude.{◌≡◌};

use crate::chronicle::Chronicle;
use crate::plays::OneHistory;
use crate::token::{Terms, Token};
use atomic_table::Table;
use std::alloc::Global;

// The word with the number of the seat that holds, or 0.
pub(crate) const HOLDER: usize = 0;

// The word with the length of the history.
pub(crate) const LENGTH: usize = 1;

// The slot with the value.
pub(crate) const VALUE: usize = 0;

pub(crate) type Shelf<T> = Table<Option<T>, Token<T>, Terms<T>, OneHistory, Global>;

/// A turnstile: one value, which one seat at a time may take.
pub struct Turn<T: Chronicle> {
    pub(crate) shelf: Shelf<T>,
    ghost sized: { (shelf.shared.table_id.words ≡ 2) × (shelf.shared.table_id.slots ≡ 1) },
}
