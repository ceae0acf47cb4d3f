//! The value in a seat's hands, and what a try answers.
ghost use Rattle.std.specs.Prelude.{◌≡◌};
ghost use Rattle.std.specs.Borrow.{sem};
ghost use Rattle.wdf_turn.specs.Lending.{LendsValue};
ghost use Rattle.wdf_turn.specs.Turns.{value_of};

use std::snapshot::Snapshot;

/// The shared value, taken by a seat. It must be given back, by that seat.
pub struct Held<T> {
    pub(crate) number: u32,
    pub(crate) value: T,
    pub(crate) length: u64,
    pub(crate) taken: Snapshot<T>,
}

/// What a try answers.
pub enum Attempt<T> {
    /// The seat has the value.
    Taken(Held<T>),
    /// The seat with this number holds the value.
    Busy(u32),
}

/// There was no memory. The value comes back.
#[derive(Drop)]
pub struct Refused<T> {
    /// The value that was to be shared.
    pub value: T,
}

impl<T> Held<T> {
    /// The value, to look at.
    pub fn value(&self) -> &T
        ensures { result.now ≡ value_of self.now }
    {
        &self.value
    }

    /// The value, to change. When the borrow ends, it is what was written.
    pub fn value_mut(&mut self) -> &mut T
        ensures* writes_back { sem 𝓛 (LendsValue T.row self.entry result) }
        ensures value { result.now ≡ value_of self.old }
    {
        &mut self.value
    }
}
