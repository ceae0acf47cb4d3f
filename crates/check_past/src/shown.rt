//! A presentation.

/// A presentation of a request that had entered a queue.
#[derive(Clone, Copy)]
pub struct Shown {
    /// The queue that presents it.
    pub queue: u32,
    /// Its last entry was at the head.
    pub at_head: bool,
    /// The number of the event by which it entered last, counted from 1.
    pub entry: usize,
    /// The number of the event that presents it.
    pub number: usize,
}
