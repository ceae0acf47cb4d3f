/// What an agent has before it, so that no question looks through all that it has.
#[derive(Clone, Copy)]
pub struct Ahead {
    /// The place of the first that is due, or how many there are where none is.
    pub first: usize,
    /// The least later tick.
    pub next: Option<u64>,
}
