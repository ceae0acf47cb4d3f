//! What a seat knows. No value of these types is made but `Terms`: clauses and proofs alone speak of
//! them.
use std::collections::LinkedList;
use std::snapshot::Snapshot;
use wdf_base::Event;

/// Whether a seat holds the shared value.
pub enum Hold {
    /// It doesn't.
    Idle,
    /// It has taken the value, whose history was this list.
    Out(LinkedList<Event>),
    /// It has stored the new length of the history, and hasn't let go yet.
    Stored,
}

/// What a seat knows, and what it has done.
pub struct Token<T> {
    /// The seat's number, from 1.
    pub number: u64,
    /// The seat may give the numbers above this one to new seats, up to `seats`.
    pub made: u64,
    /// How many seats there may be.
    pub seats: u64,
    /// How many seats that were split from it aren't joined.
    pub unjoined: u64,
    /// What it has seen of the history: a beginning of it.
    pub seen: LinkedList<Event>,
    /// The shorter of the two lists that the last join brought together: a beginning of `seen`.
    pub told: LinkedList<Event>,
    /// The events that it added, each with its place in the history, from 0.
    pub own: LinkedList<(u64, Event)>,
    /// The lengths that its loads found.
    pub looks: LinkedList<u64>,
    /// The numbers that its failed tries found.
    pub found: LinkedList<u64>,
    /// The value with which the turnstile was made. There is none where the seat was joined away.
    pub opening: Option<T>,
    /// Whether it holds the value.
    pub hold: Hold,
}

/// What a turnstile was made with.
#[derive(Drop)]
pub struct Terms<T> {
    /// How many seats there may be.
    pub seats: u32,
    /// The value with which it was made.
    pub opening: Snapshot<T>,
}
