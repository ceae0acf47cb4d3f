//! Gates that hold workers until others have come so far.
use std::sync::atomic::{AtomicU64, Ordering};
use std::thread;
use wdf_turn::Gate;

/// How often a held worker looks before it gives up.
const LOOKS: u32 = 10_000_000;

/// What the workers of a run have come to.
#[derive(Drop)]
pub struct Watch {
    /// How many workers have entered their first pass.
    pub first: AtomicU64,
    /// How many holds were given up.
    pub given_up: AtomicU64,
}

impl Watch {
    /// Nothing has happened yet.
    pub fn new() -> Watch {
        Watch {
            first: AtomicU64::new(0),
            given_up: AtomicU64::new(0),
        }
    }

    /// Waits until a count is high enough, or gives up.
    fn hold(&self, count: &AtomicU64, least: u64) {
        for _ in 0..LOOKS {
            if count.load(Ordering::SeqCst) >= least {
                return;
            }
            thread::yield_now();
        }
        self.given_up.fetch_add(1, Ordering::SeqCst);
    }

    /// Notes that a worker has entered its first pass, and holds it until two have.
    fn enter(&self) {
        self.first.fetch_add(1, Ordering::SeqCst);
        self.hold(&self.first, 2);
    }
}

/// Holds each worker in its first pass until two workers have entered theirs.
#[derive(Drop)]
pub struct TwoEnter<'a>(pub &'a Watch);

impl Gate for TwoEnter<'_> {
    fn pass(&self, _worker: u32, turn: u32) {
        if turn == 0 {
            self.0.enter();
        }
    }

    fn rest(&self, _looks: u32) {
        thread::yield_now();
    }
}

/// Holds each worker in its first pass until two workers have entered theirs. In its second pass it holds each worker but
/// the last one until an agent has heard of an event. The last worker is that of all agents.
#[derive(Drop)]
pub struct UntilHeard<'a> {
    /// What the workers have come to.
    pub watch: &'a Watch,
    /// How many events the agents have heard of.
    pub heard: &'a AtomicU64,
    /// The number of the worker of all agents.
    pub agents: u32,
}

impl Gate for UntilHeard<'_> {
    fn pass(&self, worker: u32, turn: u32) {
        if turn == 0 {
            self.watch.enter();
        }
        if turn == 1 && worker != self.agents {
            self.watch.hold(self.heard, 1);
        }
    }

    fn rest(&self, _looks: u32) {
        thread::yield_now();
    }
}
