//! A list of events, as a value that seats share.
ghost use Rattle.std.specs.Prelude.{◌≡◌, []};

use std::alloc::Global;
use wdf_base::Event;
use wdf_turn::Chronicle;

/// A list of events that goes on from a number.
#[derive(Drop)]
pub struct Log {
    pub from: u32,
    pub events: Vec<Event>,
}

impl Log {
    /// An empty list.
    pub fn new(alloc: Global, from: u32) -> Log
        ensures { (result.from ≡ from) × (result.events.items ≡ []) }
    {
        Log {
            from,
            events: Vec::new(alloc),
        }
    }
}

impl Chronicle for Log {
    type Root = u32;

    ghost root = { λ log. log.from };

    ghost events = { λ log. log.events.items };

    fn length(&self) -> u64 {
        self.events.len() as u64
    }

    fn entry(&self, k: u64) -> Event {
        self.events[k as usize]
    }
}
