//! What threads share, and what a worker passes on its way to a turn.
ghost use Rattle.std.specs.Prelude.{◌≡◌, ◌<◌, List, length, slice_get};
ghost use Rattle.wdf_base.specs.declared.event.Event.{Event};

use wdf_base::Event;

/// What a worker calls before each of its turns, and while it has nothing to do. A gate may slow a worker down, and
/// changes nothing else.
pub trait Gate {
    /// Worker `worker` is about to begin its turn `turn`. Both count from 0.
    fn pass(&self, worker: u32, turn: u32);

    /// A worker that has nothing to do has looked so often, in vain, whether the history has grown. It lets others run.
    fn rest(&self, looks: u32);
}

/// A value with a history: a list of events that grows, on a root that stays.
pub trait Chronicle {
    /// What the history begins from, as the plan of a run.
    type Root;

    /// What the history begins from.
    ghost root: { Self → Self.Root };

    /// The history.
    ghost events: { Self → List Event };

    /// How many events the history has.
    fn length(&self) -> u64
        ensures { result ≡ length (events self.now) };

    /// Event `k` of the history, from 0.
    fn entry(&self, k: u64) -> Event
        requires { k < length (events self.now) }
        ensures { slice_get (events self.now) k ≡ Some result };
}
