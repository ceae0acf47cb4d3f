//! What a viewer is told of a run.
ghost use Rattle.std.specs.Prelude.{◌≡◌};
ghost use Rattle.wdf_perfetto.specs.Titles.{group_number, group_word, sort_word};

use wdf_base::{CallKind, Callback, Cpu, Fault, Handle, Stage};
use wdf_spans::{Standing, Told};

/// A group of tracks, which viewers call a process.
#[derive(Clone, Copy)]
pub enum Group {
    Processors,
    Devices,
    Queues,
    Requests,
}

impl Group {
    /// The number of a group, from 1.
    pub fn number(self) -> u64
        ensures { result ≡ group_number self }
    {
        match self {
            Group::Processors => 1,
            Group::Devices => 2,
            Group::Queues => 3,
            Group::Requests => 4,
        }
    }

    /// The name of a group.
    pub fn word(self) -> &'static str
        ensures { result.now ≡ group_word self }
    {
        match self {
            Group::Processors => "processors",
            Group::Devices => "devices",
            Group::Queues => "queues",
            Group::Requests => "requests",
        }
    }
}

/// A track, which viewers call a thread: a processor by its number, a device by its id.
#[derive(Clone, Copy)]
pub struct Track {
    pub group: Group,
    pub number: u32,
}

/// What a span beside the tracks is.
#[derive(Clone, Copy, PartialEq, Eq)]
pub enum Sort {
    Request,
    /// A callback that is parked.
    Parked,
}

impl Sort {
    /// The word of a sort, by which viewers tell spans apart.
    pub fn word(self) -> &'static str
        ensures { result.now ≡ sort_word self }
    {
        match self {
            Sort::Request => "request",
            Sort::Parked => "parked",
        }
    }
}

/// What is written on an item of the viewer.
#[derive(Clone, Copy)]
pub enum Title {
    Cpu(Cpu),
    Object(Handle),
    Callback { callback: Callback, object: Handle },
    Call(CallKind),
    /// A callback waits.
    Waits,
    /// A request is cancelled.
    Cancel,
    Stage(Stage),
    Standing(Standing),
    Place(Told),
    Fault(Fault),
}

/// What the viewer is told: one event of the format. Times are slots, and `number` is that of the event of the run whose line
/// is shown, 0 for none.
#[derive(Clone, Copy)]
pub enum Row {
    /// The name of a group.
    Names(Group),
    /// The name of a track.
    Name {
        track: Track,
        title: Title,
    },
    /// A slice of a track. Slices of one track nest.
    Slice {
        track: Track,
        title: Title,
        from: u32,
        to: u32,
        number: u32,
    },
    /// A span beside the tracks begins. Those of one sort and key nest.
    Begin {
        sort: Sort,
        key: u32,
        title: Title,
        at: u32,
        number: u32,
    },
    /// It ends before this slot.
    Finish {
        sort: Sort,
        key: u32,
        title: Title,
        at: u32,
    },
    /// A moment of such a span.
    Moment {
        sort: Sort,
        key: u32,
        title: Title,
        at: u32,
        number: u32,
    },
    /// A moment on a track.
    Mark {
        track: Track,
        title: Title,
        at: u32,
        number: u32,
    },
    /// How many requests wait in a queue from a slot on, and how many the driver holds from it.
    Counts {
        queue: Handle,
        waiting: u32,
        held: u32,
        at: u32,
    },
    /// The time of the clock from a slot on.
    Clock {
        time: u64,
        at: u32,
    },
}
