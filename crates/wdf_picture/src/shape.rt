//! What is drawn: shapes from slot to slot, and lanes with their names.
use wdf_base::{Callback, Fault, Handle};
use wdf_spans::{Standing, Told};

/// How a shape looks.
#[derive(Clone, Copy)]
pub(crate) enum Look {
    /// A callback at passive level.
    Passive,
    /// A callback at dispatch level.
    Dispatch,
    /// A callback at a device's level.
    High,
    Waiting,
    Parked,
    Calling,
    /// A tick of the clock, over the whole height.
    Column,
    /// The time that a tick began.
    Time,
    Band(Standing),
    /// A stage that the framework passes.
    Stage,
    InQueue,
    FromQueue,
    Place(Told),
    Cancel,
    Fault,
}

impl Look {
    /// The class of the shape in the page.
    pub(crate) fn class(self) -> &'static str {
        match self {
            Look::Passive => "s L0",
            Look::Dispatch => "s L2",
            Look::High => "s L3",
            Look::Waiting => "s wait",
            Look::Parked => "s park",
            Look::Calling => "s call",
            Look::Column => "s column",
            Look::Time => "s time",
            Look::Band(standing) => standing_class(standing),
            Look::Stage => "s stage",
            Look::InQueue => "s inq",
            Look::FromQueue => "s fromq",
            Look::Place(told) => place_class(told),
            Look::Cancel => "s cancel",
            Look::Fault => "s fault",
        }
    }
}

/// The class of a piece of a band.
fn standing_class(standing: Standing) -> &'static str {
    match standing {
        Standing::Working => "s on",
        Standing::Sleeping => "s asleep",
        Standing::Off | Standing::Removed => "s off",
        Standing::Powered => "s d0",
        Standing::QueuesUp | Standing::Started => "s up",
        Standing::QueuesDown | Standing::Stopped => "s down",
        Standing::Drained => "s drained",
        Standing::Purged | Standing::Closed | Standing::Unpowered => "s off",
    }
}

fn place_class(told: Told) -> &'static str {
    match told {
        Told::Queued => "s p queued",
        Told::Owned => "s p owned",
        Told::Sent => "s p sent",
        Told::Returning => "s p returning",
        Told::Done => "s p done",
    }
}

/// What is written on a shape.
#[derive(Clone, Copy)]
pub(crate) enum Label {
    Nothing,
    Word(&'static str),
    Callback {
        callback: Callback,
        object: Handle,
        request: Option<Handle>,
        level: u8,
    },
    Request {
        request: Handle,
        told: Told,
    },
    Count {
        word: &'static str,
        count: u32,
    },
    Tick(u64),
    /// A fault, with the line of the scenario.
    Fault {
        fault: Fault,
        line: u32,
    },
}

/// What a shape counts as.
#[derive(Clone, Copy)]
pub(crate) enum Role {
    /// The box of a start of a callback.
    Frame,
    /// The first piece of a request's span.
    Request,
    /// Another shape.
    Other,
}

/// A shape from slot to slot.
#[derive(Clone, Copy)]
pub(crate) struct Shape {
    pub(crate) role: Role,
    pub(crate) look: Look,
    pub(crate) from: u32,
    pub(crate) to: u32,
    pub(crate) y: u32,
    pub(crate) height: u32,
    /// How many hundredths of its height are filled, from below.
    pub(crate) filled: u32,
    /// The number of the event whose line is its title.
    pub(crate) number: u32,
    /// The ids of the objects that it is about, 0 for none.
    pub(crate) about: u32,
    pub(crate) with: u32,
    pub(crate) label: Label,
}

impl Shape {
    /// A shape without a label that is about nothing.
    pub(crate) fn plain(look: Look, from: u32, to: u32, y: u32, height: u32) -> Shape {
        Shape {
            role: Role::Other,
            look,
            from,
            to,
            y,
            height,
            filled: 100,
            number: from.saturating_add(1),
            about: 0,
            with: 0,
            label: Label::Nothing,
        }
    }
}

/// The name of a lane.
#[derive(Clone, Copy)]
pub(crate) enum LaneName {
    Word(&'static str),
    Cpu(u8),
    Object(&'static str, Handle),
}

/// A lane: what is drawn beside one name.
#[derive(Clone, Copy)]
pub(crate) struct Lane {
    pub(crate) name: LaneName,
    pub(crate) y: u32,
    pub(crate) height: u32,
}
