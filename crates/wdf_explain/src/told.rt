//! What is told of a run beside its events.
use wdf_base::{Callback, Cpu, FrameId, Handle, Intent, Life, Mark, Status};

/// Who has an object.
#[derive(Clone, Copy)]
pub enum Having {
    /// The driver has the request.
    Driver,
    /// The request waits in this queue.
    Queued(Handle),
    /// The request was cancelled in this queue, and goes back to the driver.
    Returning(Handle),
    /// The framework is about to complete the request with this status.
    Closing(Status),
    /// The request is at this target.
    Target(Handle),
    /// The request is completed.
    Done,
    /// The frame with this number holds the object's lock; or none does.
    Lock(Option<u32>),
    /// It is an object that nobody has.
    Nobody,
}

/// How an object is.
#[derive(Clone, Copy)]
pub struct Standing {
    pub object: Handle,
    pub having: Having,
    /// How far the cancel of a request has come.
    pub mark: Mark,
    /// How many references the driver holds to it.
    pub references: u32,
    pub life: Life,
}

/// What a frame is about to do, and how the objects are that it names.
#[derive(Clone, Copy)]
pub struct Doing {
    pub cpu: Cpu,
    pub number: FrameId,
    pub callback: Callback,
    /// The object of the callback.
    pub object: Handle,
    pub intent: Intent,
    /// How the objects among the arguments of a call are.
    pub first: Option<Standing>,
    pub second: Option<Standing>,
    pub third: Option<Standing>,
}
