//! The lines of a stuck run's wait list, with their causes.
//!
//! # Choices
//!
//! - **Wait lines: one type of cause, or one a form?** One `Cause` for all forms and an `Option`, since three forms
//!   have none. That form and cause are in one row of the table is said by `IsWaitOf` of `wdf_trace`.
use crate::call::Callback;
use crate::event::Step;
use crate::ids::{FrameId, Handle};

/// Something that a stuck run leaves open.
#[derive(Clone, Copy, PartialEq, Eq)]
pub enum OpenThing {
    /// A running or parked callback of `object`.
    Waiting {
        frame: FrameId,
        callback: Callback,
        object: Handle,
    },
    /// A request that the driver has.
    Owned {
        request: Handle,
    },
    /// A request at a target.
    Sent {
        request: Handle,
        target: Handle,
    },
    /// A request in the waiting list of a queue.
    Queued {
        request: Handle,
        queue: Handle,
    },
    /// A request whose EvtIoCanceledOnQueue is due.
    Returning {
        request: Handle,
        queue: Handle,
    },
    /// A device with this step running or next.
    Sequence {
        device: Handle,
        step: Step,
    },
    /// An object whose deletion was asked and hasn't come to its end.
    Leaving {
        object: Handle,
    },
    /// A queued DPC or work item, or a timer whose tick is reached.
    Deferred {
        object: Handle,
    },
    /// The Plug and Play manager with a post that is due, for a device with a sequence under way.
    Asking {
        device: Handle,
    },
}

/// Why something open has no step.
#[derive(Clone, Copy, PartialEq, Eq)]
pub enum Cause {
    /// A frame keeps it.
    ByFrame { frame: FrameId },
    /// A frame holds the lock that the call asks for.
    ByLock { lock: Handle, frame: FrameId },
    /// A request keeps it.
    ByRequest { request: Handle },
    /// A work item is still queued.
    ByWork { work: Handle },
    /// The queue is stopped.
    Stopped,
    /// The queue's device has no power.
    Unpowered,
    /// The queue waits to be asked.
    Manual,
    /// Another request is ahead.
    Behind { request: Handle },
    /// The queue has presented as many as it may.
    Full,
    /// The scope lock is held.
    ScopeHeld,
    /// No processor is left.
    NoCpu,
    /// The driver holds references.
    References { count: u32 },
    /// A child or a younger sibling must go first.
    ByChild { child: Handle },
    /// It is at a target.
    AtTarget { target: Handle },
}

/// One line of the wait list of a stuck run: what is open, and why. An owned or sent request and the
/// Plug and Play manager have no cause.
#[derive(Clone, Copy)]
pub struct WaitLine {
    pub thing: OpenThing,
    pub cause: Option<Cause>,
}
