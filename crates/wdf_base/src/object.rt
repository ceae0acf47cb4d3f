ghost use Rattle.std.specs.Prelude.{◌≡◌};
ghost use Rattle.wdf_base.specs.Callbacks.{dpc_function};
ghost use Rattle.wdf_base.specs.Lives as lives;
ghost use Rattle.wdf_base.specs.Places as places;

use crate::call::Callback;
use crate::ids::ObjectId;
use crate::value::Status;

/// What an object is.
#[derive(Clone, Copy, Debug, PartialEq, Eq, Hash)]
pub enum Kind {
    Driver,
    Device,
    Queue,
    Interrupt,
    Target,
    Dpc,
    Timer,
    WorkItem,
    SpinLock,
    WaitLock,
    /// An object with nothing of its own but its context.
    General,
    /// A request that arrived from an app.
    Request,
    /// A request that the driver made.
    Made,
}

impl Kind {
    /// The callback that an entry of a DPC list runs: EvtInterruptDpc of an interrupt, else EvtDpcFunc. (KMDF)
    pub fn dpc_function(self) -> Callback
        ensures { result ≡ dpc_function self }
    {
        match self {
            Kind::Interrupt => Callback::EvtInterruptDpc,
            _ => Callback::EvtDpcFunc,
        }
    }
}

/// How far the deletion of an object has come.
#[derive(Clone, Copy, Debug)]
pub enum Life {
    Live,
    /// Its deletion was asked.
    Asked,
    /// Its cleanup has been done.
    Cleaned,
    /// It was destroyed.
    Gone,
}

impl Life {
    /// Whether the object is there and its deletion wasn't asked.
    pub fn is_live(self) -> bool
        ensures { result ≡ lives.is_live self }
    {
        matches!(self, Life::Live)
    }

    /// Whether the deletion was asked, and the cleanup is still to come.
    pub fn is_asked(self) -> bool
        ensures { result ≡ lives.is_asked self }
    {
        matches!(self, Life::Asked)
    }

    /// Whether the cleanup is done, and the object's end is still to come.
    pub fn is_cleaned(self) -> bool
        ensures { result ≡ lives.is_cleaned self }
    {
        matches!(self, Life::Cleaned)
    }

    /// Whether the object is destroyed, or never was.
    pub fn is_gone(self) -> bool
        ensures { result ≡ lives.is_gone self }
    {
        matches!(self, Life::Gone)
    }
}

/// Where a request is.
#[derive(Clone, Copy, Debug, PartialEq, Eq)]
pub enum Place {
    /// In the waiting list of a queue.
    Queued(ObjectId),
    /// Out of the waiting list of a queue, whose EvtIoCanceledOnQueue is due for it.
    Returning(ObjectId),
    /// To be completed by the framework with this status.
    Closing(Status),
    /// In the driver's hands.
    Owned,
    /// Sent to a target.
    Sent(ObjectId),
    /// Completed.
    Done,
}

impl Place {
    /// Whether the request is the driver's to complete, to move or to send. (KMDF)
    pub fn is_owned(self) -> bool
        ensures { result ≡ places.is_owned self }
    {
        matches!(self, Place::Owned)
    }

    /// Whether the request is completed.
    pub fn is_done(self) -> bool
        ensures { result ≡ places.is_done self }
    {
        matches!(self, Place::Done)
    }

    /// Whether the framework is about to complete the request.
    pub fn is_closing(self) -> bool
        ensures { result ≡ places.is_closing self }
    {
        matches!(self, Place::Closing(_))
    }

    /// Whether the request is sent to some target.
    pub fn is_sent(self) -> bool
        ensures { result ≡ places.is_sent self }
    {
        matches!(self, Place::Sent(_))
    }

    /// Whether the request is sent to this target.
    pub fn is_sent_to(self, target: ObjectId) -> bool
        ensures { result ≡ places.is_sent_to target.0 self }
    {
        match self {
            Place::Sent(other) => other.0 == target.0,
            _ => false,
        }
    }

    /// Whether the request was cancelled in this queue, and EvtIoCanceledOnQueue is due for it there. (KMDF)
    pub fn is_returning_to(self, queue: ObjectId) -> bool
        ensures { result ≡ places.is_returning_to queue.0 self }
    {
        match self {
            Place::Returning(other) => other.0 == queue.0,
            _ => false,
        }
    }
}

/// Whether the driver has made a request cancelable.
#[derive(Clone, Copy, Debug, PartialEq, Eq)]
pub enum Mark {
    Unmarked,
    /// Cancelable.
    Marked,
    /// Cancelable and cancelled: EvtRequestCancel is due for it.
    Due,
    /// EvtRequestCancel has started for it.
    Taken,
}

impl Mark {
    /// Whether the request is cancelable: the driver marked it, and no cancel has come. (KMDF)
    pub fn is_marked(self) -> bool
        ensures { result ≡ places.is_marked self }
    {
        matches!(self, Mark::Marked)
    }

    /// Whether a cancelable request was cancelled, and EvtRequestCancel hasn't started. (KMDF)
    pub fn is_due(self) -> bool
        ensures { result ≡ places.is_due self }
    {
        matches!(self, Mark::Due)
    }
}

/// What a request asks for.
#[derive(Clone, Copy, Debug, PartialEq, Eq)]
pub enum RequestForm {
    Read,
    Write,
    Control,
}

/// A lock of the machine.
#[derive(Clone, Copy, Debug, PartialEq, Eq)]
pub enum LockRef {
    /// The lock of a spin lock, a wait lock or an interrupt.
    Object(ObjectId),
    /// The scope lock of a device. It serializes the callbacks of its queues whose scope is the device, and
    /// serialized work under that device or those queues.
    DeviceScope(ObjectId),
    /// The lock that serializes the callbacks of a queue.
    QueueScope(ObjectId),
}

/// What is kept of a request beside its place.
#[derive(Clone, Copy, PartialEq, Eq)]
pub struct RequestInfo {
    /// The device that it arrived at. Of a made request the nearest device at or above its parent, or the
    /// driver object.
    pub device: ObjectId,
    pub form: RequestForm,
    /// The bytes that it asks for.
    pub length: u64,
    /// The control code, 0 for a read and a write.
    pub code: u64,
    /// The queue from which it last became Owned.
    pub origin: Option<ObjectId>,
    /// The agent that posted it, 0 for a made request.
    pub agent: u16,
    /// Its number among that agent's arrivals, from 1; 0 for a made request.
    pub arrival: u32,
    pub mark: Mark,
    /// Whether it was cancelled.
    pub cancelled: bool,
    /// Whether it became Owned since it arrived or was made.
    pub received: bool,
}
