//! What the parts of the state keep of each object, frame, lock, request, queue, device, timer and sending.

use crate::Mode;
use wdf_base::{
    Action, Frame, FrameId, Handle, Irql, Kind, Life, LockRef, ObjectId, Place, RequestInfo,
    Status, Value, WhenLine,
};

/// How many context cells an object has. (own)
pub const CELLS: usize = 8;

/// An object of the tree. Of one that is gone only that is kept.
#[derive(Clone, Copy)]
pub struct Node {
    /// How far its deletion has come. (KMDF)
    pub life: Life,
    /// What sort of object it is; General for one that is gone.
    pub kind: Kind,
    /// The number of its class in the plan, from 0; 0 also for what has none.
    pub class: u16,
    /// Its parent, which was made before it; the id 0 for the driver object.
    pub parent: ObjectId,
    /// How many references the driver holds; with one or more it isn't destroyed. (KMDF)
    pub references: u32,
    /// The context cells, which start as the number 0. (own)
    pub cells: [Value; CELLS],
    /// Whether EvtCleanupCallback has started, which it does once. (KMDF)
    pub cleanup_started: bool,
    /// Whether EvtDestroyCallback has started, which it does once. (KMDF)
    pub destroy_started: bool,
}

/// One running or waiting callback.
#[derive(Clone, Copy)]
pub struct Running {
    /// The callback, and how far it has come.
    pub frame: Frame,
    /// The level of the callback, without those of the locks that it holds.
    pub level: Irql,
}

/// The level of a lock that a frame acquired by a call or spins for. The frame's level is at least
/// this. (KMDF)
#[derive(Clone, Copy)]
pub struct HeldLevel {
    /// The number of the frame.
    pub frame: FrameId,
    /// The level of the lock: 2 for a spin lock, an interrupt's own for its lock, 0 for a wait lock.
    pub level: Irql,
}

/// A lock that is held, by one frame. (KMDF)
#[derive(Clone, Copy)]
pub struct Held {
    /// An object's lock, or a scope lock.
    pub lock: LockRef,
    /// The number of the frame.
    pub frame: FrameId,
    /// Whether a call took it, and a call has to give it back; else the callback's start did, and its
    /// end does.
    pub by_call: bool,
}

/// A request, arrived or made by the driver.
#[derive(Clone, Copy)]
pub struct Request {
    /// Where it is: at one place at a time. (KMDF)
    pub place: Place,
    /// What is known of it beside its place.
    pub info: RequestInfo,
}

/// The control of a queue.
#[derive(Clone, Copy)]
pub struct QueueControl {
    /// The queue's device; the id 0 for what is no queue.
    pub device: ObjectId,
    /// What the last control call made of it.
    pub mode: Mode,
    /// Whether notification is registered, which only a manual queue can have. (KMDF)
    pub registered: bool,
    /// Whether notification is due: the queue went from empty to not empty while it was registered.
    /// (KMDF)
    pub due: bool,
}

/// The power of a device.
#[derive(Clone, Copy)]
pub struct DevicePower {
    /// Whether its queues are up: only then do its power-managed ones deliver. (KMDF)
    pub up: bool,
    /// Whether it has its hardware: only then may its registers be accessed. (KMDF)
    pub hardware: bool,
}

/// What power has to know of a queue.
#[derive(Clone, Copy)]
pub struct QueuePower {
    /// The queue's device; the id 0 for what is no queue.
    pub device: ObjectId,
    /// Whether it declares EvtIoResume.
    pub resumes: bool,
}

/// A request that the driver holds from a power-managed queue. (KMDF)
#[derive(Clone, Copy)]
pub struct Holding {
    /// That queue; the id 0 for a request that isn't held from one.
    pub queue: ObjectId,
    /// Whether its stop is acknowledged; until then the device's power-down waits.
    pub acknowledged: bool,
    /// Whether EvtIoStop has started for it, which it does once a power-down.
    pub stop_asked: bool,
    /// Whether EvtIoResume is due for it, since the device's queues came up again.
    pub resume_due: bool,
}

/// A queued timer.
#[derive(Clone, Copy)]
pub struct Timed {
    /// The id of the timer object.
    pub timer: ObjectId,
    /// The tick at which it is due.
    pub tick: u64,
}

/// A request that was sent to a target.
#[derive(Clone, Copy)]
pub struct Sending {
    /// The request, arrived or made.
    pub request: ObjectId,
    /// Whether it doesn't come back to the driver: SendAndForget. (KMDF)
    pub forgotten: bool,
    /// The status with which the target is done with it, none until then.
    pub outcome: Option<Status>,
}

/// What a device does by a line of the text. (own)
#[derive(Clone, Copy)]
pub struct DeviceAction {
    /// A register takes a value, or a level line goes up or down.
    pub action: Action,
    /// What brings it about, none for one with `at`.
    pub trigger: Option<WhenLine>,
    /// The tick at which it is due, if it is to come.
    pub tick: Option<u64>,
    /// The number of its line in the text, from 1.
    pub line: u32,
}

/// A request that a target has, as its agent knows it. (own)
#[derive(Clone, Copy)]
pub struct SentRequest {
    /// The request, as events name it.
    pub request: Handle,
    /// The tick at which it is due; once it is to be cancelled, it is due at once.
    pub tick: u64,
    /// Whether it was cancelled, or the target was told to cancel it.
    pub told: bool,
}
