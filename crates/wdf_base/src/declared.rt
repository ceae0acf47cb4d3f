//! What a plan declares: devices, queues, interrupts, targets, classes, registers, posts.
//!
//! # Choices
//!
//! - **Does a post line have variants of its own?** It is a tick and a `Post`: each line of an app, of `pnp` and of a
//!   device gives exactly one form of post. `Done` has no line.
ghost use Rattle.std.specs.Prelude.{◌≡◌};
ghost use Rattle.wdf_base.specs.Kinds as kinds;

use crate::event::{Access, Action, Post};
use crate::ids::{Irql, ObjectId};
use crate::object::Kind;
use crate::value::Status;

/// Which lock serializes callbacks, after the attribute `scope` and its defaults.
#[derive(Clone, Copy, Debug, PartialEq, Eq)]
pub enum Scope {
    /// The lock of the device.
    PerDevice,
    /// A lock for each queue.
    PerQueue,
    /// None.
    Unscoped,
}

/// The execution level of a device or a queue, after the attribute `level` and its defaults. The callbacks
/// of a queue run at it. Those of a device run at PASSIVE_LEVEL.
#[derive(Clone, Copy, Debug, PartialEq, Eq)]
pub enum ExecutionLevel {
    Passive,
    Dispatch,
}

/// How a queue presents its requests.
#[derive(Clone, Copy, Debug, PartialEq, Eq)]
pub enum DispatchKind {
    /// One at a time.
    Sequential,
    /// At most this many at a time.
    Parallel(u64),
    /// When it is asked.
    Manual,
}

/// The types of requests that a queue takes.
#[derive(Clone, Copy, PartialEq, Eq)]
pub struct Serves {
    /// It is the default queue, and takes what no other queue does.
    pub rest: bool,
    pub read: bool,
    pub write: bool,
    pub control: bool,
}

/// A declared device.
#[derive(Clone, Copy, PartialEq, Eq)]
pub struct DeviceInfo {
    /// The number of its name.
    pub name: u32,
    /// Whether it works at the opening.
    pub working: bool,
    pub scope: Scope,
    pub level: ExecutionLevel,
}

/// A declared queue.
#[derive(Clone, Copy, PartialEq, Eq)]
pub struct QueueInfo {
    /// The number of its name.
    pub name: u32,
    pub device: ObjectId,
    pub dispatch: DispatchKind,
    pub serves: Serves,
    /// Whether it is power-managed.
    pub powered: bool,
    /// Whether it takes reads and writes of length 0.
    pub zero: bool,
    pub scope: Scope,
    pub level: ExecutionLevel,
}

/// A declared interrupt.
#[derive(Clone, Copy, PartialEq, Eq)]
pub struct InterruptInfo {
    /// The number of its name.
    pub name: u32,
    pub device: ObjectId,
    /// Its level, 0 for a passive one.
    pub level: Irql,
}

/// A declared I/O target.
#[derive(Clone, Copy, PartialEq, Eq)]
pub struct TargetInfo {
    /// The number of its name.
    pub name: u32,
    pub device: ObjectId,
    /// The ticks that a sent request takes.
    pub delay: u64,
    /// The status with which it is done.
    pub status: Status,
    /// The most requests that it holds.
    pub depth: u64,
}

/// What an object is in the plan.
#[derive(Clone, Copy, PartialEq, Eq)]
pub enum Declared {
    /// The driver object.
    Driver,
    Device(DeviceInfo),
    Queue(QueueInfo),
    Interrupt(InterruptInfo),
    Target(TargetInfo),
    /// An object that was made from the class with this number.
    OfClass(u16),
}

/// The kind of a class whose objects get their parent in the call that makes them.
#[derive(Clone, Copy, Debug, PartialEq, Eq)]
pub enum PlainKind {
    Object,
    SpinLock,
    WaitLock,
    Request,
}

/// The kind of a class whose objects have a device or a queue as parent and a callback that runs
/// later.
#[derive(Clone, Copy, Debug, PartialEq, Eq)]
pub enum DeferredKind {
    Dpc,
    Timer,
    WorkItem,
}

/// A class of objects that calls make.
#[derive(Clone, Copy, PartialEq, Eq)]
pub enum ClassInfo {
    Plain {
        /// The number of its name.
        name: u32,
        kind: PlainKind,
    },
    Deferred {
        /// The number of its name.
        name: u32,
        kind: DeferredKind,
        parent: ObjectId,
        /// Whether its callback runs under its parent's scope lock.
        serialize: bool,
        /// The ticks from one expiry of a timer to the next, 0 for one expiry alone.
        period: u64,
    },
}

/// A register of a device.
#[derive(Clone, Copy, PartialEq, Eq)]
pub struct RegisterInfo {
    /// The number of its name.
    pub name: u32,
    pub device: ObjectId,
    /// What it holds at the opening.
    pub value: u64,
}

/// What a device does some ticks after a register of it is read or written.
#[derive(Clone, Copy, PartialEq, Eq)]
pub struct WhenLine {
    pub access: Access,
    /// The register, which says the device.
    pub register: u32,
    pub action: Action,
    /// The ticks between; with 0 it takes effect at once.
    pub after: u64,
    /// The number of its line in the text.
    pub line: u32,
}

/// What an agent posts, and the tick from which it may.
#[derive(Clone, Copy, PartialEq, Eq)]
pub struct PostLine {
    pub tick: u64,
    pub post: Post,
    /// The number of its line in the text.
    pub line: u32,
}

impl Declared {
    /// The kind of the object. Of an object of a class its class says the kind.
    pub fn kind(&self) -> Option<Kind>
        ensures { result ≡ kinds.declared_kind self.now }
    {
        match self {
            Declared::Driver => Some(Kind::Driver),
            Declared::Device(_) => Some(Kind::Device),
            Declared::Queue(_) => Some(Kind::Queue),
            Declared::Interrupt(_) => Some(Kind::Interrupt),
            Declared::Target(_) => Some(Kind::Target),
            Declared::OfClass(_) => None,
        }
    }

    /// The number of the object's name. Of an object of a class its class says the name.
    pub fn name(&self) -> Option<u32>
        ensures { result ≡ kinds.declared_name self.now }
    {
        match self {
            Declared::Driver => Some(0),
            Declared::Device(device) => Some(device.name),
            Declared::Queue(queue) => Some(queue.name),
            Declared::Interrupt(interrupt) => Some(interrupt.name),
            Declared::Target(target) => Some(target.name),
            Declared::OfClass(_) => None,
        }
    }

    /// Whether the object has this name.
    pub fn has_name(&self, name: u32) -> bool
        ensures { result ≡ kinds.has_name name self.now }
    {
        match self.name() {
            Some(own) => own == name,
            None => false,
        }
    }
}

impl PlainKind {
    /// The kind of the objects of such a class.
    pub fn kind(self) -> Kind
        ensures { result ≡ kinds.plain_kind self }
    {
        match self {
            PlainKind::Object => Kind::General,
            PlainKind::SpinLock => Kind::SpinLock,
            PlainKind::WaitLock => Kind::WaitLock,
            PlainKind::Request => Kind::Made,
        }
    }
}

impl DeferredKind {
    /// The kind of the objects of such a class.
    pub fn kind(self) -> Kind
        ensures { result ≡ kinds.deferred_kind self }
    {
        match self {
            DeferredKind::Dpc => Kind::Dpc,
            DeferredKind::Timer => Kind::Timer,
            DeferredKind::WorkItem => Kind::WorkItem,
        }
    }
}

impl ClassInfo {
    /// The kind of the objects of the class.
    pub fn kind(&self) -> Kind
        ensures { result ≡ kinds.class_kind self.now }
    {
        match self {
            ClassInfo::Plain { kind, .. } => kind.kind(),
            ClassInfo::Deferred { kind, .. } => kind.kind(),
        }
    }

    /// The number of the class's name.
    pub fn name(&self) -> u32
        ensures { result ≡ kinds.class_name self.now }
    {
        match self {
            ClassInfo::Plain { name, .. } => *name,
            ClassInfo::Deferred { name, .. } => *name,
        }
    }
}
