//! Events, posts, stages, faults, endings, and who takes a step of the machine.
//!
//! # Choices
//!
//! - **Get and put of a register: one kind of event or two?** One, `Event::Register`, with `Access` Read or Write.
//!   The table of events has one row for both, and a device's `when` lines speak of the same two accesses.
//! - **What does an event keep?** What its line prints, and nothing else. A `Local` and a `Fault` keep the line of
//!   the text that they print. `Stage` and `Start` keep their interrupt and their request as an `Option`: a rule, and
//!   not the type, says where there is one (`enabled` and `disabled`; the ranks that carry a request). So lines are
//!   read and printed by one form.
//! - **What answers a post that is no arrival and no cancel?** `answer` is None, and prints nothing.
//! - **What is a post of a device?** `Post::Act` holds an `Action` (set, raise, lower), which `when` and `at` lines
//!   of the plan hold too.
//! - **Which number does a cancel carry?** `arrival`, the number of the arrival among the app's own, from 1, as its
//!   line prints it (64 bits, as any number of the text).
ghost use Rattle.std.specs.Prelude.{◌≡◌};
ghost use Rattle.wdf_base.specs.Posts as posts;
ghost use Rattle.wdf_base.specs.Stages as stages;

use crate::call::{Call, Callback};
use crate::ids::{Cpu, FrameId, Handle};
use crate::value::{Status, Value};

/// Who takes a step of the machine.
#[derive(Clone, Copy, PartialEq, Eq)]
pub enum Actor {
    /// A processor, counted from 0.
    Cpu(u8),
    /// The framework itself.
    Framework,
    /// An agent of the outside, counted from 0: the Plug and Play manager, an app, a device, a target.
    Agent(u16),
    /// The clock.
    Clock,
}

/// What the Plug and Play manager asks of a device.
#[derive(Clone, Copy, Debug, PartialEq, Eq)]
pub enum Ask {
    Start,
    Sleep,
    Wake,
    Rebalance,
    Remove,
    Surprise,
}

/// A step that the framework itself takes in a Plug and Play or power sequence.
#[derive(Clone, Copy, Debug, PartialEq, Eq)]
pub enum Stage {
    /// The device gets its hardware.
    Hardware,
    /// The device gives its hardware back.
    NoHardware,
    /// An interrupt is put on the list of enabled ones.
    Enabled,
    /// An interrupt is taken off that list.
    Disabled,
    /// The device's power-managed queues come up.
    QueuesUp,
    /// The device's power-managed queues go down.
    QueuesDown,
    /// What the driver holds from the power-managed queues is acknowledged, and none of their callbacks runs.
    Settled,
    /// No EvtInterruptDpc of the device is queued or runs.
    Quiet,
    /// The device's queues are Purged for good.
    Closed,
    /// The device is Working.
    Working,
    /// The device is Sleeping.
    Sleeping,
    /// The device is Removed, and its deletion is asked.
    Removed,
}

impl Stage {
    /// Whether the stage is passed for one interrupt.
    pub fn is_for_interrupt(self) -> bool
        ensures { result ≡ stages.is_for_interrupt self }
    {
        matches!(self, Stage::Enabled | Stage::Disabled)
    }
}

/// One step of a Plug and Play or power sequence of a device.
#[derive(Clone, Copy, PartialEq, Eq)]
pub enum Step {
    /// A callback runs: the device's own, or EvtInterruptEnable or EvtInterruptDisable of one of its
    /// interrupts.
    Run {
        callback: Callback,
        interrupt: Option<Handle>,
    },
    /// The framework passes a stage, for one interrupt where it enables or disables that.
    Pass {
        stage: Stage,
        interrupt: Option<Handle>,
    },
}

/// Whether a register is read or written.
#[derive(Clone, Copy, Debug, PartialEq, Eq)]
pub enum Access {
    Read,
    Write,
}

/// What a device does on its side of the hardware.
#[derive(Clone, Copy, Debug, PartialEq, Eq)]
pub enum Action {
    /// A register of the plan takes a value.
    Set { register: u32, value: u64 },
    /// The level line of an interrupt becomes 1.
    Raise { interrupt: Handle },
    /// The level line of an interrupt becomes 0.
    Lower { interrupt: Handle },
}

/// What an agent posts to the framework.
#[derive(Clone, Copy, Debug, PartialEq, Eq)]
pub enum Post {
    /// A read request of `length` bytes for a device, by an app.
    Read {
        device: Handle,
        length: u64,
    },
    /// A write request of `length` bytes for a device, by an app.
    Write {
        device: Handle,
        length: u64,
    },
    /// A control request for a device, by an app.
    Control {
        device: Handle,
        code: u64,
        length: u64,
    },
    /// The cancel of the request that the app's `arrival`-th arrival made, counted from 1.
    Cancel {
        arrival: u64,
    },
    /// What the Plug and Play manager asks of a device.
    Ask {
        ask: Ask,
        device: Handle,
    },
    /// What a device does.
    Act {
        action: Action,
    },
    /// A target is done with a request.
    Done {
        request: Handle,
        status: Status,
    },
}

impl Post {
    /// Whether a request arrives by it: it is a read, a write or a control.
    pub fn is_request(&self) -> bool
        ensures { result ≡ posts.is_request self.now }
    {
        matches!(
            self,
            Post::Read { .. } | Post::Write { .. } | Post::Control { .. }
        )
    }
}

/// One step of the machine, with everything that its trace line says.
#[derive(Clone, Copy, Debug, PartialEq, Eq)]
pub enum Event {
    /// A callback of `object` begins on `cpu`, for `request` where it carries one.
    Start {
        cpu: Cpu,
        callback: Callback,
        object: Handle,
        request: Option<Handle>,
    },
    /// A step inside a frame: a `let`, an `if` or a `repeat` in this line of the text.
    Local {
        cpu: Cpu,
        line: u32,
    },
    /// A value is printed.
    Log {
        cpu: Cpu,
        value: Value,
    },
    /// A frame begins to spend a number of ticks.
    Spend {
        cpu: Cpu,
        ticks: u64,
    },
    /// A register of the plan was read as `value`, or `value` was written to it.
    Register {
        cpu: Cpu,
        access: Access,
        register: u32,
        value: u64,
    },
    /// A framework call was made and answered.
    Did {
        cpu: Cpu,
        call: Call,
        answer: Value,
    },
    /// A framework call was made, and its frame waits.
    Waiting {
        cpu: Cpu,
        call: Call,
    },
    /// The wait of a frame's call is over, and the call is answered.
    Woke {
        cpu: Cpu,
        call: Call,
        answer: Value,
    },
    /// A waiting frame leaves its processor.
    Park {
        cpu: Cpu,
        frame: FrameId,
    },
    /// A parked frame goes on.
    Unpark {
        cpu: Cpu,
        frame: FrameId,
    },
    /// A callback ended with `value`.
    End {
        cpu: Cpu,
        callback: Callback,
        object: Handle,
        value: Value,
    },
    /// The driver made a mistake in this line of the text.
    Fault {
        cpu: Cpu,
        fault: Fault,
        line: u32,
    },
    /// A device passes a stage, for one interrupt where it enables or disables that.
    Stage {
        device: Handle,
        stage: Stage,
        interrupt: Option<Handle>,
    },
    /// The framework completes a request.
    Complete {
        request: Handle,
        status: Status,
    },
    /// The cleanup of an object whose deletion was asked.
    Cleanup {
        object: Handle,
    },
    /// The end of an object.
    Destroy {
        object: Handle,
    },
    /// An agent posted. `answer` is the request that an arrival made or that a cancel reached.
    Posted {
        agent: u16,
        post: Post,
        answer: Option<Handle>,
    },
    /// The clock shows this new time.
    Tick {
        time: u64,
    },
}

/// A mistake of the driver that ends the run.
#[derive(Clone, Copy, Debug, PartialEq, Eq)]
pub enum Fault {
    StaleHandle,
    WrongKind,
    IrqlTooHigh,
    NotOwned,
    CompleteWhileMarked,
    CompleteBeforeCancelCallback,
    MarkedTwice,
    AckOutsideStop,
    NoReferenceHeld,
    DeleteNotAllowed,
    LockHeldAlready,
    LockNotHeld,
    ReturnHoldingLock,
    HardwareReleased,
    SyncInOwnScope,
    ScriptError,
}

/// How a run ends: whether a step may follow, and if not, why. Of the reasons a fault comes first, then the
/// limit, then whether something is open.
#[derive(Clone, Copy, PartialEq, Eq)]
pub enum Ending {
    /// A step may follow.
    Running,
    /// No step may follow, and nothing is open.
    Finished,
    /// The run has as many events as its limit allows.
    Limit,
    /// The driver made a mistake.
    Fault(Fault),
    /// No step may follow, and something is open.
    Stuck,
}
