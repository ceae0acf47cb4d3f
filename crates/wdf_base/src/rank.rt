//! Callbacks by rank: the order in which starts are offered, and each callback's object, level and lock.
//!
//! # Choices
//!
//! - **Are ranks numbers?** They are the enum `Rank`, with `number` from 1 to 14. Definitions and code match on it.
//! - **What is in a callback's row?** Rank, object, level and lock, by callback and not by rank: ranks 2 and 11 have
//!   callbacks with different rows.
ghost use Rattle.std.specs.Prelude.{◌≡◌};
ghost use Rattle.wdf_base.specs.Callbacks as table;

use crate::call::Callback;
use crate::ids::Irql;
use crate::object::Kind;

/// The place of a callback in the order in which starts are offered.
#[derive(Clone, Copy)]
pub enum Rank {
    /// The service routine of an interrupt.
    Isr,
    /// A deferred procedure call.
    Deferred,
    /// A timer is due.
    Timed,
    /// A sent request is done.
    Completion,
    /// A marked request was cancelled.
    Cancel,
    /// A waiting request that the driver had before was cancelled.
    CanceledOnQueue,
    /// A held request keeps a power-down from going on.
    Stop,
    /// A held request may go on after a power-up.
    Resume,
    /// A manual queue got a request.
    QueueState,
    /// A request is presented.
    Handler,
    /// A step of a Plug and Play or power sequence.
    Sequence,
    /// A work item.
    Work,
    /// An object is cleaned up.
    Cleanup,
    /// An object is destroyed.
    Destroy,
}

/// The kind of object that a callback runs on.
#[derive(Clone, Copy)]
pub enum Owner {
    Of(Kind),
    /// An object of a class, or a device.
    ClassOrDevice,
}

/// The level at which a callback runs.
#[derive(Clone, Copy)]
pub enum CallbackLevel {
    Level(Irql),
    /// The level of its interrupt, which is 0 for a passive one.
    OfInterrupt,
    /// 0 where the effective execution level of its queue is passive, 2 where it is dispatch.
    OfQueue,
}

/// The lock under which a callback runs.
#[derive(Clone, Copy)]
pub enum CallbackLock {
    NoLock,
    /// The lock of its interrupt.
    InterruptLock,
    /// The scope lock of its object's parent, if its class is serialized.
    ParentScope,
    /// The scope lock of its queue.
    QueueLock,
}

/// When a callback comes, on what, how high and under which lock.
#[derive(Clone, Copy)]
pub struct CallbackRow {
    pub rank: Rank,
    pub owner: Owner,
    pub level: CallbackLevel,
    pub lock: CallbackLock,
}

fn callback_row(rank: Rank, owner: Owner, level: CallbackLevel, lock: CallbackLock) -> CallbackRow
    ensures { result ≡ table.callback_row rank owner level lock }
{
    CallbackRow {
        rank,
        owner,
        level,
        lock,
    }
}

impl Callback {
    /// When the callback comes, on what, how high and under which lock.
    pub fn row(self) -> CallbackRow
        ensures { result ≡ table.row_of self }
    {
        use CallbackLevel::{Level, OfInterrupt, OfQueue};
        use CallbackLock::{InterruptLock, NoLock, ParentScope, QueueLock};
        use Owner::{ClassOrDevice, Of};
        match self {
            Callback::EvtInterruptIsr => callback_row(
                Rank::Isr,
                Of(Kind::Interrupt),
                OfInterrupt,
                InterruptLock,
            ),
            Callback::EvtDpcFunc => callback_row(
                Rank::Deferred,
                Of(Kind::Dpc),
                Level(Irql(2)),
                ParentScope,
            ),
            Callback::EvtInterruptDpc => callback_row(
                Rank::Deferred,
                Of(Kind::Interrupt),
                Level(Irql(2)),
                NoLock,
            ),
            Callback::EvtTimerFunc => callback_row(
                Rank::Timed,
                Of(Kind::Timer),
                Level(Irql(2)),
                ParentScope,
            ),
            Callback::EvtRequestCompletion => callback_row(
                Rank::Completion,
                Of(Kind::Target),
                Level(Irql(2)),
                NoLock,
            ),
            Callback::EvtRequestCancel => callback_row(
                Rank::Cancel,
                Of(Kind::Queue),
                OfQueue,
                QueueLock,
            ),
            Callback::EvtIoCanceledOnQueue => callback_row(
                Rank::CanceledOnQueue,
                Of(Kind::Queue),
                OfQueue,
                QueueLock,
            ),
            Callback::EvtIoStop => callback_row(Rank::Stop, Of(Kind::Queue), OfQueue, QueueLock),
            Callback::EvtIoResume => callback_row(
                Rank::Resume,
                Of(Kind::Queue),
                OfQueue,
                QueueLock,
            ),
            Callback::EvtIoQueueState => callback_row(
                Rank::QueueState,
                Of(Kind::Queue),
                OfQueue,
                QueueLock,
            ),
            Callback::EvtIoRead => callback_row(Rank::Handler, Of(Kind::Queue), OfQueue, QueueLock),
            Callback::EvtIoWrite => callback_row(
                Rank::Handler,
                Of(Kind::Queue),
                OfQueue,
                QueueLock,
            ),
            Callback::EvtIoDeviceControl => callback_row(
                Rank::Handler,
                Of(Kind::Queue),
                OfQueue,
                QueueLock,
            ),
            Callback::EvtIoDefault => callback_row(
                Rank::Handler,
                Of(Kind::Queue),
                OfQueue,
                QueueLock,
            ),
            Callback::EvtDevicePrepareHardware => callback_row(
                Rank::Sequence,
                Of(Kind::Device),
                Level(Irql(0)),
                NoLock,
            ),
            Callback::EvtDeviceReleaseHardware => callback_row(
                Rank::Sequence,
                Of(Kind::Device),
                Level(Irql(0)),
                NoLock,
            ),
            Callback::EvtDeviceD0Entry => callback_row(
                Rank::Sequence,
                Of(Kind::Device),
                Level(Irql(0)),
                NoLock,
            ),
            Callback::EvtDeviceD0EntryPostInterruptsEnabled => callback_row(
                Rank::Sequence,
                Of(Kind::Device),
                Level(Irql(0)),
                NoLock,
            ),
            Callback::EvtDeviceD0ExitPreInterruptsDisabled => callback_row(
                Rank::Sequence,
                Of(Kind::Device),
                Level(Irql(0)),
                NoLock,
            ),
            Callback::EvtDeviceD0Exit => callback_row(
                Rank::Sequence,
                Of(Kind::Device),
                Level(Irql(0)),
                NoLock,
            ),
            Callback::EvtDeviceSelfManagedIoInit => callback_row(
                Rank::Sequence,
                Of(Kind::Device),
                Level(Irql(0)),
                NoLock,
            ),
            Callback::EvtDeviceSelfManagedIoRestart => callback_row(
                Rank::Sequence,
                Of(Kind::Device),
                Level(Irql(0)),
                NoLock,
            ),
            Callback::EvtDeviceSelfManagedIoSuspend => callback_row(
                Rank::Sequence,
                Of(Kind::Device),
                Level(Irql(0)),
                NoLock,
            ),
            Callback::EvtDeviceSelfManagedIoFlush => callback_row(
                Rank::Sequence,
                Of(Kind::Device),
                Level(Irql(0)),
                NoLock,
            ),
            Callback::EvtDeviceSelfManagedIoCleanup => callback_row(
                Rank::Sequence,
                Of(Kind::Device),
                Level(Irql(0)),
                NoLock,
            ),
            Callback::EvtDeviceQueryStop => callback_row(
                Rank::Sequence,
                Of(Kind::Device),
                Level(Irql(0)),
                NoLock,
            ),
            Callback::EvtDeviceQueryRemove => callback_row(
                Rank::Sequence,
                Of(Kind::Device),
                Level(Irql(0)),
                NoLock,
            ),
            Callback::EvtDeviceSurpriseRemoval => callback_row(
                Rank::Sequence,
                Of(Kind::Device),
                Level(Irql(0)),
                NoLock,
            ),
            Callback::EvtInterruptEnable => callback_row(
                Rank::Sequence,
                Of(Kind::Interrupt),
                OfInterrupt,
                InterruptLock,
            ),
            Callback::EvtInterruptDisable => callback_row(
                Rank::Sequence,
                Of(Kind::Interrupt),
                OfInterrupt,
                InterruptLock,
            ),
            Callback::EvtWorkItem => callback_row(
                Rank::Work,
                Of(Kind::WorkItem),
                Level(Irql(0)),
                ParentScope,
            ),
            Callback::EvtCleanupCallback => callback_row(
                Rank::Cleanup,
                ClassOrDevice,
                Level(Irql(0)),
                NoLock,
            ),
            Callback::EvtDestroyCallback => callback_row(
                Rank::Destroy,
                ClassOrDevice,
                Level(Irql(0)),
                NoLock,
            ),
        }
    }
}

impl Callback {
    /// Whether it is on an interrupt, and runs with the interrupt's lock held. (KMDF)
    pub fn takes_interrupt_lock(self) -> bool
        ensures { result ≡ table.takes_interrupt_lock self }
    {
        matches!(
            self,
            Callback::EvtInterruptIsr | Callback::EvtInterruptEnable | Callback::EvtInterruptDisable
        )
    }

    /// Whether the driver of a working device may refuse by it what is asked. (KMDF)
    pub fn is_query(self) -> bool
        ensures { result ≡ table.is_query self }
    {
        matches!(
            self,
            Callback::EvtDeviceQueryStop | Callback::EvtDeviceQueryRemove
        )
    }
}

impl Rank {
    /// The place in the order of starts, from 1.
    pub fn number(self) -> u8
        ensures { result ≡ table.rank_number self }
    {
        match self {
            Rank::Isr => 1,
            Rank::Deferred => 2,
            Rank::Timed => 3,
            Rank::Completion => 4,
            Rank::Cancel => 5,
            Rank::CanceledOnQueue => 6,
            Rank::Stop => 7,
            Rank::Resume => 8,
            Rank::QueueState => 9,
            Rank::Handler => 10,
            Rank::Sequence => 11,
            Rank::Work => 12,
            Rank::Cleanup => 13,
            Rank::Destroy => 14,
        }
    }

    /// Whether its callbacks are for one request each.
    pub fn carries_request(self) -> bool
        ensures { result ≡ table.carries_request self }
    {
        matches!(
            self,
            Rank::Completion
                | Rank::Cancel
                | Rank::CanceledOnQueue
                | Rank::Stop
                | Rank::Resume
                | Rank::Handler
        )
    }
}
