//! The framework calls: the level of each, and the sorts of its arguments.
//!
//! # Choices
//!
//! - **What is in a call's row?** Its greatest level, the sorts of its three arguments, and whether a Cleaned object
//!   will do. The count of arguments follows from the row. The sort of a class argument says the kind of object that
//!   is made, which the plan asks of the class. The bounds of script errors (a cell up to 7, the flag of
//!   `WdfRequestSend` up to 1, the action of `WdfIoTargetStop` up to 2) are sorts too; other flags are any number.
//! - **How does a level depend on an argument?** `DispatchIf(n)`: 2 where the second argument is the number n, else
//!   0. It serves the flag 0 of two calls and the action 2 of one.
ghost use Rattle.std.specs.Prelude.{◌≡◌, ◌≤◌};
ghost use Rattle.wdf_base.specs.Calls as calls;

use crate::call::CallKind;
use crate::ids::Irql;
use crate::object::Kind;

/// What an argument of a framework call has to be.
#[derive(Clone, Copy, PartialEq, Eq)]
pub enum Sort {
    /// The call has no such argument.
    Absent,
    /// A class of the plan, of which an object of this kind is made.
    Class(Kind),
    /// An object of any kind.
    AnyObject,
    /// An object of this kind.
    ObjectOf(Kind),
    /// A request, arrived or made.
    AnyRequest,
    AnyStatus,
    AnyNumber,
    /// A number that isn't above this one.
    UpTo(u8),
    /// Any value.
    AnyValue,
}

/// The greatest level at which a framework call may be made.
#[derive(Clone, Copy, PartialEq, Eq)]
pub enum CallLevel {
    AtMost(Irql),
    /// The level of the interrupt that it names.
    OfInterrupt,
    /// DISPATCH_LEVEL where its second argument is this number, else PASSIVE_LEVEL.
    DispatchIf(u8),
}

/// What a framework call takes, and how high it may be made.
#[derive(Clone, Copy)]
pub struct Signature {
    pub level: CallLevel,
    pub a: Sort,
    pub b: Sort,
    pub c: Sort,
    /// Whether it may be made on a Cleaned object.
    pub cleaned: bool,
}

fn row(level: CallLevel, a: Sort, b: Sort, c: Sort, cleaned: bool) -> Signature
    ensures { result ≡ calls.row level a b c cleaned }
{
    Signature {
        level,
        a,
        b,
        c,
        cleaned,
    }
}

impl CallKind {
    /// Whether the call acquires a lock.
    pub fn is_acquire(self) -> bool
        ensures { result ≡ calls.is_acquire self }
    {
        matches!(
            self,
            CallKind::WdfSpinLockAcquire
                | CallKind::WdfWaitLockAcquire
                | CallKind::WdfInterruptAcquireLock
        )
    }

    /// Whether the call gives a lock back.
    pub fn is_release(self) -> bool
        ensures { result ≡ calls.is_release self }
    {
        matches!(
            self,
            CallKind::WdfSpinLockRelease
                | CallKind::WdfWaitLockRelease
                | CallKind::WdfInterruptReleaseLock
        )
    }
}

impl CallKind {
    /// What the call takes, and how high it may be made.
    pub fn signature(self) -> Signature
        ensures { result ≡ calls.signature_of self }
    {
        use CallLevel::{AtMost, DispatchIf, OfInterrupt};
        use Sort::{
            Absent, AnyNumber, AnyObject, AnyRequest, AnyStatus, AnyValue, Class, ObjectOf, UpTo,
        };
        match self {
            CallKind::WdfObjectCreate => row(
                AtMost(Irql(2)),
                Class(Kind::General),
                AnyObject,
                Absent,
                false,
            ),
            CallKind::WdfSpinLockCreate => row(
                AtMost(Irql(2)),
                Class(Kind::SpinLock),
                AnyObject,
                Absent,
                false,
            ),
            CallKind::WdfWaitLockCreate => row(
                AtMost(Irql(2)),
                Class(Kind::WaitLock),
                AnyObject,
                Absent,
                false,
            ),
            CallKind::WdfRequestCreate => row(
                AtMost(Irql(2)),
                Class(Kind::Made),
                AnyObject,
                Absent,
                false,
            ),
            CallKind::WdfDpcCreate => row(AtMost(Irql(2)), Class(Kind::Dpc), Absent, Absent, false),
            CallKind::WdfTimerCreate => row(
                AtMost(Irql(2)),
                Class(Kind::Timer),
                Absent,
                Absent,
                false,
            ),
            CallKind::WdfWorkItemCreate => row(
                AtMost(Irql(2)),
                Class(Kind::WorkItem),
                Absent,
                Absent,
                false,
            ),
            CallKind::WdfObjectDelete => row(AtMost(Irql(2)), AnyObject, Absent, Absent, false),
            CallKind::WdfObjectReference => row(AtMost(Irql(2)), AnyObject, Absent, Absent, true),
            CallKind::WdfObjectDereference => row(AtMost(Irql(2)), AnyObject, Absent, Absent, true),
            CallKind::GetContext => row(AtMost(Irql(12)), AnyObject, UpTo(7), Absent, true),
            CallKind::SetContext => row(AtMost(Irql(12)), AnyObject, UpTo(7), AnyValue, true),
            CallKind::WdfSpinLockAcquire => row(
                AtMost(Irql(2)),
                ObjectOf(Kind::SpinLock),
                Absent,
                Absent,
                false,
            ),
            CallKind::WdfSpinLockRelease => row(
                AtMost(Irql(2)),
                ObjectOf(Kind::SpinLock),
                Absent,
                Absent,
                false,
            ),
            CallKind::WdfWaitLockAcquire => row(
                AtMost(Irql(0)),
                ObjectOf(Kind::WaitLock),
                Absent,
                Absent,
                false,
            ),
            CallKind::WdfWaitLockRelease => row(
                AtMost(Irql(2)),
                ObjectOf(Kind::WaitLock),
                Absent,
                Absent,
                false,
            ),
            CallKind::WdfInterruptAcquireLock => row(
                OfInterrupt,
                ObjectOf(Kind::Interrupt),
                Absent,
                Absent,
                false,
            ),
            CallKind::WdfInterruptReleaseLock => row(
                OfInterrupt,
                ObjectOf(Kind::Interrupt),
                Absent,
                Absent,
                false,
            ),
            CallKind::WdfRequestComplete => row(
                AtMost(Irql(2)),
                ObjectOf(Kind::Request),
                AnyStatus,
                Absent,
                false,
            ),
            CallKind::WdfRequestMarkCancelableEx => row(
                AtMost(Irql(2)),
                ObjectOf(Kind::Request),
                Absent,
                Absent,
                false,
            ),
            CallKind::WdfRequestUnmarkCancelable => row(
                AtMost(Irql(2)),
                ObjectOf(Kind::Request),
                Absent,
                Absent,
                true,
            ),
            CallKind::WdfRequestIsCanceled => row(
                AtMost(Irql(2)),
                ObjectOf(Kind::Request),
                Absent,
                Absent,
                false,
            ),
            CallKind::WdfRequestRequeue => row(
                AtMost(Irql(2)),
                ObjectOf(Kind::Request),
                Absent,
                Absent,
                false,
            ),
            CallKind::WdfRequestForwardToIoQueue => row(
                AtMost(Irql(2)),
                ObjectOf(Kind::Request),
                ObjectOf(Kind::Queue),
                Absent,
                false,
            ),
            CallKind::WdfRequestStopAcknowledge => row(
                AtMost(Irql(2)),
                ObjectOf(Kind::Request),
                AnyNumber,
                Absent,
                false,
            ),
            CallKind::WdfRequestSend => row(
                AtMost(Irql(2)),
                AnyRequest,
                ObjectOf(Kind::Target),
                UpTo(1),
                false,
            ),
            CallKind::WdfRequestCancelSentRequest => row(
                AtMost(Irql(2)),
                AnyRequest,
                Absent,
                Absent,
                false,
            ),
            CallKind::WdfIoQueueStart => row(
                AtMost(Irql(2)),
                ObjectOf(Kind::Queue),
                Absent,
                Absent,
                false,
            ),
            CallKind::WdfIoQueueStop => row(
                AtMost(Irql(2)),
                ObjectOf(Kind::Queue),
                Absent,
                Absent,
                false,
            ),
            CallKind::WdfIoQueueDrain => row(
                AtMost(Irql(2)),
                ObjectOf(Kind::Queue),
                Absent,
                Absent,
                false,
            ),
            CallKind::WdfIoQueuePurge => row(
                AtMost(Irql(2)),
                ObjectOf(Kind::Queue),
                Absent,
                Absent,
                false,
            ),
            CallKind::WdfIoQueueStopSynchronously => row(
                AtMost(Irql(0)),
                ObjectOf(Kind::Queue),
                Absent,
                Absent,
                false,
            ),
            CallKind::WdfIoQueueDrainSynchronously => row(
                AtMost(Irql(0)),
                ObjectOf(Kind::Queue),
                Absent,
                Absent,
                false,
            ),
            CallKind::WdfIoQueuePurgeSynchronously => row(
                AtMost(Irql(0)),
                ObjectOf(Kind::Queue),
                Absent,
                Absent,
                false,
            ),
            CallKind::WdfIoQueueRetrieveNextRequest => row(
                AtMost(Irql(2)),
                ObjectOf(Kind::Queue),
                Absent,
                Absent,
                false,
            ),
            CallKind::WdfIoQueueReadyNotify => row(
                AtMost(Irql(2)),
                ObjectOf(Kind::Queue),
                AnyNumber,
                Absent,
                false,
            ),
            CallKind::WdfInterruptQueueDpcForIsr => row(
                AtMost(Irql(12)),
                ObjectOf(Kind::Interrupt),
                Absent,
                Absent,
                false,
            ),
            CallKind::WdfDpcEnqueue => row(
                AtMost(Irql(12)),
                ObjectOf(Kind::Dpc),
                Absent,
                Absent,
                false,
            ),
            CallKind::WdfDpcCancel => row(
                DispatchIf(0),
                ObjectOf(Kind::Dpc),
                AnyNumber,
                Absent,
                false,
            ),
            CallKind::WdfTimerStart => row(
                AtMost(Irql(2)),
                ObjectOf(Kind::Timer),
                AnyNumber,
                Absent,
                false,
            ),
            CallKind::WdfTimerStop => row(
                DispatchIf(0),
                ObjectOf(Kind::Timer),
                AnyNumber,
                Absent,
                false,
            ),
            CallKind::WdfWorkItemEnqueue => row(
                AtMost(Irql(2)),
                ObjectOf(Kind::WorkItem),
                Absent,
                Absent,
                false,
            ),
            CallKind::WdfWorkItemFlush => row(
                AtMost(Irql(0)),
                ObjectOf(Kind::WorkItem),
                Absent,
                Absent,
                false,
            ),
            CallKind::WdfIoTargetStop => row(
                DispatchIf(2),
                ObjectOf(Kind::Target),
                UpTo(2),
                Absent,
                false,
            ),
            CallKind::WdfIoTargetStart => row(
                AtMost(Irql(2)),
                ObjectOf(Kind::Target),
                Absent,
                Absent,
                false,
            ),
        }
    }
}

impl Sort {
    /// One argument, or none.
    fn count(self) -> u8
        ensures value { result ≡ calls.one_argument self }
        ensures small { result ≤ 1 }
    {
        match self {
            Sort::Absent => 0,
            _ => 1,
        }
    }
}

impl Signature {
    /// How many arguments the call takes.
    pub fn count(&self) -> u8
        ensures { result ≡ calls.argument_count self.now }
    {
        self.a.count() + self.b.count() + self.c.count()
    }
}
