//! Handles, kinds of objects, and levels.
use crate::sight::*;
use crate::values::*;
use std::test::Fail;
use wdf_base::{CallKind, Fault, Kind, Life};

/// Calls on an object, which may not be cleaned up.
static ON_LIVE: [Doing; 4] = [
    (Kind::Request, CallKind::WdfRequestComplete, &[IT, SUCCESS]),
    (Kind::Request, CallKind::WdfRequestIsCanceled, &[IT]),
    (Kind::Dpc, CallKind::WdfDpcEnqueue, &[IT]),
    (Kind::General, CallKind::WdfObjectDelete, &[IT]),
];

/// Calls that may name a cleaned object.
static ON_CLEANED: [Doing; 5] = [
    (Kind::General, CallKind::GetContext, &[IT, ZERO]),
    (Kind::General, CallKind::SetContext, &[IT, ZERO, QUEUE]),
    (Kind::General, CallKind::WdfObjectReference, &[IT]),
    (Kind::General, CallKind::WdfObjectDereference, &[IT]),
    (Kind::Request, CallKind::WdfRequestUnmarkCancelable, &[IT]),
];

/// Calls with a second object.
static WITH_OTHER: [Doing; 2] = [
    (
        Kind::Request,
        CallKind::WdfRequestForwardToIoQueue,
        &[IT, QUEUE],
    ),
    (Kind::Request, CallKind::WdfRequestSend, &[IT, TARGET, ZERO]),
];

/// An object argument is gone, or is cleaned up and the call isn't one of five. The value that
/// SetContext stores is no object argument.
#[test]
fn calls_on_stale_handles_are_faults(rt: HostRuntime) -> Result<(), Fail> {
    let stale = Some(Fault::StaleHandle);
    check(&rt, &ON_LIVE, &[But::Life(Life::Asked)], None);
    check(&rt, &ON_LIVE, &[But::Life(Life::Cleaned)], stale);
    check(&rt, &ON_LIVE, &[But::Life(Life::Gone)], stale);
    check(&rt, &ON_CLEANED, &[But::Life(Life::Cleaned)], None);
    check(&rt, &ON_CLEANED, &[But::Life(Life::Gone)], stale);
    check(&rt, &ON_CLEANED, &[But::Others(Life::Gone)], None);
    check(&rt, &WITH_OTHER, &[But::Others(Life::Asked)], None);
    check(&rt, &WITH_OTHER, &[But::Others(Life::Cleaned)], stale);
    Ok(())
}

/// A call for each kind of object.
static OF_A_KIND: [Doing; 8] = [
    (Kind::SpinLock, CallKind::WdfSpinLockAcquire, &[IT]),
    (Kind::WaitLock, CallKind::WdfWaitLockAcquire, &[IT]),
    (Kind::Interrupt, CallKind::WdfInterruptAcquireLock, &[IT]),
    (Kind::Queue, CallKind::WdfIoQueueStart, &[IT]),
    (Kind::Dpc, CallKind::WdfDpcEnqueue, &[IT]),
    (Kind::Timer, CallKind::WdfTimerStart, &[IT, ONE]),
    (Kind::WorkItem, CallKind::WdfWorkItemEnqueue, &[IT]),
    (Kind::Target, CallKind::WdfIoTargetStart, &[IT]),
];

/// Calls that take an arrived request alone.
static OF_ARRIVED: [Doing; 6] = [
    (Kind::Request, CallKind::WdfRequestComplete, &[IT, SUCCESS]),
    (Kind::Request, CallKind::WdfRequestMarkCancelableEx, &[IT]),
    (Kind::Request, CallKind::WdfRequestUnmarkCancelable, &[IT]),
    (Kind::Request, CallKind::WdfRequestIsCanceled, &[IT]),
    (Kind::Request, CallKind::WdfRequestRequeue, &[IT]),
    (
        Kind::Request,
        CallKind::WdfRequestForwardToIoQueue,
        &[IT, QUEUE],
    ),
];

/// Calls that take a request of either kind.
static OF_EITHER: [Doing; 2] = [
    (Kind::Request, CallKind::WdfRequestSend, &[IT, TARGET, ZERO]),
    (Kind::Request, CallKind::WdfRequestCancelSentRequest, &[IT]),
];

static AND_FORGET: [Doing; 1] = [(Kind::Request, CallKind::WdfRequestSend, &[IT, TARGET, ONE])];

/// Calls with an argument that isn't an object, or isn't the needed one.
static WRONG: [Doing; 4] = [
    (Kind::Request, CallKind::WdfRequestComplete, &[ONE, SUCCESS]),
    (Kind::General, CallKind::WdfObjectReference, &[SUCCESS]),
    (
        Kind::Request,
        CallKind::WdfRequestForwardToIoQueue,
        &[IT, TARGET],
    ),
    (Kind::Request, CallKind::WdfRequestSend, &[IT, QUEUE, ZERO]),
];

/// An argument isn't an object of the needed kind, or a made request is sent and forgotten.
#[test]
fn arguments_of_wrong_kinds_are_faults(rt: HostRuntime) -> Result<(), Fail> {
    let wrong = Some(Fault::WrongKind);
    check(&rt, &OF_A_KIND, &[], None);
    check(&rt, &OF_A_KIND, &[But::Kind(Kind::General)], wrong);
    check(&rt, &OF_ARRIVED, &[], None);
    check(&rt, &OF_ARRIVED, &[But::Kind(Kind::Made)], wrong);
    check(&rt, &OF_EITHER, &[But::Kind(Kind::Made)], None);
    check(&rt, &OF_EITHER, &[But::Kind(Kind::General)], wrong);
    check(&rt, &AND_FORGET, &[], None);
    check(&rt, &AND_FORGET, &[But::Kind(Kind::Made)], wrong);
    check(&rt, &WRONG, &[], wrong);
    Ok(())
}

/// Calls at level 0 alone.
static PASSIVE: [Doing; 9] = [
    (Kind::WaitLock, CallKind::WdfWaitLockAcquire, &[IT]),
    (Kind::Queue, CallKind::WdfIoQueueStopSynchronously, &[IT]),
    (Kind::Queue, CallKind::WdfIoQueueDrainSynchronously, &[IT]),
    (Kind::Queue, CallKind::WdfIoQueuePurgeSynchronously, &[IT]),
    (Kind::Dpc, CallKind::WdfDpcCancel, &[IT, ONE]),
    (Kind::Timer, CallKind::WdfTimerStop, &[IT, TWO]),
    (Kind::WorkItem, CallKind::WdfWorkItemFlush, &[IT]),
    (Kind::Target, CallKind::WdfIoTargetStop, &[IT, ZERO]),
    (Kind::Target, CallKind::WdfIoTargetStop, &[IT, ONE]),
];

/// Calls up to level 2.
static DISPATCH: [Doing; 8] = [
    (Kind::General, CallKind::WdfObjectDelete, &[IT]),
    (Kind::SpinLock, CallKind::WdfSpinLockAcquire, &[IT]),
    (Kind::Request, CallKind::WdfRequestComplete, &[IT, SUCCESS]),
    (Kind::Queue, CallKind::WdfIoQueueStop, &[IT]),
    (Kind::Dpc, CallKind::WdfDpcCancel, &[IT, ZERO]),
    (Kind::Timer, CallKind::WdfTimerStop, &[IT, ZERO]),
    (Kind::WorkItem, CallKind::WdfWorkItemEnqueue, &[IT]),
    (Kind::Target, CallKind::WdfIoTargetStop, &[IT, TWO]),
];

/// Calls at every level.
static EVERYWHERE: [Doing; 4] = [
    (Kind::General, CallKind::GetContext, &[IT, ZERO]),
    (Kind::General, CallKind::SetContext, &[IT, ZERO, ONE]),
    (Kind::Interrupt, CallKind::WdfInterruptQueueDpcForIsr, &[IT]),
    (Kind::Dpc, CallKind::WdfDpcEnqueue, &[IT]),
];

/// Calls up to the level of the interrupt.
static OF_INTERRUPT: [Doing; 1] = [(Kind::Interrupt, CallKind::WdfInterruptAcquireLock, &[IT])];

/// The processor's level is above the call's.
#[test]
fn calls_above_their_level_are_faults(rt: HostRuntime) -> Result<(), Fail> {
    let high = Some(Fault::IrqlTooHigh);
    check(&rt, &PASSIVE, &[], None);
    check(&rt, &PASSIVE, &[But::Irql(1)], high);
    check(&rt, &DISPATCH, &[But::Irql(2)], None);
    check(&rt, &DISPATCH, &[But::Irql(3)], high);
    check(&rt, &EVERYWHERE, &[But::Irql(12)], None);
    check(&rt, &OF_INTERRUPT, &[But::LevelOfIt(5), But::Irql(5)], None);
    check(&rt, &OF_INTERRUPT, &[But::LevelOfIt(5), But::Irql(6)], high);
    Ok(())
}
