//! Where several rows hold, the first is the fault.
use crate::sight::*;
use crate::values::*;
use std::test::Fail;
use wdf_base::{CallKind, Fault, Kind, Life, LockRef, Mark, Place};

/// A completion with a number in place of the status.
static COMPLETION: [Doing; 1] = [(Kind::Request, CallKind::WdfRequestComplete, &[IT, ONE])];

/// What is wrong with it beside that, in the order of the rows.
static WRONG: [But; 5] = [
    But::Life(Life::Gone),
    But::Kind(Kind::Queue),
    But::Irql(3),
    But::Place(Place::Done),
    But::Mark(Mark::Marked),
];

/// One mistake after another is mended.
#[test]
fn mistakes_come_in_order(rt: HostRuntime) -> Result<(), Fail> {
    for (mended, fault) in [
        (0, Fault::StaleHandle),
        (1, Fault::WrongKind),
        (2, Fault::IrqlTooHigh),
        (3, Fault::NotOwned),
        (4, Fault::CompleteWhileMarked),
        (5, Fault::ScriptError),
    ] {
        check(
            &rt,
            &COMPLETION,
            WRONG.get(mended..).unwrap_or(&[]),
            Some(fault),
        );
    }
    Ok(())
}

static RETURNED: [Doing; 1] = [(
    Kind::Request,
    CallKind::WdfRequestStopAcknowledge,
    &[IT, ONE],
)];

static UNKNOWN: [Doing; 1] = [(
    Kind::Request,
    CallKind::WdfRequestStopAcknowledge,
    &[IT, SUCCESS],
)];

static MARKING: [Doing; 1] = [(Kind::Request, CallKind::WdfRequestMarkCancelableEx, &[IT])];

static ACQUIRING: [Doing; 1] = [(Kind::WaitLock, CallKind::WdfWaitLockAcquire, &[IT])];

static STOPPING: [Doing; 1] = [(Kind::Queue, CallKind::WdfIoQueueStopSynchronously, &[QUEUE])];

/// Two rows hold of each.
#[test]
fn the_first_of_two_rows_is_the_fault(rt: HostRuntime) -> Result<(), Fail> {
    let marked = But::Mark(Mark::Marked);
    let held = But::Took(LockRef::Object(OBJECT.id));
    check(&rt, &RETURNED, &[But::NotHeld], Some(Fault::NotOwned));
    check(&rt, &RETURNED, &[marked], Some(Fault::CompleteWhileMarked));
    check(
        &rt,
        &RETURNED,
        &[But::Mark(Mark::Due)],
        Some(Fault::CompleteBeforeCancelCallback),
    );
    check(&rt, &UNKNOWN, &[], Some(Fault::AckOutsideStop));
    check(
        &rt,
        &MARKING,
        &[But::Place(Place::Done), marked],
        Some(Fault::NotOwned),
    );
    check(
        &rt,
        &ACQUIRING,
        &[But::Irql(1), held],
        Some(Fault::IrqlTooHigh),
    );
    check(&rt, &STOPPING, &[], Some(Fault::SyncInOwnScope));
    check(&rt, &STOPPING, &[But::Irql(1)], Some(Fault::IrqlTooHigh));
    Ok(())
}
