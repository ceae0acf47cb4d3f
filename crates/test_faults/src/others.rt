//! References, deletions, locks, hardware, waits and errors of scripts.
use crate::sight::*;
use crate::values::*;
use std::test::Fail;
use wdf_base::{CallKind, Change, Fault, Intent, Kind, LockRef, ObjectId, Status, Value};
use wdf_model::object_in;

static DEREFERENCE: [Doing; 1] = [(Kind::General, CallKind::WdfObjectDereference, &[IT])];

static DELETE: [Doing; 1] = [(Kind::General, CallKind::WdfObjectDelete, &[IT])];

/// A reference is given up that isn't held, or an object deleted that the driver doesn't own.
#[test]
fn only_held_references_and_made_objects_are_given_up(rt: HostRuntime) -> Result<(), Fail> {
    check(&rt, &DEREFERENCE, &[], None);
    check(
        &rt,
        &DEREFERENCE,
        &[But::Unreferenced],
        Some(Fault::NoReferenceHeld),
    );
    for kind in [
        Kind::Driver,
        Kind::Device,
        Kind::Queue,
        Kind::Interrupt,
        Kind::Target,
        Kind::Request,
    ] {
        check(
            &rt,
            &DELETE,
            &[But::Kind(kind)],
            Some(Fault::DeleteNotAllowed),
        );
    }
    for kind in [
        Kind::Dpc,
        Kind::Timer,
        Kind::WorkItem,
        Kind::SpinLock,
        Kind::WaitLock,
        Kind::General,
        Kind::Made,
    ] {
        check(&rt, &DELETE, &[But::Kind(kind)], None);
    }
    Ok(())
}

static ACQUIRING: [Doing; 3] = [
    (Kind::SpinLock, CallKind::WdfSpinLockAcquire, &[IT]),
    (Kind::WaitLock, CallKind::WdfWaitLockAcquire, &[IT]),
    (Kind::Interrupt, CallKind::WdfInterruptAcquireLock, &[IT]),
];

static RELEASING: [Doing; 3] = [
    (Kind::SpinLock, CallKind::WdfSpinLockRelease, &[IT]),
    (Kind::WaitLock, CallKind::WdfWaitLockRelease, &[IT]),
    (Kind::Interrupt, CallKind::WdfInterruptReleaseLock, &[IT]),
];

/// The lock of the object that the case is about.
const ITS_LOCK: LockRef = LockRef::Object(ObjectId(5));

const OTHER_LOCK: LockRef = LockRef::Object(ObjectId(6));

/// The frame is number 7. Only what it took by a call may it release, and that it must.
#[test]
fn a_frame_releases_what_it_took_and_nothing_else(rt: HostRuntime) -> Result<(), Fail> {
    let already = Some(Fault::LockHeldAlready);
    let not_held = Some(Fault::LockNotHeld);
    check(&rt, &ACQUIRING, &[], None);
    check(&rt, &ACQUIRING, &[But::Holds(ITS_LOCK, 7)], already);
    check(&rt, &ACQUIRING, &[But::Holds(ITS_LOCK, 8)], None);
    check(&rt, &ACQUIRING, &[But::Took(ITS_LOCK)], already);
    check(&rt, &ACQUIRING, &[But::Took(OTHER_LOCK)], None);
    check(&rt, &RELEASING, &[], not_held);
    check(&rt, &RELEASING, &[But::Holds(ITS_LOCK, 7)], not_held);
    check(&rt, &RELEASING, &[But::Took(ITS_LOCK)], None);
    check(&rt, &RELEASING, &[But::Took(OTHER_LOCK)], not_held);
    let returns = Intent::Return(Value::Stat(Status::Success));
    let holding = Some(Fault::ReturnHoldingLock);
    assert_eq!(rt; fault_at(&[But::Took(OTHER_LOCK)], &returns), holding);
    assert_eq!(rt; fault_at(&[But::Holds(OTHER_LOCK, 7)], &returns), None);
    Ok(())
}

/// A register is read or written while its device has no hardware; a statement has an error.
#[test]
fn registers_without_hardware_and_broken_statements_are_faults(
    rt: HostRuntime,
) -> Result<(), Fail> {
    let change = Change::Branch;
    let put = Intent::Put {
        register: 0,
        value: 1,
    };
    for (intent, fault) in [
        (Intent::Get(0), Some(Fault::HardwareReleased)),
        (put, Some(Fault::HardwareReleased)),
        (Intent::Broken, Some(Fault::ScriptError)),
        (Intent::Log(Value::Num(1)), None),
        (Intent::Spend(1), None),
        (Intent::Local { change, next: 2 }, None),
    ] {
        let wrong = [But::NoHardware, But::Took(OTHER_LOCK), But::Irql(5)];
        assert_eq!(rt; fault_at(&wrong, &intent), fault, "{:?}", intent);
    }
    assert_eq!(rt; fault_at(&[], &Intent::Get(0)), None);
    assert_eq!(rt; fault_at(&[], &put), None);
    Ok(())
}

/// Calls that wait for what runs on an object or is held from it.
static WAITING: [Doing; 6] = [
    (Kind::Queue, CallKind::WdfIoQueueStopSynchronously, &[IT]),
    (Kind::Queue, CallKind::WdfIoQueueDrainSynchronously, &[IT]),
    (Kind::Queue, CallKind::WdfIoQueuePurgeSynchronously, &[IT]),
    (Kind::WorkItem, CallKind::WdfWorkItemFlush, &[IT]),
    (Kind::Dpc, CallKind::WdfDpcCancel, &[IT, ONE]),
    (Kind::Timer, CallKind::WdfTimerStop, &[IT, ONE]),
];

static NOT_WAITING: [Doing; 3] = [
    (Kind::Queue, CallKind::WdfIoQueueStop, &[IT]),
    (Kind::Dpc, CallKind::WdfDpcCancel, &[IT, ZERO]),
    (Kind::Timer, CallKind::WdfTimerStop, &[IT, ZERO]),
];

const SCOPE: LockRef = LockRef::DeviceScope(ObjectId(2));

/// The frame runs on the call's object, or holds the scope lock that this object's callbacks need.
#[test]
fn waiting_in_the_own_scope_is_a_fault(rt: HostRuntime) -> Result<(), Fail> {
    let own = Some(Fault::SyncInOwnScope);
    let on_it = But::RunsOn(OBJECT.id);
    let scoped = But::Scope(SCOPE);
    check(&rt, &WAITING, &[], None);
    check(&rt, &WAITING, &[on_it], own);
    check(&rt, &WAITING, &[scoped], None);
    check(&rt, &WAITING, &[scoped, But::Holds(SCOPE, 7)], own);
    check(&rt, &WAITING, &[scoped, But::Holds(SCOPE, 8)], None);
    check(&rt, &WAITING, &[But::Holds(SCOPE, 7)], None);
    check(
        &rt,
        &NOT_WAITING,
        &[on_it, scoped, But::Holds(SCOPE, 7)],
        None,
    );
    Ok(())
}

/// Calls with a number or a status of the wrong kind, or with a number that is too great.
static BROKEN: [Doing; 8] = [
    (Kind::Request, CallKind::WdfRequestComplete, &[IT, ONE]),
    (Kind::Request, CallKind::WdfRequestComplete, &[IT, IT]),
    (Kind::General, CallKind::GetContext, &[IT, EIGHT]),
    (Kind::General, CallKind::SetContext, &[IT, EIGHT, ONE]),
    (Kind::Request, CallKind::WdfRequestSend, &[IT, TARGET, TWO]),
    (Kind::Target, CallKind::WdfIoTargetStop, &[IT, THREE]),
    (Kind::Timer, CallKind::WdfTimerStart, &[IT, SUCCESS]),
    (Kind::Queue, CallKind::WdfIoQueueReadyNotify, &[IT, SUCCESS]),
];

/// The same calls with what they take.
static WHOLE: [Doing; 7] = [
    (Kind::Request, CallKind::WdfRequestComplete, &[IT, SUCCESS]),
    (Kind::General, CallKind::GetContext, &[IT, SEVEN]),
    (Kind::General, CallKind::SetContext, &[IT, SEVEN, SUCCESS]),
    (Kind::Request, CallKind::WdfRequestSend, &[IT, TARGET, ONE]),
    (Kind::Target, CallKind::WdfIoTargetStop, &[IT, TWO]),
    (Kind::Timer, CallKind::WdfTimerStart, &[IT, EIGHT]),
    (Kind::Queue, CallKind::WdfIoQueueReadyNotify, &[IT, TWO]),
];

#[test]
fn broken_arguments_are_script_errors(rt: HostRuntime) -> Result<(), Fail> {
    check(&rt, &BROKEN, &[], Some(Fault::ScriptError));
    check(&rt, &WHOLE, &[], None);
    assert!(rt; ONE.is_number(1));
    assert!(rt; !ONE.is_number(0));
    assert!(rt; !SUCCESS.is_number(0));
    assert_eq!(rt; object_in(IT), OBJECT.id);
    assert_eq!(rt; object_in(ONE), ObjectId(0));
    Ok(())
}
