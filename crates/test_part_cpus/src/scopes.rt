//! The locks under which callbacks run.
use std::alloc::Global;
use std::test::Fail;
use test_plans::{PlanBuilder, items};
use wdf_base::{
    Callback, ClassInfo, Declared, DeferredKind, DeviceInfo, DispatchKind, ExecutionLevel,
    InterruptInfo, Irql, LockRef, Memory, ObjectId, Plan, QueueInfo, Scope, Serves,
};
use wdf_lock::{lock_of_callback, scope_of, scope_of_object};

const DEVICE: ObjectId = ObjectId(2);

const QUEUE: ObjectId = ObjectId(3);

fn device(scope: Scope) -> Declared {
    Declared::Device(DeviceInfo {
        name: 2,
        working: true,
        scope,
        level: ExecutionLevel::Dispatch,
    })
}

fn queue(scope: Scope) -> Declared {
    Declared::Queue(QueueInfo {
        name: 3,
        device: DEVICE,
        dispatch: DispatchKind::Sequential,
        serves: Serves {
            rest: true,
            read: false,
            write: false,
            control: false,
        },
        powered: true,
        zero: false,
        scope,
        level: ExecutionLevel::Dispatch,
    })
}

/// A class of DPCs.
fn dpcs(parent: ObjectId, serialize: bool) -> ClassInfo {
    ClassInfo::Deferred {
        name: 4,
        kind: DeferredKind::Dpc,
        parent,
        serialize,
        period: 0,
    }
}

/// A device and a queue with this scope, and classes of DPCs: with the queue as parent, with the
/// device, and one that isn't serialized.
fn scoped(alloc: Global, scope: Scope) -> Result<Plan, Memory> {
    let declared = items(alloc, &[Declared::Driver, device(scope), queue(scope)])?;
    let classes = items(
        alloc,
        &[dpcs(QUEUE, true), dpcs(DEVICE, true), dpcs(QUEUE, false)],
    )?;
    let mut plan = PlanBuilder::new(alloc, 1, 99, 9).finish();
    plan.declared = declared;
    plan.classes = classes;
    Ok(plan)
}

/// A scope, and the locks under which the callbacks of the queue run, and of a serialized DPC whose
/// parent is the device.
struct Locked {
    scope: Scope,
    on_queue: Option<LockRef>,
    under_device: Option<LockRef>,
}

/// A queue's callbacks run under the lock that its effective scope names; those of a serialized DPC
/// under its parent's, which a device has only where its scope is the device.
static LOCKED: [Locked; 3] = [
    Locked {
        scope: Scope::PerDevice,
        on_queue: Some(LockRef::DeviceScope(DEVICE)),
        under_device: Some(LockRef::DeviceScope(DEVICE)),
    },
    Locked {
        scope: Scope::PerQueue,
        on_queue: Some(LockRef::QueueScope(QUEUE)),
        under_device: None,
    },
    Locked {
        scope: Scope::Unscoped,
        on_queue: None,
        under_device: None,
    },
];

/// Whether a callback runs under this lock, which is that of its scope.
fn runs_under(
    plan: &Plan,
    callback: Callback,
    o: ObjectId,
    declared: Declared,
    due: Option<LockRef>,
) -> bool {
    let declared = Some(declared);
    scope_of(plan, callback, o, declared) == due
        && lock_of_callback(plan, callback, o, declared) == due
        && scope_of_object(plan, o, declared) == due
}

/// Whether the DPCs of a class run under this lock.
fn class_runs_under(plan: &Plan, class: u16, due: Option<LockRef>) -> bool {
    let of_class = Declared::OfClass(class);
    runs_under(plan, Callback::EvtDpcFunc, ObjectId(9), of_class, due)
}

/// Whether the callbacks of the plan run under these locks.
fn all_run_under(plan: &Plan, due: &Locked) -> bool {
    let on_queue = queue(due.scope);
    runs_under(plan, Callback::EvtIoRead, QUEUE, on_queue, due.on_queue)
        && class_runs_under(plan, 0, due.on_queue)
        && class_runs_under(plan, 1, due.under_device)
        && class_runs_under(plan, 2, None)
        && class_runs_under(plan, 9, None)
}

const INTERRUPT: ObjectId = ObjectId(4);

/// An interrupt's callbacks take its own lock, which is no scope lock; its DPC takes none.
static OWN: [(Callback, Option<LockRef>); 3] = [
    (Callback::EvtInterruptIsr, Some(LockRef::Object(INTERRUPT))),
    (
        Callback::EvtInterruptEnable,
        Some(LockRef::Object(INTERRUPT)),
    ),
    (Callback::EvtInterruptDpc, None),
];

/// Whether a callback of the interrupt takes this lock, and runs under no scope.
fn interrupt_takes(plan: &Plan, callback: Callback, due: Option<LockRef>) -> bool {
    let declared = Some(Declared::Interrupt(InterruptInfo {
        name: 5,
        device: DEVICE,
        level: Irql(5),
    }));
    lock_of_callback(plan, callback, INTERRUPT, declared) == due
        && scope_of(plan, callback, INTERRUPT, declared).is_none()
}

/// Whether the callbacks of the device take no lock.
fn device_takes_none(plan: &Plan) -> bool {
    let on_device = Some(device(Scope::PerDevice));
    lock_of_callback(plan, Callback::EvtDeviceD0Entry, DEVICE, on_device).is_none()
        && scope_of_object(plan, DEVICE, on_device).is_none()
}

/// What is wrong with the locks of a plan: the place of a callback of the interrupt, or the number
/// of these for another callback.
fn wrong_in(plan: Plan, due: &Locked) -> Option<usize> {
    for (place, (callback, own)) in OWN.iter().enumerate() {
        if !interrupt_takes(&plan, *callback, *own) {
            return Some(place);
        }
    }
    if all_run_under(&plan, due) && device_takes_none(&plan) {
        None
    } else {
        Some(OWN.len())
    }
}

#[test]
fn a_scope_names_the_lock(rt: HostRuntime) -> Result<(), Fail> {
    for due in &LOCKED {
        let plan = scoped(rt.alloc(), due.scope)?;
        assert_eq!(rt; wrong_in(plan, due), None);
    }
    Ok(())
}
