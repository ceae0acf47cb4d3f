//! Two are one where no field differs: each case changes one field.
use wdf_base::*;

const DEVICE: DeviceInfo = DeviceInfo {
    name: 2,
    working: true,
    scope: Scope::PerDevice,
    level: ExecutionLevel::Dispatch,
};

const SERVES: Serves = Serves {
    rest: true,
    read: false,
    write: true,
    control: false,
};

const QUEUE: QueueInfo = QueueInfo {
    name: 3,
    device: ObjectId(2),
    dispatch: DispatchKind::Parallel(4),
    serves: SERVES,
    powered: true,
    zero: false,
    scope: Scope::PerQueue,
    level: ExecutionLevel::Dispatch,
};

const INTERRUPT: InterruptInfo = InterruptInfo {
    name: 4,
    device: ObjectId(2),
    level: Irql(5),
};

const TARGET: TargetInfo = TargetInfo {
    name: 5,
    device: ObjectId(2),
    delay: 3,
    status: Status::Success,
    depth: 4,
};

/// Whether ids, levels, statuses, callbacks and scopes are told apart.
fn words_are_apart() -> bool {
    let passive = ExecutionLevel::Passive;
    same_object_id(ObjectId(3), ObjectId(3))
        && !same_object_id(ObjectId(3), ObjectId(4))
        && same_irql(Irql(3), Irql(3))
        && !same_irql(Irql(3), Irql(4))
        && same_status(Status::WdfBusy, Status::WdfBusy)
        && !same_status(Status::WdfBusy, Status::WdfPaused)
        && same_callback(Callback::EvtIoStop, Callback::EvtIoStop)
        && !same_callback(Callback::EvtIoStop, Callback::EvtIoResume)
        && same_scope(Scope::Unscoped, Scope::Unscoped)
        && !same_scope(Scope::Unscoped, Scope::PerQueue)
        && same_execution_level(passive, passive)
        && !same_execution_level(passive, ExecutionLevel::Dispatch)
}

const OTHERS: Serves = Serves {
    rest: false,
    read: false,
    write: true,
    control: false,
};

/// Whether kinds of dispatch and types of requests are told apart.
fn parts_of_queues_are_apart() -> bool {
    let parallel = DispatchKind::Parallel(4);
    same_dispatch(parallel, parallel)
        && !same_dispatch(parallel, DispatchKind::Parallel(5))
        && !same_dispatch(parallel, DispatchKind::Manual)
        && same_serves(SERVES, SERVES)
        && !same_serves(SERVES, OTHERS)
}

/// A field of a queue, a device, an interrupt or a target.
#[derive(Clone, Copy)]
enum Field {
    Name,
    Device,
    Dispatch,
    Serves,
    Powered,
    Zero,
    Scope,
    Level,
    Working,
    Delay,
    Status,
    Depth,
}

static OF_QUEUE: [Field; 8] = [
    Field::Name,
    Field::Device,
    Field::Dispatch,
    Field::Serves,
    Field::Powered,
    Field::Zero,
    Field::Scope,
    Field::Level,
];

/// The queue with one field changed.
fn other_queue(field: Field) -> QueueInfo {
    let mut queue = QUEUE;
    match field {
        Field::Name => queue.name = 4,
        Field::Device => queue.device = ObjectId(3),
        Field::Dispatch => queue.dispatch = DispatchKind::Manual,
        Field::Serves => queue.serves = OTHERS,
        Field::Powered => queue.powered = false,
        Field::Zero => queue.zero = true,
        Field::Scope => queue.scope = Scope::PerDevice,
        _ => queue.level = ExecutionLevel::Passive,
    }
    queue
}

static OF_DEVICE: [Field; 4] = [Field::Name, Field::Working, Field::Scope, Field::Level];

/// The device with one field changed.
fn other_device(field: Field) -> DeviceInfo {
    let mut device = DEVICE;
    match field {
        Field::Name => device.name = 3,
        Field::Working => device.working = false,
        Field::Scope => device.scope = Scope::PerQueue,
        _ => device.level = ExecutionLevel::Passive,
    }
    device
}

static OF_INTERRUPT: [Field; 3] = [Field::Name, Field::Device, Field::Level];

/// The interrupt with one field changed.
fn other_interrupt(field: Field) -> InterruptInfo {
    let mut interrupt = INTERRUPT;
    match field {
        Field::Name => interrupt.name = 5,
        Field::Device => interrupt.device = ObjectId(3),
        _ => interrupt.level = Irql(6),
    }
    interrupt
}

static OF_TARGET: [Field; 5] = [
    Field::Name,
    Field::Device,
    Field::Delay,
    Field::Status,
    Field::Depth,
];

/// The target with one field changed.
fn other_target(field: Field) -> TargetInfo {
    let mut target = TARGET;
    match field {
        Field::Name => target.name = 6,
        Field::Device => target.device = ObjectId(3),
        Field::Delay => target.delay = 4,
        Field::Status => target.status = Status::Cancelled,
        _ => target.depth = 5,
    }
    target
}

/// Whether the queue is told apart from one with another field.
fn is_other_queue(field: Field) -> bool {
    let other = other_queue(field);
    !same_queue(&QUEUE, &other) && !same_declared(&Declared::Queue(QUEUE), &Declared::Queue(other))
}

/// Whether each is one with itself.
fn are_themselves() -> bool {
    same_queue(&QUEUE, &QUEUE)
        && same_device(&DEVICE, &DEVICE)
        && same_interrupt(&INTERRUPT, &INTERRUPT)
        && same_target(&TARGET, &TARGET)
}

#[test]
fn what_is_declared_is_told_apart(rt: HostRuntime) {
    assert!(rt; words_are_apart() && parts_of_queues_are_apart() && are_themselves());
    for (place, field) in OF_QUEUE.iter().enumerate() {
        assert!(rt; is_other_queue(*field), "{place}");
    }
    for (place, field) in OF_DEVICE.iter().enumerate() {
        assert!(rt; !same_device(&DEVICE, &other_device(*field)), "{place}");
    }
    for (place, field) in OF_INTERRUPT.iter().enumerate() {
        assert!(rt;
            !same_interrupt(&INTERRUPT, &other_interrupt(*field)),
            "{place}"
        );
    }
    for (place, field) in OF_TARGET.iter().enumerate() {
        assert!(rt; !same_target(&TARGET, &other_target(*field)), "{place}");
    }
}
