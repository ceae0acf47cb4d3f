//! What a plan declares under an id.
use crate::plans::*;
use crate::trials::Wrong;
use wdf_base::*;
use wdf_declared::{
    class_at, declared_at, declares, device_of, interrupt_of, name_of_class, queue_of, target_of,
};

/// What a plan declares under an id; a queue, an interrupt and a target have a name.
#[derive(Clone, Copy)]
enum Declaration {
    Nothing,
    Driver,
    Device,
    Queue(u32),
    Interrupt(u32),
    Target(u32),
}

/// What is found under an id.
#[derive(Clone, Copy)]
struct Found {
    /// Whether it is anything.
    is_there: bool,
    /// Whether it is a device.
    device: bool,
    /// The name of a queue.
    queue: Option<u32>,
    /// The name of an interrupt.
    interrupt: Option<u32>,
    /// The name of a target.
    target: Option<u32>,
}

const NOTHING: Found = Found {
    is_there: false,
    device: false,
    queue: None,
    interrupt: None,
    target: None,
};

/// What is there, but of none of these kinds: the driver object.
const ANYTHING: Found = Found {
    is_there: true,
    ..NOTHING
};

/// What is due where this is declared.
fn due_of(declaration: Declaration) -> Found {
    match declaration {
        Declaration::Nothing => NOTHING,
        Declaration::Driver => ANYTHING,
        Declaration::Device => Found {
            device: true,
            ..ANYTHING
        },
        Declaration::Queue(name) => Found {
            queue: Some(name),
            ..ANYTHING
        },
        Declaration::Interrupt(name) => Found {
            interrupt: Some(name),
            ..ANYTHING
        },
        Declaration::Target(name) => Found {
            target: Some(name),
            ..ANYTHING
        },
    }
}

/// The ids of the driver object, of what is declared after it, and of nothing, in the plan with
/// queues.
static OF_QUEUES: [(u32, Declaration); 8] = [
    (0, Declaration::Nothing),
    (1, Declaration::Driver),
    (2, Declaration::Device),
    (3, Declaration::Queue(3)),
    (4, Declaration::Queue(4)),
    (5, Declaration::Device),
    (6, Declaration::Queue(6)),
    (7, Declaration::Nothing),
];

/// The same ids in the plan with interrupts.
static OF_INTERRUPTS: [(u32, Declaration); 8] = [
    (0, Declaration::Nothing),
    (1, Declaration::Driver),
    (2, Declaration::Device),
    (3, Declaration::Interrupt(3)),
    (4, Declaration::Interrupt(4)),
    (5, Declaration::Nothing),
    (6, Declaration::Nothing),
    (7, Declaration::Nothing),
];

/// Ids in the plan with targets.
static OF_TARGETS: [(u32, Declaration); 6] = [
    (0, Declaration::Nothing),
    (1, Declaration::Driver),
    (2, Declaration::Device),
    (3, Declaration::Target(3)),
    (4, Declaration::Target(4)),
    (5, Declaration::Nothing),
];

/// Classes by their numbers, with the numbers of their names, 0 for what is no class.
static CLASSES: [(u16, u32); 3] = [(0, 2), (1, 3), (2, 0)];

/// A callback is declared by the object in whose block it is, and by no other: those of the plan
/// with interrupts.
static CALLBACKS: [(Callback, ObjectId, bool); 10] = [
    (Callback::EvtInterruptEnable, FIRST, true),
    (Callback::EvtInterruptEnable, SECOND, true),
    (Callback::EvtInterruptEnable, DEVICE, false),
    (Callback::EvtInterruptDisable, FIRST, true),
    (Callback::EvtInterruptDisable, SECOND, false),
    (Callback::EvtDeviceD0Entry, DEVICE, true),
    (Callback::EvtDeviceD0Entry, FIRST, false),
    (Callback::EvtDeviceQueryRemove, DEVICE, true),
    (Callback::EvtDeviceSurpriseRemoval, DEVICE, false),
    (Callback::EvtInterruptEnable, ObjectId(77), false),
];

/// The number of the name of a queue.
fn queue_name(plan: &Plan, o: ObjectId) -> Option<u32> {
    match queue_of(plan, o) {
        Some(info) => Some(info.name),
        None => None,
    }
}

/// The number of the name of an interrupt.
fn interrupt_name(plan: &Plan, o: ObjectId) -> Option<u32> {
    match interrupt_of(plan, o) {
        Some(info) => Some(info.name),
        None => None,
    }
}

/// The number of the name of a target.
fn target_name(plan: &Plan, o: ObjectId) -> Option<u32> {
    match target_of(plan, o) {
        Some(info) => Some(info.name),
        None => None,
    }
}

/// Whether this is found under an id.
fn is_found(plan: &Plan, o: ObjectId, due: Found) -> bool {
    declared_at(plan, o).is_some() == due.is_there
        && device_of(plan, o).is_some() == due.device
        && queue_name(plan, o) == due.queue
        && interrupt_name(plan, o) == due.interrupt
        && target_name(plan, o) == due.target
}

/// What is wrong with these declarations.
fn wrong_of(plan: &Plan, all: &[(u32, Declaration)]) -> Wrong {
    for (place, (id, declaration)) in all.iter().enumerate() {
        if !is_found(plan, ObjectId(*id), due_of(*declaration)) {
            return Some(("declarations", place));
        }
    }
    None
}

/// What is wrong with the plan with queues.
pub fn wrong_of_queues(plan: &Plan) -> Wrong {
    wrong_of(plan, &OF_QUEUES)
}

/// What is wrong with the plan with interrupts.
pub fn wrong_of_interrupts(plan: &Plan) -> Wrong {
    for (place, (callback, o, due)) in CALLBACKS.iter().enumerate() {
        if declares(plan, *callback, *o) != *due {
            return Some(("callbacks", place));
        }
    }
    wrong_of(plan, &OF_INTERRUPTS)
}

/// What is wrong with the plan with targets.
pub fn wrong_of_targets(plan: &Plan) -> Wrong {
    wrong_of(plan, &OF_TARGETS)
}

/// What is wrong with the plan with classes.
pub fn wrong_of_classes(plan: &Plan) -> Wrong {
    for (class, name) in &CLASSES {
        let found = name_of_class(plan, *class);
        if found != *name || class_at(plan, *class).is_some() != (*name > 0) {
            return Some(("classes", usize::from(*class)));
        }
    }
    None
}
