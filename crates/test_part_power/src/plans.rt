//! Small plans, each from a list of what it declares.
use std::alloc::Global;
use test_plans::PlanBuilder;
use wdf_base::*;

pub const DRIVER: ObjectId = ObjectId(1);

pub const DEVICE: ObjectId = ObjectId(2);

/// The first object of the device.
pub const FIRST: ObjectId = ObjectId(3);

/// The second object of the device.
pub const SECOND: ObjectId = ObjectId(4);

/// Another device, with one queue.
pub const OTHER_DEVICE: ObjectId = ObjectId(5);

/// The queue of the other device.
pub const OTHER_QUEUE: ObjectId = ObjectId(6);

/// What a plan declares, each with the number of its name.
#[derive(Clone, Copy)]
pub enum Object {
    Driver,
    /// A device that works from the opening on.
    Working(u32),
    /// A device that is off.
    Off(u32),
    /// A power-managed queue of a device.
    Queue(u32, ObjectId),
    /// An interrupt of the device 2.
    Interrupt(u32),
    /// A target of the device 2, which holds so many requests.
    Target(u32, u64),
}

/// What a plan declares: the objects, the names of the classes, and the callbacks, each with its
/// object.
pub struct Parts {
    pub objects: &'static [Object],
    pub classes: &'static [u32],
    pub callbacks: &'static [(Callback, Object)],
}

fn device(name: u32, working: bool) -> Declared {
    Declared::Device(DeviceInfo {
        name,
        working,
        scope: Scope::Unscoped,
        level: ExecutionLevel::Passive,
    })
}

fn queue(name: u32, device: ObjectId) -> Declared {
    Declared::Queue(QueueInfo {
        name,
        device,
        dispatch: DispatchKind::Sequential,
        serves: Serves {
            rest: true,
            read: false,
            write: false,
            control: false,
        },
        powered: true,
        zero: false,
        scope: Scope::Unscoped,
        level: ExecutionLevel::Passive,
    })
}

fn target(name: u32, depth: u64) -> Declared {
    Declared::Target(TargetInfo {
        name,
        device: DEVICE,
        delay: 1,
        status: Status::Success,
        depth,
    })
}

fn declared(object: Object) -> Declared {
    match object {
        Object::Driver => Declared::Driver,
        Object::Working(name) => device(name, true),
        Object::Off(name) => device(name, false),
        Object::Queue(name, device) => queue(name, device),
        Object::Interrupt(name) => Declared::Interrupt(InterruptInfo {
            name,
            device: DEVICE,
            level: Irql(5),
        }),
        Object::Target(name, depth) => target(name, depth),
    }
}

fn all_declared(alloc: Global, objects: &[Object]) -> Result<Items<Declared, MANY>, Memory> {
    let mut items = Items::new(alloc);
    for object in objects {
        if items.len() < 99 {
            items.push(declared(*object))?;
        }
    }
    Ok(items)
}

/// A class of general objects.
fn class(name: u32) -> ClassInfo {
    ClassInfo::Plain {
        name,
        kind: PlainKind::Object,
    }
}

fn all_classes(alloc: Global, names: &[u32]) -> Result<Items<ClassInfo, FEW>, Memory> {
    let mut items = Items::new(alloc);
    for name in names {
        if items.len() < 99 {
            items.push(class(*name))?;
        }
    }
    Ok(items)
}

/// A script with no statement.
fn script(alloc: Global, callback: Callback, object: Object) -> Script {
    Script {
        callback,
        owner: declared(object),
        line: 5,
        statements: Items::new(alloc),
    }
}

fn all_scripts(
    alloc: Global,
    callbacks: &[(Callback, Object)],
) -> Result<Items<Script, MANY>, Memory> {
    let mut items = Items::new(alloc);
    for (callback, object) in callbacks {
        if items.len() < 99 {
            items.push(script(alloc, *callback, *object))?;
        }
    }
    Ok(items)
}

/// The plan that declares these.
pub fn plan(alloc: Global, parts: &Parts) -> Result<Plan, Memory> {
    let declared = all_declared(alloc, parts.objects)?;
    let classes = all_classes(alloc, parts.classes)?;
    let scripts = all_scripts(alloc, parts.callbacks)?;
    let mut plan = PlanBuilder::new(alloc, 1, 100, 16).finish();
    plan.declared = declared;
    plan.classes = classes;
    plan.scripts = scripts;
    Ok(plan)
}

/// A working device with two power-managed queues, of which the first declares EvtIoResume, and a
/// device that is off, whose queue declares it too.
pub static WITH_QUEUES: Parts = Parts {
    objects: &[
        Object::Driver,
        Object::Working(2),
        Object::Queue(3, DEVICE),
        Object::Queue(4, DEVICE),
        Object::Off(5),
        Object::Queue(6, OTHER_DEVICE),
    ],
    classes: &[],
    callbacks: &[
        (Callback::EvtIoResume, Object::Queue(3, DEVICE)),
        (Callback::EvtIoResume, Object::Queue(6, OTHER_DEVICE)),
    ],
};

/// A device that is off, with callbacks, and two interrupts, of which the second declares only
/// EvtInterruptEnable.
pub static WITH_INTERRUPTS: Parts = Parts {
    objects: &[
        Object::Driver,
        Object::Off(2),
        Object::Interrupt(3),
        Object::Interrupt(4),
    ],
    classes: &[],
    callbacks: &[
        (Callback::EvtDevicePrepareHardware, Object::Off(2)),
        (Callback::EvtDeviceReleaseHardware, Object::Off(2)),
        (Callback::EvtDeviceD0Entry, Object::Off(2)),
        (Callback::EvtDeviceD0Exit, Object::Off(2)),
        (Callback::EvtDeviceSelfManagedIoInit, Object::Off(2)),
        (Callback::EvtDeviceQueryStop, Object::Off(2)),
        (Callback::EvtDeviceQueryRemove, Object::Off(2)),
        (Callback::EvtInterruptEnable, Object::Interrupt(3)),
        (Callback::EvtInterruptDisable, Object::Interrupt(3)),
        (Callback::EvtInterruptEnable, Object::Interrupt(4)),
    ],
};

/// A device with a target that holds two requests, and one that holds one.
pub static WITH_TARGETS: Parts = Parts {
    objects: &[
        Object::Driver,
        Object::Working(2),
        Object::Target(3, 2),
        Object::Target(4, 1),
    ],
    classes: &[],
    callbacks: &[],
};

/// Two classes, and no declared object but the driver object.
pub static WITH_CLASSES: Parts = Parts {
    objects: &[Object::Driver],
    classes: &[2, 3],
    callbacks: &[],
};

/// A device with two queues, two interrupts and two targets, and between them another device with a queue.
pub static WITH_BELONGINGS: Parts = Parts {
    objects: &[
        Object::Driver,
        Object::Working(2),
        Object::Queue(3, DEVICE),
        Object::Interrupt(4),
        Object::Off(5),
        Object::Queue(6, OTHER_DEVICE),
        Object::Target(7, 1),
        Object::Queue(8, DEVICE),
        Object::Interrupt(9),
        Object::Target(10, 1),
    ],
    classes: &[],
    callbacks: &[],
};
