//! A scenario of version 2, and the names, objects, classes and registers that its plan has after the rules
//! alone, in the order of the lines.
use crate::answers::{has_names, plan_of};
use crate::second_posts::{has_agents, has_whens_and_asks};
use crate::second_scripts::{has_nodes, has_scripts};
use std::alloc::Global;
use wdf_base::{
    ClassInfo, Declared, DeferredKind, DeviceInfo, DispatchKind, ExecutionLevel, Handle,
    InterruptInfo, Irql, ObjectId, PlainKind, Plan, QueueInfo, RegisterInfo, Scope, Serves, Status,
    TargetInfo,
};

/// Three devices: the interrupts, queues and targets of each are mixed. One app and the most classes
/// come before the devices, the other app and two classes after them.
const TEXT: &str = "version 2
# Comments and empty lines count as lines alone.
cpus 3
limit 5000
objects 40

app Ann
at 0 write Hi 12
at 3 read Lo 8 # eight bytes

at 3 cancel 2
end

driver
scope queue
level passive
end

class Note object
end
class Guard spinlock
end
class Gate waitlock
end
# It runs again and again, under a device of level dispatch.
class Beat timer Hi
serialize
period 7
on EvtTimerFunc
log 1
end
end
class Once timer Lo
period 0
on EvtTimerFunc
end
end

device Lo
scope device
register Data 5
at 20 lower Slow
when read Data set Stat 6 after 4
queue Held manual
power off
level dispatch
end
register Stat 0
interrupt Slow passive
on EvtInterruptIsr
get s = Stat
end
end

queue Reads sequential
for read
for control
scope none
on EvtIoRead
let n = ( length - 1 )
call m = WdfRequestForwardToIoQueue request Held
if ( m != SUCCESS )
log n
call WdfRequestComplete request m
end
end
end
target Wire 30 UNSUCCESSFUL 9
on EvtRequestCompletion
call WdfRequestComplete request status
end
end
interrupt Fast 9
on EvtInterruptIsr
end
end
when write Stat raise Fast after 0
at 20 set Data 44
on EvtDeviceD0Entry
# The variables are numbered as they are first assigned: a, b, c.
if ( c == b )
let a = ( b + 3 )
get b = Data
call c = WdfSpinLockCreate Guard device
let a = ( c | ( a % b ) )
put Stat a
end
call b = WdfObjectCreate Note Reads
end
on EvtDeviceD0Exit
call c = WdfTimerCreate Once
let a = c
end
end

device Hi
level dispatch
scope inherit
register Port 9000000000
at 7 raise Bell
target Link 0 WDF_BUSY 256
on EvtRequestCompletion
end
end
queue Work parallel 6
default
zero
on EvtIoDefault
call WdfRequestSend request Link 1
end
end
interrupt Bell 12
on EvtInterruptIsr
get t = Port
call WdfInterruptAcquireLock Slow
end
end
when read Port lower Bell after 1000
queue Tasks manual
for write
scope device
level passive
end
on EvtDeviceD0Entry
call t = WdfTimerCreate Beat
call w = WdfWorkItemCreate Chore
call l = WdfWaitLockCreate Gate Tasks
call d = WdfDpcCreate Soon
log Bell
end
end

pnp
at 0 start Lo
at 0 start Hi
at 50 sleep Lo
at 60 wake Lo
at 70 rebalance Hi
at 80 remove Lo

at 90 surprise Up
end

# It works from the beginning, and so it has no interrupt.
device Up working
queue Spare sequential
end
end

class Chore workitem Reads
serialize
on EvtWorkItem
spend 2
end
end
class Soon dpc Work
on EvtDpcFunc
return CANCELLED
end
end

order
picks 3 1

picks 4 1 5
end
app Bob
at 5 control Up 77 3
at 5 read Up 0
end
";

/// The names by their numbers: the two that are always there, and the declared ones by their lines.
static NAMES: [&str; 27] = [
    "driver", "req", "Ann", "Note", "Guard", "Gate", "Beat", "Once", "Lo", "Data", "Held", "Stat",
    "Slow", "Reads", "Wire", "Fast", "Hi", "Port", "Link", "Work", "Bell", "Tasks", "Up", "Spare",
    "Chore", "Soon", "Bob",
];

pub const LO: Handle = Handle {
    id: ObjectId(2),
    name: 8,
};

pub const HELD: Handle = Handle {
    id: ObjectId(3),
    name: 10,
};

pub const SLOW: Handle = Handle {
    id: ObjectId(4),
    name: 12,
};

pub const READS: Handle = Handle {
    id: ObjectId(5),
    name: 13,
};

pub const FAST: Handle = Handle {
    id: ObjectId(7),
    name: 15,
};

pub const HI: Handle = Handle {
    id: ObjectId(8),
    name: 16,
};

pub const LINK: Handle = Handle {
    id: ObjectId(9),
    name: 18,
};

pub const BELL: Handle = Handle {
    id: ObjectId(11),
    name: 20,
};

pub const TASKS: Handle = Handle {
    id: ObjectId(12),
    name: 21,
};

pub const UP: Handle = Handle {
    id: ObjectId(13),
    name: 22,
};

/// A queue that takes no type of requests.
pub const NONE: Serves = Serves {
    rest: false,
    read: false,
    write: false,
    control: false,
};

/// The objects from id 1 on.
pub static OBJECTS: [Declared; 14] = [
    Declared::Driver,
    // Its own scope, and the driver's level.
    Declared::Device(DeviceInfo {
        name: 8,
        working: false,
        scope: Scope::PerDevice,
        level: ExecutionLevel::Passive,
    }),
    // Its device's scope, and its own level.
    Declared::Queue(QueueInfo {
        name: 10,
        device: ObjectId(2),
        dispatch: DispatchKind::Manual,
        serves: NONE,
        powered: false,
        zero: false,
        scope: Scope::PerDevice,
        level: ExecutionLevel::Dispatch,
    }),
    // A passive interrupt has the level 0.
    Declared::Interrupt(InterruptInfo {
        name: 12,
        device: ObjectId(2),
        level: Irql(0),
    }),
    // Its own scope, and its device's level, which is the driver's.
    Declared::Queue(QueueInfo {
        name: 13,
        device: ObjectId(2),
        dispatch: DispatchKind::Sequential,
        serves: Serves {
            read: true,
            control: true,
            ..NONE
        },
        powered: true,
        zero: false,
        scope: Scope::Unscoped,
        level: ExecutionLevel::Passive,
    }),
    Declared::Target(TargetInfo {
        name: 14,
        device: ObjectId(2),
        delay: 30,
        status: Status::Unsuccessful,
        depth: 9,
    }),
    Declared::Interrupt(InterruptInfo {
        name: 15,
        device: ObjectId(2),
        level: Irql(9),
    }),
    // The driver's scope, which it says that it inherits, and its own level.
    Declared::Device(DeviceInfo {
        name: 16,
        working: false,
        scope: Scope::PerQueue,
        level: ExecutionLevel::Dispatch,
    }),
    Declared::Target(TargetInfo {
        name: 18,
        device: ObjectId(8),
        delay: 0,
        status: Status::WdfBusy,
        depth: 256,
    }),
    // Its device's scope, which is the driver's, and its device's own level.
    Declared::Queue(QueueInfo {
        name: 19,
        device: ObjectId(8),
        dispatch: DispatchKind::Parallel(6),
        serves: Serves { rest: true, ..NONE },
        powered: true,
        zero: true,
        scope: Scope::PerQueue,
        level: ExecutionLevel::Dispatch,
    }),
    Declared::Interrupt(InterruptInfo {
        name: 20,
        device: ObjectId(8),
        level: Irql(12),
    }),
    // Its own scope and level.
    Declared::Queue(QueueInfo {
        name: 21,
        device: ObjectId(8),
        dispatch: DispatchKind::Manual,
        serves: Serves {
            write: true,
            ..NONE
        },
        powered: true,
        zero: false,
        scope: Scope::PerDevice,
        level: ExecutionLevel::Passive,
    }),
    // The driver's scope and level.
    Declared::Device(DeviceInfo {
        name: 22,
        working: true,
        scope: Scope::PerQueue,
        level: ExecutionLevel::Passive,
    }),
    Declared::Queue(QueueInfo {
        name: 23,
        device: ObjectId(13),
        dispatch: DispatchKind::Sequential,
        serves: NONE,
        powered: true,
        zero: false,
        scope: Scope::PerQueue,
        level: ExecutionLevel::Passive,
    }),
];

/// The classes from number 0 on.
static CLASSES: [ClassInfo; 7] = [
    ClassInfo::Plain {
        name: 3,
        kind: PlainKind::Object,
    },
    ClassInfo::Plain {
        name: 4,
        kind: PlainKind::SpinLock,
    },
    ClassInfo::Plain {
        name: 5,
        kind: PlainKind::WaitLock,
    },
    ClassInfo::Deferred {
        name: 6,
        kind: DeferredKind::Timer,
        parent: ObjectId(8),
        serialize: true,
        period: 7,
    },
    ClassInfo::Deferred {
        name: 7,
        kind: DeferredKind::Timer,
        parent: ObjectId(2),
        serialize: false,
        period: 0,
    },
    ClassInfo::Deferred {
        name: 24,
        kind: DeferredKind::WorkItem,
        parent: ObjectId(5),
        serialize: true,
        period: 0,
    },
    ClassInfo::Deferred {
        name: 25,
        kind: DeferredKind::Dpc,
        parent: ObjectId(10),
        serialize: false,
        period: 0,
    },
];

static REGISTERS: [RegisterInfo; 3] = [
    RegisterInfo {
        name: 9,
        device: ObjectId(2),
        value: 5,
    },
    RegisterInfo {
        name: 11,
        device: ObjectId(2),
        value: 0,
    },
    RegisterInfo {
        name: 17,
        device: ObjectId(8),
        value: 9_000_000_000,
    },
];

/// Whether the names are in the order of their lines.
fn has_all_names(plan: &Plan) -> bool {
    plan.cpus == 3 && plan.limit == 5000 && plan.objects == 40 && has_names(plan, &NAMES)
}

/// Whether the objects, the classes and the registers have their numbers.
fn has_objects(plan: &Plan) -> bool {
    plan.declared.as_slice() == OBJECTS.as_slice()
        && plan.classes.as_slice() == CLASSES.as_slice()
        && plan.registers.as_slice() == REGISTERS.as_slice()
}

/// Whether the picks come one after the other.
fn has_picks(plan: &Plan) -> bool {
    plan.picks.as_slice() == [3, 1, 4, 1, 5].as_slice()
}

/// What is wrong with the plan.
fn wrong_with(plan: &Plan) -> Option<&'static str> {
    if !has_all_names(plan) {
        return Some("names");
    }
    if !has_objects(plan) || !has_picks(plan) {
        return Some("objects, classes, registers and picks");
    }
    if !has_whens_and_asks(plan) || !has_agents(plan) {
        return Some("posts");
    }
    if !has_scripts(plan) || !has_nodes(plan) {
        return Some("callbacks");
    }
    None
}

/// What is wrong with the plan of the scenario.
fn wrong(alloc: Global) -> Option<&'static str> {
    match plan_of(alloc, TEXT.as_bytes()) {
        Some(plan) => wrong_with(&plan),
        None => Some("no plan"),
    }
}

/// No `driver` block, and neither `scope` nor `level` anywhere.
const PLAIN: &str = "cpus 1
limit 9
objects 9
device D
queue Q manual
end
end
";

static PLAIN_OBJECTS: [Declared; 3] = [
    Declared::Driver,
    Declared::Device(DeviceInfo {
        name: 2,
        working: false,
        scope: Scope::Unscoped,
        level: ExecutionLevel::Dispatch,
    }),
    Declared::Queue(QueueInfo {
        name: 3,
        device: ObjectId(2),
        dispatch: DispatchKind::Manual,
        serves: NONE,
        powered: true,
        zero: false,
        scope: Scope::Unscoped,
        level: ExecutionLevel::Dispatch,
    }),
];

/// Whether a plan has these objects.
fn has_plain_objects(alloc: Global) -> bool {
    match plan_of(alloc, PLAIN.as_bytes()) {
        Some(plan) => plan.declared.as_slice() == PLAIN_OBJECTS.as_slice(),
        None => false,
    }
}

#[test]
fn the_second_text_has_its_plan(rt: HostRuntime) {
    assert_eq!(rt; wrong(rt.alloc()), None);
    assert!(rt; has_plain_objects(rt.alloc()));
}
