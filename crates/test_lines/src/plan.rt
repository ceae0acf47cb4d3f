//! The plan of the tests, with names and ids like those of the worked runs.
use std::alloc::Global;
use test_plans::items;
use wdf_base::{
    AgentInfo, ClassInfo, Declared, DeferredKind, DeviceInfo, DispatchKind, Event, ExecutionLevel,
    FEW, Handle, InterruptInfo, Irql, Items, MANY, Memory, Name, ObjectId, PlainKind, Plan,
    QueueInfo, RegisterInfo, Scope, Serves, Status, TargetInfo,
};
use wdf_lines::line_of;
use wdf_trace::read_line;

/// The names by their numbers.
const NAMES: [&str; 22] = [
    "driver", "req", "D", "Q", "IRQ", "T", "RX", "CTL", "L", "TM", "A", "DQ", "R", "W", "I", "STS",
    "O", "X", "Y", "RQ", "WQ", "PEND",
];

pub const REQ: u32 = 1;

pub const D: u32 = 2;

pub const Q: u32 = 3;

pub const IRQ: u32 = 4;

pub const T: u32 = 5;

pub const RX: u32 = 6;

pub const CTL: u32 = 7;

pub const L: u32 = 8;

pub const TM: u32 = 9;

pub const A: u32 = 10;

pub const DQ: u32 = 11;

pub const R: u32 = 12;

pub const W: u32 = 13;

pub const I: u32 = 14;

pub const STS: u32 = 15;

pub const O: u32 = 16;

pub const X: u32 = 17;

pub const Y: u32 = 18;

pub const RQ: u32 = 19;

pub const WQ: u32 = 20;

pub const PEND: u32 = 21;

/// The numbers of classes.
pub const L_CLASS: u16 = 0;

pub const TM_CLASS: u16 = 1;

pub const O_CLASS: u16 = 2;

pub const X_CLASS: u16 = 3;

pub const Y_CLASS: u16 = 4;

/// The numbers of registers.
pub const RX_REGISTER: u32 = 0;

pub const CTL_REGISTER: u32 = 1;

pub const STS_REGISTER: u32 = 2;

/// The numbers of agents.
pub const A_AGENT: u16 = 1;

pub const D_AGENT: u16 = 2;

pub const T_AGENT: u16 = 3;

fn names(alloc: Global) -> Result<Items<Name, MANY>, Memory> {
    let mut names = Items::new(alloc);
    for name in NAMES {
        if name.len() <= 32 && names.len() < 100 {
            names.push(Name::new(name.as_bytes()))?;
        }
    }
    Ok(names)
}

/// An agent with no post.
fn agent(alloc: Global, name: u32) -> AgentInfo {
    AgentInfo {
        name,
        posts: Items::new(alloc),
    }
}

/// Agents with these names, from agent 1 on.
fn agents(alloc: Global, names: &[u32]) -> Result<Items<AgentInfo, FEW>, Memory> {
    let mut agents = Items::new(alloc);
    for name in names {
        if agents.len() < 100 {
            agents.push(agent(alloc, *name))?;
        }
    }
    Ok(agents)
}

fn device(name: u32) -> Declared {
    Declared::Device(DeviceInfo {
        name,
        working: false,
        scope: Scope::Unscoped,
        level: ExecutionLevel::Dispatch,
    })
}

fn queue(name: u32) -> Declared {
    Declared::Queue(QueueInfo {
        name,
        device: ObjectId(2),
        dispatch: DispatchKind::Sequential,
        serves: Serves {
            rest: true,
            read: false,
            write: false,
            control: false,
        },
        powered: true,
        zero: false,
        scope: Scope::Unscoped,
        level: ExecutionLevel::Dispatch,
    })
}

fn interrupt(name: u32) -> Declared {
    Declared::Interrupt(InterruptInfo {
        name,
        device: ObjectId(2),
        level: Irql(6),
    })
}

fn target(name: u32) -> Declared {
    Declared::Target(TargetInfo {
        name,
        device: ObjectId(2),
        delay: 3,
        status: Status::Success,
        depth: 1,
    })
}

fn deferred(name: u32, kind: DeferredKind) -> ClassInfo {
    ClassInfo::Deferred {
        name,
        kind,
        parent: ObjectId(2),
        serialize: false,
        period: 0,
    }
}

fn plain(name: u32, kind: PlainKind) -> ClassInfo {
    ClassInfo::Plain { name, kind }
}

fn register(name: u32) -> RegisterInfo {
    RegisterInfo {
        name,
        device: ObjectId(2),
        value: 0,
    }
}

/// The plan of these.
fn plan_of(
    alloc: Global,
    declared: &[Declared],
    classes: &[ClassInfo],
    registers: &[RegisterInfo],
    names_of_agents: &[u32],
) -> Result<Plan, Memory> {
    let names = names(alloc)?;
    let declared = items(alloc, declared)?;
    let classes = items(alloc, classes)?;
    let registers = items(alloc, registers)?;
    let agents = agents(alloc, names_of_agents)?;
    Ok(Plan {
        cpus: 2,
        limit: 100,
        objects: 32,
        names,
        declared,
        classes,
        registers,
        whens: Items::new(alloc),
        pnp: Items::new(alloc),
        agents,
        exprs: Items::new(alloc),
        scripts: Items::new(alloc),
        picks: Items::new(alloc),
    })
}

/// The plan with the app A, the device D and the target T. Its objects are the device D.2, then the
/// queue Q.3, the interrupt IRQ.4 and the target T.5, then the others.
pub fn plan(alloc: Global) -> Result<Plan, Memory> {
    let declared = [
        Declared::Driver,
        device(D),
        queue(Q),
        interrupt(IRQ),
        target(T),
        interrupt(I),
        queue(DQ),
        queue(R),
        queue(W),
        queue(RQ),
        queue(WQ),
        queue(PEND),
    ];
    let classes = [
        plain(L, PlainKind::WaitLock),
        deferred(TM, DeferredKind::Timer),
        plain(O, PlainKind::Object),
        deferred(X, DeferredKind::WorkItem),
        deferred(Y, DeferredKind::WorkItem),
    ];
    let registers = [register(RX), register(CTL), register(STS)];
    plan_of(alloc, &declared, &classes, &registers, &[A, D, T])
}

/// The plan with the device D, and T for the class of a timer.
pub fn timer_plan(alloc: Global) -> Result<Plan, Memory> {
    let declared = [Declared::Driver, device(D)];
    let classes = [deferred(T, DeferredKind::Timer)];
    plan_of(alloc, &declared, &classes, &[], &[D])
}

/// The object with this name and this id.
pub fn object((name, id): (u32, u32)) -> Handle {
    Handle {
        id: ObjectId(id),
        name,
    }
}

/// The object with this name and this id, where there is one.
pub fn optional(named: Option<(u32, u32)>) -> Option<Handle> {
    Some(object(named?))
}

/// Whether an event has this line, and the line is read as the event.
pub fn is_line(plan: &Plan, number: usize, event: &Event, text: &str) -> bool {
    line_of(plan, number, event).bytes() == text.as_bytes()
        && read_line(plan, text.as_bytes()) == Some((number, *event))
}
