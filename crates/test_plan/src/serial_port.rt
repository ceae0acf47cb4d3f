//! The plan of the worked serial port, and of nested blocks.
use crate::answers::{has_names, plan_of};
use crate::callbacks::{Owner, Scripted, has_scripts};
use crate::second_text::NONE;
use std::alloc::Global;
use test_worked_texts::serial;
use wdf_base::{
    Access, Act, Action, ArgNode, Ask, CallKind, Callback, ClassInfo, ContextWord, Declared,
    DeferredKind, DeviceInfo, DispatchKind, ExecutionLevel, ExprNode, Handle, InterruptInfo, Irql,
    ObjectId, Operator, Plan, Post, PostLine, QueueInfo, RegisterInfo, Scope, Serves, Statement,
    Status,
};

/// The names by their numbers.
static NAMES: [&str; 11] = [
    "driver", "req", "TM", "D", "RX", "CTL", "IRQ", "WQ", "RQ", "PEND", "A",
];

const DEVICE: Handle = Handle {
    id: ObjectId(2),
    name: 3,
};

const INTERRUPT: Handle = Handle {
    id: ObjectId(3),
    name: 6,
};

const PENDING: ExprNode = ExprNode::Object(Handle {
    id: ObjectId(6),
    name: 9,
});

/// The objects from id 1 on.
static OBJECTS: [Declared; 6] = [
    Declared::Driver,
    Declared::Device(DeviceInfo {
        name: 3,
        working: false,
        scope: Scope::PerDevice,
        level: ExecutionLevel::Dispatch,
    }),
    Declared::Interrupt(InterruptInfo {
        name: 6,
        device: ObjectId(2),
        level: Irql(6),
    }),
    Declared::Queue(QueueInfo {
        name: 7,
        device: ObjectId(2),
        dispatch: DispatchKind::Parallel(2),
        serves: Serves {
            write: true,
            ..NONE
        },
        powered: true,
        zero: false,
        scope: Scope::PerDevice,
        level: ExecutionLevel::Dispatch,
    }),
    Declared::Queue(QueueInfo {
        name: 8,
        device: ObjectId(2),
        dispatch: DispatchKind::Parallel(4),
        serves: Serves { read: true, ..NONE },
        powered: true,
        zero: false,
        scope: Scope::PerDevice,
        level: ExecutionLevel::Dispatch,
    }),
    Declared::Queue(QueueInfo {
        name: 9,
        device: ObjectId(2),
        dispatch: DispatchKind::Manual,
        serves: NONE,
        powered: false,
        zero: false,
        scope: Scope::PerDevice,
        level: ExecutionLevel::Dispatch,
    }),
];

/// The nodes of the expressions.
static NODES: [ExprNode; 32] = [
    ExprNode::Number(99),
    ExprNode::Context(ContextWord::NearestDevice),
    ExprNode::Number(1),
    ExprNode::Variable(0),
    ExprNode::Context(ContextWord::OwnObject),
    PENDING,
    ExprNode::Variable(0),
    ExprNode::Literal(Status::NoMoreEntries),
    ExprNode::Binary {
        operator: Operator::Differs,
        left: 6,
        right: 7,
    },
    ExprNode::Variable(0),
    ExprNode::Literal(Status::Success),
    ExprNode::Number(1),
    ExprNode::Context(ContextWord::OwnRequest),
    ExprNode::Literal(Status::Success),
    ExprNode::Context(ContextWord::OwnRequest),
    PENDING,
    ExprNode::Variable(0),
    ExprNode::Literal(Status::Success),
    ExprNode::Binary {
        operator: Operator::Differs,
        left: 16,
        right: 17,
    },
    ExprNode::Context(ContextWord::OwnRequest),
    ExprNode::Variable(0),
    ExprNode::Context(ContextWord::NearestDevice),
    ExprNode::Number(0),
    ExprNode::Variable(0),
    ExprNode::Context(ContextWord::NearestDevice),
    ExprNode::Number(0),
    ExprNode::Variable(0),
    ExprNode::Number(2),
    ExprNode::Context(ContextWord::NearestDevice),
    ExprNode::Number(0),
    ExprNode::Variable(0),
    ExprNode::Number(1),
];

static SCRIPTS: [Scripted; 8] = [
    (Callback::EvtTimerFunc, Owner::Class(0), 5, 1),
    (Callback::EvtInterruptIsr, Owner::Object(3), 17, 3),
    (Callback::EvtInterruptDpc, Owner::Object(3), 22, 3),
    (Callback::EvtIoWrite, Owner::Object(4), 31, 2),
    (Callback::EvtIoRead, Owner::Object(5), 38, 3),
    (Callback::EvtDevicePrepareHardware, Owner::Object(2), 48, 2),
    (Callback::EvtDeviceD0Entry, Owner::Object(2), 52, 2),
    (Callback::EvtDeviceD0Exit, Owner::Object(2), 56, 2),
];

/// The statements of all callbacks.
static STATEMENTS: [Statement; 18] = [
    Statement {
        line: 6,
        next: 1,
        act: Act::Log { value: 0 },
    },
    Statement {
        line: 18,
        next: 1,
        act: Act::Get {
            variable: 0,
            register: 0,
        },
    },
    Statement {
        line: 19,
        next: 2,
        act: Act::Call {
            kind: CallKind::SetContext,
            into: None,
            a: ArgNode::Expression(1),
            b: ArgNode::Expression(2),
            c: ArgNode::Expression(3),
        },
    },
    Statement {
        line: 20,
        next: 3,
        act: Act::Call {
            kind: CallKind::WdfInterruptQueueDpcForIsr,
            into: None,
            a: ArgNode::Expression(4),
            b: ArgNode::NoArgument,
            c: ArgNode::NoArgument,
        },
    },
    Statement {
        line: 23,
        next: 1,
        act: Act::Call {
            kind: CallKind::WdfIoQueueRetrieveNextRequest,
            into: Some(0),
            a: ArgNode::Expression(5),
            b: ArgNode::NoArgument,
            c: ArgNode::NoArgument,
        },
    },
    Statement {
        line: 24,
        next: 2,
        act: Act::If {
            test: 8,
            otherwise: 3,
        },
    },
    Statement {
        line: 25,
        next: 3,
        act: Act::Call {
            kind: CallKind::WdfRequestComplete,
            into: None,
            a: ArgNode::Expression(9),
            b: ArgNode::Expression(10),
            c: ArgNode::NoArgument,
        },
    },
    Statement {
        line: 32,
        next: 1,
        act: Act::Put {
            register: 1,
            value: 11,
        },
    },
    Statement {
        line: 33,
        next: 2,
        act: Act::Call {
            kind: CallKind::WdfRequestComplete,
            into: None,
            a: ArgNode::Expression(12),
            b: ArgNode::Expression(13),
            c: ArgNode::NoArgument,
        },
    },
    Statement {
        line: 39,
        next: 1,
        act: Act::Call {
            kind: CallKind::WdfRequestForwardToIoQueue,
            into: Some(0),
            a: ArgNode::Expression(14),
            b: ArgNode::Expression(15),
            c: ArgNode::NoArgument,
        },
    },
    Statement {
        line: 40,
        next: 2,
        act: Act::If {
            test: 18,
            otherwise: 3,
        },
    },
    Statement {
        line: 41,
        next: 3,
        act: Act::Call {
            kind: CallKind::WdfRequestComplete,
            into: None,
            a: ArgNode::Expression(19),
            b: ArgNode::Expression(20),
            c: ArgNode::NoArgument,
        },
    },
    Statement {
        line: 49,
        next: 1,
        act: Act::Call {
            kind: CallKind::WdfTimerCreate,
            into: Some(0),
            a: ArgNode::OfClass(0),
            b: ArgNode::NoArgument,
            c: ArgNode::NoArgument,
        },
    },
    Statement {
        line: 50,
        next: 2,
        act: Act::Call {
            kind: CallKind::SetContext,
            into: None,
            a: ArgNode::Expression(21),
            b: ArgNode::Expression(22),
            c: ArgNode::Expression(23),
        },
    },
    Statement {
        line: 53,
        next: 1,
        act: Act::Call {
            kind: CallKind::GetContext,
            into: Some(0),
            a: ArgNode::Expression(24),
            b: ArgNode::Expression(25),
            c: ArgNode::NoArgument,
        },
    },
    Statement {
        line: 54,
        next: 2,
        act: Act::Call {
            kind: CallKind::WdfTimerStart,
            into: None,
            a: ArgNode::Expression(26),
            b: ArgNode::Expression(27),
            c: ArgNode::NoArgument,
        },
    },
    Statement {
        line: 57,
        next: 1,
        act: Act::Call {
            kind: CallKind::GetContext,
            into: Some(0),
            a: ArgNode::Expression(28),
            b: ArgNode::Expression(29),
            c: ArgNode::NoArgument,
        },
    },
    Statement {
        line: 58,
        next: 2,
        act: Act::Call {
            kind: CallKind::WdfTimerStop,
            into: None,
            a: ArgNode::Expression(30),
            b: ArgNode::Expression(31),
            c: ArgNode::NoArgument,
        },
    },
];

const READ: Post = Post::Read {
    device: DEVICE,
    length: 16,
};

const WRITE: Post = Post::Write {
    device: DEVICE,
    length: 1,
};

/// The ticks and the posts of the app.
static APP_POSTS: [(u64, Post); 5] = [(0, READ), (1, READ), (4, WRITE), (20, WRITE), (25, READ)];

/// The ticks and the posts of the Plug and Play manager.
static ASKS: [(u64, Post); 4] = [
    (
        0,
        Post::Ask {
            ask: Ask::Start,
            device: DEVICE,
        },
    ),
    (
        10,
        Post::Ask {
            ask: Ask::Sleep,
            device: DEVICE,
        },
    ),
    (
        15,
        Post::Ask {
            ask: Ask::Wake,
            device: DEVICE,
        },
    ),
    (
        40,
        Post::Ask {
            ask: Ask::Surprise,
            device: DEVICE,
        },
    ),
];

/// What the `when` lines say: the access, the register, the action, the ticks between.
static WHENS: [(Access, u32, Action, u64); 3] = [
    (
        Access::Write,
        1,
        Action::Set {
            register: 0,
            value: 65,
        },
        3,
    ),
    (
        Access::Write,
        1,
        Action::Raise {
            interrupt: INTERRUPT,
        },
        3,
    ),
    (
        Access::Read,
        0,
        Action::Lower {
            interrupt: INTERRUPT,
        },
        0,
    ),
];

static CLASSES: [ClassInfo; 1] = [ClassInfo::Deferred {
    name: 2,
    kind: DeferredKind::Timer,
    parent: ObjectId(2),
    serialize: false,
    period: 0,
}];

static REGISTERS: [RegisterInfo; 2] = [
    RegisterInfo {
        name: 4,
        device: ObjectId(2),
        value: 0,
    },
    RegisterInfo {
        name: 5,
        device: ObjectId(2),
        value: 0,
    },
];

/// Whether the names, the objects, the classes and the registers have their numbers.
fn has_objects(plan: &Plan) -> bool {
    plan.cpus == 2
        && plan.limit == 1000
        && plan.objects == 32
        && has_names(plan, &NAMES)
        && plan.declared.as_slice() == OBJECTS.as_slice()
        && plan.classes.as_slice() == CLASSES.as_slice()
        && plan.registers.as_slice() == REGISTERS.as_slice()
}

/// Whether the `when` lines stand for their registers.
fn has_whens(plan: &Plan) -> bool {
    for (line, (access, register, action, after)) in plan.whens.as_slice().iter().zip(&WHENS) {
        if line.access != *access || line.register != *register {
            return false;
        }
        if line.action != *action || line.after != *after {
            return false;
        }
    }
    plan.whens.len() as usize == WHENS.len()
}

/// Whether these are the ticks and the posts of lines.
fn are_posts(lines: &[PostLine], due: &[(u64, Post)]) -> bool {
    for (line, (tick, post)) in lines.iter().zip(due) {
        if line.tick != *tick || line.post != *post {
            return false;
        }
    }
    lines.len() == due.len()
}

/// Whether the Plug and Play manager, the app and the device post in the order of their lines.
fn has_posts(plan: &Plan) -> bool {
    match plan.agents.as_slice() {
        [app, device] => {
            app.name == 10
                && device.name == 3
                && are_posts(app.posts.as_slice(), &APP_POSTS)
                && are_posts(plan.pnp.as_slice(), &ASKS)
        }
        _ => false,
    }
}

/// Whether the callbacks have their statements, and the expressions their numbers.
fn has_callbacks(plan: &Plan) -> bool {
    has_scripts(plan, &OBJECTS, &SCRIPTS, &STATEMENTS) && plan.exprs.as_slice() == NODES.as_slice()
}

/// What is wrong with the plan.
fn wrong_with(plan: &Plan) -> Option<&'static str> {
    if !has_objects(plan) {
        return Some("names, objects, classes and registers");
    }
    if !has_whens(plan) || !has_posts(plan) {
        return Some("posts");
    }
    if !has_callbacks(plan) {
        return Some("callbacks");
    }
    None
}

/// What is wrong with the plan of the serial port.
fn wrong(alloc: Global) -> Option<&'static str> {
    match plan_of(alloc, serial::RUNS[0].scenario.as_bytes()) {
        Some(plan) => wrong_with(&plan),
        None => Some("no plan"),
    }
}

/// Blocks in a callback.
const NESTED: &str = "cpus 1
limit 9
objects 9
device D
on EvtDeviceD0Entry
repeat 2
if 1
log 1
else
repeat 3
end
end
end
return SUCCESS
end
end
";

/// From a first branch the way leads past the `else`, from a body's end to its first statement.
static NESTED_STATEMENTS: [Statement; 7] = [
    Statement {
        line: 6,
        next: 1,
        act: Act::Repeat {
            count: 0,
            depth: 0,
            past: 6,
        },
    },
    Statement {
        line: 7,
        next: 2,
        act: Act::If {
            test: 1,
            otherwise: 3,
        },
    },
    Statement {
        line: 8,
        next: 5,
        act: Act::Log { value: 2 },
    },
    Statement {
        line: 10,
        next: 4,
        act: Act::Repeat {
            count: 3,
            depth: 1,
            past: 5,
        },
    },
    Statement {
        line: 10,
        next: 5,
        act: Act::Again { depth: 1, body: 4 },
    },
    Statement {
        line: 6,
        next: 6,
        act: Act::Again { depth: 0, body: 1 },
    },
    Statement {
        line: 14,
        next: 7,
        act: Act::Return { value: 4 },
    },
];

/// Whether the one callback has these statements.
fn has_nested(plan: &Plan) -> bool {
    match plan.scripts.as_slice() {
        [script] => script.statements.as_slice() == NESTED_STATEMENTS.as_slice(),
        _ => false,
    }
}

/// Whether the way through nested blocks is this.
fn is_way(alloc: Global) -> bool {
    match plan_of(alloc, NESTED.as_bytes()) {
        Some(plan) => has_nested(&plan),
        None => false,
    }
}

#[test]
fn the_serial_port_has_its_plan(rt: HostRuntime) {
    assert_eq!(rt; wrong(rt.alloc()), None);
    assert!(rt; is_way(rt.alloc()));
}
