//! A plan gives back what it was made from.
use std::alloc::Global;
use std::test::Fail;
use test_plans::PlanBuilder;
use wdf_base::{
    Access, Act, Action, Ask, Callback, ClassInfo, Declared, DeviceInfo, DispatchKind,
    ExecutionLevel, ExprNode, Handle, Memory, Name, ObjectId, PlainKind, Plan, Post, PostLine,
    QueueInfo, RegisterInfo, Scope, Serves, Statement, Status, WhenLine,
};

/// The one part of a plan.
enum Part {
    Name(&'static [u8]),
    /// A declared object, with the number of its name.
    Object(Declared, u32),
    Class(ClassInfo),
    Register(RegisterInfo),
    When(WhenLine),
    /// A post of the Plug and Play manager.
    Post(PostLine),
    /// An agent with its name and its post.
    Agent(u32, PostLine),
    Expression(ExprNode),
    /// A script of EvtIoRead on an object, with its line.
    Script(Declared, u32),
    /// A statement of a script of EvtIoRead on an object.
    Statement(Declared, Statement),
    Pick(u64),
}

const QUEUE: Declared = Declared::Queue(QueueInfo {
    name: 3,
    device: ObjectId(2),
    dispatch: DispatchKind::Sequential,
    serves: Serves {
        rest: true,
        read: false,
        write: false,
        control: false,
    },
    powered: true,
    zero: false,
    scope: Scope::Unscoped,
    level: ExecutionLevel::Dispatch,
});

const DEVICE: Declared = Declared::Device(DeviceInfo {
    name: 2,
    working: true,
    scope: Scope::Unscoped,
    level: ExecutionLevel::Dispatch,
});

const ON_DEVICE: Handle = Handle {
    id: ObjectId(2),
    name: 2,
};

static PARTS: [Part; 11] = [
    Part::Name(b"driver"),
    Part::Object(DEVICE, 2),
    Part::Class(ClassInfo::Plain {
        name: 4,
        kind: PlainKind::Object,
    }),
    Part::Register(RegisterInfo {
        name: 5,
        device: ObjectId(2),
        value: 65,
    }),
    Part::When(WhenLine {
        access: Access::Write,
        register: 0,
        action: Action::Set {
            register: 0,
            value: 1,
        },
        after: 3,
        line: 12,
    }),
    Part::Post(PostLine {
        tick: 1,
        post: Post::Ask {
            ask: Ask::Sleep,
            device: ON_DEVICE,
        },
        line: 20,
    }),
    Part::Agent(
        6,
        PostLine {
            tick: 3,
            post: Post::Read {
                device: ON_DEVICE,
                length: 16,
            },
            line: 31,
        },
    ),
    Part::Expression(ExprNode::Literal(Status::Success)),
    Part::Script(QUEUE, 7),
    Part::Statement(
        QUEUE,
        Statement {
            line: 8,
            next: 1,
            act: Act::Return { value: 0 },
        },
    ),
    Part::Pick(9),
];

fn with_agent(alloc: Global, name: u32, post: PostLine) -> Result<Plan, Memory> {
    let mut builder = PlanBuilder::new(alloc, 2, 100, 16);
    let added = builder.agent(name).is_ok() && builder.post(1, post).is_ok();
    if added {
        Ok(builder.finish())
    } else {
        Err(Memory)
    }
}

fn with_statement(alloc: Global, owner: Declared, statement: Statement) -> Result<Plan, Memory> {
    let mut builder = PlanBuilder::new(alloc, 2, 100, 16);
    let added = builder.script(Callback::EvtIoRead, owner, 7).is_ok()
        && builder.statement(0, statement).is_ok();
    if added {
        Ok(builder.finish())
    } else {
        Err(Memory)
    }
}

/// The plan with one part that needs no other.
fn with_one(alloc: Global, part: &Part) -> Result<Plan, Memory> {
    let mut builder = PlanBuilder::new(alloc, 2, 100, 16);
    let added = match part {
        Part::Name(name) => name.len() <= 32 && builder.name(Name::new(name)).is_ok(),
        Part::Object(object, _) => builder.declared(*object).is_ok(),
        Part::Class(class) => builder.class(*class).is_ok(),
        Part::Register(register) => builder.register(*register).is_ok(),
        Part::When(line) => builder.when(*line).is_ok(),
        Part::Post(post) => builder.post(0, *post).is_ok(),
        Part::Expression(node) => builder.expr(*node).is_ok(),
        Part::Script(owner, line) => builder.script(Callback::EvtIoRead, *owner, *line).is_ok(),
        Part::Pick(number) => builder.pick(*number).is_ok(),
        _ => false,
    };
    if added {
        Ok(builder.finish())
    } else {
        Err(Memory)
    }
}

/// The plan with one part.
fn plan_with(alloc: Global, part: &Part) -> Result<Plan, Memory> {
    match part {
        Part::Agent(name, post) => with_agent(alloc, *name, *post),
        Part::Statement(owner, statement) => with_statement(alloc, *owner, *statement),
        _ => with_one(alloc, part),
    }
}

/// Whether the one object of the plan is this.
fn has_object(plan: &Plan, object: Declared, name: u32) -> bool {
    plan.declared_len() == 1
        && plan.declared(ObjectId(1)) == object
        && plan.object_named(name) == Some(ObjectId(1))
        && plan.object_named(6).is_none()
}

/// Whether the one post of an agent is this.
fn has_post(plan: &Plan, agent: u16, post: PostLine) -> bool {
    agent < plan.agent_len() && plan.post_len(agent) == 1 && plan.post(agent, 0) == post
}

/// Whether the plan has two agents, and the name of the second is this.
fn has_agent(plan: &Plan, name: u32) -> bool {
    plan.agent_len() == 2 && plan.agent_name(1) == name
}

/// Whether the one script of the plan is that of EvtIoRead on this object, with so many statements.
fn has_script(plan: &Plan, owner: Declared, line: u32, statements: u32) -> bool {
    plan.script_len() == 1
        && plan.script(Callback::EvtIoRead, owner) == Some(0)
        && plan.script(Callback::EvtIoWrite, owner).is_none()
        && plan.script_line(0) == line
        && plan.script_callback(0) == Callback::EvtIoRead
        && plan.script_owner(0) == owner
        && plan.statement_len(0) == statements
}

/// Whether the one statement of the plan is this.
fn has_statement(plan: &Plan, statement: Statement) -> bool {
    plan.script_len() == 1 && plan.statement_len(0) == 1 && plan.statement(0, 0) == statement
}

/// Whether the plan gives the part of an agent or a script back.
fn gives_inner_back(plan: &Plan, part: &Part) -> bool {
    match part {
        Part::Post(post) => plan.agent_len() == 1 && has_post(plan, 0, *post),
        Part::Agent(name, post) => has_agent(plan, *name) && has_post(plan, 1, *post),
        Part::Script(owner, line) => has_script(plan, *owner, *line, 0),
        Part::Statement(owner, statement) => {
            has_script(plan, *owner, 7, 1) && has_statement(plan, *statement)
        }
        _ => false,
    }
}

/// Whether the plan gives a part back.
fn gives_back(plan: &Plan, part: &Part) -> bool {
    match part {
        Part::Name(name) => plan.name_len() == 1 && plan.name(0) == *name,
        Part::Object(object, name) => has_object(plan, *object, *name),
        Part::Class(class) => plan.class_len() == 1 && plan.class(0) == *class,
        Part::Register(register) => plan.register_len() == 1 && plan.register(0) == *register,
        Part::When(line) => plan.when_len() == 1 && plan.when(0) == *line,
        Part::Expression(node) => plan.expr_len() == 1 && plan.expr(0) == *node,
        Part::Pick(number) => plan.picks() == [*number].as_slice(),
        _ => gives_inner_back(plan, part),
    }
}

/// Whether the plan has the limits that it was made with.
fn has_limits(plan: &Plan) -> bool {
    plan.cpus() == 2 && plan.limit() == 100 && plan.objects() == 16
}

/// Whether a plan that is made with a part gives it back.
fn comes_back(alloc: Global, part: &Part) -> Result<bool, Memory> {
    let plan = plan_with(alloc, part)?;
    Ok(has_limits(&plan) && gives_back(&plan, part))
}

#[test]
fn plans_give_their_parts_back(rt: HostRuntime) -> Result<(), Fail> {
    for (place, part) in PARTS.iter().enumerate() {
        assert!(rt; comes_back(rt.alloc(), part)?, "part {place}");
    }
    Ok(())
}
