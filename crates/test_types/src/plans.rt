//! A plan that is made by hand gives back what is at each number.
ghost use Rattle.std.specs.Prelude.{◌<◌};

use std::alloc::Global;
use wdf_base::*;

const DEVICE: Declared = Declared::Device(DeviceInfo {
    name: 1,
    working: true,
    scope: Scope::PerDevice,
    level: ExecutionLevel::Passive,
});

const HANDLE: Handle = Handle {
    id: ObjectId(2),
    name: 1,
};

/// Adds an item; whether there was room.
fn put<T: Drop, const CEILING: u64>(items: &mut Items<T, CEILING>, item: T) -> bool
    requires { 100 < CEILING }
{
    items.len() < 99 && items.push(item).is_ok()
}

fn at_line(tick: u64, line: u32) -> PostLine {
    PostLine {
        tick,
        post: Post::Read {
            device: HANDLE,
            length: 16,
        },
        line,
    }
}

fn agent(alloc: Global, name: u32) -> AgentInfo {
    AgentInfo {
        name,
        posts: Items::new(alloc),
    }
}

fn statement(line: u32) -> Statement {
    Statement {
        line,
        next: 1,
        act: Act::Log { value: 0 },
    }
}

fn script(alloc: Global, callback: Callback, line: u32) -> Script {
    Script {
        callback,
        owner: DEVICE,
        line,
        statements: Items::new(alloc),
    }
}

fn register(name: u32, value: u64) -> RegisterInfo {
    RegisterInfo {
        name,
        device: ObjectId(2),
        value,
    }
}

fn when(register: u32, line: u32) -> WhenLine {
    WhenLine {
        access: Access::Write,
        register,
        action: Action::Raise { interrupt: HANDLE },
        after: 4,
        line,
    }
}

fn class(name: u32, kind: PlainKind) -> ClassInfo {
    ClassInfo::Plain { name, kind }
}

/// The plan with nothing in it.
fn empty(alloc: Global) -> Plan {
    Plan {
        cpus: 2,
        limit: 100,
        objects: 16,
        names: Items::new(alloc),
        declared: Items::new(alloc),
        classes: Items::new(alloc),
        registers: Items::new(alloc),
        whens: Items::new(alloc),
        pnp: Items::new(alloc),
        agents: Items::new(alloc),
        exprs: Items::new(alloc),
        scripts: Items::new(alloc),
        picks: Items::new(alloc),
    }
}

/// Two names, two objects, two classes and two picks.
fn put_names(plan: &mut Plan) -> bool {
    put(&mut plan.names, Name::new(b"driver"))
        && put(&mut plan.names, Name::new(b"D"))
        && put(&mut plan.declared, Declared::Driver)
        && put(&mut plan.declared, DEVICE)
        && put(&mut plan.classes, class(2, PlainKind::Object))
        && put(&mut plan.classes, class(3, PlainKind::WaitLock))
        && put(&mut plan.picks, 3)
        && put(&mut plan.picks, 1)
}

/// Two registers, two `when` lines, two posts and two expressions.
fn put_lines(plan: &mut Plan) -> bool {
    put(&mut plan.registers, register(4, 65))
        && put(&mut plan.registers, register(5, 66))
        && put(&mut plan.whens, when(0, 12))
        && put(&mut plan.whens, when(1, 13))
        && put(&mut plan.pnp, at_line(1, 30))
        && put(&mut plan.pnp, at_line(2, 31))
        && put(&mut plan.exprs, ExprNode::Number(7))
        && put(&mut plan.exprs, ExprNode::Number(8))
}

/// An agent with two posts.
fn put_agent(alloc: Global, plan: &mut Plan, name: u32) -> bool {
    let mut agent = agent(alloc, name);
    put(&mut agent.posts, at_line(0, 20))
        && put(&mut agent.posts, at_line(3, 21))
        && put(&mut plan.agents, agent)
}

/// A script with two statements.
fn put_script(alloc: Global, plan: &mut Plan, callback: Callback, line: u32) -> bool {
    let mut script = script(alloc, callback, line);
    put(&mut script.statements, statement(8))
        && put(&mut script.statements, statement(9))
        && put(&mut plan.scripts, script)
}

/// Two agents and two scripts.
fn put_agents_and_scripts(alloc: Global, plan: &mut Plan) -> bool {
    put_agent(alloc, plan, 6)
        && put_agent(alloc, plan, 1)
        && put_script(alloc, plan, Callback::EvtDeviceD0Entry, 6)
        && put_script(alloc, plan, Callback::EvtDeviceD0Exit, 7)
}

/// Whether the limits, the names, the objects and the picks are read.
fn names_are_read(plan: &Plan) -> bool {
    plan.cpus() == 2
        && plan.limit() == 100
        && plan.objects() == 16
        && plan.name_len() == 2
        && plan.name(1) == b"D".as_slice()
        && plan.picks() == [3, 1].as_slice()
}

/// Whether the objects are read.
fn objects_are_read(plan: &Plan) -> bool {
    plan.declared_len() == 2
        && plan.declared(ObjectId(2)) == DEVICE
        && plan.object_named(1) == Some(ObjectId(2))
        && plan.object_named(7).is_none()
}

/// Whether the classes, the registers and the `when` lines are read.
fn classes_are_read(plan: &Plan) -> bool {
    plan.class_len() == 2
        && plan.class(1) == class(3, PlainKind::WaitLock)
        && plan.register_len() == 2
        && plan.register(1) == register(5, 66)
        && plan.when_len() == 2
        && plan.when(1) == when(1, 13)
}

/// Whether the agents and their posts are read.
fn agents_are_read(plan: &Plan) -> bool {
    plan.agent_len() == 3
        && plan.agent_name(1) == 6
        && plan.agent_name(2) == 1
        && plan.post_len(0) == 2
        && plan.post(0, 1) == at_line(2, 31)
        && plan.post_len(2) == 2
        && plan.post(2, 1) == at_line(3, 21)
}

/// Whether the second script is found, and is read.
fn scripts_are_read(plan: &Plan) -> bool {
    let exit = Callback::EvtDeviceD0Exit;
    plan.script_len() == 2
        && plan.script(exit, DEVICE) == Some(1)
        && plan.script(exit, Declared::Driver).is_none()
        && plan.script_line(1) == 7
        && plan.script_callback(1) == exit
        && plan.script_owner(1) == DEVICE
}

/// Whether a statement and an expression are read.
fn statements_are_read(plan: &Plan) -> bool {
    plan.script_len() == 2
        && plan.statement_len(1) == 2
        && plan.statement(1, 1) == statement(9)
        && plan.expr_len() == 2
        && plan.expr(1) == ExprNode::Number(8)
}

/// Whether a script is of its callback and its owner.
fn is_of_its_owner(script: &Script) -> bool {
    script.is_of(Callback::EvtDeviceD0Exit, &DEVICE)
        && !script.is_of(Callback::EvtDeviceD0Entry, &DEVICE)
        && !script.is_of(Callback::EvtDeviceD0Exit, &Declared::Driver)
}

/// What isn't read as it was put in.
fn wrong_with(plan: &Plan) -> Option<&'static str> {
    if !names_are_read(plan) || !objects_are_read(plan) {
        return Some("names and objects");
    }
    if !classes_are_read(plan) || !agents_are_read(plan) {
        return Some("classes and agents");
    }
    if !scripts_are_read(plan) || !statements_are_read(plan) {
        return Some("scripts");
    }
    None
}

/// What isn't read of the plan as it was put in.
fn wrong(alloc: Global) -> Option<&'static str> {
    let mut plan = empty(alloc);
    if put_names(&mut plan) && put_lines(&mut plan) && put_agents_and_scripts(alloc, &mut plan) {
        wrong_with(&plan)
    } else {
        Some("no memory")
    }
}

#[test]
fn a_plan_is_read_by_number(rt: HostRuntime) {
    assert_eq!(rt; wrong(rt.alloc()), None);
    assert!(rt; is_of_its_owner(&script(rt.alloc(), Callback::EvtDeviceD0Exit, 7)));
}
