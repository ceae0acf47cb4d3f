use std::alloc::Global;
use wdf_base::{
    Callback, Declared, ExprNode, Frame, Handle, Items, MANY, Memory, ObjectId, Plan, Script,
    Statement, Status, Value,
};

mod calls;
mod course;
mod operations;
mod statements;

pub const DRIVER: Handle = Handle {
    id: ObjectId(1),
    name: 0,
};

pub const DEVICE: Handle = Handle {
    id: ObjectId(2),
    name: 2,
};

pub const QUEUE: Handle = Handle {
    id: ObjectId(3),
    name: 3,
};

pub const TARGET: Handle = Handle {
    id: ObjectId(4),
    name: 4,
};

pub const REQUEST: Handle = Handle {
    id: ObjectId(8),
    name: 1,
};

pub const SUCCESS: Value = Value::Stat(Status::Success);

/// A handler of the queue with a request of 16 bytes, inside two `repeat`: 3 runs and 1 run are left.
pub const FRAME: Frame = Frame {
    callback: Callback::EvtIoDeviceControl,
    object: QUEUE,
    device: DEVICE,
    request: Some(REQUEST),
    length: 16,
    code: 7,
    status: Status::Cancelled,
    script: 0,
    at: 0,
    variables: [Value::Num(0); 16],
    counters: [3, 1, 0, 0, 0, 0, 0, 0, 0, 0, 0, 0, 0, 0, 0, 0],
    until: 0,
    pending: None,
};

/// A plan with these nodes, and one script, whose `on` is at line 10.
pub fn plan_of(
    alloc: Global,
    exprs: Items<ExprNode, MANY>,
    statements: Items<Statement, MANY>,
) -> Result<Plan, Memory> {
    let mut scripts = Items::new(alloc);
    scripts.push(Script {
        callback: Callback::EvtIoDeviceControl,
        owner: Declared::Driver,
        line: 10,
        statements,
    })?;
    Ok(Plan {
        cpus: 1,
        limit: 100,
        objects: 16,
        names: Items::new(alloc),
        declared: Items::new(alloc),
        classes: Items::new(alloc),
        registers: Items::new(alloc),
        whens: Items::new(alloc),
        pnp: Items::new(alloc),
        agents: Items::new(alloc),
        exprs,
        scripts,
        picks: Items::new(alloc),
    })
}

pub fn add<T: Drop>(list: &mut Items<T, MANY>, item: T) -> Result<(), Memory> {
    if list.len() < 1000 {
        list.push(item)?;
    }
    Ok(())
}

pub fn nodes_of(alloc: Global, all: &[ExprNode]) -> Result<Items<ExprNode, MANY>, Memory> {
    let mut nodes = Items::new(alloc);
    for node in all {
        add(&mut nodes, *node)?;
    }
    Ok(nodes)
}
