//! A plan with a device and three queues.

use std::alloc::Global;
use test_plans::{PlanBuilder, items};
use wdf_base::{
    Declared, DeviceInfo, DispatchKind, ExecutionLevel, Handle, Items, MANY, Memory, ObjectId,
    Plan, Post, PostLine, QueueInfo, Scope, Serves,
};

pub(crate) const DEVICE: ObjectId = ObjectId(2);

pub(crate) const SEQUENTIAL: ObjectId = ObjectId(3);

pub(crate) const PARALLEL: ObjectId = ObjectId(4);

pub(crate) const MANUAL: ObjectId = ObjectId(5);

fn queue(name: u32, dispatch: DispatchKind) -> Declared {
    Declared::Queue(QueueInfo {
        name,
        device: DEVICE,
        dispatch,
        serves: Serves {
            rest: false,
            read: false,
            write: false,
            control: false,
        },
        powered: true,
        zero: false,
        scope: Scope::Unscoped,
        level: ExecutionLevel::Dispatch,
    })
}

/// The driver object, a device, a queue of each kind, of which the parallel one takes two.
fn declared(alloc: Global) -> Result<Items<Declared, MANY>, Memory> {
    let device = Declared::Device(DeviceInfo {
        name: 2,
        working: true,
        scope: Scope::Unscoped,
        level: ExecutionLevel::Dispatch,
    });
    let all = [
        Declared::Driver,
        device,
        queue(3, DispatchKind::Sequential),
        queue(4, DispatchKind::Parallel(2)),
        queue(5, DispatchKind::Manual),
    ];
    items(alloc, &all)
}

const LINE: PostLine = PostLine {
    tick: 0,
    post: Post::Read {
        device: Handle {
            id: DEVICE,
            name: 2,
        },
        length: 16,
    },
    line: 9,
};

/// The plan of these objects, and of two posts of agent 0.
pub(crate) fn plan(alloc: Global) -> Result<Plan, Memory> {
    let declared = declared(alloc)?;
    let posts = items(alloc, &[LINE, LINE])?;
    let mut plan = PlanBuilder::new(alloc, 1, 99, 9).finish();
    plan.declared = declared;
    plan.pnp = posts;
    Ok(plan)
}
