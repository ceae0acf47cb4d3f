//! A small plan, and the trees that the cases begin with.
ghost use Rattle.std.specs.Prelude.{◌≡◌, []};

use std::alloc::Global;
use test_plans::items;
use wdf_base::*;
use wdf_model::OBJECTS;
use wdf_tree::Tree;

const DECLARED: [Declared; 3] = [
    Declared::Driver,
    Declared::Device(DeviceInfo {
        name: 2,
        working: true,
        scope: Scope::PerDevice,
        level: ExecutionLevel::Passive,
    }),
    Declared::Queue(QueueInfo {
        name: 3,
        device: ObjectId(2),
        dispatch: DispatchKind::Sequential,
        serves: Serves {
            rest: true,
            read: false,
            write: false,
            control: false,
        },
        powered: true,
        zero: false,
        scope: Scope::PerQueue,
        level: ExecutionLevel::Passive,
    }),
];

/// The plan of so many counted objects, with these declared ones and these classes.
fn plan_of(
    alloc: Global,
    objects: u32,
    declared: Items<Declared, MANY>,
    classes: Items<ClassInfo, FEW>,
) -> Plan {
    Plan {
        cpus: 1,
        limit: 100,
        objects,
        names: Items::new(alloc),
        declared,
        classes,
        registers: Items::new(alloc),
        whens: Items::new(alloc),
        pnp: Items::new(alloc),
        agents: Items::new(alloc),
        exprs: Items::new(alloc),
        scripts: Items::new(alloc),
        picks: Items::new(alloc),
    }
}

/// The plan of a driver, a device with a queue, one class of general objects, and so many counted
/// objects; for none, the plan that declares nothing.
pub fn plan(alloc: Global, objects: u32) -> Result<Plan, Memory> {
    if objects == 0 {
        return Ok(plan_of(alloc, 0, Items::new(alloc), Items::new(alloc)));
    }
    let class = ClassInfo::Plain {
        name: 4,
        kind: PlainKind::Object,
    };
    let declared = items(alloc, &DECLARED)?;
    let classes = items(alloc, &[class])?;
    Ok(plan_of(alloc, objects, declared, classes))
}

/// The tree at the opening of a plan that declares nothing, with one request, to which the driver
/// holds a reference.
fn referenced(alloc: Global, plan: &Plan) -> Result<Tree, Memory>
    requires { plan.now.declared ≡ [] }
{
    let mut tree = Tree::make(alloc, plan)?;
    let o = tree.arrive(ObjectId(0));
    tree.reference(o);
    Ok(tree)
}

/// The tree with which a case begins.
pub fn opening(alloc: Global, plan: &Plan) -> Result<Tree, Memory> {
    if plan.declared_len() == 0 {
        referenced(alloc, plan)
    } else if plan.declared_len() < OBJECTS {
        Tree::make(alloc, plan)
    } else {
        Err(Memory)
    }
}
