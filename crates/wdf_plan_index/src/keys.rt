//! The numbers by which scripts, and what belongs to a device, are found.
ghost use Rattle.std.specs.Prelude.{◌≡◌, IfOk};
ghost use Rattle.wdf_plan_index.specs.Keys as keys;

use std::alloc::Global;
use wdf_base::{Declared, Memory, ObjectId, Plan};
use wdf_declared::name_of_class;

/// The number of the name of what a script is declared on.
pub(crate) fn owner_name(plan: &Plan, owner: &Declared) -> u32
    ensures { result ≡ keys.owner_name plan.now owner.now }
{
    match owner {
        Declared::OfClass(class) => name_of_class(plan, *class),
        other => other.name().unwrap_or(0),
    }
}

/// For each script the number of the name of what it is declared on.
pub(crate) fn script_names(alloc: Global, plan: &Plan) -> Result<Vec<u32>, Memory>
    ensures { IfOk result (λ names. names.items ≡ keys.script_names plan.now) }
{
    let mut names = Vec::new(alloc);
    for k in 0..plan.script_len() {
        names.push(owner_name(plan, &plan.scripts.item(k).owner))?;
    }
    Ok(names)
}

/// The device that a queue, an interrupt or a target belongs to; the id 0 for what belongs to none.
fn device_over(object: Declared) -> ObjectId
    ensures { result.0 ≡ keys.device_over object }
{
    match object {
        Declared::Queue(queue) => queue.device,
        Declared::Interrupt(interrupt) => interrupt.device,
        Declared::Target(target) => target.device,
        _ => ObjectId(0),
    }
}

/// For each declared object the device that it belongs to.
pub(crate) fn devices_over(alloc: Global, plan: &Plan) -> Result<Vec<u32>, Memory>
    ensures { IfOk result (λ devices. devices.items ≡ keys.devices_over plan.now) }
{
    let mut devices = Vec::new(alloc);
    for k in 0..plan.declared_len() {
        devices.push(device_over(plan.declared.get(k)).0)?;
    }
    Ok(devices)
}
