//! The power of devices and queues at the opening of a plan's run.

ghost use Rattle.std.specs.Prelude.{◌≡◌, ◌+◌, ◌<◌, ◌≤◌, ◌^◌, IfOk, length, map, vec_capacity};
ghost use Rattle.wdf_model.specs.Plans as plans;
ghost use Rattle.wdf_model.specs.parts.Power as power;
ghost use Rattle.wdf_power.specs.Power.{opening_device_at};

use std::alloc::Global;
use wdf_base::{Callback, Memory, ObjectId, Plan};
use wdf_declared::{declares, device_of, queue_of};
use wdf_model::{DevicePower, QueuePower};

/// The power of an id as a device: one that works has its queues up and its hardware.
fn device_power(plan: &Plan, id: usize) -> DevicePower
    requires { id < 2 ^ 32 }
    ensures { result ≡ opening_device_at plan.now id }
{
    let working = device_of(plan, ObjectId(id as u32)).is_some_and(|device| device.working);
    DevicePower {
        up: working,
        hardware: working,
    }
}

/// The power of devices, by id.
pub(crate) fn opening_devices(alloc: Global, plan: &Plan) -> Result<Vec<DevicePower>, Memory>
    ensures { IfOk result (λ devices. devices.items ≡ map (opening_device_at plan.now) (plans.declared_ids plan.now)) }
{
    let mut devices = Vec::with_capacity(alloc, 1 + plan.declared_len() as usize)?;
    write_devices(&mut devices, plan);
    Ok(devices)
}

/// Writes the power of devices, by id.
pub(crate) fn write_devices(devices: &mut Vec<DevicePower>, plan: &Plan)
    requires { 1 + length plan.now.declared ≤ vec_capacity devices.old }
    ensures { devices.new.items ≡ map (opening_device_at plan.now) (plans.declared_ids plan.now) }
{
    let count = 1 + plan.declared_len() as usize;
    devices.clear();
    for id in 0..count {
        devices.push_reserved(device_power(plan, id));
    }
}

/// The power of an id as a queue.
fn queue_power(plan: &Plan, id: usize) -> QueuePower
    requires { id < 2 ^ 32 }
    ensures { result ≡ power.opening_queue_power plan.now id }
{
    let q = ObjectId(id as u32);
    let device = match queue_of(plan, q) {
        Some(queue) => queue.device,
        None => ObjectId(0),
    };
    QueuePower {
        device,
        resumes: declares(plan, Callback::EvtIoResume, q),
    }
}

/// The power of queues, by id.
pub(crate) fn opening_queues(alloc: Global, plan: &Plan) -> Result<Vec<QueuePower>, Memory>
    ensures { IfOk result (λ queues. queues.items ≡ map (power.opening_queue_power plan.now) (plans.declared_ids plan.now)) }
{
    let mut queues = Vec::with_capacity(alloc, 1 + plan.declared_len() as usize)?;
    write_queues(&mut queues, plan);
    Ok(queues)
}

/// Writes the power of queues, by id.
pub(crate) fn write_queues(queues: &mut Vec<QueuePower>, plan: &Plan)
    requires { 1 + length plan.now.declared ≤ vec_capacity queues.old }
    ensures { queues.new.items ≡ map (power.opening_queue_power plan.now) (plans.declared_ids plan.now) }
{
    let count = 1 + plan.declared_len() as usize;
    queues.clear();
    for id in 0..count {
        queues.push_reserved(queue_power(plan, id));
    }
}
