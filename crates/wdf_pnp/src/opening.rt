//! What a device's steps are made of, and how far it has come at the opening of a plan's run.

ghost use Rattle.std.specs.Prelude.{◌≡◌, ◌++◌, IfOk, None, OnOk, Some, filter, if◌then◌else◌, option_to_list};
ghost use Rattle.wdf_model.specs.Plans as plans;
ghost use Rattle.wdf_model.specs.parts.Pnp as pnp;
ghost use Rattle.wdf_pnp.specs.Opening.{steps_at};

use crate::interrupt::InterruptSteps;
use crate::lists::DeviceSteps;
use std::alloc::Global;
use wdf_base::{Callback, Handle, Memory, ObjectId, Plan};
use wdf_declared::{declares, interrupt_of};

/// The callbacks that are steps of a device. (KMDF)
const DEVICE_CALLBACKS: [Callback; 14] = [
    Callback::EvtDevicePrepareHardware,
    Callback::EvtDeviceReleaseHardware,
    Callback::EvtDeviceD0Entry,
    Callback::EvtDeviceD0EntryPostInterruptsEnabled,
    Callback::EvtDeviceD0ExitPreInterruptsDisabled,
    Callback::EvtDeviceD0Exit,
    Callback::EvtDeviceSelfManagedIoInit,
    Callback::EvtDeviceSelfManagedIoRestart,
    Callback::EvtDeviceSelfManagedIoSuspend,
    Callback::EvtDeviceSelfManagedIoFlush,
    Callback::EvtDeviceSelfManagedIoCleanup,
    Callback::EvtDeviceQueryStop,
    Callback::EvtDeviceQueryRemove,
    Callback::EvtDeviceSurpriseRemoval,
];

/// Adds an item, if there is one, at the end of a vector.
fn add<T: Drop>(all: &mut Vec<T>, item: Option<T>) -> Result<(), Memory>
    ensures { OnOk result (all.new.items ≡ all.old.items ++ option_to_list item) }
{
    match item {
        Some(item) => all.push(item)?,
        None => {}
    }
    Ok(())
}

/// A callback, if a device declares it.
fn if_declared(plan: &Plan, d: ObjectId, callback: Callback) -> Option<Callback>
    ensures { result ≡ (if plans.declares plan.now callback d.0 then Some callback else None) }
{
    if declares(plan, callback, d) {
        Some(callback)
    } else {
        None
    }
}

/// The callbacks of a list that a device declares.
fn declared_among(
    alloc: Global,
    plan: &Plan,
    d: ObjectId,
    callbacks: &[Callback],
) -> Result<Vec<Callback>, Memory>
    ensures { IfOk result (λ all. all.items ≡ filter (λ c. plans.declares plan.now c d.0) callbacks.now) }
{
    let mut all = Vec::new(alloc);
    for callback in callbacks {
        add(&mut all, if_declared(plan, d, *callback))?;
    }
    Ok(all)
}

/// The steps of an interrupt of a device: `None` for what is none.
fn interrupt_steps(plan: &Plan, d: ObjectId, i: ObjectId) -> Option<InterruptSteps>
    ensures { result ≡ steps_at plan.now d.0 i.0 }
{
    match interrupt_of(plan, i) {
        Some(info) if info.device.0 == d.0 => Some(InterruptSteps {
            interrupt: Handle {
                id: i,
                name: info.name,
            },
            enables: declares(plan, Callback::EvtInterruptEnable, i),
            disables: declares(plan, Callback::EvtInterruptDisable, i),
        }),
        _ => None,
    }
}

/// The interrupts of a device, in order.
fn device_interrupts(alloc: Global, plan: &Plan, d: ObjectId) -> Result<Vec<InterruptSteps>, Memory>
    ensures { IfOk result (λ all. all.items ≡ (pnp.device_steps plan.now d.0).interrupts) }
{
    let mut all = Vec::new(alloc);
    for id in 0..1 + plan.declared_len() as usize {
        add(&mut all, interrupt_steps(plan, d, ObjectId(id as u32)))?;
    }
    Ok(all)
}

/// What a device's steps are made of.
pub(crate) fn device_steps(alloc: Global, plan: &Plan, d: ObjectId) -> Result<DeviceSteps, Memory>
    ensures { IfOk result (λ steps. steps ≡ pnp.device_steps plan.now d.0) }
{
    Ok(DeviceSteps {
        callbacks: declared_among(alloc, plan, d, &DEVICE_CALLBACKS)?,
        interrupts: device_interrupts(alloc, plan, d)?,
    })
}
