ghost use Rattle.std.specs.Prelude.{◌≡◌, ◌+◌, ◌<◌, false, suc, length, position, option_map, unwrap_or, slice_get, IfOk, IfSome};
ghost use Rattle.std.specs.List.{filter_map};
ghost use Rattle.std.specs.Str.{bytes_eq};
ghost use Rattle.wdf_model.specs.Plans as plans;
ghost use Rattle.wdf_model.specs.agents.IdlePolicy as model;

use crate::idle_device::IdleDevice;
use std::alloc::Global;
use wdf_base::{DeviceInfo, Handle, Memory, ObjectId, Plan, RegisterInfo, same_object_id};
use wdf_declared::device_of;
use wdf_plan_index::{Owner, ids_of};

/// The longest time until a device goes to sleep, in ticks. (own)
const LONGEST_TIMEOUT: u64 = 1_000_000;

/// Whether a name of the plan is this word.
fn is_named(plan: &Plan, name: u32, word: &[u8]) -> bool
    ensures { result ≡ unwrap_or (option_map (bytes_eq word.now) (slice_get plan.now.names name)) false }
{
    name < plan.name_len() && word == plan.name(name)
}

/// Whether a register is the device's with this name.
pub fn is_register_named(
    plan: &Plan,
    device: ObjectId,
    word: &[u8],
    register: &RegisterInfo,
) -> bool
    ensures { result ≡ model.is_register_named plan.now device.0 word.now register.now }
{
    same_object_id(register.device, device) && is_named(plan, register.name, word)
}

/// The place of the device's register with this name among the plan's.
fn find_register(plan: &Plan, device: ObjectId, word: &[u8]) -> Option<usize>
    ensures value { result ≡ position (model.is_register_named plan.now device.0 word.now) plan.now.registers }
    ensures small { IfSome result (λ k. k < length plan.now.registers) }
{
    plan.registers
        .as_slice()
        .iter()
        .position(|register| is_register_named(plan, device, word, register))
}

/// The number of the device's register with this name, if it has one.
pub fn register_named(plan: &Plan, device: ObjectId, word: &[u8]) -> Option<u32>
    ensures { result ≡ position (model.is_register_named plan.now device.0 word.now) plan.now.registers }
{
    let _registers = plan.register_len();
    let found = find_register(plan, device, word);
    found.map(|k| k as u32)
}

/// What the device's register with this name holds at the opening; 0 where it has none.
pub fn opening_value(plan: &Plan, device: ObjectId, word: &[u8]) -> u64
    ensures { result ≡ model.opening_value plan.now device.0 word.now }
{
    match register_named(plan, device, word) {
        Some(k) => plan.register(k).value,
        None => 0,
    }
}

/// After how many idle ticks the device goes to sleep; 0 where it takes no part.
pub fn timeout_of(plan: &Plan, device: ObjectId) -> u64
    ensures { result ≡ model.timeout_of plan.now device.0 }
{
    opening_value(plan, device, "IDLE_TIMEOUT".as_bytes()).min(LONGEST_TIMEOUT)
}

/// Room for the requests of a run by their ids.
fn room_of(plan: &Plan) -> u64
    ensures { result ≡ suc (length plan.now.declared) + plan.now.limit }
{
    1 + u64::from(plan.declared_len()) + u64::from(plan.limit())
}

/// A declared device, at the opening.
fn device_at(
    alloc: Global,
    plan: &Plan,
    device: ObjectId,
    info: DeviceInfo,
) -> Result<IdleDevice, Memory>
    ensures { IfOk result (λ made. made ≡ model.device_at plan.now device.0 info) }
{
    let room = room_of(plan);
    let Ok(places) = usize::try_from(room) else {
        return Err(Memory);
    };
    Ok(IdleDevice {
        device: Handle {
            id: device,
            name: info.name,
        },
        timeout: timeout_of(plan, device),
        hold_register: register_named(plan, device, "IDLE_HOLD".as_bytes()),
        room,
        awake: info.working,
        asleep: false,
        was_awake: false,
        was_asleep: false,
        pending: Vec::with_capacity(alloc, places)?,
        count: 0,
        since: 0,
        hold: opening_value(plan, device, "IDLE_HOLD".as_bytes()) != 0,
    })
}

/// A device with a timeout, at the opening; none for another, which takes no part.
fn device_if_part(
    alloc: Global,
    plan: &Plan,
    device: ObjectId,
) -> Result<Option<IdleDevice>, Memory>
    ensures { IfOk result (λ made. made ≡ model.device_if_part plan.now device.0) }
{
    if timeout_of(plan, device) == 0 {
        return Ok(None);
    }
    match device_of(plan, device) {
        Some(info) => Ok(Some(device_at(alloc, plan, device, info)?)),
        None => Ok(None),
    }
}

/// The devices that take part, by id.
pub fn devices_of(alloc: Global, plan: &Plan) -> Result<Vec<IdleDevice>, Memory>
    ensures { IfOk result (λ made. made.items ≡ filter_map (model.device_if_part plan.now) (plans.devices_of plan.now)) }
{
    let ids = ids_of(alloc, plan, Owner::Device)?;
    let mut devices = Vec::new(alloc);
    for id in ids.as_slice() {
        if let Some(device) = device_if_part(alloc, plan, ObjectId(*id))? {
            devices.push(device)?;
        }
    }
    Ok(devices)
}
