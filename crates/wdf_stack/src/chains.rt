ghost use Rattle.std.specs.Prelude.{◌≡◌, ◌++◌, [], codes, option_map, slice_index_or, unwrap_or};
ghost use Rattle.std.specs.Str.{bytes_eq};
ghost use Rattle.wdf_model.specs.Plans as plans;
ghost use Rattle.wdf_model.specs.Plans.{devices_of, targets_of};
ghost use Rattle.wdf_model.specs.Tables.{same_id};
ghost use Rattle.wdf_model.specs.agents.Chains as chains;

use wdf_base::{Handle, ObjectId, Plan};
use wdf_declared::{device_of, target_of};

/// The bytes of a name, none for a number that no name has.
fn name_bytes(plan: &Plan, name: u32) -> &[u8]
    ensures { result.now ≡ slice_index_or plan.now.names name [] }
{
    if name < plan.name_len() {
        plan.name(name)
    } else {
        &[]
    }
}

/// The number of a device's name, 0 for what is no device.
fn name_of_device(plan: &Plan, device: u32) -> u32
    ensures { result ≡ unwrap_or (option_map (λ d. d.name) (plans.device_of plan.now device)) 0 }
{
    match device_of(plan, ObjectId(device)) {
        Some(info) => info.name,
        None => 0,
    }
}

/// The number of a target's name, 0 for what is no target.
fn name_of_target(plan: &Plan, target: u32) -> u32
    ensures { result ≡ unwrap_or (option_map (λ t. t.name) (plans.target_of plan.now target)) 0 }
{
    match target_of(plan, ObjectId(target)) {
        Some(info) => info.name,
        None => 0,
    }
}

/// Whether a name is `TO_` and another name.
fn is_name_to(name: &[u8], device: &[u8]) -> bool
    ensures { result ≡ bytes_eq name.now (codes "TO_" ++ device.now) }
{
    match name {
        [b'T', b'O', b'_', rest @ ..] => rest == device,
        _ => false,
    }
}

/// Whether a target names a device that is declared later.
fn names_device(plan: &Plan, target: u32, device: u32) -> bool
    ensures { result ≡ chains.names_device plan.now target device }
{
    target < device
        && is_name_to(
            name_bytes(plan, name_of_target(plan, target)),
            name_bytes(plan, name_of_device(plan, device)),
        )
}

/// The device that a target names.
fn named_device(plan: &Plan, devices: &[u32], target: u32) -> Option<u32>
    requires devices { devices.now ≡ devices_of plan.now }
    ensures { result ≡ chains.named_device plan.now target }
{
    for device in devices {
        if names_device(plan, target, *device) {
            return Some(*device);
        }
    }
    None
}

/// Whether a target is of this device and names a device.
fn is_naming(plan: &Plan, devices: &[u32], device: u32, target: u32) -> bool
    requires devices { devices.now ≡ devices_of plan.now }
    ensures { result ≡ chains.is_naming plan.now device target }
{
    match target_of(plan, ObjectId(target)) {
        Some(info) => info.device.0 == device && named_device(plan, devices, target).is_some(),
        None => false,
    }
}

/// The first target of a device that names one.
fn naming_target(plan: &Plan, devices: &[u32], targets: &[u32], device: u32) -> Option<u32>
    requires devices { devices.now ≡ devices_of plan.now }
    requires targets { targets.now ≡ targets_of plan.now }
    ensures { result ≡ chains.naming_target plan.now device }
{
    for target in targets {
        if is_naming(plan, devices, device, *target) {
            return Some(*target);
        }
    }
    None
}

/// The device that a device names by that target.
fn device_named_by(plan: &Plan, devices: &[u32], targets: &[u32], device: u32) -> Option<u32>
    requires devices { devices.now ≡ devices_of plan.now }
    requires targets { targets.now ≡ targets_of plan.now }
    ensures { result ≡ chains.device_named_by plan.now device }
{
    let target = naming_target(plan, devices, targets, device)?;
    named_device(plan, devices, target)
}

/// Whether there is a number, and it is this one.
fn is_number(found: Option<u32>, number: u32) -> bool
    ensures { result ≡ same_id found number }
{
    match found {
        Some(other) => other == number,
        None => false,
    }
}

/// The device above one: the first that names it.
pub fn above(plan: &Plan, devices: &[u32], targets: &[u32], device: u32) -> Option<u32>
    requires devices { devices.now ≡ devices_of plan.now }
    requires targets { targets.now ≡ targets_of plan.now }
    ensures { result ≡ chains.above plan.now device }
{
    for upper in devices {
        if is_number(device_named_by(plan, devices, targets, *upper), device) {
            return Some(*upper);
        }
    }
    None
}

/// The device below one: that which it names, and no device before it does.
pub fn below(plan: &Plan, devices: &[u32], targets: &[u32], device: u32) -> Option<u32>
    requires devices { devices.now ≡ devices_of plan.now }
    requires targets { targets.now ≡ targets_of plan.now }
    ensures { result ≡ chains.below plan.now device }
{
    let lower = device_named_by(plan, devices, targets, device)?;
    if is_number(above(plan, devices, targets, lower), device) {
        Some(lower)
    } else {
        None
    }
}

/// The device to which a target is connected, none for a target that counts for nothing.
pub fn connected_to(plan: &Plan, devices: &[u32], targets: &[u32], target: u32) -> Option<u32>
    requires devices { devices.now ≡ devices_of plan.now }
    requires targets { targets.now ≡ targets_of plan.now }
    ensures { result ≡ chains.connected_to plan.now target }
{
    let info = target_of(plan, ObjectId(target))?;
    let device = info.device.0;
    if is_number(naming_target(plan, devices, targets, device), target) {
        below(plan, devices, targets, device)
    } else {
        None
    }
}

/// The handle of a device.
pub fn device_handle(plan: &Plan, device: u32) -> Handle
    ensures { result ≡ chains.device_handle plan.now device }
{
    Handle {
        id: ObjectId(device),
        name: name_of_device(plan, device),
    }
}
