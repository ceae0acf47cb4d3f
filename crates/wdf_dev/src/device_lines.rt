ghost use Rattle.std.specs.Prelude.{◌≡◌, ◌≤◌, length, map, IfOk};
ghost use Rattle.std.specs.List.{filter_map, position_or_len};
ghost use Rattle.wdf_model.specs.Plans as plans;
ghost use Rattle.wdf_model.specs.agents.Device as model;
ghost use Rattle.wdf_dev.specs.Actions.{interrupt_in, comes_after, IsWithin};

use std::alloc::Global;
use wdf_base::{
    Action, Memory, ObjectId, Plan, Post, PostLine, RegisterInfo, WhenLine, same_object_id,
};
use wdf_model::DeviceAction;

/// What a register holds at the opening, if it is this device's.
fn register_at(register: &RegisterInfo, device: ObjectId) -> Option<u64>
    ensures { result ≡ model.register_of device.0 register.now }
{
    if same_object_id(register.device, device) {
        Some(register.value)
    } else {
        None
    }
}

/// The plan's registers as a device has them: what its own hold at the opening.
pub fn registers_of(
    alloc: Global,
    plan: &Plan,
    device: ObjectId,
) -> Result<Vec<Option<u64>>, Memory>
    ensures { IfOk result (λ made. made.items ≡ map (model.register_of device.0) plan.now.registers) }
{
    let mut registers = Vec::new(alloc);
    for k in 0..plan.register_len() {
        registers.push(register_at(&plan.register(k), device))?;
    }
    Ok(registers)
}

/// The device of a register, the id 0 for a number that no register has.
fn device_of_register(plan: &Plan, k: u32) -> ObjectId
    ensures { result.0 ≡ plans.device_of_register plan.now k }
{
    if k < plan.register_len() {
        plan.register(k).device
    } else {
        ObjectId(0)
    }
}

/// The action of a line with `when`, if it is this device's.
fn when_action(plan: &Plan, device: ObjectId, when: WhenLine) -> Option<DeviceAction>
    ensures { result ≡ model.when_action plan.now device.0 when }
{
    if same_object_id(device_of_register(plan, when.register), device) {
        Some(DeviceAction {
            action: when.action,
            trigger: Some(when),
            tick: None,
            line: when.line,
        })
    } else {
        None
    }
}

/// The action of a line with `at`.
fn at_action(line: PostLine) -> Option<DeviceAction>
    ensures { result ≡ model.at_action line }
{
    match line.post {
        Post::Act { action } => Some(DeviceAction {
            action,
            trigger: None,
            tick: Some(line.tick),
            line: line.line,
        }),
        _ => None,
    }
}

/// The place of the first action whose line comes after this one, or how many actions there are
/// where none does.
fn place_of(actions: &[DeviceAction], line: u32) -> usize
    ensures place { result ≡ position_or_len (comes_after line) actions.now }
    ensures within { result ≤ length actions.now }
{
    for (at, action) in actions.iter().enumerate() {
        if line < action.line {
            return at;
        }
    }
    actions.len()
}

/// Puts an action among actions in the order of the text.
#[tactic(auto, using(crate::proofs::Gathering::among_is))]
fn put_among(actions: &mut Vec<DeviceAction>, action: DeviceAction) -> Result<(), Memory>
    ensures { IfOk result (λ done. actions.new.items ≡ model.among actions.old.items action) }
{
    let at = place_of(actions.as_slice(), action.line);
    actions.insert(at, action)?;
    Ok(())
}

/// The actions of a device with `when`.
fn when_actions(alloc: Global, plan: &Plan, device: ObjectId) -> Result<Vec<DeviceAction>, Memory>
    ensures { IfOk result (λ made. made.items ≡ filter_map (model.when_action plan.now device.0) plan.now.whens) }
{
    let mut actions = Vec::new(alloc);
    for k in 0..plan.when_len() {
        if let Some(action) = when_action(plan, device, plan.when(k)) {
            actions.push(action)?;
        }
    }
    Ok(actions)
}

/// The actions of a device, those with `when` and those with `at` in the order of the text.
pub fn actions_of(
    alloc: Global,
    plan: &Plan,
    device: ObjectId,
    agent: u16,
) -> Result<Vec<DeviceAction>, Memory>
    requires { agent ≤ length plan.now.agents }
    ensures { IfOk result (λ made. made.items ≡ model.device_actions plan.now device.0 agent) }
{
    let mut actions = when_actions(alloc, plan, device)?;
    for k in 0..plan.post_len(agent) {
        if let Some(action) = at_action(plan.post(agent, k)) {
            put_among(&mut actions, action)?;
        }
    }
    Ok(actions)
}

/// The interrupt of an action, the id 0 for none.
fn interrupt_in(action: Action) -> ObjectId
    ensures { result.0 ≡ interrupt_in action }
{
    match action {
        Action::Set { .. } => ObjectId(0),
        Action::Raise { interrupt } | Action::Lower { interrupt } => interrupt.id,
    }
}

/// Room for the level lines of the interrupts that actions name.
pub fn room_for(actions: &[DeviceAction]) -> usize
    ensures { IsWithin result actions.now }
{
    let mut room = 0;
    for action in actions {
        room = room.max(interrupt_in(action.action).0 as usize + 1);
    }
    room
}
