ghost use Rattle.std.specs.Prelude.{◌≡◌, ◌+◌, ◌-◌, ◌≤◌, length, map, slice_get, IfOk};
ghost use Rattle.std.specs.List.{range_with_len};
ghost use Rattle.wdf_model.specs.Plans.{devices_of, first_device_agent, targets_of};
ghost use Rattle.wdf_stack.specs.Agents.{agent_at, device_or_target, stack_meaning, target_agent};
ghost use Rattle.wdf_model.specs.agents.Chains as chains;
ghost use Rattle.wdf_plan_index.specs.Owners.{names_of};
ghost use Rattle.wdf_plan_index.specs.declared.owners.Owner.TheVariants as owner;

use crate::chains::connected_to;
use crate::connector::Connector;
use crate::stack_manager::StackManager;
use std::alloc::Global;
use wdf_base::{Agent, Event, Memory, ObjectId, Plan, Post};
use wdf_dev::{App, Device, LowerTarget};
use wdf_plan_index::{Owner, ids_of};

/// An agent of a run with stacks of devices, of any kind.
#[derive(Drop)]
pub enum StackAgent {
    /// The stack manager.
    StackManager(StackManager),
    /// An app.
    App(App),
    /// A device.
    Device(Device),
    /// The driver below a target that isn't connected.
    LowerTarget(LowerTarget),
    /// A connected target.
    Connector(Connector),
}

impl Agent for StackAgent {
    ghost use Rattle.wdf_stack.specs.Agents.{stack_meaning};

    ghost meaning = { stack_meaning };

    fn feed(&mut self, event: &Event) {
        match self {
            StackAgent::StackManager(manager) => manager.feed(event),
            StackAgent::App(app) => app.feed(event),
            StackAgent::Device(device) => device.feed(event),
            StackAgent::LowerTarget(target) => target.feed(event),
            StackAgent::Connector(connector) => connector.feed(event),
        }
    }

    fn due(&self) -> Option<Post> {
        match self {
            StackAgent::StackManager(manager) => manager.due(),
            StackAgent::App(app) => app.due(),
            StackAgent::Device(device) => device.due(),
            StackAgent::LowerTarget(target) => target.due(),
            StackAgent::Connector(connector) => connector.due(),
        }
    }

    fn next_time(&self) -> Option<u64> {
        match self {
            StackAgent::StackManager(manager) => manager.next_time(),
            StackAgent::App(app) => app.next_time(),
            StackAgent::Device(device) => device.next_time(),
            StackAgent::LowerTarget(target) => target.next_time(),
            StackAgent::Connector(_) => None,
        }
    }

    fn value(&self, what: u32) -> u64 {
        match self {
            StackAgent::Device(device) => device.value(what),
            _ => 0,
        }
    }
}

/// The agent of a target: a connector where it is connected.
fn target_agent_of(
    alloc: Global,
    plan: &Plan,
    devices: &[u32],
    targets: &[u32],
    target: u32,
    agent: u16,
    first: usize,
) -> Result<StackAgent, Memory>
    requires devices { devices.now ≡ devices_of plan.now }
    requires targets { targets.now ≡ targets_of plan.now }
    requires first { first ≡ first_device_agent plan.now }
    ensures { IfOk result (λ found. found ≡ target_agent plan.now target agent (chains.connected_to plan.now target)) }
{
    match connected_to(plan, devices, targets, target) {
        Some(lower) => {
            let connector = Connector::make(alloc, plan, ObjectId(target), lower, agent, first)?;
            Ok(StackAgent::Connector(connector))
        }
        None => {
            let lower = LowerTarget::make(alloc, plan, ObjectId(target), agent)?;
            Ok(StackAgent::LowerTarget(lower))
        }
    }
}

/// The agent with this number from the first one of a device on.
fn owned_agent(
    alloc: Global,
    plan: &Plan,
    devices: &[u32],
    targets: &[u32],
    agent: u16,
    past: usize,
    first: usize,
) -> Result<StackAgent, Memory>
    requires agent { agent ≤ length plan.now.agents }
    requires devices { devices.now ≡ devices_of plan.now }
    requires targets { targets.now ≡ targets_of plan.now }
    requires first { first ≡ first_device_agent plan.now }
    ensures { IfOk result (λ found. found ≡ device_or_target plan.now agent (slice_get devices.now past) (slice_get targets.now (past - length devices.now))) }
{
    if let Some(device) = devices.get(past) {
        let device = Device::make(alloc, plan, ObjectId(*device), agent)?;
        return Ok(StackAgent::Device(device));
    }
    if let Some(target) = targets.get(past - devices.len()) {
        return target_agent_of(alloc, plan, devices, targets, *target, agent, first);
    }
    Ok(StackAgent::App(App::make(alloc, plan, agent)?))
}

/// The agent with this number, as it is at the opening.
fn agent_of(
    alloc: Global,
    plan: &Plan,
    devices: &[u32],
    targets: &[u32],
    agent: u16,
) -> Result<StackAgent, Memory>
    requires agent { agent ≤ length plan.now.agents }
    requires devices { devices.now ≡ devices_of plan.now }
    requires targets { targets.now ≡ targets_of plan.now }
    requires device_names { length devices.now ≡ length (names_of owner.Device plan.now) }
    requires target_names { length targets.now ≡ length (names_of owner.Target plan.now) }
    ensures { IfOk result (λ found. found ≡ agent_at plan.now agent) }
{
    if agent == 0 {
        let manager = StackManager::make(alloc, plan, devices, targets)?;
        return Ok(StackAgent::StackManager(manager));
    }
    let number = usize::from(agent);
    let owned = devices.len() + targets.len();
    let first = 1 + (usize::from(plan.agent_len()) - 1).saturating_sub(owned);
    if number < first {
        Ok(StackAgent::App(App::make(alloc, plan, agent)?))
    } else {
        owned_agent(alloc, plan, devices, targets, agent, number - first, first)
    }
}

/// The agents of a plan's run with stacks of devices, by number: the stack manager, then the apps, the devices and the
/// targets, of which the connected ones are connectors. On [`Memory`] nothing is made.
pub fn stack_agents(alloc: Global, plan: &Plan) -> Result<Vec<StackAgent>, Memory>
    ensures { IfOk result (λ all. all.items ≡ map (stack_meaning.begin plan.now) (range_with_len 0 (1 + length plan.now.agents))) }
{
    let devices = ids_of(alloc, plan, Owner::Device)?;
    let targets = ids_of(alloc, plan, Owner::Target)?;
    let mut all = Vec::new(alloc);
    for agent in 0..plan.agent_len() {
        let next = agent_of(alloc, plan, devices.as_slice(), targets.as_slice(), agent)?;
        all.push(next)?;
    }
    Ok(all)
}
