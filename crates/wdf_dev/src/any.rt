ghost use Rattle.std.specs.Prelude.{◌≡◌, ◌+◌, ◌-◌, ◌≤◌, length, map, slice_get, IfOk};
ghost use Rattle.std.specs.List.{range_with_len};
ghost use Rattle.wdf_model.specs.Plans.{devices_of, targets_of};
ghost use Rattle.wdf_dev.specs.Agents.{agent_at, agent_meaning, device_or_target};
ghost use Rattle.wdf_plan_index.specs.Owners.{names_of};
ghost use Rattle.wdf_plan_index.specs.declared.owners.Owner.TheVariants as owner;

use crate::app::App;
use crate::device::Device;
use crate::lower_target::LowerTarget;
use crate::pnp_manager::PnpManager;
use std::alloc::Global;
use wdf_base::{Agent, Event, Memory, ObjectId, Plan, Post};
use wdf_plan_index::{Owner, ids_of};

/// An agent of a run, of any kind.
#[derive(Drop)]
pub enum AnyAgent {
    /// The Plug and Play manager.
    PnpManager(PnpManager),
    /// An app.
    App(App),
    /// A device.
    Device(Device),
    /// The driver below a target.
    LowerTarget(LowerTarget),
}

impl Agent for AnyAgent {
    ghost use Rattle.wdf_dev.specs.Agents.{agent_meaning};

    ghost meaning = { agent_meaning };

    fn feed(&mut self, event: &Event) {
        match self {
            AnyAgent::PnpManager(manager) => manager.feed(event),
            AnyAgent::App(app) => app.feed(event),
            AnyAgent::Device(device) => device.feed(event),
            AnyAgent::LowerTarget(target) => target.feed(event),
        }
    }

    fn due(&self) -> Option<Post> {
        match self {
            AnyAgent::PnpManager(manager) => manager.due(),
            AnyAgent::App(app) => app.due(),
            AnyAgent::Device(device) => device.due(),
            AnyAgent::LowerTarget(target) => target.due(),
        }
    }

    fn next_time(&self) -> Option<u64> {
        match self {
            AnyAgent::PnpManager(manager) => manager.next_time(),
            AnyAgent::App(app) => app.next_time(),
            AnyAgent::Device(device) => device.next_time(),
            AnyAgent::LowerTarget(target) => target.next_time(),
        }
    }

    fn value(&self, what: u32) -> u64 {
        match self {
            AnyAgent::Device(device) => device.value(what),
            _ => 0,
        }
    }
}

/// The agent with this number from the first one of a device on.
fn owned_agent(
    alloc: Global,
    plan: &Plan,
    devices: &[u32],
    targets: &[u32],
    agent: u16,
    past: usize,
) -> Result<AnyAgent, Memory>
    requires agent { agent ≤ length plan.now.agents }
    ensures { IfOk result (λ found. found ≡ device_or_target plan.now agent (slice_get devices.now past) (slice_get targets.now (past - length devices.now))) }
{
    if let Some(device) = devices.get(past) {
        let device = Device::make(alloc, plan, ObjectId(*device), agent)?;
        return Ok(AnyAgent::Device(device));
    }
    if let Some(target) = targets.get(past - devices.len()) {
        let target = LowerTarget::make(alloc, plan, ObjectId(*target), agent)?;
        return Ok(AnyAgent::LowerTarget(target));
    }
    Ok(AnyAgent::App(App::make(alloc, plan, agent)?))
}

/// The agent with this number, as it is at the opening.
fn agent_of(
    alloc: Global,
    plan: &Plan,
    devices: &[u32],
    targets: &[u32],
    agent: u16,
) -> Result<AnyAgent, Memory>
    requires agent { agent ≤ length plan.now.agents }
    requires devices { devices.now ≡ devices_of plan.now }
    requires targets { targets.now ≡ targets_of plan.now }
    requires device_names { length devices.now ≡ length (names_of owner.Device plan.now) }
    requires target_names { length targets.now ≡ length (names_of owner.Target plan.now) }
    ensures { IfOk result (λ found. found ≡ agent_at plan.now agent) }
{
    if agent == 0 {
        return Ok(AnyAgent::PnpManager(PnpManager::make(alloc, plan)?));
    }
    let number = usize::from(agent);
    let owned = devices.len() + targets.len();
    let first = 1 + (usize::from(plan.agent_len()) - 1).saturating_sub(owned);
    if number < first {
        Ok(AnyAgent::App(App::make(alloc, plan, agent)?))
    } else {
        owned_agent(alloc, plan, devices, targets, agent, number - first)
    }
}

/// The agents of a plan's run, by number: the Plug and Play manager, then the apps, the devices and
/// the targets. On [`Memory`] nothing is made.
pub fn agents(alloc: Global, plan: &Plan) -> Result<Vec<AnyAgent>, Memory>
    ensures { IfOk result (λ all. all.items ≡ map (agent_meaning.begin plan.now) (range_with_len 0 (1 + length plan.now.agents))) }
{
    let devices = ids_of(alloc, plan, Owner::Device)?;
    let targets = ids_of(alloc, plan, Owner::Target)?;
    let mut all = Vec::new(alloc);
    for agent in 0..plan.agent_len() {
        let next = agent_of(alloc, plan, devices.as_slice(), targets.as_slice(), agent)?;
        all.push(next)?;
    }
    Ok(all)
}
