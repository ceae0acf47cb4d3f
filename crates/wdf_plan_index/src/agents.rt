//! Agents by number: the Plug and Play manager is 0, then the apps, the devices, the targets. (own)
ghost use Rattle.std.specs.Prelude.{◌≡◌, ◌<◌, ◌≤◌, ◌^◌, option_map, slice_get};
ghost use Rattle.wdf_model.specs.Plans as plans;

use crate::indexed::IndexedPlan;
use crate::places::Places;
use wdf_base::ObjectId;

impl IndexedPlan {
    /// How many agents come before the devices.
    fn first_device_agent(&self) -> usize
        ensures value { result ≡ plans.first_device_agent self.now }
        ensures small { result ≤ 0x1_0000 }
    {
        let owners = self.tables.devices.as_slice().len() + self.tables.targets.len();
        1 + (self.plan.agents.len() as usize).saturating_sub(owners)
    }

    /// The agent of a device.
    pub fn agent_of_device(&self, device: ObjectId) -> usize
        ensures { result ≡ plans.agent_of_device self.now device.0 }
    {
        self.first_device_agent() + place_in(device.0, &self.tables.devices)
    }

    /// The device of an agent, if it is one's.
    pub fn device_of_agent(&self, agent: u16) -> Option<ObjectId>
        ensures { option_map (λ o. o.0) result ≡ plans.device_of_agent self.now agent }
    {
        let first = self.first_device_agent();
        let agent = usize::from(agent);
        if agent < first {
            None
        } else {
            id_at(self.tables.devices.as_slice(), agent - first)
        }
    }

    /// The target of an agent, if it is one's.
    pub fn target_of_agent(&self, agent: u16) -> Option<ObjectId>
        ensures { option_map (λ o. o.0) result ≡ plans.target_of_agent self.now agent }
    {
        let first = self.first_device_agent() + self.tables.devices.as_slice().len();
        let agent = usize::from(agent);
        if agent < first {
            None
        } else {
            id_at(&self.tables.targets, agent - first)
        }
    }

    /// The device of a register; the id 0 for what is none.
    pub fn device_of_register(&self, register: u32) -> ObjectId
        ensures { result.0 ≡ plans.device_of_register self.now register }
    {
        match self.plan.registers.as_slice().get(register as usize) {
            Some(info) => info.device,
            None => ObjectId(0),
        }
    }
}

/// The place of an id in a list, or the list's length.
#[tactic(auto, using(crate::proofs::Finding::place_is))]
fn place_in(id: u32, ids: &Places) -> usize
    ensures value { result ≡ plans.place_in id ids.now }
    ensures small { result < 2 ^ 32 }
{
    match ids.first(id) {
        Some(place) => place as usize,
        None => ids.as_slice().len(),
    }
}

/// The id at a place of a list.
fn id_at(ids: &[u32], place: usize) -> Option<ObjectId>
    ensures { option_map (λ o. o.0) result ≡ slice_get ids.now place }
{
    ids.get(place).map(|id| ObjectId(*id))
}
