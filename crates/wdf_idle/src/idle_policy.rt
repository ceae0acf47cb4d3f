ghost use Rattle.std.specs.Prelude.{◌≡◌, fold, map, IfOk};
ghost use Rattle.std.specs.List.{filter_map};
ghost use Rattle.wdf_model.specs.Tables.{lesser, first_of_list};
ghost use Rattle.wdf_model.specs.agents.IdlePolicy as model;
ghost use Rattle.wdf_idle.specs.Ahead.{concerns};

use crate::idle_device::IdleDevice;
use crate::taking_part::devices_of;
use std::alloc::Global;
use std::marker::Model;
use wdf_base::{CallKind, Callback, Event, Memory, Plan, Post};
use wdf_dev::PnpManager;

/// The idle policy: it puts a device to sleep that nobody has used for a while, and wakes it when a
/// request arrives. It is agent 0. (own)
#[derive(Drop)]
pub struct IdlePolicy {
    /// The Plug and Play manager in whose place it is.
    manager: PnpManager,
    /// The devices that take part, by id.
    devices: Vec<IdleDevice>,
    /// The tick that the clock shows.
    clock: u64,
    /// What is due for the first device for which something is.
    first: Option<Post>,
    /// The least later tick of a line or of a sleep.
    next: Option<u64>,
}

impl Model for IdlePolicy {
    ghost use Rattle.std.specs.Prelude.{◌≡◌};
    ghost use Rattle.wdf_model.specs.agents.IdlePolicy as model;
    ghost use Rattle.wdf_idle.specs.Ahead.{IsAhead};

    ghost Value = { model.IdlePolicy };

    ghost view = { λ s. record { manager = s.manager; devices = s.devices.items } };

    ghost invariant = { λ s. IsAhead s.manager s.devices.items s.clock s.first s.next };
}

/// Whether an event may change what the policy knows.
fn concerns(event: &Event) -> bool
    ensures { result ≡ concerns event.now }
{
    match event {
        Event::Stage { .. }
        | Event::Posted { .. }
        | Event::Register { .. }
        | Event::Complete { .. }
        | Event::Tick { .. } => true,
        Event::End { callback, .. } => matches!(
            callback,
            Callback::EvtDeviceQueryStop | Callback::EvtDeviceQueryRemove
        ),
        Event::Did { call, .. } => matches!(call.kind, CallKind::WdfRequestComplete),
        _ => false,
    }
}

/// Lets each device hear of an event.
fn feed_all(devices: &mut [IdleDevice], now: u64, event: &Event)
    ensures { devices.new ≡ map (model.idle_after now event.now) devices.old }
{
    for device in devices.iter_mut() {
        device.feed(now, event);
    }
}

/// What is due for the first device for which something is.
fn first_post(devices: &[IdleDevice], now: u64) -> Option<Post>
    ensures { result ≡ first_of_list (filter_map (model.idle_post now) devices.now) }
{
    for device in devices {
        if let Some(post) = device.post(now) {
            return Some(post);
        }
    }
    None
}

/// The lesser of two ticks, each as far as it is there.
fn lesser_tick(found: Option<u64>, tick: u64) -> Option<u64>
    ensures { result ≡ lesser found tick }
{
    match found {
        Some(least) if least <= tick => Some(least),
        _ => Some(tick),
    }
}

/// The least tick of a line or of a sleep.
fn least_tick(line: Option<u64>, devices: &[IdleDevice], now: u64) -> Option<u64>
    ensures { result ≡ fold lesser line (filter_map (model.later_sleep now) devices.now) }
{
    let mut least = line;
    for device in devices {
        if let Some(tick) = device.later_sleep(now) {
            least = lesser_tick(least, tick);
        }
    }
    least
}

impl IdlePolicy {
    /// The policy before its first event. It takes room for the requests of a run. On [`Memory`] nothing
    /// is made.
    pub fn make(alloc: Global, plan: &Plan) -> Result<IdlePolicy, Memory>
        ensures { IfOk result (λ made. made ≡ model.policy_at plan.now) }
    {
        let devices = devices_of(alloc, plan)?;
        let manager = PnpManager::make(alloc, plan)?;
        let first = first_post(devices.as_slice(), 0);
        let next = least_tick(manager.next_time(), devices.as_slice(), 0);
        Ok(IdlePolicy {
            manager,
            devices,
            clock: 0,
            first,
            next,
        })
    }

    /// Takes notice of an event of the run.
    #[tactic(auto, using(crate::proofs::Concerning::as_it_was))]
    pub fn feed(&mut self, event: &Event)
        ensures { self.new ≡ model.policy_after self.old event.now }
    {
        if concerns(event) {
            self.hear(event);
        }
    }

    /// The manager's lines and the devices change, and what is due of them.
    fn hear(&mut self, event: &Event)
        ensures { self.new ≡ model.policy_after self.old event.now }
    {
        let own = self.first.is_some();
        feed_all(self.devices.as_mut_slice(), self.clock, event);
        match event {
            Event::Posted { .. } if own => {}
            _ => self.manager.feed(event),
        }
        if let Event::Tick { time } = event {
            self.clock = *time;
        }
        self.first = first_post(self.devices.as_slice(), self.clock);
        self.next = least_tick(
            self.manager.next_time(),
            self.devices.as_slice(),
            self.clock,
        );
    }

    /// What is due for a device, else the manager's next line, if its tick is reached.
    pub fn due(&self) -> Option<Post>
        ensures { result ≡ model.policy_due self.now }
    {
        match self.first {
            Some(post) => Some(post),
            None => self.manager.due(),
        }
    }

    /// The least later tick of a line or of a sleep.
    pub fn next_time(&self) -> Option<u64>
        ensures { result ≡ model.policy_next self.now }
    {
        self.next
    }
}
