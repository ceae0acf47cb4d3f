ghost use Rattle.std.specs.Prelude.{◌≡◌, ℕ, ◌+◌, ◌<◌, IfOk, MatchOption, length, nat_lt, slice_set};
ghost use Rattle.wdf_model.specs.Tables.{entry};
ghost use Rattle.wdf_model.specs.parts.Pnp as pnp;
ghost use Rattle.wdf_pnp.specs.Opening.{sequence_at};
ghost use Rattle.wdf_pnp.specs.Stepping.{has_steps, none_stepping};
ghost use Rattle.wdf_sets.specs.Nexts.{IsNext, NoneFrom};

use crate::sequence::Sequence;
use std::alloc::Global;
use std::marker::Model;
use wdf_base::{Ask, Memory, ObjectId, Plan, Step, Value};
use wdf_model::Phase;
use wdf_sets::IdSet;

/// Plug and Play and power of all devices: the phase of each, and the steps that it has left.
#[derive(Drop)]
pub struct Pnp {
    /// By the device's id.
    devices: Vec<Sequence>,
    /// The devices that have a step left.
    stepping: IdSet,
}

impl Model for Pnp {
    ghost use Rattle.wdf_model.specs.parts.Pnp as pnp;

    ghost Value = { pnp.Pnp };

    ghost use Rattle.wdf_pnp.specs.Stepping.{IsStepping};

    ghost view = { λ p. record { devices = p.devices.items } };

    ghost invariant = { IsStepping };
}

/// Each device at the opening of the plan's run. It takes all memory that the sequences need.
fn opening_devices(alloc: Global, plan: &Plan) -> Result<Vec<Sequence>, Memory>
    ensures { IfOk result (λ made. made.items ≡ (pnp.opening_pnp plan.now).devices) }
{
    let count = 1 + plan.declared_len() as usize;
    let mut devices = Vec::with_capacity(alloc, count)?;
    for id in 0..count {
        devices.push(Sequence::make(alloc, plan, ObjectId(id as u32))?)?;
    }
    Ok(devices)
}

/// Notes whether a device has a step left.
fn note(stepping: &mut IdSet, device: &Sequence, d: ObjectId)
    requires { d.0 < length stepping.old }
    ensures { stepping.new ≡ slice_set stepping.old d.0 (nat_lt 0 (length device.now.left)) }
{
    stepping.put(d.0, device.steps_left() > 0);
}

/// Each device is at the opening of a plan's run once more.
fn begin_all(devices: &mut Vec<Sequence>, plan: &Plan)
    requires ids { length devices.old.items ≡ 1 + length plan.now.declared }
    requires steps { (d : ℕ) → (entry pnp.no_sequence devices.old.items d).steps ≡ (sequence_at plan.now d).steps }
    ensures { devices.new.items ≡ (pnp.opening_pnp plan.now).devices }
{
    let ids = 1 + plan.declared_len() as usize;
    for id in 0..ids {
        let device = &mut devices[id];
        device.begin_again(plan, ObjectId(id as u32));
    }
}

impl Pnp {
    /// The opening of the plan's run: no sequence is under way. It takes all memory that the
    /// sequences need: each device has room for its longest list of steps.
    pub fn make(alloc: Global, plan: &Plan) -> Result<Pnp, Memory>
        ensures { IfOk result (λ made. made ≡ pnp.opening_pnp plan.now) }
    {
        let devices = opening_devices(alloc, plan)?;
        let stepping = IdSet::for_table(alloc, devices.len())?;
        Ok(Pnp { devices, stepping })
    }

    /// The opening of a plan's run once more, where the table has the plan's size and the steps of devices are made of
    /// what it says.
    pub fn begin_again(&mut self, plan: &Plan)
        requires ids { length self.old.devices ≡ 1 + length plan.now.declared }
        requires steps { (d : ℕ) → (pnp.sequence_of self.old d).steps ≡ (sequence_at plan.now d).steps }
        ensures { self.new ≡ pnp.opening_pnp plan.now }
    {
        begin_all(&mut self.devices, plan);
        self.stepping.clear();
    }

    /// How many entries the table of devices has. It has one for the id 0 and for each declared object.
    pub fn device_len(&self) -> usize
        ensures { result ≡ length self.now.devices }
    {
        self.devices.len()
    }

    /// The next step of a device, `None` where none is left.
    pub fn next_step(&self, d: ObjectId) -> Option<Step>
        ensures { result ≡ pnp.next_step self.now d.0 }
    {
        match self.devices.get(d.0 as usize) {
            Some(device) => device.next_step(),
            None => None,
        }
    }

    /// How many steps a device has left.
    pub fn steps_left(&self, d: ObjectId) -> usize
        ensures { result ≡ length (pnp.steps_left self.now d.0) }
    {
        match self.devices.get(d.0 as usize) {
            Some(device) => device.steps_left(),
            None => 0,
        }
    }

    /// The first device from an id on, below an end, that has a step left. It doesn't look at each device.
    pub fn next_stepping(&self, from: u32, end: u32) -> Option<u32>
        ensures { MatchOption result (NoneFrom (has_steps self.now) from end) (λ id. IsNext (has_steps self.now) from end id) }
    {
        self.stepping.next(from, end)
    }

    /// Whether no device has a step left. It looks at no device.
    pub fn none_stepping(&self) -> bool
        ensures { result ≡ none_stepping self.now }
    {
        self.stepping.len() == 0
    }

    /// The step of a device whose callback runs.
    pub fn running_step(&self, d: ObjectId) -> Option<Step>
        ensures { result ≡ pnp.running_step self.now d.0 }
    {
        match self.devices.get(d.0 as usize) {
            Some(device) => device.running_step(),
            None => None,
        }
    }

    /// Whether the callback of a step of a device runs.
    pub fn is_running_step(&self, d: ObjectId) -> bool
        ensures { result ≡ pnp.is_running_step self.now d.0 }
    {
        self.running_step(d).is_some()
    }

    /// Whether a sequence of a device is under way: a step is left, or its callback runs.
    pub fn busy(&self, d: ObjectId) -> bool
        ensures { result ≡ pnp.busy self.now d.0 }
    {
        self.is_running_step(d) || self.steps_left(d) != 0
    }

    /// How far a device has come; what is no device is Removed.
    pub fn phase(&self, d: ObjectId) -> Phase
        ensures { result ≡ (pnp.sequence_of self.now d.0).phase }
    {
        match self.devices.get(d.0 as usize) {
            Some(device) => device.phase(),
            None => Phase::Removed,
        }
    }

    /// Whether the next step of a device is the one after `queues_up`.
    pub fn follows_queues_up(&self, d: ObjectId) -> bool
        ensures { result ≡ pnp.follows_queues_up self.now d.0 }
    {
        self.devices
            .get(d.0 as usize)
            .is_some_and(|device| device.follows_queues_up())
    }

    /// The Plug and Play manager asks something of a device, which has the steps of that list left:
    /// none where the post changes nothing in its phase.
    pub fn ask(&mut self, d: ObjectId, ask: Ask)
        requires there { d.0 < length self.old.devices }
        ensures done { self.new ≡ pnp.ask self.old d.0 ask }
        ensures size { length self.new.devices ≡ length self.old.devices }
    {
        let device = &mut self.devices[d.0 as usize];
        device.ask(ask);
        note(&mut self.stepping, device, d);
    }

    /// The next step of a device is taken: its callback runs, or the stage is passed.
    pub fn taken(&mut self, d: ObjectId)
        requires there { d.0 < length self.old.devices }
        ensures done { self.new ≡ pnp.taken self.old d.0 }
        ensures size { length self.new.devices ≡ length self.old.devices }
    {
        let device = &mut self.devices[d.0 as usize];
        device.take();
        note(&mut self.stepping, device, d);
    }

    /// The callback of a step of a device ends with a value. Where a query fails, no step is left. Where
    /// EvtDevicePrepareHardware or EvtDeviceD0Entry fails, the steps of the device's end are left. Other
    /// results change nothing. (own)
    pub fn ended(&mut self, d: ObjectId, step: Step, value: Value)
        requires there { d.0 < length self.old.devices }
        ensures done { self.new ≡ pnp.ended self.old d.0 step value }
        ensures size { length self.new.devices ≡ length self.old.devices }
    {
        let device = &mut self.devices[d.0 as usize];
        device.end(step, value);
        note(&mut self.stepping, device, d);
    }
}
