ghost use Rattle.std.specs.Prelude.{◌≡◌, ◌+◌, ◌<◌, IfOk, IfSome, MatchOption, find, length, nat_le, option_map, slice_get};
ghost use Rattle.std.specs.List.{list_any};
ghost use Rattle.wdf_model.specs.Tables.{least, put};
ghost use Rattle.wdf_model.specs.declared.room.TheConstants.{OBJECTS};
ghost use Rattle.wdf_model.specs.parts.Power as power;
ghost use Rattle.wdf_sets.specs.Nexts.{IsNext, NoneFrom};
ghost use Rattle.wdf_power.specs.Power.{IsMoved};
ghost use Rattle.wdf_power.specs.ForQueues.{has_resuming, has_unasked, resuming, resuming_from, unasked, unasked_from};

use crate::holdings::{Holdings, NO_HOLDING, is_held};
use crate::opening::{opening_devices, write_devices};
use std::alloc::Global;
use std::marker::Model;
use wdf_base::{Memory, ObjectId, Plan, Stage, Step};
use wdf_ilist::Links;
use wdf_maps::{entry_at, object_at};
use wdf_model::{DevicePower, Holding, OBJECTS};

/// Of a device that there isn't.
const NO_DEVICE_POWER: DevicePower = DevicePower {
    up: false,
    hardware: false,
};

/// How many lists of held requests there are: one for each id, and one for ids that no object can have.
const LISTS: u32 = OBJECTS + 1;

/// Which devices have their queues up and their hardware, and how far the requests that the driver
/// holds from power-managed queues are acknowledged, asked to stop, or due to go on. (KMDF)
#[derive(Drop)]
pub struct Power {
    /// By the device's id.
    devices: Vec<DevicePower>,
    /// How far each request has come.
    holdings: Holdings,
    /// The requests that are held, by device.
    held: Links,
}

impl Model for Power {
    ghost use Rattle.wdf_model.specs.parts.Power as power;

    ghost Value = { power.Power };

    ghost use Rattle.wdf_power.specs.Kept.{power_in, IsSound};

    ghost view = { power_in };

    ghost invariant = { IsSound };
}

/// A request is on another list of held requests, or on none.
fn move_to(held: &mut Links, r: ObjectId, list: Option<u32>)
    requires list { IfSome list (λ l. l < length held.old.lists) }
    requires item { r.0 < held.old.items }
    ensures moved { IsMoved held.old.lists held.new.lists r.0 list }
    ensures lists { length held.new.lists ≡ length held.old.lists }
    ensures items { held.new.items ≡ held.old.items }
{
    let _from = held.unlink(r.0);
    if let Some(list) = list {
        held.push_back(list, r.0);
    }
}

impl Power {
    /// The opening of the plan's run: a working device has its queues up and its hardware, and
    /// nothing is held. It takes all the memory that the run needs. (own)
    pub fn make(alloc: Global, plan: &Plan) -> Result<Power, Memory>
        ensures { IfOk result (λ made. made ≡ power.opening_power plan.now) }
    {
        Ok(Power {
            devices: opening_devices(alloc, plan)?,
            held: Links::make(alloc, LISTS, OBJECTS)?,
            holdings: Holdings::make(alloc, plan)?,
        })
    }

    /// The opening of a plan's run once more, of as many ids.
    pub fn begin_again(&mut self, plan: &Plan)
        requires { length self.old.devices ≡ 1 + length plan.now.declared }
        ensures { self.new ≡ power.opening_power plan.now }
    {
        write_devices(&mut self.devices, plan);
        self.holdings.begin_again(plan);
        self.held.clear();
    }

    /// How many entries the table of devices has. It has one for the id 0 and for each declared object.
    pub fn device_len(&self) -> usize
        ensures { result ≡ length self.now.devices }
    {
        self.devices.len()
    }

    /// The power of a device.
    fn device(&self, d: ObjectId) -> DevicePower
        ensures { result ≡ power.device_power self.now d.0 }
    {
        entry_at(&self.devices, NO_DEVICE_POWER, d.0)
    }

    /// How far a request has come.
    fn holding(&self, r: ObjectId) -> Holding
        ensures { result ≡ power.holding_of self.now r.0 }
    {
        self.holdings.holding(r)
    }

    /// Whether the queues of a device are up.
    pub fn queues_up(&self, d: ObjectId) -> bool
        ensures { result ≡ power.queues_up self.now d.0 }
    {
        self.device(d).up
    }

    /// Whether a device has its hardware.
    pub fn has_hardware(&self, d: ObjectId) -> bool
        ensures { result ≡ power.has_hardware self.now d.0 }
    {
        self.device(d).hardware
    }

    /// Whether the driver holds a request from a power-managed queue.
    pub fn is_held(&self, r: ObjectId) -> bool
        ensures { result ≡ power.is_held (power.holding_of self.now r.0) }
    {
        is_held(&self.holding(r))
    }

    /// Whether a held request is acknowledged.
    pub fn acknowledged(&self, r: ObjectId) -> bool
        ensures { result ≡ power.acknowledged self.now r.0 }
    {
        self.holding(r).acknowledged
    }

    /// Whether EvtIoStop has started for a held request.
    pub fn stop_was_asked(&self, r: ObjectId) -> bool
        ensures { result ≡ power.stop_was_asked self.now r.0 }
    {
        self.holding(r).stop_asked
    }

    /// Whether a resume is due for a held request.
    pub fn resume_due(&self, r: ObjectId) -> bool
        ensures { result ≡ power.resume_due self.now r.0 }
    {
        self.holding(r).resume_due
    }
}

impl Power {
    /// Writes how far a request has come.
    fn write(&mut self, r: ObjectId, new: Holding)
        requires room { r.0 < OBJECTS }
        ensures { self.new ≡ record self.old { holdings = put power.no_holding self.old.holdings r.0 new } }
    {
        let list = self.holdings.held_list(&new);
        move_to(&mut self.held, r, list);
        self.holdings.write(r, new);
    }

    /// The driver begins to hold a request from a power-managed queue: it isn't acknowledged, it
    /// wasn't asked to stop, and no resume is due.
    pub fn held_more(&mut self, r: ObjectId, q: ObjectId)
        requires room { r.0 < OBJECTS }
        ensures done { self.new ≡ power.held_more self.old r.0 q.0 }
    {
        self.write(
            r,
            Holding {
                queue: q,
                ..NO_HOLDING
            },
        );
    }

    /// The driver doesn't hold the request any more. Nothing of it is acknowledged, asked or due.
    pub fn held_less(&mut self, r: ObjectId)
        requires room { r.0 < OBJECTS }
        ensures done { self.new ≡ power.held_less self.old r.0 }
    {
        self.write(r, NO_HOLDING);
    }

    /// The driver acknowledges that it keeps a request while the power is down. (KMDF:
    /// WdfRequestStopAcknowledge)
    pub fn acknowledge(&mut self, r: ObjectId)
        requires room { r.0 < OBJECTS }
        ensures done { self.new ≡ power.acknowledge self.old r.0 }
    {
        let mut holding = self.holding(r);
        holding.acknowledged = true;
        self.write(r, holding);
    }

    /// EvtIoStop starts for a request, once in a power-down. (KMDF)
    pub fn stop_asked(&mut self, r: ObjectId)
        requires room { r.0 < OBJECTS }
        ensures done { self.new ≡ power.stop_asked self.old r.0 }
    {
        let mut holding = self.holding(r);
        holding.stop_asked = true;
        self.write(r, holding);
    }

    /// EvtIoResume starts for a request. (KMDF)
    pub fn resumed(&mut self, r: ObjectId)
        requires room { r.0 < OBJECTS }
        ensures done { self.new ≡ power.resumed self.old r.0 }
    {
        let mut holding = self.holding(r);
        holding.resume_due = false;
        self.write(r, holding);
    }

    /// How many requests the driver holds from power-managed queues of a device without having
    /// acknowledged them. (own, after KMDF)
    pub fn unsettled(&self, d: ObjectId) -> u32
        ensures { result ≡ length (power.unsettled self.now d.0) }
    {
        self.holdings.unsettled(d)
    }

    /// The request with the least id among those that are unsettled at a device, if there is one.
    pub fn least_unsettled(&self, d: ObjectId) -> Option<ObjectId>
        ensures { option_map (λ r. r.0) result ≡ least (power.unsettled self.now d.0) }
    {
        self.holdings.least_unsettled(&self.held, d).map(ObjectId)
    }

    /// How many requests are held from a queue and weren't asked to stop.
    pub fn unasked_from_len(&self, q: ObjectId) -> u32
        ensures { result ≡ length (unasked_from self.now q.0) }
    {
        self.holdings.unasked_from_len(q)
    }

    /// The first queue from an id on from which some request is held that wasn't asked to stop. It doesn't look at the
    /// others.
    pub fn next_unasked_from(&self, from: ObjectId) -> Option<ObjectId>
        ensures { MatchOption result (NoneFrom (has_unasked self.now) from.0 OBJECTS) (λ q. IsNext (has_unasked self.now) from.0 OBJECTS q.0) }
    {
        self.holdings.next_unasked_from(from)
    }

    /// How many requests are held from whatever queue and weren't asked to stop.
    pub fn unasked_len(&self) -> u32
        ensures { result ≡ length (unasked self.now) }
    {
        self.holdings.unasked_len()
    }

    /// The k-th of them, by rising id from 0; `None` exactly where there are fewer.
    pub fn unasked_at(&self, k: u32) -> Option<ObjectId>
        ensures { option_map (λ r. r.0) result ≡ slice_get (unasked self.now) k }
    {
        object_at(self.holdings.unasked_at(k))
    }

    /// The first of them from an id on.
    pub fn next_unasked(&self, from: ObjectId) -> Option<ObjectId>
        ensures { option_map (λ r. r.0) result ≡ find (nat_le from.0) (unasked self.now) }
    {
        object_at(self.holdings.next_unasked(from.0))
    }

    /// For how many requests that are held from a queue a resume is due.
    pub fn resuming_from_len(&self, q: ObjectId) -> u32
        ensures { result ≡ length (resuming_from self.now q.0) }
    {
        self.holdings.resuming_from_len(q)
    }

    /// The first queue from an id on from which some request is held for which a resume is due. It doesn't look at the
    /// others.
    pub fn next_resuming_from(&self, from: ObjectId) -> Option<ObjectId>
        ensures { MatchOption result (NoneFrom (has_resuming self.now) from.0 OBJECTS) (λ q. IsNext (has_resuming self.now) from.0 OBJECTS q.0) }
    {
        self.holdings.next_resuming_from(from)
    }

    /// For how many requests a resume is due, of whatever queue.
    pub fn resuming_len(&self) -> u32
        ensures { result ≡ length (resuming self.now) }
    {
        self.holdings.resuming_len()
    }

    /// The k-th of them, by rising id from 0; `None` exactly where there are fewer.
    pub fn resuming_at(&self, k: u32) -> Option<ObjectId>
        ensures { option_map (λ r. r.0) result ≡ slice_get (resuming self.now) k }
    {
        object_at(self.holdings.resuming_at(k))
    }

    /// The first of them from an id on.
    pub fn next_resuming(&self, from: ObjectId) -> Option<ObjectId>
        ensures { option_map (λ r. r.0) result ≡ find (nat_le from.0) (resuming self.now) }
    {
        object_at(self.holdings.next_resuming(from.0))
    }

    /// Whether a resume is due for some request of a device. (KMDF: EvtIoResume)
    pub fn any_resume_due(&self, d: ObjectId) -> bool
        ensures { result ≡ power.any_resume_due self.now d.0 }
    {
        self.holdings.any_resume_due(d)
    }

    /// Whether a resume is due for some request, on whatever device.
    pub fn some_resume_due(&self) -> bool
        ensures { result ≡ list_any (λ h. h.resume_due) self.now.holdings }
    {
        self.holdings.some_resume_due()
    }
}

impl Power {
    /// Writes the power of a device.
    #[tactic(auto, using(wdf_model::proofs::Maps::put_within))]
    fn set_device(&mut self, d: ObjectId, new: DevicePower)
        requires there { d.0 < length self.old.devices }
        ensures done { self.new ≡ record self.old { devices = put power.no_device_power self.old.devices d.0 new } }
        ensures size { length self.new.devices ≡ length self.old.devices }
    {
        self.devices[d.0 as usize] = new;
    }

    /// The queues of a device are up, or they aren't.
    fn set_up(&mut self, d: ObjectId, up: bool)
        requires there { d.0 < length self.old.devices }
        ensures done { self.new ≡ power.with_up self.old d.0 up }
        ensures size { length self.new.devices ≡ length self.old.devices }
    {
        let mut power = self.device(d);
        power.up = up;
        self.set_device(d, power);
    }

    /// A device has its hardware, or it hasn't.
    fn set_hardware(&mut self, d: ObjectId, hardware: bool)
        requires there { d.0 < length self.old.devices }
        ensures done { self.new ≡ power.with_hardware self.old d.0 hardware }
        ensures size { length self.new.devices ≡ length self.old.devices }
    {
        let mut power = self.device(d);
        power.hardware = hardware;
        self.set_device(d, power);
    }

    /// The queues of a device came up: what is held from them isn't acknowledged nor asked to stop
    /// any more, and a resume is due where the queue declares EvtIoResume. (own)
    fn wake(&mut self, d: ObjectId)
        ensures { self.new ≡ power.wake_holdings self.old d.0 }
    {
        self.holdings.wake(&self.held, d);
    }

    /// A device passes a stage of a sequence.
    fn pass(&mut self, d: ObjectId, stage: Stage)
        requires there { d.0 < length self.old.devices }
        ensures done { self.new ≡ power.advance_stage self.old d.0 stage }
        ensures size { length self.new.devices ≡ length self.old.devices }
    {
        match stage {
            Stage::Hardware => self.set_hardware(d, true),
            Stage::NoHardware => self.set_hardware(d, false),
            Stage::QueuesUp => {
                self.set_up(d, true);
                self.wake(d);
            }
            Stage::QueuesDown => self.set_up(d, false),
            _ => {}
        }
    }

    /// A device takes a step of a sequence. Only stages change power: the hardware begins and ends,
    /// and the queues come up and go down. (own)
    pub fn advance(&mut self, d: ObjectId, step: Step)
        requires there { d.0 < length self.old.devices }
        ensures done { self.new ≡ power.advance self.old d.0 step }
        ensures size { length self.new.devices ≡ length self.old.devices }
    {
        match step {
            Step::Run { .. } => {}
            Step::Pass { stage, .. } => self.pass(d, stage),
        }
    }
}
