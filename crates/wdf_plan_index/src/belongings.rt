//! What belongs to a device: its queues, interrupts and targets, by rising id.
ghost use Rattle.std.specs.Prelude.{◌≡◌, ◌≤◌, length};
ghost use Rattle.std.specs.Iterator.{at_most};
ghost use Rattle.std.specs.List.{All};
ghost use Rattle.std.specs.Map.Iter.{TakesFirst};
ghost use Rattle.wdf_model.specs.Plans as plans;
ghost use Rattle.wdf_model.specs.rules.Starts.{targets_at};
ghost use Rattle.wdf_plan_index.specs.Belongings.{ids_of, is_of as is_of_sort};
ghost use Rattle.wdf_plan_index.specs.Keys as keys;

use crate::indexed::IndexedPlan;
use crate::places::{Places, PlacesOf};
use std::marker::Model;
use wdf_base::{ObjectId, Plan};
use wdf_declared::{interrupt_of, queue_of, target_of};

/// What belongs to a device.
#[derive(Clone, Copy)]
pub(crate) enum Sort {
    Queue,
    Interrupt,
    Target,
}

/// The queues of a device, or its interrupts, or its targets, by rising id. Nothing is looked at but what
/// belongs to the device.
///
/// Contracts see the ids that are still to come.
#[derive(Drop)]
pub struct Belongings<'a> {
    plan: &'a Plan,
    device: ObjectId,
    sort: Sort,
    /// Where, of what is declared, that which belongs to the device is.
    places: PlacesOf<'a>,
}

impl<'a> Model for Belongings<'a> {
    ghost use Rattle.std.specs.Prelude.{ℕ, List};

    ghost Value = { List ℕ };

    ghost use Rattle.wdf_plan_index.specs.Belongings.{ids_at};

    ghost view = { λ b. ids_at b.sort b.plan.now b.device.0 b.places };
}

impl<'a> Iterator for Belongings<'a> {
    type Item = ObjectId;

    ghost next_gives = { TakesFirst (λ o. o.0) };

    ghost remaining = { λ ids. at_most (length ids) };

    fn next(&mut self) -> Option<ObjectId> {
        'look: while let Some(place) = self.places.next() {
            let o = ObjectId(place + 1);
            if is_of(self.plan, self.sort, self.device, o) {
                return Some(o);
            }
        }
        None
    }
}

/// What belongs to a device, of one sort, by the devices that what is declared belongs to.
pub(crate) fn belongings_of<'a>(
    plan: &'a Plan,
    over: &'a Places,
    device: ObjectId,
    sort: Sort,
) -> Belongings<'a>
    requires { over.now ≡ keys.devices_over plan.now }
    ensures { result ≡ ids_of sort plan.now device.0 }
{
    Belongings {
        plan,
        device,
        sort,
        places: over.of(device.0),
    }
}

impl IndexedPlan {
    /// What belongs to a device, of one sort.
    fn belongings(&self, device: ObjectId, sort: Sort) -> Belongings<'_>
        ensures { result ≡ ids_of sort self.now device.0 }
    {
        belongings_of(&self.plan, &self.tables.belongings, device, sort)
    }

    /// The queues of a device.
    pub fn queues_of(&self, device: ObjectId) -> Belongings<'_>
        ensures value { result ≡ plans.queues_of self.now device.0 }
        ensures declared { All (λ q. q ≤ length self.now.declared) result }
    {
        self.belongings(device, Sort::Queue)
    }

    /// The interrupts of a device.
    pub fn interrupts_of(&self, device: ObjectId) -> Belongings<'_>
        ensures { result ≡ plans.interrupts_of self.now device.0 }
    {
        self.belongings(device, Sort::Interrupt)
    }

    /// The targets of a device.
    pub fn targets_of(&self, device: ObjectId) -> Belongings<'_>
        ensures { result ≡ targets_at self.now device.0 }
    {
        self.belongings(device, Sort::Target)
    }

    /// Whether an id is that of an interrupt of this device.
    pub fn is_interrupt_of(&self, device: ObjectId, i: ObjectId) -> bool
        ensures { result ≡ plans.is_interrupt_of device.0 (plans.interrupt_of self.now i.0) }
    {
        is_interrupt_of(&self.plan, device, i)
    }

    /// Whether an id is that of a queue of this device.
    pub fn is_queue_of(&self, device: ObjectId, q: ObjectId) -> bool
        ensures { result ≡ plans.is_queue_of device.0 (plans.queue_of self.now q.0) }
    {
        is_queue_of(&self.plan, device, q)
    }
}

/// Whether an id is that of a queue of this device.
fn is_queue_of(plan: &Plan, device: ObjectId, q: ObjectId) -> bool
    ensures { result ≡ plans.is_queue_of device.0 (plans.queue_of plan.now q.0) }
{
    queue_of(plan, q).is_some_and(|queue| queue.device.0 == device.0)
}

/// Whether an id is that of an interrupt of this device.
fn is_interrupt_of(plan: &Plan, device: ObjectId, i: ObjectId) -> bool
    ensures { result ≡ plans.is_interrupt_of device.0 (plans.interrupt_of plan.now i.0) }
{
    interrupt_of(plan, i).is_some_and(|interrupt| interrupt.device.0 == device.0)
}

/// Whether an id is that of a target of this device.
fn is_target_of(plan: &Plan, device: ObjectId, t: ObjectId) -> bool
    ensures { result ≡ plans.is_target_of device.0 (plans.target_of plan.now t.0) }
{
    target_of(plan, t).is_some_and(|target| target.device.0 == device.0)
}

/// Whether an id is that of an object of this sort of a device.
fn is_of(plan: &Plan, sort: Sort, device: ObjectId, o: ObjectId) -> bool
    ensures { result ≡ is_of_sort sort plan.now device.0 o.0 }
{
    match sort {
        Sort::Queue => is_queue_of(plan, device, o),
        Sort::Interrupt => is_interrupt_of(plan, device, o),
        Sort::Target => is_target_of(plan, device, o),
    }
}
