//! What is asked of several parts at once.
ghost use Rattle.std.specs.Prelude.{◌≡◌};
ghost use Rattle.wdf_base.specs.Lives.{is_live};
ghost use Rattle.wdf_model.specs.parts.Tree.{life_of};
ghost use Rattle.wdf_model.specs.State as state;

use crate::parts::Parts;
use wdf_base::{Agent, Callback, Declared, Handle, LockRef, ObjectId, Place, Status};
use wdf_maps::is_id;
use wdf_plan_index::IndexedPlan;
use wdf_request::Requests;
use wdf_target::Targets;

impl<A: Agent> Parts<A> {
    /// Whether the driver holds a request: it is Owned, or Sent and will come back. (KMDF)
    pub fn is_with_driver(&self, r: ObjectId) -> bool
        ensures { result ≡ state.is_with_driver self.now r.0 }
    {
        is_with_driver_by(&self.requests, &self.targets, r)
    }

    /// Whether a request last became Owned from this queue, and the driver holds it.
    pub fn is_held_from(&self, q: ObjectId, r: ObjectId) -> bool
        ensures { result ≡ state.is_held_from self.now q.0 r.0 }
    {
        is_id(self.requests.info(r).origin, q) && self.is_with_driver(r)
    }

    /// Whether a queue has power: it isn't power-managed, or its device's queues are up. (KMDF)
    pub fn is_powered(&self, plan: &IndexedPlan, q: ObjectId) -> bool
        ensures { result ≡ state.is_powered plan.now self.now q.0 }
    {
        !plan.is_managed(q) || self.power.queues_up(plan.device_of_queue(q))
    }

    /// Whether a queue delivers, by its mode and by power. (KMDF)
    pub fn queue_delivers(&self, plan: &IndexedPlan, q: ObjectId) -> bool
        ensures { result ≡ state.queue_delivers plan.now self.now q.0 }
    {
        self.control.delivers(q, self.is_powered(plan, q))
    }

    /// Whether a received request that is cancelled in this queue goes back to the driver, by
    /// EvtIoCanceledOnQueue. (KMDF)
    pub fn returns_to(&self, plan: &IndexedPlan, q: ObjectId) -> bool
        ensures { result ≡ state.returns_to plan.now self.now q.0 }
    {
        plan.declares(Callback::EvtIoCanceledOnQueue, q)
            && !self.control.is_closed(plan.device_of_queue(q))
            && self.is_powered(plan, q)
    }

    /// Where a request goes that is cancelled in a queue. (KMDF)
    pub fn withdrawn_place(&self, plan: &IndexedPlan, q: ObjectId, r: ObjectId) -> Place
        ensures { result ≡ state.withdrawn_place plan.now self.now q.0 r.0 }
    {
        if self.requests.info(r).received && self.returns_to(plan, q) {
            Place::Returning(q)
        } else {
            Place::Closing(Status::Cancelled)
        }
    }

    /// Whether no request is Sent to a target.
    pub fn nothing_at(&self, t: ObjectId) -> bool
        ensures { result ≡ state.nothing_at self.now t.0 }
    {
        !self.requests.sent_to(t)
    }

    /// Whether a frame waits for an object.
    pub fn is_waited_for(&self, o: ObjectId) -> bool
        ensures { result ≡ state.is_waited_for self.now o.0 }
    {
        self.cpus.is_waited_for(o)
    }

    /// Whether the lock of an object is held.
    pub fn is_locked(&self, o: ObjectId) -> bool
        ensures { result ≡ state.is_locked self.now o.0 }
    {
        !self.locks.is_free_lock(LockRef::Object(o))
    }

    /// What an object is in the plan.
    pub fn declared_in(&self, plan: &IndexedPlan, o: ObjectId) -> Option<Declared>
        ensures { result ≡ state.declared_in plan.now self.now o.0 }
    {
        self.tree.declared(plan.plan(), o)
    }

    /// The number of the script of a callback on an object; `None` exactly where it isn't declared.
    pub fn script_in(&self, plan: &IndexedPlan, callback: Callback, o: ObjectId) -> Option<u32>
        ensures { result ≡ state.script_in plan.now self.now callback o.0 }
    {
        plan.script_on(callback, self.declared_in(plan, o))
    }

    /// Whether an object declares a callback.
    pub fn declares_in(&self, plan: &IndexedPlan, callback: Callback, o: ObjectId) -> bool
        ensures { result ≡ state.declares_in plan.now self.now callback o.0 }
    {
        self.script_in(plan, callback, o).is_some()
    }

    /// An object as events and values name it.
    pub fn handle_in(&self, plan: &IndexedPlan, o: ObjectId) -> Handle
        ensures { result ≡ state.handle_in plan.now self.now o.0 }
    {
        self.tree.handle(plan.plan(), o)
    }

    /// Whether an object is live: its deletion wasn't asked. (KMDF)
    pub fn is_live(&self, o: ObjectId) -> bool
        ensures { result ≡ is_live (life_of self.now.tree o.0) }
    {
        self.tree.life(o).is_live()
    }

    /// Whether a handle has its object's name.
    pub fn is_proper(&self, plan: &IndexedPlan, handle: Handle) -> bool
        ensures { result ≡ state.is_proper plan.now self.now handle }
    {
        handle.name == self.handle_in(plan, handle.id).name
    }
}

/// Whether the driver holds a request, by the two parts that say so: it is Owned, or Sent and will come back. (KMDF)
pub fn is_with_driver_by(requests: &Requests, targets: &Targets, r: ObjectId) -> bool
    ensures { result ≡ state.is_with_driver_by requests.now targets.now r.0 }
{
    match requests.place(r) {
        Place::Owned => true,
        Place::Sent(_) => !targets.is_forgotten(r),
        _ => false,
    }
}
