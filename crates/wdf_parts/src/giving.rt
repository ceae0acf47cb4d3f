//! Requests that the driver gets, gives up and gives back.
ghost use Rattle.std.specs.Prelude.{◌≡◌, ◌<◌, Some, length, unwrap_or, option_map};
ghost use Rattle.wdf_model.specs.declared.room.TheConstants.{OBJECTS};
ghost use Rattle.wdf_model.specs.rules.Deeds as deeds;
ghost use Rattle.wdf_model.specs.parts.Queues as queues;
ghost use Rattle.wdf_model.specs.rules.Room.{MayEnter, MayGiveUp, MayHold};

use crate::parts::Parts;
use wdf_base::{Agent, ObjectId, Place};
use wdf_model::Deed;
use wdf_plan_index::IndexedPlan;

impl<A: Agent> Parts<A> {
    /// The driver gives up a request, if it holds it.
    pub(crate) fn give_up(&mut self, r: ObjectId)
        requires { MayGiveUp self.old r.0 }
        ensures done { self.new ≡ deeds.give_up self.old r.0 }
        ensures tree { self.new.tree ≡ self.old.tree }
        ensures requests { self.new.requests ≡ self.old.requests }
        ensures waiting { self.new.queues.waiting ≡ self.old.queues.waiting }
        ensures dispatch { self.new.queues.dispatch ≡ self.old.queues.dispatch }
        ensures control { self.new.control ≡ self.old.control }
        ensures targets { self.new.targets ≡ self.old.targets }
    {
        if self.is_with_driver(r) {
            let origin = self.requests.info(r).origin;
            self.release_line(origin);
            self.release_power(r);
        }
    }

    /// One request less is held from the queue that it came from, if it came from one.
    fn release_line(&mut self, origin: Option<ObjectId>)
        requires { unwrap_or (option_map (λ q. q.0) origin) 0 < length self.old.queues.dispatch }
        ensures { self.new ≡ record self.old { queues = deeds.release_line self.old.queues (option_map (λ q. q.0) origin) } }
    {
        if let Some(q) = origin {
            self.queues.let_go(q);
        }
    }

    /// A request counts no more for power, if it did.
    fn release_power(&mut self, r: ObjectId)
        requires { r.0 < OBJECTS }
        ensures { self.new ≡ record self.old { power = deeds.release_power self.old.power r.0 } }
    {
        if self.power.is_held(r) {
            self.power.held_less(r);
        }
    }

    /// A request is held from a queue: it counts for power where the queue is power-managed.
    pub(crate) fn hold_power(&mut self, plan: &IndexedPlan, r: ObjectId, q: ObjectId)
        requires { r.0 < OBJECTS }
        ensures { self.new ≡ record self.old { power = deeds.hold_power plan.now self.old.power r.0 q.0 } }
    {
        if plan.is_managed(q) {
            self.power.held_more(r, q);
        }
    }

    /// The front of a queue becomes Owned.
    pub fn present(&mut self, plan: &IndexedPlan, q: ObjectId, r: ObjectId)
        requires front { queues.front self.old.queues q.0 ≡ Some r.0 }
        requires hold { MayHold self.old q.0 r.0 }
        ensures { self.new ≡ deeds.do_deed plan.now (Deed.Present q r) self.old }
    {
        let _front = self.queues.take(q);
        self.requests.move_to(r, Place::Owned);
        self.hold_power(plan, r, q);
    }

    /// A request that returns from a queue becomes Owned.
    pub(crate) fn receive(&mut self, plan: &IndexedPlan, q: ObjectId, r: ObjectId)
        requires { MayHold self.old q.0 r.0 }
        ensures { self.new ≡ deeds.do_deed plan.now (Deed.Receive q r) self.old }
    {
        self.queues.hold(q);
        self.requests.move_to(r, Place::Owned);
        self.hold_power(plan, r, q);
    }

    /// A request enters a queue at the tail.
    pub(crate) fn enter_at_tail(&mut self, q: ObjectId, r: ObjectId)
        requires enter { MayEnter self.old q.0 r.0 }
        requires room { r.0 < OBJECTS }
        ensures { self.new ≡ deeds.enter_at_tail self.old q.0 r.0 }
    {
        let was_empty = self.queues.is_empty(q);
        self.queues.enter(q, r);
        self.control.entered(q, was_empty);
    }

    /// A request enters a queue at the head.
    fn enter_at_head(&mut self, q: ObjectId, r: ObjectId)
        requires enter { MayEnter self.old q.0 r.0 }
        requires room { r.0 < OBJECTS }
        ensures { self.new ≡ deeds.enter_at_head self.old q.0 r.0 }
    {
        let was_empty = self.queues.is_empty(q);
        self.queues.requeue(q, r);
        self.control.entered(q, was_empty);
    }

    /// The driver gives a request back to the head of a queue.
    pub(crate) fn requeue(&mut self, q: ObjectId, r: ObjectId)
        requires give { MayGiveUp self.old r.0 }
        requires enter { MayEnter self.old q.0 r.0 }
        ensures { self.new ≡ deeds.enter_at_head (deeds.with_place (deeds.give_up self.old r.0) r.0 (deeds.queued q.0)) q.0 r.0 }
    {
        self.give_up(r);
        self.requests.move_to(r, Place::Queued(q));
        self.enter_at_head(q, r);
    }

    /// The driver gives a request to the tail of a queue.
    pub(crate) fn forward(&mut self, q: ObjectId, r: ObjectId)
        requires give { MayGiveUp self.old r.0 }
        requires enter { MayEnter self.old q.0 r.0 }
        ensures { self.new ≡ deeds.enter_at_tail (deeds.with_place (deeds.give_up self.old r.0) r.0 (deeds.queued q.0)) q.0 r.0 }
    {
        self.give_up(r);
        self.requests.move_to(r, Place::Queued(q));
        self.enter_at_tail(q, r);
    }

    /// A request is cancelled in a queue; it is cancelled from then on. (KMDF)
    pub(crate) fn cancel_in(&mut self, plan: &IndexedPlan, q: ObjectId, r: ObjectId)
        requires { r.0 < length self.old.requests.all }
        ensures done { self.new ≡ deeds.cancel_in plan.now self.old q.0 r.0 }
        ensures size { length self.new.requests.all ≡ length self.old.requests.all }
    {
        let place = self.withdrawn_place(plan, q, r);
        self.requests.cancel(r);
        self.requests.move_to(r, place);
    }

    /// A waiting request is cancelled in its queue, and leaves it. (KMDF)
    pub(crate) fn withdraw(&mut self, plan: &IndexedPlan, q: ObjectId, r: ObjectId)
        requires { r.0 < length self.old.requests.all }
        ensures done { self.new ≡ deeds.withdraw plan.now q.0 self.old r.0 }
        ensures size { length self.new.requests.all ≡ length self.old.requests.all }
    {
        let _was_waiting = self.queues.take_cancelled(r);
        self.cancel_in(plan, q, r);
    }

    /// The driver gives back a request that is cancelled in the queue at once.
    pub(crate) fn give_back(&mut self, plan: &IndexedPlan, q: ObjectId, r: ObjectId)
        requires { MayGiveUp self.old r.0 }
        ensures { self.new ≡ deeds.cancel_in plan.now (deeds.give_up self.old r.0) q.0 r.0 }
    {
        self.give_up(r);
        self.cancel_in(plan, q, r);
    }
}
