//! What is done to the queues of a device, or to all that waits in one.
ghost use Rattle.std.specs.Prelude.{◌≡◌, ◌<◌, length, fold, option_map};
ghost use Rattle.wdf_model.specs.Plans as plans;
ghost use Rattle.wdf_model.specs.parts.Control as control;
ghost use Rattle.wdf_model.specs.parts.Queues as queues;
ghost use Rattle.wdf_model.specs.rules.Deeds as deeds;
ghost use Rattle.wdf_model.specs.rules.Room.{MayPurge};

use crate::parts::Parts;
use wdf_base::{Agent, ObjectId};
use wdf_model::{Deed, Mode};
use wdf_plan_index::IndexedPlan;

impl<A: Agent> Parts<A> {
    /// The front of a queue.
    fn front(&self, q: ObjectId) -> Option<ObjectId>
        ensures { option_map (λ r. r.0) result ≡ queues.front self.now.queues q.0 }
    {
        self.queues.front(q)
    }

    /// A control call of a queue.
    pub(crate) fn set_mode(&mut self, q: ObjectId, mode: Mode)
        requires { q.0 < length self.old.control.controls }
        ensures { self.new ≡ record self.old { control = control.set_mode self.old.control q.0 mode } }
    {
        self.control.set_mode(q, mode);
    }

    /// A queue is purged: what waits in it is cancelled in it, from the front on. (KMDF)
    pub(crate) fn purge(&mut self, plan: &IndexedPlan, q: ObjectId)
        requires { MayPurge self.old q.0 }
        ensures { self.new ≡ deeds.do_deed plan.now (Deed.PurgeQueue q) self.old }
    {
        self.set_mode(q, Mode::Purged);
        'waiting: while let Some(r) = self.front(q) {
            self.withdraw(plan, q, r);
        }
    }

    /// What returns to a queue is to be completed with CANCELLED.
    fn close_returning_to(&mut self, q: ObjectId)
        ensures { self.new ≡ deeds.close_returning self.old q.0 }
    {
        self.requests.close_returning(q);
    }

    /// A device's queues lose power: what returns to a power-managed one is to be completed with
    /// CANCELLED.
    pub(crate) fn close_returning(&mut self, plan: &IndexedPlan, device: ObjectId)
        ensures { self.new ≡ fold deeds.close_returning self.old (plans.managed_queues plan.now device.0) }
    {
        for q in plan.queues_of(device) {
            if plan.is_managed(q) {
                self.close_returning_to(q);
            }
        }
    }

    /// What waits in a queue or returns to it is to be completed with CANCELLED.
    fn close_queue(&mut self, q: ObjectId)
        requires { q.0 < length self.old.queues.dispatch }
        ensures done { self.new ≡ deeds.close_queue self.old q.0 }
        ensures size { length self.new.queues.dispatch ≡ length self.old.queues.dispatch }
    {
        self.queues.clear(q);
        self.requests.close(q);
    }

    /// What waits in the queues of a device or returns to them is to be completed with CANCELLED.
    pub(crate) fn close_queues(&mut self, plan: &IndexedPlan, device: ObjectId)
        requires { length plan.now.declared < length self.old.queues.dispatch }
        ensures { self.new ≡ fold deeds.close_queue self.old (plans.queues_of plan.now device.0) }
    {
        for q in plan.queues_of(device) {
            self.close_queue(q);
        }
    }
}
