//! Queues by id.
ghost use Rattle.std.specs.Prelude.{◌≡◌, option_map};
ghost use Rattle.wdf_model.specs.Plans as plans;
ghost use Rattle.wdf_model.specs.rules.Posts as posts;

use crate::indexed::IndexedPlan;
use crate::serving::serving_queue;
use wdf_base::{DispatchKind, ObjectId, RequestForm};

impl IndexedPlan {
    /// The device of a queue; the id 0 for what is none.
    pub fn device_of_queue(&self, q: ObjectId) -> ObjectId
        ensures { result.0 ≡ plans.device_of_queue self.now q.0 }
    {
        match self.queue_of(q) {
            Some(queue) => queue.device,
            None => ObjectId(0),
        }
    }

    /// Whether a queue is power-managed. (KMDF)
    pub fn is_managed(&self, q: ObjectId) -> bool
        ensures { result ≡ plans.is_managed self.now q.0 }
    {
        self.queue_of(q).is_some_and(|queue| queue.powered)
    }

    /// Whether a queue presents its requests only when it is asked. (KMDF: a manual queue)
    pub fn is_manual_queue(&self, q: ObjectId) -> bool
        ensures { result ≡ plans.is_manual_queue self.now q.0 }
    {
        self.queue_of(q)
            .is_some_and(|queue| is_manual(queue.dispatch))
    }

    /// Whether a queue presents several requests at a time. (KMDF: a parallel queue)
    pub fn is_parallel_queue(&self, q: ObjectId) -> bool
        ensures { result ≡ plans.is_parallel_queue self.now q.0 }
    {
        self.queue_of(q)
            .is_some_and(|queue| is_parallel(queue.dispatch))
    }

    /// Whether a queue takes reads and writes of length 0; false for what is none.
    pub fn takes_empty(&self, q: ObjectId) -> bool
        ensures { result ≡ posts.takes_empty (plans.queue_of self.now q.0) }
    {
        self.queue_of(q).is_some_and(|queue| queue.zero)
    }

    /// The queue of a device for a type of requests, else its default queue, if there is one. (KMDF) It is looked
    /// up in a table. Only for an id that is no device's it walks along what names that id as its device.
    pub fn queue_for(&self, device: ObjectId, form: RequestForm) -> Option<ObjectId>
        ensures { option_map (λ q. q.0) result ≡ plans.queue_for self.now device.0 form }
    {
        match self.tables.devices.first(device.0) {
            Some(place) => self.tables.serving[place as usize].of(form).map(ObjectId),
            None => serving_queue(&self.plan, &self.tables.belongings, device, form),
        }
    }
}

fn is_manual(dispatch: DispatchKind) -> bool
    ensures { result ≡ plans.is_manual dispatch }
{
    match dispatch {
        DispatchKind::Manual => true,
        _ => false,
    }
}

fn is_parallel(dispatch: DispatchKind) -> bool
    ensures { result ≡ plans.is_parallel dispatch }
{
    match dispatch {
        DispatchKind::Parallel(_) => true,
        _ => false,
    }
}
