ghost use Rattle.std.specs.Prelude.{◌≡◌, ◌<◌, IfOk, Some, [], filter, length, not, option_map, slice_get};
ghost use Rattle.std.specs.List.{range_with_len};
ghost use Rattle.wdf_model.specs.parts.Deferred.WorkItems as work_items;
ghost use Rattle.wdf_sets.specs.Members.{members};
ghost use Rattle.wdf_defer.specs.WorkItems.{AreInOrder};

use std::alloc::Global;
use std::marker::Model;
use wdf_base::{Memory, ObjectId, Plan};
use wdf_maps::object_at;
use wdf_model::OBJECTS;
use wdf_sets::IdSet;

/// The queued work items. All calls but [`WorkItems::make`] take no memory.
#[derive(Drop)]
pub struct WorkItems {
    queued: IdSet,
}

impl Model for WorkItems {
    ghost use Rattle.wdf_model.specs.parts.Deferred.WorkItems.{WorkItems};

    ghost Value = { WorkItems };

    ghost use Rattle.wdf_defer.specs.WorkItems.{work_items_in, IsSound};

    ghost view = { work_items_in };

    ghost invariant = { IsSound };
}

/// A set has no member any more.
pub(crate) fn clear_set(set: &mut IdSet)
    ensures members { members set.new ≡ [] }
    ensures room { length set.new ≡ length set.old }
{
    set.clear();
}

impl WorkItems {
    /// No work item is queued. On [`Memory`] nothing is made.
    pub fn make(alloc: Global, _plan: &Plan) -> Result<WorkItems, Memory>
        ensures { IfOk result (λ made. made ≡ work_items.no_work_items) }
    {
        Ok(WorkItems {
            queued: IdSet::make(alloc, OBJECTS)?,
        })
    }

    /// No work item is queued once more.
    pub fn begin_again(&mut self)
        ensures { self.new ≡ work_items.no_work_items }
    {
        clear_set(&mut self.queued);
    }

    /// How many work items are queued.
    pub fn len(&self) -> u32
        ensures { result ≡ length self.now.queued }
    {
        self.queued.len()
    }

    /// The k-th queued work item, by rising id from 0.
    pub fn at(&self, k: u32) -> ObjectId
        requires { k < length self.now.queued }
        ensures { slice_get self.now.queued k ≡ Some result.0 }
    {
        ObjectId(self.queued.at(k).unwrap())
    }

    /// The same; `None` exactly where there are fewer.
    pub fn nth(&self, k: u32) -> Option<ObjectId>
        ensures item { option_map (λ o. o.0) result ≡ slice_get self.now.queued k }
        ensures rising { AreInOrder self.now }
    {
        object_at(self.queued.at(k))
    }

    /// How many queued work items have a lesser id.
    pub fn before(&self, o: ObjectId) -> u32
        ensures count { result ≡ length (filter (λ x. work_items.is_work_queued self.now x) (range_with_len 0 o.0)) }
        ensures rising { AreInOrder self.now }
    {
        let count = self.queued.before(o.0);
        count
    }

    /// Whether the work item is queued.
    pub fn is_work_queued(&self, o: ObjectId) -> bool
        ensures { result ≡ work_items.is_work_queued self.now o.0 }
    {
        self.queued.contains(o.0)
    }

    /// Queues the work item. The answer is `false`, and nothing changes, exactly where it is queued
    /// already. (KMDF)
    pub fn enqueue(&mut self, o: ObjectId) -> bool
        requires { o.0 < OBJECTS }
        ensures answer { result ≡ not (work_items.is_work_queued self.old o.0) }
        ensures done { self.new ≡ work_items.enqueue self.old o.0 }
    {
        if self.is_work_queued(o) {
            return false;
        }
        self.queued.put(o.0, true);
        true
    }

    /// Takes the work item out of the queue. The answer is `false`, and nothing changes, exactly
    /// where it isn't queued.
    pub fn cancel(&mut self, o: ObjectId) -> bool
        ensures answer { result ≡ work_items.is_work_queued self.old o.0 }
        ensures done { self.new ≡ work_items.cancel self.old o.0 }
    {
        if !self.is_work_queued(o) {
            return false;
        }
        self.queued.put(o.0, false);
        true
    }
}
