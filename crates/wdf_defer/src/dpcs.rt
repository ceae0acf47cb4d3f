ghost use Rattle.std.specs.Prelude.{◌≡◌, ◌<◌, IfOk, Some, if◌then◌else◌, length, not, option_map, slice_get};
ghost use Rattle.std.specs.Option.{option_and_then};
ghost use Rattle.wdf_model.specs.Tables.{contains};
ghost use Rattle.wdf_model.specs.parts.Deferred.Dpcs as dpcs;
ghost use Rattle.wdf_ilist.specs.Family.{after_in, list_at};

use std::alloc::Global;
use std::marker::Model;
use wdf_base::{Cpu, Memory, ObjectId, Plan};
use wdf_ilist::Links;
use wdf_model::OBJECTS;

/// The DPC list of each processor. A DPC is in one list at most. All calls but [`Dpcs::make`] take no
/// memory.
#[derive(Drop)]
pub struct Dpcs {
    queued: Links,
}

impl Model for Dpcs {
    ghost use Rattle.wdf_model.specs.parts.Deferred.Dpcs.{Dpcs};

    ghost Value = { Dpcs };

    ghost use Rattle.wdf_defer.specs.Dpcs.{dpcs_in, IsSound};

    ghost view = { dpcs_in };

    ghost invariant = { IsSound };
}

/// The item after this one.
fn after(links: &Links, item: Option<u32>) -> Option<u32>
    ensures { result ≡ option_and_then (λ x. after_in x links.now.lists) item }
{
    match item {
        Some(item) => links.after(item),
        None => None,
    }
}

/// The k-th item of a list, from 0. It goes along the list.
fn item_at(links: &Links, list: u32, k: u32) -> Option<u32>
    ensures { result ≡ slice_get (list_at links.now.lists list) k }
{
    let mut item = links.front(list);
    for _place in 0..k {
        item = after(links, item);
    }
    item
}

impl Dpcs {
    /// The empty list of each processor. On [`Memory`] nothing is made.
    pub fn make(alloc: Global, plan: &Plan) -> Result<Dpcs, Memory>
        ensures { IfOk result (λ made. made ≡ dpcs.opening_dpcs plan.now) }
    {
        Ok(Dpcs {
            queued: Links::make(alloc, u32::from(plan.cpus()), OBJECTS)?,
        })
    }

    /// The empty list of each processor once more, where the plan has as many.
    pub fn begin_again(&mut self, plan: &Plan)
        requires { length self.old.lists ≡ plan.now.cpus }
        ensures { self.new ≡ dpcs.opening_dpcs plan.now }
    {
        let _ = plan;
        self.queued.clear();
    }

    /// How many DPCs are in a processor's list.
    pub fn len(&self, cpu: Cpu) -> u32
        ensures { result ≡ length (dpcs.dpcs_of self.now cpu.0) }
    {
        self.queued.len(u32::from(cpu.0))
    }

    /// The k-th DPC of a processor's list, from 0. It goes along the list.
    pub fn at(&self, cpu: Cpu, k: u32) -> ObjectId
        requires { k < length (dpcs.dpcs_of self.now cpu.0) }
        ensures { slice_get (dpcs.dpcs_of self.now cpu.0) k ≡ Some result.0 }
    {
        ObjectId(item_at(&self.queued, u32::from(cpu.0), k).unwrap())
    }

    /// The first DPC of a processor's list, `None` exactly where the list is empty.
    pub fn dpc_head(&self, cpu: Cpu) -> Option<ObjectId>
        ensures { option_map (λ o. o.0) result ≡ dpcs.dpc_head self.now cpu.0 }
    {
        self.queued.front(u32::from(cpu.0)).map(ObjectId)
    }

    /// Whether the DPC is in a list.
    pub fn is_dpc_queued(&self, o: ObjectId) -> bool
        ensures { result ≡ dpcs.is_dpc_queued self.now o.0 }
    {
        self.queued.owner(o.0).is_some()
    }

    /// Whether the DPC is in this processor's list.
    pub fn is_on(&self, cpu: Cpu, o: ObjectId) -> bool
        ensures { result ≡ contains o.0 (dpcs.dpcs_of self.now cpu.0) }
    {
        match self.queued.owner(o.0) {
            Some(list) => list == u32::from(cpu.0),
            None => false,
        }
    }

    /// Puts the DPC at the end of a processor's list. The answer is `false`, and nothing changes,
    /// exactly where it is in a list already. (KMDF)
    pub fn enqueue(&mut self, cpu: Cpu, o: ObjectId) -> bool
        requires cpu { cpu.0 < length self.old.lists }
        requires there { o.0 < OBJECTS }
        ensures answer { result ≡ not (dpcs.is_dpc_queued self.old o.0) }
        ensures done { self.new ≡ (if result then dpcs.enqueue self.old cpu.0 o.0 else self.old) }
        ensures size { length self.new.lists ≡ length self.old.lists }
    {
        if self.is_dpc_queued(o) {
            return false;
        }
        self.queued.push_back(u32::from(cpu.0), o.0);
        true
    }

    /// Takes the DPC out of its list. The answer is `false`, and nothing changes, exactly where it is
    /// in none. (KMDF)
    pub fn cancel(&mut self, o: ObjectId) -> bool
        ensures answer { result ≡ dpcs.is_dpc_queued self.old o.0 }
        ensures done { self.new ≡ dpcs.cancel self.old o.0 }
        ensures size { length self.new.lists ≡ length self.old.lists }
    {
        self.queued.unlink(o.0).is_some()
    }

    /// Takes the first DPC out of a processor's list, `None` exactly where the list is empty.
    pub fn take(&mut self, cpu: Cpu) -> Option<ObjectId>
        requires { cpu.0 < length self.old.lists }
        ensures answer { option_map (λ o. o.0) result ≡ dpcs.dpc_head self.old cpu.0 }
        ensures done { self.new ≡ dpcs.take self.old cpu.0 }
        ensures size { length self.new.lists ≡ length self.old.lists }
    {
        self.queued.pop_front(u32::from(cpu.0)).map(ObjectId)
    }
}
