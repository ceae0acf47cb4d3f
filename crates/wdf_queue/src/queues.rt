ghost use Rattle.std.specs.Prelude.{◌≡◌, ℕ, ◌+◌, ◌&&◌, ◌<◌, ◌≤◌, ◌++◌, ◌∷◌, [], IfOk, IsTrue, MatchOption, None, Some, if◌then◌else◌, drop, false, is_some, length, not, option_map, replicate, slice_get, slice_set, true};
ghost use Rattle.wdf_maps.specs.Places.{rises};
ghost use Rattle.wdf_sets.specs.Nexts.{IsNext, NoneFrom};
ghost use Rattle.wdf_model.specs.Tables.{put};
ghost use Rattle.wdf_model.specs.parts.Queues as queues;
ghost use Rattle.wdf_model.specs.parts.Queues.{held_count, held_in, is_waiting, waiting_in};
ghost use Rattle.wdf_queue.specs.Queues.{presents};

use crate::dispatch::{is_free_by, opening_dispatches, write_dispatches};
use std::alloc::Global;
use std::marker::Model;
use wdf_base::{DispatchKind, Memory, ObjectId, Plan};
use wdf_ilist::Links;
use wdf_maps::{entry_at, object_at};
use wdf_model::{EVENTS, OBJECTS};
use wdf_sets::IdSet;

/// Who waits in which queue, and how many requests the driver holds from each. A request waits in
/// one queue at most. Each call but [`Queues::make`] takes no memory.
#[derive(Drop)]
pub struct Queues {
    /// How each queue presents its requests, by id.
    dispatch: Vec<DispatchKind>,
    /// The waiting list of each queue, by id.
    waiting: Links,
    /// How many requests from each queue the driver holds, by id.
    held: Vec<u32>,
    /// Whether the waiting list of each queue is known to rise, by id. False says nothing.
    rising: Vec<bool>,
    /// The queues that present one request more now.
    presentable: IdSet,
}

impl Model for Queues {
    ghost use Rattle.wdf_model.specs.parts.Queues.{Queues};

    ghost Value = { Queues };

    ghost use Rattle.wdf_queue.specs.Queues.{queues_in, IsSound};

    ghost view = { queues_in };

    ghost invariant = { IsSound };
}

impl Queues {
    /// The queues at the opening of the plan's run: nothing waits, and nothing is held. It takes
    /// all memory that the queues need.
    pub fn make(alloc: Global, plan: &Plan) -> Result<Queues, Memory>
        requires room { length plan.now.declared < OBJECTS }
        ensures { IfOk result (λ made. made ≡ queues.opening_queues plan.now) }
    {
        let ids = 1 + plan.declared_len();
        Ok(Queues {
            dispatch: opening_dispatches(alloc, plan)?,
            waiting: Links::make(alloc, ids, OBJECTS)?,
            held: no_counts(alloc, ids as usize)?,
            rising: all_rising(alloc, ids as usize)?,
            presentable: IdSet::make(alloc, ids)?,
        })
    }

    /// The queues at the opening of a plan's run once more, of as many ids.
    pub fn begin_again(&mut self, plan: &Plan)
        requires { length self.old.dispatch ≡ 1 + length plan.now.declared }
        ensures { self.new ≡ queues.opening_queues plan.now }
    {
        self.waiting.clear();
        zero_counts(&mut self.held);
        write_dispatches(&mut self.dispatch, plan);
        self.presentable.clear();
    }

    /// The request at the front of a queue, `None` exactly where none waits there.
    pub fn front(&self, q: ObjectId) -> Option<ObjectId>
        ensures { option_map (λ r. r.0) result ≡ queues.front self.now q.0 }
    {
        object_at(self.waiting.front(q.0))
    }

    /// How many requests wait in a queue.
    pub fn len(&self, q: ObjectId) -> u32
        ensures { result ≡ length (waiting_in self.now q.0) }
    {
        self.waiting.len(q.0)
    }

    /// Whether no request waits in a queue.
    pub fn is_empty(&self, q: ObjectId) -> bool
        ensures { result ≡ queues.is_empty_queue self.now q.0 }
    {
        self.waiting.is_empty(q.0)
    }

    /// Whether the requests that wait in a queue are known to rise by id, from the front on. False
    /// says nothing.
    pub fn is_rising(&self, q: ObjectId) -> bool
        ensures { IsTrue result → rises (λ x. x) 0 OBJECTS (waiting_in self.now q.0) ≡ true }
    {
        entry_at(&self.rising, false, q.0)
    }

    /// Whether a request waits in some queue.
    pub fn is_waiting(&self, r: ObjectId) -> bool
        ensures { result ≡ is_waiting self.now r.0 }
    {
        self.waiting.owner(r.0).is_some()
    }

    /// The request that waits at a place of a queue, counted from 0 at the front; `None` past the
    /// end. It goes over those before it.
    pub fn waiting_at(&self, q: ObjectId, k: u32) -> Option<ObjectId>
        ensures { option_map (λ r. r.0) result ≡ slice_get (waiting_in self.now q.0) k }
    {
        let mut found = self.waiting.front(q.0);
        for place in 0..k {
            found = self.waiting.after(found?);
        }
        object_at(found)
    }

    /// The request after this one in its waiting list: `None` where it is the last or doesn't wait.
    pub fn next_waiting(&self, r: ObjectId) -> Option<ObjectId>
        ensures after { (q k : ℕ) → slice_get (waiting_in self.now q) k ≡ Some r.0 → option_map (λ x. x.0) result ≡ slice_get (waiting_in self.now q) (k + 1) }
        ensures none { is_waiting self.now r.0 ≡ false → result ≡ None }
    {
        let _queue = self.waiting.owner(r.0)?;
        object_at(self.waiting.after(r.0))
    }

    /// How many requests from a queue the driver holds.
    pub fn held_count(&self, q: ObjectId) -> u32
        ensures { result ≡ queues.held_count self.now q.0 }
    {
        entry_at(&self.held, 0, q.0)
    }

    /// Whether a queue presents one more request. (KMDF: a sequential queue one at a time, a
    /// parallel one up to its number, a manual one none of itself)
    pub fn is_free(&self, q: ObjectId) -> bool
        ensures { result ≡ queues.is_free self.now q.0 }
    {
        let dispatch = entry_at(&self.dispatch, DispatchKind::Manual, q.0);
        is_free_by(dispatch, self.held_count(q))
    }

    /// The first queue from an id on, below an end, that presents one request more now; `None` where there is none.
    pub fn next_presentable(&self, from: u32, end: u32) -> Option<u32>
        ensures { MatchOption result (NoneFrom (presents self.now) from end) (λ id. IsNext (presents self.now) from end id) }
    {
        self.presentable.next(from, end)
    }

    /// Whether a queue's requests are known to rise by id with this one at the tail.
    #[tactic(auto, using(crate::proofs::Rising::alone_last, crate::proofs::Rising::with_last))]
    fn rises_with_last(&self, q: ObjectId, r: ObjectId) -> bool
        requires { r.0 < OBJECTS }
        ensures { IsTrue result → rises (λ x. x) 0 OBJECTS (waiting_in self.now q.0 ++ r.0 ∷ []) ≡ true }
    {
        let Some(last) = self.waiting.back(q.0) else {
            return true
        };
        last < r.0 && self.is_rising(q)
    }

    /// Whether a queue's requests are known to rise by id with this one at the head.
    fn rises_with_first(&self, q: ObjectId, r: ObjectId) -> bool
        requires { r.0 < OBJECTS }
        ensures { IsTrue result → rises (λ x. x) 0 OBJECTS (r.0 ∷ waiting_in self.now q.0) ≡ true }
    {
        let Some(first) = self.waiting.front(q.0) else {
            return true
        };
        r.0 < first && self.is_rising(q)
    }

    /// A request enters a queue at the tail.
    #[tactic(auto, using(wdf_model::proofs::Maps::put_within))]
    pub fn enter(&mut self, q: ObjectId, r: ObjectId)
        requires there { q.0 < length self.old.dispatch }
        requires room { r.0 < OBJECTS }
        requires apart { is_waiting self.old r.0 ≡ false }
        ensures { self.new ≡ queues.enter self.old q.0 r.0 }
    {
        let is_free = self.is_free(q);
        self.rising[q.0 as usize] = self.rises_with_last(q, r);
        self.waiting.push_back(q.0, r.0);
        self.presentable.put(q.0, is_free);
    }

    /// A request enters a queue at the head.
    #[tactic(auto, using(wdf_model::proofs::Maps::put_within))]
    pub fn requeue(&mut self, q: ObjectId, r: ObjectId)
        requires there { q.0 < length self.old.dispatch }
        requires room { r.0 < OBJECTS }
        requires apart { is_waiting self.old r.0 ≡ false }
        ensures { self.new ≡ queues.requeue self.old q.0 r.0 }
    {
        let is_free = self.is_free(q);
        self.rising[q.0 as usize] = self.rises_with_first(q, r);
        self.waiting.push_front(q.0, r.0);
        self.presentable.put(q.0, is_free);
    }

    /// The front of a queue leaves it, and counts as held. `None` where none waits there, and then
    /// nothing changes.
    pub fn take(&mut self, q: ObjectId) -> Option<ObjectId>
        requires there { q.0 < length self.old.dispatch }
        requires few { held_in self.old < EVENTS }
        ensures front { option_map (λ r. r.0) result ≡ queues.front self.old q.0 }
        ensures done { self.new ≡ (if is_some result then queues.take self.old q.0 else self.old) }
        ensures many { held_in self.new ≤ held_in self.old + 1 }
    {
        let front = self.front(q)?;
        self.drop_front(q);
        self.hold(q);
        Some(front)
    }

    /// The front of a queue leaves it.
    #[tactic(auto, using(wdf_model::proofs::Maps::put_within))]
    fn drop_front(&mut self, q: ObjectId)
        requires there { q.0 < length self.old.dispatch }
        ensures rest { self.new ≡ queues.with_waiting self.old q.0 (drop 1) }
        ensures size { length self.new.waiting ≡ length self.old.waiting }
    {
        let is_free = self.is_free(q);
        let _front = self.waiting.pop_front(q.0);
        let is_empty = self.waiting.is_empty(q.0);
        note(&mut self.presentable, q.0, is_empty, is_free);
    }

    /// The driver holds one request more from a queue.
    pub fn hold(&mut self, q: ObjectId)
        requires there { q.0 < length self.old.dispatch }
        requires few { held_in self.old < EVENTS }
        ensures done { self.new ≡ queues.hold self.old q.0 }
        ensures many { held_in self.new ≡ held_in self.old + 1 }
    {
        let held = self.held_count(q) + 1;
        self.write_held(q, held);
    }

    /// The driver holds one request less from a queue; nothing changes where it holds none.
    pub fn let_go(&mut self, q: ObjectId)
        requires { q.0 < length self.old.dispatch }
        ensures done { self.new ≡ queues.let_go self.old q.0 }
        ensures many { held_in self.new ≤ held_in self.old }
    {
        let held = self.held_count(q).saturating_sub(1);
        self.write_held(q, held);
    }

    /// Writes how many requests from a queue the driver holds.
    #[tactic(auto, using(crate::proofs::Sums::sum_put, wdf_model::proofs::Maps::put_within))]
    fn write_held(&mut self, q: ObjectId, held: u32)
        requires { q.0 < length self.old.dispatch }
        ensures done { self.new ≡ record self.old { held = put 0 self.old.held q.0 held } }
        ensures many { held_in self.new + held_count self.old q.0 ≡ held_in self.old + held }
    {
        let is_empty = self.is_empty(q);
        let dispatch = entry_at(&self.dispatch, DispatchKind::Manual, q.0);
        self.held[q.0 as usize] = held;
        let is_free = is_free_by(dispatch, held);
        note(&mut self.presentable, q.0, is_empty, is_free);
    }

    /// A request leaves the queue in which it waits: false, and nothing changes, exactly where it
    /// waits in none.
    pub fn take_cancelled(&mut self, r: ObjectId) -> bool
        ensures found { result ≡ is_waiting self.old r.0 }
        ensures done { self.new ≡ queues.take_cancelled self.old r.0 }
    {
        let Some(q) = self.waiting.owner(r.0) else {
            return false
        };
        let is_free = self.is_free(ObjectId(q));
        let _list = self.waiting.unlink(r.0);
        let is_empty = self.waiting.is_empty(q);
        note(&mut self.presentable, q, is_empty, is_free);
        true
    }

    /// Nothing waits in a queue any more.
    pub fn clear(&mut self, q: ObjectId)
        requires { q.0 < length self.old.dispatch }
        ensures { self.new ≡ queues.clear self.old q.0 }
    {
        let _ids = &self.dispatch;
        while !self.is_empty(q) {
            self.drop_front(q);
        }
    }
}

/// Notes whether a queue presents one request more now: some wait, and it is free.
fn note(presentable: &mut IdSet, q: u32, is_empty: bool, is_free: bool)
    requires { q < length presentable.old }
    ensures { presentable.new ≡ slice_set presentable.old q (not is_empty && is_free) }
{
    presentable.put(q, !is_empty && is_free);
}

/// Every count is 0 again.
fn zero_counts(counts: &mut Vec<u32>)
    ensures { counts.new.items ≡ replicate (length counts.old.items) 0 }
{
    counts.as_mut_slice().fill(0);
}

/// A count of 0 for each id.
fn no_counts(alloc: Global, ids: usize) -> Result<Vec<u32>, Memory>
    ensures { IfOk result (λ counts. counts.items ≡ replicate ids 0) }
{
    Ok(vec![in alloc; 0; ids]?)
}

/// A mark for each id: a list without requests rises.
fn all_rising(alloc: Global, ids: usize) -> Result<Vec<bool>, Memory>
    ensures { IfOk result (λ marks. marks.items ≡ replicate ids true) }
{
    Ok(vec![in alloc; true; ids]?)
}
