//! Callbacks that are due for many requests of a queue at once. What all these requests wait for is tested once, and the
//! requests are counted by their queue.
ghost use Rattle.std.specs.Prelude.{IsTrue, ◌≡◌, ◌+◌, ◌<◌, ◌^◌, ◌≤◌, Some, find, length, nat_le, option_map, slice_get, true, MatchResult};
ghost use Rattle.wdf_model.specs.State.{declared_in};
ghost use Rattle.wdf_model.specs.parts.Locks.{is_free_if_any, lock_of_callback};
ghost use Rattle.wdf_model.specs.rules.Groups as groups;
ghost use Rattle.wdf_offers.specs.ForRequests as herds;
ghost use Rattle.wdf_offers.specs.ForRequests.{IsExact, begins_on, counted, due_for, herd_group, may_begin, rank_of, whole};
ghost use Rattle.wdf_offers.specs.Leaving.{IsSettled};
ghost use Rattle.wdf_offers.specs.Search as search;

use crate::candidates::{callback_for, starts_for};
use crate::idle::is_stopping;
use wdf_base::{Agent, Callback, Cpu, Event, ObjectId, Rank};
use wdf_lock::lock_of_callback;
use wdf_parts::Parts;
use wdf_plan_index::IndexedPlan;
use wdf_starts::{level_fits, life_fits, rank_ready_for};
use wdf_steps::is_cpu;

/// A callback of a queue that may be due for many requests at once.
#[derive(Clone, Copy)]
pub enum Herd {
    /// EvtRequestCancel.
    Cancel,
    /// EvtIoCanceledOnQueue.
    Return,
    /// EvtIoStop.
    Stop,
    /// EvtIoResume.
    Resume,
}

/// The herd of a rank, none where its callbacks aren't counted by queue.
pub fn herd_of(rank: Rank) -> Option<Herd>
    ensures { result ≡ herds.herd_of rank }
{
    match rank {
        Rank::Cancel => Some(Herd::Cancel),
        Rank::CanceledOnQueue => Some(Herd::Return),
        Rank::Stop => Some(Herd::Stop),
        Rank::Resume => Some(Herd::Resume),
        _ => None,
    }
}

/// Whether the lock that a callback of an object takes at its start is free, where it takes one.
fn lock_is_free<A: Agent>(
    plan: &IndexedPlan,
    parts: &Parts<A>,
    callback: Callback,
    o: ObjectId,
) -> bool
    ensures { result ≡ is_free_if_any parts.now.locks (lock_of_callback plan.now callback o.0 (declared_in plan.now parts.now o.0)) }
{
    parts.locks().is_free_if_any(lock_of_callback(
        plan.plan(),
        callback,
        o,
        parts.declared_in(plan, o),
    ))
}

/// Whether a callback may start on an object, on a processor, for each request for which it is due.
pub(crate) fn begins_on<A: Agent>(
    plan: &IndexedPlan,
    parts: &Parts<A>,
    cpu: Cpu,
    callback: Callback,
    o: ObjectId,
) -> bool
    ensures { result ≡ begins_on plan.now parts.now cpu.0 callback o.0 }
{
    is_cpu(plan, cpu)
        && parts.declares_in(plan, callback, o)
        && life_fits(parts, callback, o)
        && level_fits(parts, cpu, plan.callback_irql(callback, o))
        && lock_is_free(plan, parts, callback, o)
}

impl Herd {
    /// The rank of its callback.
    fn rank(self) -> Rank
        ensures { result ≡ rank_of self }
    {
        match self {
            Herd::Cancel => Rank::Cancel,
            Herd::Return => Rank::CanceledOnQueue,
            Herd::Stop => Rank::Stop,
            Herd::Resume => Rank::Resume,
        }
    }

    /// The callback.
    fn callback(self) -> Callback
        ensures { result ≡ groups.callback_for (rank_of self) }
    {
        callback_for(self.rank())
    }

    /// True only where the callback is due on a queue for just the requests that are counted for it. That isn't said of
    /// EvtRequestCancel where it is due for a request that is sent, nor of EvtIoResume on a queue that isn't power-managed.
    pub fn is_exact<A: Agent>(self, plan: &IndexedPlan, parts: &Parts<A>, q: ObjectId) -> bool
        requires settled { IsSettled plan.now parts.now }
        ensures { IsTrue result → IsExact plan.now parts.now self q.0 }
    {
        match self {
            Herd::Cancel => !parts.requests().some_due_sent(),
            Herd::Return => true,
            Herd::Stop => true,
            Herd::Resume => plan.is_managed(q),
        }
    }

    /// Whether the callback can be due on a queue: EvtIoStop only while the queue stops.
    fn can_be<A: Agent>(self, plan: &IndexedPlan, parts: &Parts<A>, q: ObjectId) -> bool
        ensures { result ≡ herds.can_be plan.now parts.now self q.0 }
    {
        match self {
            Herd::Stop => is_stopping(plan, parts, q),
            Herd::Cancel | Herd::Return | Herd::Resume => true,
        }
    }

    /// How many requests are counted for a queue.
    fn counted_len<A: Agent>(self, parts: &Parts<A>, q: ObjectId) -> u32
        ensures { result ≡ length (counted self parts.now q.0) }
    {
        match self {
            Herd::Cancel => parts.requests().due_from_len(q),
            Herd::Return => parts.requests().returning_to_len(q),
            Herd::Stop => parts.power().unasked_from_len(q),
            Herd::Resume => parts.power().resuming_from_len(q),
        }
    }

    /// How many there are that are counted for whatever queue, and others among them.
    pub(crate) fn whole_len<A: Agent>(self, parts: &Parts<A>) -> u32
        ensures { result ≡ length (whole self parts.now) }
    {
        match self {
            Herd::Cancel => parts.requests().due_len(),
            Herd::Return => parts.requests().returning_len(),
            Herd::Stop => parts.power().unasked_len(),
            Herd::Resume => parts.power().resuming_len(),
        }
    }

    /// The k-th of these, by rising id from 0; `None` exactly where there are fewer.
    fn whole_at<A: Agent>(self, parts: &Parts<A>, k: u32) -> Option<ObjectId>
        ensures { option_map (λ r. r.0) result ≡ slice_get (whole self parts.now) k }
    {
        match self {
            Herd::Cancel => parts.requests().due_at(k),
            Herd::Return => parts.requests().returning_at(k),
            Herd::Stop => parts.power().unasked_at(k),
            Herd::Resume => parts.power().resuming_at(k),
        }
    }

    /// Whether the callback may start on a queue, on a processor, for each request for which it is due.
    fn may_begin<A: Agent>(
        self,
        plan: &IndexedPlan,
        parts: &Parts<A>,
        cpu: Cpu,
        q: ObjectId,
    ) -> bool
        ensures { result ≡ may_begin plan.now parts.now self cpu.0 q.0 }
    {
        let callback = self.callback();
        plan.declares(callback, q)
            && begins_on(plan, parts, cpu, callback, q)
            && self.can_be(plan, parts, q)
    }

    /// The first of those that are counted for whatever queue, from an id on.
    fn whole_next<A: Agent>(self, parts: &Parts<A>, from: ObjectId) -> Option<ObjectId>
        ensures { option_map (λ r. r.0) result ≡ find (nat_le from.0) (whole self parts.now) }
    {
        match self {
            Herd::Cancel => parts.requests().next_due(from),
            Herd::Return => parts.requests().next_returning(from),
            Herd::Stop => parts.power().next_unasked(from),
            Herd::Resume => parts.power().next_resuming(from),
        }
    }

    /// Whether the callback is due on a queue for a request.
    fn is_due_for<A: Agent>(
        self,
        plan: &IndexedPlan,
        parts: &Parts<A>,
        q: ObjectId,
        r: ObjectId,
    ) -> bool
        ensures { result ≡ herds.is_due_for plan.now parts.now self q.0 r.0 }
    {
        rank_ready_for(plan, parts, self.rank(), self.callback(), q, r)
    }

    /// The k-th request for which the callback is due on a queue, by rising id from 0; `None` exactly where there are fewer.
    /// It looks at those that are counted for whatever queue.
    fn walk<A: Agent>(
        self,
        plan: &IndexedPlan,
        parts: &Parts<A>,
        q: ObjectId,
        k: u32,
    ) -> Option<ObjectId>
        requires exact { IsExact plan.now parts.now self q.0 }
        ensures { option_map (λ r. r.0) result ≡ slice_get (due_for plan.now parts.now self q.0) k }
    {
        let end = parts.requests().len();
        let mut left = k;
        let mut at = 0;
        'walk: while at < end {
            let r = match self.whole_next(parts, ObjectId(at)) {
                Some(r) => r,
                None => return None,
            };
            if r.0 >= end {
                return None;
            }
            if self.is_due_for(plan, parts, q, r) {
                if left == 0 {
                    return Some(r);
                }
                left -= 1;
            }
            at = r.0 + 1;
        }
        None
    }

    /// The same, where it can be due on the queue. No request is looked at where none is counted for another queue.
    fn at<A: Agent>(
        self,
        plan: &IndexedPlan,
        parts: &Parts<A>,
        q: ObjectId,
        k: u32,
    ) -> Option<ObjectId>
        requires exact { IsExact plan.now parts.now self q.0 }
        requires can_be { herds.can_be plan.now parts.now self q.0 ≡ true }
        ensures { option_map (λ r. r.0) result ≡ slice_get (due_for plan.now parts.now self q.0) k }
    {
        if self.whole_len(parts) == self.counted_len(parts, q) {
            self.whole_at(parts, k)
        } else {
            self.walk(plan, parts, q, k)
        }
    }
}

/// How many of these starts may come on a processor for the requests of a queue.
pub fn herd_len<A: Agent>(
    plan: &IndexedPlan,
    parts: &Parts<A>,
    herd: Herd,
    cpu: Cpu,
    q: ObjectId,
) -> usize
    requires exact { IsExact plan.now parts.now herd q.0 }
    ensures length { result ≡ length (search.offered_from plan.now A.meaning parts.now (herd_group herd cpu.0 q.0) 0) }
    ensures small { result ≤ 2 ^ 32 }
{
    let len = herd.counted_len(parts, q);
    if len > 0 && herd.may_begin(plan, parts, cpu, q) {
        len as usize
    } else {
        0
    }
}

/// The k-th of them, or how many places of a list are left after them.
pub fn herd_at<A: Agent>(
    plan: &IndexedPlan,
    parts: &Parts<A>,
    herd: Herd,
    cpu: Cpu,
    q: ObjectId,
    k: usize,
) -> Result<Event, usize>
    requires exact { IsExact plan.now parts.now herd q.0 }
    ensures { MatchResult result (λ event. slice_get (search.offered_from plan.now A.meaning parts.now (herd_group herd cpu.0 q.0) 0) k ≡ Some event)
        (λ rest. length (search.offered_from plan.now A.meaning parts.now (herd_group herd cpu.0 q.0) 0) + rest ≡ k) }
{
    let len = herd_len(plan, parts, herd, cpu, q);
    if k >= len {
        return Err(k - len);
    }
    match herd.at(plan, parts, q, k as u32) {
        Some(r) => Ok(starts_for(plan, parts, cpu, herd.callback(), q, r)),
        None => Err(0),
    }
}
