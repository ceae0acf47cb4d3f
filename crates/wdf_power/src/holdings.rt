ghost use Rattle.std.specs.Prelude.{◌≡◌, ◌+◌, ◌<◌, ◌≤◌, IfOk, IfSome, MatchOption, Some, count_by, find, if◌then◌else◌, is_some, length, nat_le, slice_get};
ghost use Rattle.std.specs.List.{list_any};
ghost use Rattle.wdf_maps.specs.Counts.{is_at};
ghost use Rattle.wdf_model.specs.Tables.{least, lesser, put};
ghost use Rattle.wdf_model.specs.declared.room.TheConstants.{OBJECTS};
ghost use Rattle.wdf_model.specs.parts.Power as power;
ghost use Rattle.wdf_sets.specs.Nexts.{IsNext, NoneFrom};
ghost use Rattle.wdf_power.specs.Held.{AreListed};
ghost use Rattle.wdf_power.specs.ForQueues.{has_resuming, has_unasked, resuming, resuming_from, resuming_queue, unasked, unasked_from, unasked_queue};
ghost use Rattle.wdf_power.specs.Power.{device_list, due_at, held_list, opening_holdings, resume_of, unsettled_at};

use crate::opening::{opening_queues, write_queues};
use std::alloc::Global;
use std::marker::Model;
use wdf_base::{Memory, ObjectId, Plan};
use wdf_ilist::Links;
use wdf_maps::{Counts, entry_at, lesser_if, put_at};
use wdf_model::{Holding, OBJECTS, QueuePower};
use wdf_sets::IdSet;
use wdf_tally::Tally;

/// Of a queue that there isn't.
const NO_QUEUE_POWER: QueuePower = QueuePower {
    device: ObjectId(0),
    resumes: false,
};

/// Of a request that isn't held from a power-managed queue.
pub(crate) const NO_HOLDING: Holding = Holding {
    queue: ObjectId(0),
    acknowledged: false,
    stop_asked: false,
    resume_due: false,
};

/// How far the requests that the driver holds from power-managed queues have come, counted by device.
///
/// Contracts see the definitions' record of power, without devices.
#[derive(Drop)]
pub(crate) struct Holdings {
    /// By the queue's id.
    queues: Vec<QueuePower>,
    /// By the request's id.
    all: Vec<Holding>,
    /// How many requests are held and not acknowledged, by device.
    unsettled: Counts,
    /// For how many requests a resume is due, by device.
    due: Counts,
    /// For how many requests a resume is due in all, counted at the id 0.
    resumes: Counts,
    /// How many requests are held from each queue and weren't asked to stop.
    unasked: Tally,
    /// Those that are held and weren't asked to stop.
    unasked_ids: IdSet,
    /// For how many requests that are held from each queue a resume is due.
    resuming: Tally,
    /// Those for which a resume is due.
    resuming_ids: IdSet,
}

impl Model for Holdings {
    ghost use Rattle.wdf_model.specs.parts.Power as power;

    ghost Value = { power.Power };

    ghost use Rattle.wdf_power.specs.Held.{holdings_in, IsSound};

    ghost view = { holdings_in };

    ghost invariant = { IsSound };
}

/// Whether a request is held.
pub(crate) fn is_held(holding: &Holding) -> bool
    ensures { result ≡ power.is_held holding.now }
{
    0 < holding.queue.0
}

/// The device at which a request is held and isn't acknowledged.
fn unsettled_at(queues: &[QueuePower], holding: &Holding) -> Option<ObjectId>
    ensures { result ≡ unsettled_at queues.now holding.now }
{
    if is_held(holding) && !holding.acknowledged {
        Some(entry_at(queues, NO_QUEUE_POWER, holding.queue.0).device)
    } else {
        None
    }
}

/// The device at which a resume is due for a request.
fn due_at(queues: &[QueuePower], holding: &Holding) -> Option<ObjectId>
    ensures { result ≡ due_at queues.now holding.now }
{
    if is_held(holding) && holding.resume_due {
        Some(entry_at(queues, NO_QUEUE_POWER, holding.queue.0).device)
    } else {
        None
    }
}

/// The id 0 where a resume is due for a request.
fn resume_of(holding: &Holding) -> Option<ObjectId>
    ensures { result ≡ resume_of holding.now }
{
    if holding.resume_due {
        Some(ObjectId(0))
    } else {
        None
    }
}

/// The queue that a request is held from, where it wasn't asked to stop.
fn unasked_queue(holding: &Holding) -> Option<ObjectId>
    ensures { result ≡ unasked_queue holding.now }
{
    if is_held(holding) && !holding.stop_asked {
        Some(holding.queue)
    } else {
        None
    }
}

/// The queue that a request is held from, where a resume is due for it.
fn resuming_queue(holding: &Holding) -> Option<ObjectId>
    ensures { result ≡ resuming_queue holding.now }
{
    if holding.resume_due {
        Some(holding.queue)
    } else {
        None
    }
}

/// Whether a request is held and wasn't asked to stop.
fn is_unasked(holding: &Holding) -> bool
    ensures { result ≡ is_some (unasked_queue holding.now) }
{
    is_held(holding) && !holding.stop_asked
}

/// Whether a resume is due for some request of a device, by a look at all of them.
fn some_due(queues: &[QueuePower], holdings: &[Holding], d: ObjectId) -> bool
    ensures { result ≡ list_any (λ h. is_at d.0 (due_at queues.now h)) holdings.now }
{
    holdings
        .iter()
        .any(|holding| is_at(d, due_at(queues, holding)))
}

/// How many requests of a device are held and not acknowledged, by a look at all of them.
fn count_unsettled(queues: &[QueuePower], holdings: &[Holding], d: ObjectId) -> usize
    ensures value { result ≡ count_by (λ h. is_at d.0 (unsettled_at queues.now h)) holdings.now }
    ensures small { result ≤ length holdings.now }
{
    holdings
        .iter()
        .filter(|holding| is_at(d, unsettled_at(queues, holding)))
        .count()
}

/// How many requests are held from a queue and weren't asked to stop, by a look at all of them.
fn count_unasked(holdings: &[Holding], q: ObjectId) -> usize
    ensures value { result ≡ count_by (λ h. is_at q.0 (unasked_queue h)) holdings.now }
    ensures small { result ≤ length holdings.now }
{
    holdings
        .iter()
        .filter(|holding| is_at(q, unasked_queue(holding)))
        .count()
}

/// For how many requests that are held from a queue a resume is due, by a look at all of them.
fn count_resuming(holdings: &[Holding], q: ObjectId) -> usize
    ensures value { result ≡ count_by (λ h. is_at q.0 (resuming_queue h)) holdings.now }
    ensures small { result ≤ length holdings.now }
{
    holdings
        .iter()
        .filter(|holding| is_at(q, resuming_queue(holding)))
        .count()
}

/// Whether a device is there, and it is this one.
fn is_at(d: ObjectId, device: Option<ObjectId>) -> bool
    ensures { result ≡ is_at d.0 device }
{
    device == Some(d)
}

/// The list of the requests that are held at a device; those of all ids that no device can have are on one.
pub(crate) fn device_list(device: ObjectId) -> u32
    ensures value { result ≡ device_list device.0 }
    ensures small { result ≤ OBJECTS }
{
    device.0.min(OBJECTS)
}

impl Holdings {
    /// Nothing is held, from any queue of the plan. It takes all the memory that the run needs.
    pub(crate) fn make(alloc: Global, plan: &Plan) -> Result<Holdings, Memory>
        ensures { IfOk result (λ made. made ≡ opening_holdings plan.now) }
    {
        Ok(Holdings {
            queues: opening_queues(alloc, plan)?,
            all: Vec::with_capacity(alloc, OBJECTS as usize)?,
            unsettled: Counts::make(alloc)?,
            due: Counts::make(alloc)?,
            resumes: Counts::make(alloc)?,
            unasked: Tally::make(alloc)?,
            resuming: Tally::make(alloc)?,
            unasked_ids: IdSet::make(alloc, OBJECTS)?,
            resuming_ids: IdSet::make(alloc, OBJECTS)?,
        })
    }

    /// Nothing is held, from any queue of a plan of as many ids, once more.
    pub(crate) fn begin_again(&mut self, plan: &Plan)
        requires { length self.old.queues ≡ 1 + length plan.now.declared }
        ensures { self.new ≡ opening_holdings plan.now }
    {
        write_queues(&mut self.queues, plan);
        self.all.clear();
        self.unsettled.clear();
        self.due.clear();
        self.resumes.clear();
        self.unasked.clear();
        self.unasked_ids.clear();
        self.resuming.clear();
        self.resuming_ids.clear();
    }

    /// How far a request has come.
    pub(crate) fn holding(&self, r: ObjectId) -> Holding
        ensures { result ≡ power.holding_of self.now r.0 }
    {
        entry_at(&self.all, NO_HOLDING, r.0)
    }

    /// The list that a request is on, none where it isn't held.
    pub(crate) fn held_list(&self, holding: &Holding) -> Option<u32>
        ensures value { result ≡ held_list self.now.queues holding.now }
        ensures small { IfSome result (λ l. l ≤ OBJECTS) }
    {
        if !is_held(holding) {
            return None;
        }
        Some(device_list(entry_at(&self.queues, NO_QUEUE_POWER, holding.queue.0).device))
    }

    /// Writes how far a request has come.
    pub(crate) fn write(&mut self, r: ObjectId, new: Holding)
        requires room { r.0 < OBJECTS }
        ensures { self.new ≡ record self.old { holdings = put power.no_holding self.old.holdings r.0 new } }
    {
        let old = self.holding(r);
        self.unsettled.moves(
            unsettled_at(&self.queues, &old),
            unsettled_at(&self.queues, &new),
        );
        self.due
            .moves(due_at(&self.queues, &old), due_at(&self.queues, &new));
        self.resumes.moves(resume_of(&old), resume_of(&new));
        self.unasked.moves(unasked_queue(&old), unasked_queue(&new));
        self.unasked_ids.put(r.0, is_unasked(&new));
        self.resuming
            .moves(resuming_queue(&old), resuming_queue(&new));
        self.resuming_ids.put(r.0, new.resume_due);
        put_at(&mut self.all, NO_HOLDING, r.0, new);
    }

    /// How many requests the driver holds from power-managed queues of a device without having
    /// acknowledged them. (own, after KMDF)
    pub(crate) fn unsettled(&self, d: ObjectId) -> u32
        ensures { result ≡ length (power.unsettled self.now d.0) }
    {
        if d.0 < OBJECTS {
            self.unsettled.of(d)
        } else {
            count_unsettled(&self.queues, &self.all, d) as u32
        }
    }

    /// Whether a resume is due for some request of a device. (KMDF: EvtIoResume)
    pub(crate) fn any_resume_due(&self, d: ObjectId) -> bool
        ensures { result ≡ power.any_resume_due self.now d.0 }
    {
        if d.0 < OBJECTS {
            0 < self.due.of(d)
        } else {
            some_due(&self.queues, &self.all, d)
        }
    }

    /// Whether a resume is due for some request.
    pub(crate) fn some_resume_due(&self) -> bool
        ensures { result ≡ list_any (λ h. h.resume_due) self.now.holdings }
    {
        0 < self.resumes.of(ObjectId(0))
    }

    /// How many requests are held from a queue and weren't asked to stop.
    pub(crate) fn unasked_from_len(&self, q: ObjectId) -> u32
        ensures { result ≡ length (unasked_from self.now q.0) }
    {
        if q.0 < OBJECTS {
            self.unasked.of(q)
        } else {
            count_unasked(&self.all, q) as u32
        }
    }

    /// The first queue from an id on from which some request is held that wasn't asked to stop.
    pub(crate) fn next_unasked_from(&self, from: ObjectId) -> Option<ObjectId>
        ensures { MatchOption result (NoneFrom (has_unasked self.now) from.0 OBJECTS) (λ q. IsNext (has_unasked self.now) from.0 OBJECTS q.0) }
    {
        self.unasked.next(from)
    }

    /// How many requests are held from whatever queue and weren't asked to stop.
    pub(crate) fn unasked_len(&self) -> u32
        ensures { result ≡ length (unasked self.now) }
    {
        self.unasked_ids.len()
    }

    /// The k-th of them, by rising id from 0; `None` exactly where there are fewer.
    pub(crate) fn unasked_at(&self, k: u32) -> Option<u32>
        ensures { result ≡ slice_get (unasked self.now) k }
    {
        self.unasked_ids.at(k)
    }

    /// The first of them from an id on.
    pub(crate) fn next_unasked(&self, from: u32) -> Option<u32>
        ensures { result ≡ find (nat_le from) (unasked self.now) }
    {
        self.unasked_ids.from(from)
    }

    /// For how many requests that are held from a queue a resume is due.
    pub(crate) fn resuming_from_len(&self, q: ObjectId) -> u32
        ensures { result ≡ length (resuming_from self.now q.0) }
    {
        if q.0 < OBJECTS {
            self.resuming.of(q)
        } else {
            count_resuming(&self.all, q) as u32
        }
    }

    /// The first queue from an id on from which some request is held for which a resume is due.
    pub(crate) fn next_resuming_from(&self, from: ObjectId) -> Option<ObjectId>
        ensures { MatchOption result (NoneFrom (has_resuming self.now) from.0 OBJECTS) (λ q. IsNext (has_resuming self.now) from.0 OBJECTS q.0) }
    {
        self.resuming.next(from)
    }

    /// For how many requests a resume is due.
    pub(crate) fn resuming_len(&self) -> u32
        ensures { result ≡ length (resuming self.now) }
    {
        self.resuming_ids.len()
    }

    /// The k-th of them, by rising id from 0; `None` exactly where there are fewer.
    pub(crate) fn resuming_at(&self, k: u32) -> Option<u32>
        ensures { result ≡ slice_get (resuming self.now) k }
    {
        self.resuming_ids.at(k)
    }

    /// The first of them from an id on.
    pub(crate) fn next_resuming(&self, from: u32) -> Option<u32>
        ensures { result ≡ find (nat_le from) (resuming self.now) }
    {
        self.resuming_ids.from(from)
    }

    /// Whether a request is held from a power-managed queue of a device, and isn't acknowledged.
    fn is_unsettled_at(&self, d: ObjectId, r: ObjectId) -> bool
        ensures { result ≡ power.is_unsettled_at self.now d.0 (power.holding_of self.now r.0) }
    {
        let holding = self.holding(r);
        let queue = entry_at(&self.queues, NO_QUEUE_POWER, holding.queue.0);
        is_held(&holding) && queue.device.0 == d.0 && !holding.acknowledged
    }

    /// The lesser of what was found and a request, where that is unsettled at a device.
    fn lesser_unsettled(&self, d: ObjectId, found: Option<u32>, r: u32) -> Option<u32>
        ensures { result ≡ (if power.is_unsettled_at self.now d.0 (power.holding_of self.now r) then lesser found r else found) }
    {
        if self.is_unsettled_at(d, ObjectId(r)) {
            lesser_if(found, Some(r))
        } else {
            found
        }
    }

    /// The least of the requests that are unsettled at a device, if there is one. It goes over those that
    /// are held there, which the lists say.
    pub(crate) fn least_unsettled(&self, held: &Links, d: ObjectId) -> Option<u32>
        requires { AreListed self.now.queues self.now.holdings held.now.lists }
        ensures { result ≡ least (power.unsettled self.now d.0) }
    {
        let list = device_list(d);
        let mut found = None;
        let mut next = held.front(list);
        for _ in 0..held.len(list) {
            match next {
                Some(r) => {
                    found = self.lesser_unsettled(d, found, r);
                    next = held.after(r);
                }
                None => return found,
            }
        }
        found
    }

    /// A request after the queues of a device came up.
    fn woken(&self, d: ObjectId, holding: Holding) -> Holding
        ensures { result ≡ power.woken self.now d.0 holding }
    {
        let queue = entry_at(&self.queues, NO_QUEUE_POWER, holding.queue.0);
        if is_held(&holding) && queue.device.0 == d.0 {
            Holding {
                queue: holding.queue,
                resume_due: queue.resumes,
                ..NO_HOLDING
            }
        } else {
            holding
        }
    }

    /// The queues of a device came up: what is held from them isn't acknowledged nor asked to stop
    /// any more, and a resume is due where the queue declares EvtIoResume. It goes over the requests that
    /// are held there, which the lists say. (own)
    pub(crate) fn wake(&mut self, held: &Links, d: ObjectId)
        requires listed { AreListed self.old.queues self.old.holdings held.now.lists }
        requires items { held.now.items ≡ OBJECTS }
        ensures { self.new ≡ power.wake_holdings self.old d.0 }
    {
        let list = device_list(d);
        let mut next = held.front(list);
        for _ in 0..held.len(list) {
            match next {
                Some(r) => {
                    self.write(ObjectId(r), self.woken(d, self.holding(ObjectId(r))));
                    next = held.after(r);
                }
                None => return,
            }
        }
    }
}
