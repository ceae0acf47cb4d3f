ghost use Rattle.std.specs.Prelude.{◌≡◌, ◌+◌, ◌<◌, ◌^◌, IfOk, IfSome, MatchOption, Some, filter, length, option_map, slice_get, true};
ghost use Rattle.std.specs.List.{range_with_len};
ghost use Rattle.wdf_model.specs.parts.Deferred.Timers as timers;
ghost use Rattle.wdf_maps.specs.Places.{rises, with_entry};
ghost use Rattle.wdf_sets.specs.Nexts.{IsNext, NoneFrom};
ghost use Rattle.wdf_defer.specs.Ticks.{earlier, timer_id};
ghost use Rattle.wdf_defer.specs.Timers.{AreApart, AreTimersInOrder, due_ids, is_due_at, timed_at};

use crate::floors::{Floors, NEVER};
use crate::reached::reach_all;
use crate::ticks::DueTicks;
use crate::work_items::clear_set;
use std::alloc::Global;
use std::marker::Model;
use wdf_base::{Memory, ObjectId, Plan};
use wdf_maps::object_at;
use wdf_model::{OBJECTS, Timed};
use wdf_sets::IdSet;

/// The most ticks from the start of a timer to its due tick. (own)
const LONGEST: u64 = 1_000_000;

/// The queued timers. All calls but [`Timers::make`] take no memory.
#[derive(Drop)]
pub struct Timers {
    queued: IdSet,
    /// The due tick of each, by id.
    ticks: DueTicks,
    /// The queued timers whose due tick was reached at the tick that was told last.
    reached: IdSet,
    /// For each 64 ids a tick before which none of their other timers is due.
    floors: Floors,
    /// The same of all ids.
    least: u64,
    /// The tick that was told last.
    seen: u64,
}

impl Model for Timers {
    ghost use Rattle.wdf_model.specs.parts.Deferred.Timers.{Timers};

    ghost Value = { Timers };

    ghost use Rattle.wdf_defer.specs.Timers.{timers_in, IsSound};

    ghost view = { timers_in };

    ghost invariant = { IsSound };
}

/// The earlier of two ticks, as far as they are there.
fn earlier(one: Option<u64>, other: Option<u64>) -> Option<u64>
    ensures { result ≡ earlier one other }
{
    match (one, other) {
        (None, other) => other,
        (Some(tick), None) => Some(tick),
        (Some(tick), Some(other)) => Some(tick.min(other)),
    }
}

/// A timer with its due tick.
fn timed_at(ticks: &DueTicks, o: ObjectId) -> Timed
    ensures { result ≡ timed_at ticks.now o.0 }
{
    Timed {
        timer: o,
        tick: ticks.of(o),
    }
}

impl Timers {
    /// No timer is queued. On [`Memory`] nothing is made.
    pub fn make(alloc: Global, _plan: &Plan) -> Result<Timers, Memory>
        ensures { IfOk result (λ made. made ≡ timers.no_timers) }
    {
        Ok(Timers {
            queued: IdSet::make(alloc, OBJECTS)?,
            ticks: DueTicks::make(alloc)?,
            reached: IdSet::make(alloc, OBJECTS)?,
            floors: Floors::make(alloc)?,
            least: NEVER,
            seen: 0,
        })
    }

    /// No timer is queued once more.
    pub fn begin_again(&mut self)
        ensures { self.new ≡ timers.no_timers }
    {
        clear_set(&mut self.queued);
        self.ticks.clear();
        clear_set(&mut self.reached);
        self.floors.clear();
        self.least = NEVER;
        self.seen = 0;
    }

    /// How many timers are queued.
    pub fn len(&self) -> u32
        ensures { result ≡ length self.now.queued }
    {
        self.queued.len()
    }

    /// The k-th queued timer, by rising id from 0.
    pub fn at(&self, k: u32) -> Timed
        requires { k < length self.now.queued }
        ensures { slice_get self.now.queued k ≡ Some result }
    {
        timed_at(&self.ticks, ObjectId(self.queued.at(k).unwrap()))
    }

    /// Whether the timer is queued.
    pub fn is_timer_queued(&self, o: ObjectId) -> bool
        ensures { result ≡ timers.is_timer_queued self.now o.0 }
    {
        self.timed_of(o).is_some()
    }

    /// Whether the timer is queued and its due tick is reached.
    pub fn timer_due(&self, o: ObjectId, now: u64) -> bool
        ensures { result ≡ timers.timer_due self.now o.0 now }
    {
        self.timed_of(o).is_some_and(|timed| timed.tick <= now)
    }

    /// The least due tick, `None` exactly where no timer is queued. It goes over them.
    pub fn next_timer(&self) -> Option<u64>
        ensures { result ≡ timers.next_timer self.now }
    {
        let mut least = None;
        for place in 0..self.len() {
            least = earlier(least, Some(self.at(place).tick));
        }
        least
    }

    /// A tick is told: which timers are due at it is answered without a search from now on. Only where a timer becomes due
    /// they are looked at, 64 ids at a time.
    pub fn reach(&mut self, now: u64)
        ensures { self.new ≡ self.old }
    {
        if now < self.seen {
            return;
        }
        if self.least <= now {
            self.least = reach_all(
                &self.queued,
                &self.ticks,
                &mut self.reached,
                &mut self.floors,
                now,
            );
        }
        self.seen = now;
    }

    /// The first place from one on, by rising id, of a queued timer whose due tick is reached. It goes over the places where
    /// this tick wasn't told.
    pub fn next_due(&self, from: u32, now: u64) -> Option<u32>
        ensures next { MatchOption result (NoneFrom (is_due_at self.now now) from (length self.now.queued)) (λ place. IsNext (is_due_at self.now now) from (length self.now.queued) place) }
        ensures apart { AreApart self.now }
    {
        if self.seen != now {
            return self.searched_due(from, now);
        }
        let start = match self.queued.at(from) {
            Some(start) => start,
            None => return None,
        };
        match self.reached.next(start, OBJECTS) {
            Some(o) => Some(self.queued.before(o)),
            None => None,
        }
    }

    /// The same by a search.
    fn searched_due(&self, from: u32, now: u64) -> Option<u32>
        ensures { MatchOption result (NoneFrom (is_due_at self.now now) from (length self.now.queued)) (λ place. IsNext (is_due_at self.now now) from (length self.now.queued) place) }
    {
        for place in from..self.len() {
            if self.at(place).tick <= now {
                return Some(place);
            }
        }
        None
    }

    /// How many timers with a lesser id are due. It goes over the ids where this tick wasn't told.
    pub fn due_before(&self, o: ObjectId, now: u64) -> u32
        ensures count { result ≡ length (filter (λ x. timers.timer_due self.now x now) (range_with_len 0 o.0)) }
        ensures rising { AreTimersInOrder self.now }
    {
        if self.seen != now {
            return self.counted_before(o, now);
        }
        self.reached.before(o.0)
    }

    /// The same by a count.
    fn counted_before(&self, o: ObjectId, now: u64) -> u32
        ensures { result ≡ length (filter (λ x. timers.timer_due self.now x now) (range_with_len 0 o.0)) }
    {
        let mut count = 0;
        for id in 0..o.0 {
            if self.timer_due(ObjectId(id), now) {
                count += 1;
            }
        }
        count
    }

    /// The k-th due timer, by rising id from 0; `None` exactly where there are fewer. It goes over the ids where this tick
    /// wasn't told.
    pub fn nth_due(&self, k: u32, now: u64) -> Option<ObjectId>
        ensures item { option_map (λ o. o.0) result ≡ slice_get (due_ids self.now now) k }
        ensures rising { AreTimersInOrder self.now }
    {
        if self.seen != now {
            return self.searched_nth(k, now);
        }
        object_at(self.reached.at(k))
    }

    /// The same by a search.
    fn searched_nth(&self, k: u32, now: u64) -> Option<ObjectId>
        ensures { option_map (λ o. o.0) result ≡ slice_get (due_ids self.now now) k }
    {
        let mut left = k;
        for id in 0..OBJECTS {
            if self.timer_due(ObjectId(id), now) {
                if left == 0 {
                    return Some(ObjectId(id));
                }
                left -= 1;
            }
        }
        None
    }

    /// Whether a timer is due later than now. It goes over them where this tick wasn't told.
    pub fn any_later_timer(&self, now: u64) -> bool
        ensures { result ≡ timers.any_later_timer self.now now }
    {
        if self.seen != now {
            return self.some_later(now);
        }
        self.reached.len() < self.queued.len()
    }

    /// The same by a search.
    fn some_later(&self, now: u64) -> bool
        ensures { result ≡ timers.any_later_timer self.now now }
    {
        for place in 0..self.len() {
            if now < self.at(place).tick {
                return true;
            }
        }
        false
    }

    /// The timer with its due tick, where it is queued.
    fn timed_of(&self, o: ObjectId) -> Option<Timed>
        ensures timed { result ≡ timers.timed_of self.now o.0 }
        ensures object { IfSome result (λ t. t.timer.0 < OBJECTS) }
        ensures rising { rises timer_id 0 OBJECTS self.now.queued ≡ true }
    {
        if self.queued.contains(o.0) {
            Some(timed_at(&self.ticks, o))
        } else {
            None
        }
    }

    /// Queues a timer with its due tick, or gives it this one. The answer says whether it was queued.
    fn put(&mut self, timed: Timed) -> bool
        requires { timed.timer.0 < OBJECTS }
        ensures answer { result ≡ timers.is_timer_queued self.old timed.timer.0 }
        ensures done { self.new.queued ≡ with_entry timer_id timed self.old.queued }
    {
        let o = timed.timer;
        let was_queued = self.queued.contains(o.0);
        self.queued.put(o.0, true);
        self.ticks.put(o, timed.tick);
        self.reached.put(o.0, timed.tick <= self.seen);
        if self.seen < timed.tick {
            let floor = self.floors.of(o);
            self.floors.put(o, floor.min(timed.tick));
            self.least = self.least.min(timed.tick);
        }
        was_queued
    }

    /// Queues the timer anew: it is due after this many ticks, or after the most ticks that a timer
    /// waits. The answer says whether it was queued. (KMDF)
    pub fn start(&mut self, o: ObjectId, now: u64, ticks: u64) -> bool
        requires there { o.0 < OBJECTS }
        requires early { now < 2 ^ 63 }
        ensures answer { result ≡ timers.is_timer_queued self.old o.0 }
        ensures done { self.new ≡ timers.start self.old o.0 now ticks }
    {
        self.put(Timed {
            timer: o,
            tick: now + ticks.min(LONGEST),
        })
    }

    /// Takes the timer out of the queue. The answer says whether it was queued. (KMDF)
    pub fn stop(&mut self, o: ObjectId) -> bool
        ensures answer { result ≡ timers.is_timer_queued self.old o.0 }
        ensures done { self.new ≡ timers.stop self.old o.0 }
    {
        let was_queued = self.queued.contains(o.0);
        if was_queued {
            self.queued.put(o.0, false);
            self.reached.put(o.0, false);
        }
        was_queued
    }

    /// EvtTimerFunc of the timer starts. A timer without a period leaves the queue. The due tick of
    /// a periodic one grows by its period. (KMDF)
    pub fn fired(&mut self, o: ObjectId, period: u64)
        requires { IfSome (timers.timed_of self.old o.0) (λ t. t.tick + period < 2 ^ 64) }
        ensures { self.new ≡ timers.fired self.old o.0 period }
    {
        let Some(timed) = self.timed_of(o) else {
            return;
        };
        if period == 0 {
            self.stop(o);
        } else {
            self.put(Timed {
                tick: timed.tick + period,
                ..timed
            });
        }
    }
}
