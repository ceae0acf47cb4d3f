//! Cleanups and destructions by their number, where no callback of theirs is to come, and starts of work items and of
//! timers, where no lock keeps one back: those that may come by one part alone are counted, and those that something else
//! keeps back are taken away.
ghost use Rattle.std.specs.Prelude.{IsTrue, ◌≡◌, ◌+◌, ◌<◌, ◌≤◌, ◌^◌, ◌&&◌, true, filter, length, option_map, slice_get, MatchOption, MatchResult};
ghost use Rattle.std.specs.List.{list_any, range_with_len};
ghost use Rattle.wdf_model.specs.declared.room.TheConstants.{OBJECTS};
ghost use Rattle.wdf_model.specs.parts.Cpus.{nobody_on};
ghost use Rattle.wdf_model.specs.parts.Deferred.Timers.{timer_due};
ghost use Rattle.wdf_model.specs.parts.Deferred.WorkItems.{is_work_queued};
ghost use Rattle.wdf_sets.specs.Nexts.{IsNext, NoneFrom};
ghost use Rattle.wdf_offers.specs.Leaving.{DeletedSettled, IsNumbered, IsSettled, event_of, fits_part, fitting, group_of, is_busy, is_kept, is_serial, is_unlocked, leavers};
ghost use Rattle.wdf_offers.specs.Lesser.{lesser_of};
ghost use Rattle.wdf_offers.specs.declared.leaving.Leaving.TheVariants as how;
ghost use Rattle.wdf_offers.specs.Search as search;

use crate::idle::DISPATCH_LEVEL;
use wdf_base::{Agent, Callback, ClassInfo, Cpu, Event, Handle, ObjectId, Rank};
use wdf_model::Group;
use wdf_parts::Parts;
use wdf_plan_index::IndexedPlan;
use wdf_starts::{clean_ready, destroy_ready, level_fits};
use wdf_steps::is_cpu;

/// How an object leaves.
#[derive(Clone, Copy)]
pub enum Leaving {
    /// It is cleaned up.
    Cleanup,
    /// It is destroyed.
    Destroy,
    /// It is a work item, and leaves its queue, since its callback starts on a processor.
    Work { cpu: u8 },
    /// It is a timer that is due, and its callback starts on a processor.
    Timed { cpu: u8 },
}

/// The one with the lesser id of two objects, each as far as it is there.
fn lesser(one: Option<ObjectId>, other: Option<ObjectId>) -> Option<ObjectId>
    ensures { result ≡ lesser_of one other }
{
    match (one, other) {
        (Some(a), Some(b)) => { if a.0 <= b.0 { one } else { other } }
        (None, other) => other,
        (one, None) => one,
    }
}

/// The first object from an id on that something beside lives can keep from its cleanup.
fn next_busy_for_cleanup<A: Agent>(parts: &Parts<A>, from: ObjectId) -> Option<ObjectId>
    ensures { MatchOption result (NoneFrom (is_busy how.Cleanup parts.now) from.0 OBJECTS) (λ o. IsNext (is_busy how.Cleanup parts.now) from.0 OBJECTS o.0) }
{
    let framed = lesser(
        parts.cpus().next_occupied(from),
        parts.cpus().next_awaited(from),
    );
    let held = lesser(
        parts.locks().next_locked(from),
        parts.requests().next_sent(from),
    );
    lesser(framed, held)
}

/// Whether a work item is queued, and no frame is on it.
fn may_leave_queue<A: Agent>(parts: &Parts<A>, o: ObjectId) -> bool
    ensures { result ≡ (is_work_queued parts.now.work_items o.0 && nobody_on parts.now.cpus o.0) }
{
    parts.work_items().is_work_queued(o) && parts.cpus().nobody_on(o)
}

/// Whether a timer is due, and no frame is on it.
fn may_fire<A: Agent>(parts: &Parts<A>, o: ObjectId) -> bool
    ensures { result ≡ (timer_due parts.now.timers o.0 parts.now.clock && nobody_on parts.now.cpus o.0) }
{
    parts.timers().timer_due(o, parts.now()) && parts.cpus().nobody_on(o)
}

/// How many timers are due. There are at most `OBJECTS` objects.
fn due_len<A: Agent>(parts: &Parts<A>) -> u32
    ensures count { result ≡ length (filter (λ o. timer_due parts.now.timers o parts.now.clock) (range_with_len 0 (length parts.now.tree.nodes))) }
    ensures room { length parts.now.tree.nodes ≤ OBJECTS }
{
    let _room = parts.tree().turn_len();
    parts
        .timers()
        .due_before(parts.tree().next_id(), parts.now())
}

/// How many work items are queued. There are at most `OBJECTS` objects.
fn queued_len<A: Agent>(parts: &Parts<A>) -> u32
    ensures count { result ≡ length (filter (is_work_queued parts.now.work_items) (range_with_len 0 (length parts.now.tree.nodes))) }
    ensures room { length parts.now.tree.nodes ≤ OBJECTS }
{
    let _room = parts.tree().turn_len();
    parts.work_items().before(parts.tree().next_id())
}

/// Whether no lock keeps queued work or a timer back.
fn is_unlocked<A: Agent>(plan: &IndexedPlan, parts: &Parts<A>) -> bool
    ensures { result ≡ is_unlocked plan.now parts.now }
{
    parts.locks().held_len() == 0 || !some_serial(plan)
}

/// Whether the objects of some class are serialized.
fn some_serial(plan: &IndexedPlan) -> bool
    ensures { result ≡ list_any is_serial plan.now.classes }
{
    plan.plan()
        .classes
        .as_slice()
        .iter()
        .any(|class| is_serial(class))
}

/// Whether a class says that its objects are serialized.
fn is_serial(class: &ClassInfo) -> bool
    ensures { result ≡ is_serial class.now }
{
    match class {
        ClassInfo::Deferred { serialize, .. } => *serialize,
        ClassInfo::Plain { .. } => false,
    }
}

/// True only where no cleanup callback is to come of what has its turn: none is declared, or only arrived requests have it.
fn is_cleanup_over<A: Agent>(plan: &IndexedPlan, parts: &Parts<A>) -> bool
    ensures { IsTrue result → IsNumbered plan.now parts.now how.Cleanup }
{
    if !plan.declares_cleanup_callback() {
        return true;
    }
    let end = parts.tree().len();
    parts.tree().next_counted_turn(0, end).is_none()
}

/// True only where no destroy callback is to come of what is cleaned: none is declared, or only arrived requests are.
fn is_destroy_over<A: Agent>(plan: &IndexedPlan, parts: &Parts<A>) -> bool
    ensures { IsTrue result → IsNumbered plan.now parts.now how.Destroy }
{
    if !plan.declares_destroy_callback() {
        return true;
    }
    let end = parts.tree().len();
    parts.tree().next_counted_cleaned(0, end).is_none()
}

impl Leaving {
    /// Whether those that may leave so are counted without a look at each.
    pub fn is_numbered<A: Agent>(self, plan: &IndexedPlan, parts: &Parts<A>) -> bool
        ensures { IsTrue result → IsNumbered plan.now parts.now self }
    {
        match self {
            Leaving::Cleanup => is_cleanup_over(plan, parts),
            Leaving::Destroy => is_destroy_over(plan, parts),
            Leaving::Work { cpu } => {
                is_cpu(plan, Cpu(cpu))
                    && parts.cpus().is_empty(Cpu(cpu))
                    && is_unlocked(plan, parts)
            }
            Leaving::Timed { cpu } => {
                is_cpu(plan, Cpu(cpu))
                    && level_fits(parts, Cpu(cpu), DISPATCH_LEVEL)
                    && is_unlocked(plan, parts)
            }
        }
    }

    /// The group of its candidates.
    pub fn group(self) -> Group
        ensures { result ≡ group_of self }
    {
        match self {
            Leaving::Cleanup => Group::Cleanups,
            Leaving::Destroy => Group::Destroys,
            Leaving::Work { cpu } => Group::Starts {
                cpu,
                rank: Rank::Work,
            },
            Leaving::Timed { cpu } => Group::Starts {
                cpu,
                rank: Rank::Timed,
            },
        }
    }

    /// Its event.
    fn event(self, object: Handle) -> Event
        ensures { result ≡ event_of self object }
    {
        match self {
            Leaving::Cleanup => Event::Cleanup { object },
            Leaving::Destroy => Event::Destroy { object },
            Leaving::Work { cpu } => Event::Start {
                cpu: Cpu(cpu),
                callback: Callback::EvtWorkItem,
                object,
                request: None,
            },
            Leaving::Timed { cpu } => Event::Start {
                cpu: Cpu(cpu),
                callback: Callback::EvtTimerFunc,
                object,
                request: None,
            },
        }
    }

    /// Whether an object may leave so by one part alone, and something else keeps it back.
    fn is_kept_back<A: Agent>(self, parts: &Parts<A>, o: ObjectId) -> bool
        ensures { result ≡ is_kept self parts.now o.0 }
    {
        match self {
            Leaving::Cleanup => parts.tree().may_clean(o) && !clean_ready(parts, o),
            Leaving::Destroy => parts.tree().may_destroy(o) && !destroy_ready(parts, o),
            Leaving::Work { .. } => {
                parts.work_items().is_work_queued(o) && !may_leave_queue(parts, o)
            }
            Leaving::Timed { .. } => {
                parts.timers().timer_due(o, parts.now()) && !may_fire(parts, o)
            }
        }
    }

    /// How many objects may leave so by one part alone. There are at most `OBJECTS` objects.
    fn fitting_len<A: Agent>(self, parts: &Parts<A>) -> u32
        ensures count { result ≡ length (fitting self parts.now) }
        ensures room { length parts.now.tree.nodes ≤ OBJECTS }
    {
        match self {
            Leaving::Cleanup => parts.tree().turn_len(),
            Leaving::Destroy => parts.tree().end_len(),
            Leaving::Work { .. } => queued_len(parts),
            Leaving::Timed { .. } => due_len(parts),
        }
    }

    /// The k-th of them, by rising id from 0; `None` exactly where there are fewer.
    fn fitting_at<A: Agent>(self, parts: &Parts<A>, k: u32) -> Option<ObjectId>
        requires settled { DeletedSettled parts.now }
        ensures { option_map (λ o. o.0) result ≡ slice_get (fitting self parts.now) k }
    {
        match self {
            Leaving::Cleanup => parts.tree().turn_at(k),
            Leaving::Destroy => parts.tree().end_at(k),
            Leaving::Work { .. } => parts.work_items().nth(k),
            Leaving::Timed { .. } => parts.timers().nth_due(k, parts.now()),
        }
    }

    /// How many of them have a lesser id.
    fn fitting_before<A: Agent>(self, parts: &Parts<A>, o: ObjectId) -> u32
        ensures { result ≡ length (filter (fits_part self parts.now) (range_with_len 0 o.0)) }
    {
        match self {
            Leaving::Cleanup => parts.tree().turns_before(o),
            Leaving::Destroy => parts.tree().ends_before(o),
            Leaving::Work { .. } => parts.work_items().before(o),
            Leaving::Timed { .. } => parts.timers().due_before(o, parts.now()),
        }
    }

    /// The first object from an id on that something can keep back.
    fn next_busy<A: Agent>(self, parts: &Parts<A>, from: ObjectId) -> Option<ObjectId>
        ensures { MatchOption result (NoneFrom (is_busy self parts.now) from.0 OBJECTS) (λ o. IsNext (is_busy self parts.now) from.0 OBJECTS o.0) }
    {
        match self {
            Leaving::Cleanup => next_busy_for_cleanup(parts, from),
            Leaving::Destroy | Leaving::Work { .. } | Leaving::Timed { .. } => {
                parts.cpus().next_occupied(from)
            }
        }
    }

    /// The first object from an id on that may leave so by one part alone.
    fn next_fitting<A: Agent>(self, parts: &Parts<A>, from: ObjectId) -> Option<ObjectId>
        requires settled { DeletedSettled parts.now }
        ensures { MatchOption result (NoneFrom (fits_part self parts.now) from.0 (length parts.now.tree.nodes))
            (λ o. IsNext (fits_part self parts.now) from.0 (length parts.now.tree.nodes) o.0) }
    {
        self.fitting_at(parts, self.fitting_before(parts, from))
    }

    /// The first object from an id on below an end that is kept back. It goes from one that something can keep back, and doesn't, on
    /// to the next that fits, so that it takes at most one turn more than there are of the fewer.
    fn next_kept<A: Agent>(self, parts: &Parts<A>, from: u32, end: u32) -> Option<u32>
        requires settled { DeletedSettled parts.now }
        requires room { end ≤ OBJECTS }
        requires within { end ≤ length parts.now.tree.nodes }
        ensures { MatchOption result (NoneFrom (is_kept self parts.now) from end) (λ o. IsNext (is_kept self parts.now) from end o) }
    {
        let mut at = from;
        'search: while at < end {
            let o = match self.next_busy(parts, ObjectId(at)) {
                Some(o) => o,
                None => return None,
            };
            if o.0 >= end {
                return None;
            }
            if self.is_kept_back(parts, o) {
                return Some(o.0);
            }
            at = match self.next_fitting(parts, ObjectId(o.0 + 1)) {
                Some(fitting) => fitting.0,
                None => return None,
            };
        }
        None
    }

    /// How many objects are kept back.
    fn kept_len<A: Agent>(self, parts: &Parts<A>) -> u32
        requires settled { DeletedSettled parts.now }
        requires room { length parts.now.tree.nodes ≤ OBJECTS }
        ensures { result + length (leavers self parts.now) ≡ length (fitting self parts.now) }
    {
        let end = parts.tree().len();
        let mut kept = 0;
        let mut at = 0;
        'search: while let Some(o) = self.next_kept(parts, at, end) {
            kept += 1;
            at = o + 1;
        }
        kept
    }

    /// How many objects may leave so, their callbacks aside. There are at most `OBJECTS` objects.
    fn len<A: Agent>(self, parts: &Parts<A>) -> u32
        requires settled { DeletedSettled parts.now }
        ensures count { result ≡ length (leavers self parts.now) }
        ensures room { length parts.now.tree.nodes ≤ OBJECTS }
    {
        let all = self.fitting_len(parts);
        if all == 0 {
            return 0;
        }
        all - self.kept_len(parts)
    }

    /// The k-th of them, by rising id from 0.
    fn at<A: Agent>(self, parts: &Parts<A>, k: u32) -> Option<ObjectId>
        requires settled { DeletedSettled parts.now }
        requires room { length parts.now.tree.nodes ≤ OBJECTS }
        requires within { k < length (leavers self parts.now) }
        ensures { option_map (λ o. o.0) result ≡ slice_get (leavers self parts.now) k }
    {
        let end = parts.tree().len();
        let mut place = k;
        let mut at = 0;
        'search: while let Some(o) = self.next_kept(parts, at, end) {
            if place < self.fitting_before(parts, ObjectId(o)) {
                return self.fitting_at(parts, place);
            }
            place += 1;
            at = o + 1;
        }
        self.fitting_at(parts, place)
    }
}

/// How many of these events may come.
pub fn numbered_len<A: Agent>(plan: &IndexedPlan, parts: &Parts<A>, leaving: Leaving) -> usize
    requires numbered { IsNumbered plan.now parts.now leaving }
    requires settled { IsSettled plan.now parts.now }
    ensures length { result ≡ length (search.offered_from plan.now A.meaning parts.now (group_of leaving) 0) }
    ensures small { result ≤ 2 ^ 32 }
{
    let _ = plan;
    let _in_order = parts.work_items().before(ObjectId(0));
    let _timed = parts.timers().due_before(ObjectId(0), parts.now());
    leaving.len(parts) as usize
}

/// The k-th of them, or how many places of a list are left after them.
pub fn numbered_at<A: Agent>(
    plan: &IndexedPlan,
    parts: &Parts<A>,
    leaving: Leaving,
    k: usize,
) -> Result<Event, usize>
    requires numbered { IsNumbered plan.now parts.now leaving }
    requires settled { IsSettled plan.now parts.now }
    ensures { MatchResult result (λ event. slice_get (search.offered_from plan.now A.meaning parts.now (group_of leaving) 0) k ≡ Some event)
        (λ rest. length (search.offered_from plan.now A.meaning parts.now (group_of leaving) 0) + rest ≡ k) }
{
    let _in_order = parts.work_items().before(ObjectId(0));
    let _timed = parts.timers().due_before(ObjectId(0), parts.now());
    let len = leaving.len(parts) as usize;
    if k >= len {
        return Err(k - len);
    }
    match leaving.at(parts, k as u32) {
        Some(o) => Ok(leaving.event(parts.handle_in(plan, o))),
        None => Err(0),
    }
}
