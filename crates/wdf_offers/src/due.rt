//! The places of the groups at which a callback is due, or can start.
ghost use Rattle.std.specs.Prelude.{◌≡◌, ◌<◌, ◌≤◌, ◌^◌, length, MatchOption};
ghost use Rattle.wdf_base.specs.declared.rank.Rank.TheVariants as rank;
ghost use Rattle.wdf_model.specs.parts.Targets as targets;
ghost use Rattle.wdf_model.specs.parts.Tree as tree;
ghost use Rattle.wdf_model.specs.rules.Groups as groups;
ghost use Rattle.wdf_sets.specs.Nexts.{IsNext, NoneFrom};
ghost use Rattle.wdf_offers.specs.Idle as idle;

use crate::candidates::callback_for;
use wdf_base::{Agent, Callback, Kind, ObjectId, Rank};
use wdf_parts::Parts;
use wdf_plan_index::IndexedPlan;
use wdf_starts::rank_ready_for;

/// Whether the completion routine of what is sent to a target is due, by its place.
fn is_routine_due<A: Agent>(plan: &IndexedPlan, parts: &Parts<A>, t: ObjectId, place: usize) -> bool
    requires { place < length (targets.the_target parts.now.targets t.0).sent }
    ensures { result ≡ idle.is_due_at plan.now parts.now rank.Completion t.0 place }
{
    let _sent = parts.targets().pending(t);
    let sending = parts.targets().sent_at(t, place as u32);
    let callback = Callback::EvtRequestCompletion;
    rank_ready_for(plan, parts, Rank::Completion, callback, t, sending.request)
}

/// Whether a callback of a rank is due on an object for the request at a place.
fn is_due_at<A: Agent>(
    plan: &IndexedPlan,
    parts: &Parts<A>,
    rank: Rank,
    object: ObjectId,
    place: usize,
) -> bool
    requires within { place < groups.places_for plan.now parts.now rank object.0 }
    requires small { place < 2 ^ 32 }
    ensures { result ≡ idle.is_due_at plan.now parts.now rank object.0 place }
{
    match rank {
        Rank::Completion => is_routine_due(plan, parts, object, place),
        _ => {
            let callback = callback_for(rank);
            let request = ObjectId(place as u32);
            rank_ready_for(plan, parts, callback.row().rank, callback, object, request)
        }
    }
}

/// The first place from one on below an end at which EvtRequestCancel is due on a queue. It asks only the requests
/// for which it is due on some queue.
fn next_cancel<A: Agent>(
    plan: &IndexedPlan,
    parts: &Parts<A>,
    q: ObjectId,
    from: usize,
    end: usize,
) -> Option<usize>
    requires within { end ≤ groups.places_for plan.now parts.now rank.Cancel q.0 }
    requires small { end ≤ 2 ^ 32 }
    ensures { MatchOption result (NoneFrom (idle.is_due_at plan.now parts.now rank.Cancel q.0) from end)
        (λ place. IsNext (idle.is_due_at plan.now parts.now rank.Cancel q.0) from end place) }
{
    let mut at = from;
    'search: while at < end {
        let place = match parts.requests().next_due(ObjectId(at as u32)) {
            Some(request) => request.0 as usize,
            None => return None,
        };
        if place >= end {
            return None;
        }
        if is_due_at(plan, parts, Rank::Cancel, q, place) {
            return Some(place);
        }
        at = place + 1;
    }
    None
}

/// The first place from one on below an end at which the completion routine of what is sent to a target is due. It asks only
/// those of which the target says so.
fn next_routine<A: Agent>(
    plan: &IndexedPlan,
    parts: &Parts<A>,
    t: ObjectId,
    from: usize,
    end: usize,
) -> Option<usize>
    requires within { end ≤ groups.places_for plan.now parts.now rank.Completion t.0 }
    requires small { end ≤ 2 ^ 32 }
    ensures { MatchOption result (NoneFrom (idle.is_due_at plan.now parts.now rank.Completion t.0) from end)
        (λ place. IsNext (idle.is_due_at plan.now parts.now rank.Completion t.0) from end place) }
{
    let mut at = from;
    'search: while at < end {
        let place = match parts.targets().next_finished(t, at as u32) {
            Some(place) => place as usize,
            None => return None,
        };
        if place >= end {
            return None;
        }
        if is_due_at(plan, parts, Rank::Completion, t, place) {
            return Some(place);
        }
        at = place + 1;
    }
    None
}

/// The same for a callback of any rank: it asks each place.
fn next_of_all<A: Agent>(
    plan: &IndexedPlan,
    parts: &Parts<A>,
    rank: Rank,
    object: ObjectId,
    from: usize,
    end: usize,
) -> Option<usize>
    requires within { end ≤ groups.places_for plan.now parts.now rank object.0 }
    requires small { end ≤ 2 ^ 32 }
    ensures { MatchOption result (NoneFrom (idle.is_due_at plan.now parts.now rank object.0) from end)
        (λ place. IsNext (idle.is_due_at plan.now parts.now rank object.0) from end place) }
{
    for place in from..end {
        if is_due_at(plan, parts, rank, object, place) {
            return Some(place);
        }
    }
    None
}

/// The first place from one on below an end at which a callback of a rank is due on an object.
pub fn next_due<A: Agent>(
    plan: &IndexedPlan,
    parts: &Parts<A>,
    rank: Rank,
    object: ObjectId,
    from: usize,
    end: usize,
) -> Option<usize>
    requires within { end ≤ groups.places_for plan.now parts.now rank object.0 }
    requires small { end ≤ 2 ^ 32 }
    ensures { MatchOption result (NoneFrom (idle.is_due_at plan.now parts.now rank object.0) from end)
        (λ place. IsNext (idle.is_due_at plan.now parts.now rank object.0) from end place) }
{
    match rank {
        Rank::Cancel => next_cancel(plan, parts, object, from, end),
        Rank::Completion => next_routine(plan, parts, object, from, end),
        _ => next_of_all(plan, parts, rank, object, from, end),
    }
}

/// Whether the due tick of the queued timer at a place is reached.
fn is_timer_due<A: Agent>(parts: &Parts<A>, place: u32) -> bool
    ensures { result ≡ idle.can_start_at parts.now rank.Timed place }
{
    if place >= parts.timers().len() {
        return false;
    }
    parts
        .timers()
        .timer_due(parts.timers().at(place).timer, parts.now())
}

/// Whether an object counts against the limit: one that is gone doesn't, nor an arrived request.
fn counts<A: Agent>(parts: &Parts<A>, o: ObjectId) -> bool
    ensures { result ≡ tree.counts (tree.node_of parts.now.tree o.0) }
{
    !parts.tree().life(o).is_gone() && parts.tree().kind(o) != Kind::Request
}

/// Whether a callback of a rank can start at a place, as one part says.
fn can_start_at<A: Agent>(parts: &Parts<A>, rank: Rank, o: ObjectId) -> bool
    ensures { result ≡ idle.can_start_at parts.now rank o.0 }
{
    match rank {
        Rank::Isr => parts.interrupts().is_enabled(o),
        Rank::QueueState => parts.control().notify_due(o),
        Rank::Handler => !parts.queues().is_empty(o) && parts.queues().is_free(o),
        Rank::Sequence => parts.pnp().steps_left(o) > 0,
        Rank::Timed => is_timer_due(parts, o.0),
        Rank::Cleanup => parts.tree().may_clean(o) && counts(parts, o),
        Rank::Destroy => parts.tree().life(o).is_cleaned() && counts(parts, o),
        _ => true,
    }
}

/// The first place from one on below an end of a queued timer whose due tick is reached.
fn next_timer<A: Agent>(parts: &Parts<A>, from: u32, end: u32) -> Option<u32>
    ensures { MatchOption result (NoneFrom (idle.can_start_at parts.now rank.Timed) from end)
        (λ place. IsNext (idle.can_start_at parts.now rank.Timed) from end place) }
{
    match parts.timers().next_due(from, parts.now()) {
        Some(place) => { if place < end { Some(place) } else { None } }
        None => None,
    }
}

/// The first place from one on below an end at which a callback of a rank can start. The part that says so has a set of these
/// places, and none is looked at: the enabled interrupts, the queues whose notification is due, those that present one
/// request more, the devices with a step left, the timers that are due, and what has its turn to be cleaned up or is cleaned, and
/// isn't an arrived request. At a place of another rank one can start.
fn next_of_part<A: Agent>(parts: &Parts<A>, rank: Rank, from: u32, end: u32) -> Option<u32>
    ensures { MatchOption result (NoneFrom (idle.can_start_at parts.now rank) from end)
        (λ place. IsNext (idle.can_start_at parts.now rank) from end place) }
{
    match rank {
        Rank::Isr => parts.interrupts().next_enabled(from, end),
        Rank::QueueState => parts.control().next_notify_due(from, end),
        Rank::Handler => parts.queues().next_presentable(from, end),
        Rank::Sequence => parts.pnp().next_stepping(from, end),
        Rank::Timed => next_timer(parts, from, end),
        Rank::Cleanup => parts.tree().next_counted_turn(from, end),
        Rank::Destroy => parts.tree().next_counted_cleaned(from, end),
        _ => { if from < end { Some(from) } else { None } }
    }
}

/// The first place from one on below an end at which a callback of a rank can start. It goes by the sets of the parts. These
/// end before the last number of 32 bits, which is asked for by itself: no scenario declares so many objects.
pub fn next_startable<A: Agent>(
    parts: &Parts<A>,
    rank: Rank,
    from: usize,
    end: usize,
) -> Option<usize>
    requires small { end ≤ 2 ^ 32 }
    ensures { MatchOption result (NoneFrom (idle.can_start_at parts.now rank) from end)
        (λ place. IsNext (idle.can_start_at parts.now rank) from end place) }
{
    if from >= end {
        return None;
    }
    let to = end.min(u32::MAX as usize) as u32;
    if let Some(place) = next_of_part(parts, rank, from as u32, to) {
        return Some(place as usize);
    }
    if (to as usize) < end && can_start_at(parts, rank, ObjectId(to)) {
        Some(to as usize)
    } else {
        None
    }
}
