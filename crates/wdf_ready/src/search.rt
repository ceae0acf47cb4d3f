//! The search over the places of a group.
ghost use Rattle.std.specs.Prelude.{◌≡◌, ◌+◌, ◌<◌, ◌≤◌, ◌^◌, [], Some, None, length, slice_get, option_map, MatchOption, MatchResult};
ghost use Rattle.wdf_model.specs.declared.enums.Group.TheVariants as group;
ghost use Rattle.wdf_model.specs.rules.Groups as groups;
ghost use Rattle.wdf_ready.specs.Actors as actors;
ghost use Rattle.wdf_offers.specs.Idle as idle;
ghost use Rattle.wdf_offers.specs.Leaving.{IsSettled, group_of};
ghost use Rattle.wdf_offers.specs.Search as search;

use crate::actor::is_by;
use wdf_base::{Actor, Agent, Cpu, Event, ObjectId, Rank};
use wdf_model::Group;
use wdf_offers::{
    Leaving, cleanup_offered, coming_at, coming_len, completion_at, completion_offered,
    completions_len, end_offered, herd_at, herd_len, herd_of, is_counted, is_idle, next_due,
    next_startable, numbered_at, numbered_len, own_at, own_len, park_at, park_len, parks,
    places_in, post_offered, posts_at, posts_len, routine_at, routines_len, stage_at, start_for,
    start_offered, unparks,
};
use wdf_parts::Parts;
use wdf_plan_index::IndexedPlan;
use wdf_steps::{may, own_event};

/// An event, if it may come.
fn allowed<A: Agent>(plan: &IndexedPlan, parts: &Parts<A>, event: Option<Event>) -> Option<Event>
    ensures { result ≡ search.if_allowed plan.now A.meaning parts.now event }
{
    let event = event?;
    if may(plan, parts, &event) {
        Some(event)
    } else {
        None
    }
}

/// The candidate of a group at a place, if it may come. A frame's own event may, and so may each completion.
fn offered<A: Agent>(
    plan: &IndexedPlan,
    parts: &Parts<A>,
    group: Group,
    place: usize,
) -> Option<Event>
    requires within { place < groups.places_in plan.now parts.now group }
    requires small { place < 2 ^ 32 }
    requires agents { length parts.now.agents ≤ 2 ^ 16 }
    ensures { result ≡ search.offered plan.now A.meaning parts.now group place }
{
    let id = ObjectId(place as u32);
    match group {
        Group::OwnEvent { cpu } => own_event(plan, parts, Cpu(cpu)),
        Group::Parks { cpu } => allowed(plan, parts, parks(parts, Cpu(cpu))),
        Group::Unparks { cpu } => allowed(plan, parts, unparks(parts, Cpu(cpu), place)),
        Group::Starts { cpu, rank } => start_offered(plan, parts, Cpu(cpu), rank, place),
        Group::StartsFor { cpu, rank, object } => {
            let event = start_for(plan, parts, Cpu(cpu), rank, ObjectId(object), place);
            allowed(plan, parts, event)
        }
        Group::Stages => allowed(plan, parts, stage_at(plan, parts, id)),
        Group::Completions => completion_at(plan, parts, id),
        Group::Cleanups => cleanup_offered(plan, parts, id),
        Group::Destroys => end_offered(plan, parts, id),
        Group::Posts => post_offered(plan, parts, place as u16),
    }
}

/// The first place from one on at which a callback of a rank can start on a processor. It goes by the sets of the parts,
/// without a look at each place.
fn next_start<A: Agent>(
    plan: &IndexedPlan,
    parts: &Parts<A>,
    cpu: u8,
    rank: Rank,
    from: usize,
    end: usize,
) -> Option<usize>
    requires all { end ≡ groups.places_in plan.now parts.now (group.Starts cpu rank) }
    requires below { from < end }
    requires few { end ≤ 2 ^ 32 }
    ensures { MatchOption result (search.offered_from plan.now A.meaning parts.now (group.Starts cpu rank) from ≡ [])
        (λ place. search.Skips plan.now A.meaning parts.now (group.Starts cpu rank) from place) }
{
    let _ = plan;
    let _cpu = cpu;
    next_startable(parts, rank, from, end)
}

/// How many places of a group a search goes over: none of an idle one.
fn search_len<A: Agent>(plan: &IndexedPlan, parts: &Parts<A>, group: Group) -> usize
    requires agents { length parts.now.agents ≤ 2 ^ 16 }
    ensures value { result ≡ idle.search_len plan.now parts.now group }
    ensures small { result ≤ 2 ^ 32 }
{
    if is_idle(plan, parts, group) {
        0
    } else {
        places_in(plan, parts, group)
    }
}

/// A place of a group, `from` or one after it, such that nothing may come of the places from `from` up to it. `None`
/// comes only where nothing may come of any place from `from` on. It is found by a look at what is due, closing or
/// cleaned, and at whose turn to be cleaned up has come. `end` is how many places a search goes over.
fn next_place<A: Agent>(
    plan: &IndexedPlan,
    parts: &Parts<A>,
    group: Group,
    from: usize,
    end: usize,
) -> Option<usize>
    requires all { end ≡ idle.search_len plan.now parts.now group }
    requires few { end ≤ 2 ^ 32 }
    ensures { MatchOption result (search.offered_from plan.now A.meaning parts.now group from ≡ [])
        (λ place. search.Skips plan.now A.meaning parts.now group from place) }
{
    if from >= end {
        return None;
    }
    match group {
        Group::Starts { cpu, rank } => next_start(plan, parts, cpu, rank, from, end),
        Group::StartsFor { rank, object, .. } => {
            next_due(plan, parts, rank, ObjectId(object), from, end)
        }
        Group::Stages => next_startable(parts, Rank::Sequence, from, end),
        Group::Completions => place_of(parts.requests().next_closing(ObjectId(from as u32))),
        Group::Cleanups => place_of(parts.tree().turn_from(ObjectId(from as u32))),
        Group::Destroys => place_of(parts.tree().cleaned_from(ObjectId(from as u32))),
        _ => Some(from),
    }
}

/// An id as a place.
fn place_of(id: Option<ObjectId>) -> Option<usize>
    ensures { result ≡ option_map (λ o. o.0) id }
{
    id.map(|id| id.0 as usize)
}

/// How many cleanups or destructions may come, or starts of work items or of timers on a processor. They are counted without
/// a search where they are numbered.
fn leaving_len<A: Agent>(plan: &IndexedPlan, parts: &Parts<A>, leaving: Leaving) -> usize
    requires agents { length parts.now.agents ≤ 2 ^ 16 }
    requires settled { IsSettled plan.now parts.now }
    ensures length { result ≡ length (search.offered_from plan.now A.meaning parts.now (group_of leaving) 0) }
    ensures small { result ≤ 2 ^ 32 }
{
    if leaving.is_numbered(plan, parts) {
        numbered_len(plan, parts, leaving)
    } else {
        searched_len(plan, parts, leaving.group())
    }
}

/// How many parked frames may come back to a processor. They are counted by locks where each waits for one.
fn unparks_len<A: Agent>(plan: &IndexedPlan, parts: &Parts<A>, cpu: u8) -> usize
    requires agents { length parts.now.agents ≤ 2 ^ 16 }
    ensures length { result ≡ length (search.offered_from plan.now A.meaning parts.now (group.Unparks cpu) 0) }
    ensures small { result ≤ 2 ^ 32 }
{
    if is_counted(plan, parts, Cpu(cpu)) {
        coming_len(plan, parts, Cpu(cpu))
    } else {
        searched_len(plan, parts, Group::Unparks { cpu })
    }
}

/// The k-th of the parked frames that may come back to a processor, or how many places of a list are left after them.
/// It isn't searched for where all may, nor where there are fewer.
fn unparks_at<A: Agent>(
    plan: &IndexedPlan,
    parts: &Parts<A>,
    cpu: u8,
    k: usize,
) -> Result<Event, usize>
    requires agents { length parts.now.agents ≤ 2 ^ 16 }
    ensures { MatchResult result (λ event. slice_get (search.offered_from plan.now A.meaning parts.now (group.Unparks cpu) 0) k ≡ Some event)
        (λ rest. length (search.offered_from plan.now A.meaning parts.now (group.Unparks cpu) 0) + rest ≡ k) }
{
    if parts.cpus().parked_len() == 0 {
        return Err(k);
    }
    if !is_counted(plan, parts, Cpu(cpu)) {
        return searched_at(plan, parts, Group::Unparks { cpu }, k);
    }
    let len = coming_len(plan, parts, Cpu(cpu));
    if k >= len {
        return Err(k - len);
    }
    if len == parts.cpus().parked_len() {
        coming_at(plan, parts, Cpu(cpu), k)
    } else {
        searched_at(plan, parts, Group::Unparks { cpu }, k)
    }
}

/// How many starts of a rank may come on a processor for the requests of an object. They are counted without a search where
/// just those may come that are counted for it, as always of completion routines.
pub(crate) fn starts_for_len<A: Agent>(
    plan: &IndexedPlan,
    parts: &Parts<A>,
    cpu: u8,
    rank: Rank,
    object: u32,
) -> usize
    requires agents { length parts.now.agents ≤ 2 ^ 16 }
    requires settled { IsSettled plan.now parts.now }
    ensures length { result ≡ length (search.offered_from plan.now A.meaning parts.now (group.StartsFor cpu rank object) 0) }
    ensures small { result ≤ 2 ^ 32 }
{
    if let Rank::Completion = rank {
        return routines_len(plan, parts, Cpu(cpu), ObjectId(object));
    }
    if let Some(herd) = herd_of(rank) {
        if herd.is_exact(plan, parts, ObjectId(object)) {
            return herd_len(plan, parts, herd, Cpu(cpu), ObjectId(object));
        }
    }
    searched_len(plan, parts, Group::StartsFor { cpu, rank, object })
}

/// The k-th of them, or how many places of a list are left after them.
pub(crate) fn starts_for_at<A: Agent>(
    plan: &IndexedPlan,
    parts: &Parts<A>,
    cpu: u8,
    rank: Rank,
    object: u32,
    k: usize,
) -> Result<Event, usize>
    requires agents { length parts.now.agents ≤ 2 ^ 16 }
    requires settled { IsSettled plan.now parts.now }
    ensures { MatchResult result (λ event. slice_get (search.offered_from plan.now A.meaning parts.now (group.StartsFor cpu rank object) 0) k ≡ Some event)
        (λ rest. length (search.offered_from plan.now A.meaning parts.now (group.StartsFor cpu rank object) 0) + rest ≡ k) }
{
    if let Rank::Completion = rank {
        return routine_at(plan, parts, Cpu(cpu), ObjectId(object), k);
    }
    if let Some(herd) = herd_of(rank) {
        if herd.is_exact(plan, parts, ObjectId(object)) {
            return herd_at(plan, parts, herd, Cpu(cpu), ObjectId(object), k);
        }
    }
    searched_at(plan, parts, Group::StartsFor { cpu, rank, object }, k)
}

/// How many events may come of a group's places. Completions are counted without a search, and so are cleanups,
/// destructions and starts of work items and of timers where they are numbered. Posts are counted without making their events.
pub(crate) fn offered_len<A: Agent>(plan: &IndexedPlan, parts: &Parts<A>, group: Group) -> usize
    requires agents { length parts.now.agents ≤ 2 ^ 16 }
    requires settled { IsSettled plan.now parts.now }
    ensures length { result ≡ length (search.offered_from plan.now A.meaning parts.now group 0) }
    ensures small { result ≤ 2 ^ 32 }
{
    match group {
        Group::OwnEvent { cpu } => own_len(plan, parts, Cpu(cpu)),
        Group::Parks { cpu } => park_len(plan, parts, Cpu(cpu)),
        Group::Unparks { cpu } => unparks_len(plan, parts, cpu),
        Group::Completions => completions_len(plan, parts),
        Group::Cleanups => leaving_len(plan, parts, Leaving::Cleanup),
        Group::Destroys => leaving_len(plan, parts, Leaving::Destroy),
        Group::Starts {
            cpu,
            rank: Rank::Work,
        } => leaving_len(plan, parts, Leaving::Work { cpu }),
        Group::Starts {
            cpu,
            rank: Rank::Timed,
        } => leaving_len(plan, parts, Leaving::Timed { cpu }),
        Group::StartsFor { cpu, rank, object } => { starts_for_len(plan, parts, cpu, rank, object) }
        Group::Posts => posts_len(plan, parts),
        _ => searched_len(plan, parts, group),
    }
}

/// The same, by a search.
fn searched_len<A: Agent>(plan: &IndexedPlan, parts: &Parts<A>, group: Group) -> usize
    requires agents { length parts.now.agents ≤ 2 ^ 16 }
    ensures length { result ≡ length (search.offered_from plan.now A.meaning parts.now group 0) }
    ensures small { result ≤ 2 ^ 32 }
{
    let mut count = 0;
    let end = search_len(plan, parts, group);
    let mut at = 0;
    'search: while let Some(place) = next_place(plan, parts, group, at, end) {
        if offered(plan, parts, group, place).is_some() {
            count += 1;
        }
        at = place + 1;
    }
    count
}

/// The k-th of the cleanups or destructions that may come, or of the starts of work items or of timers on a processor, or
/// how many places of a list are left after them.
fn leaving_at<A: Agent>(
    plan: &IndexedPlan,
    parts: &Parts<A>,
    leaving: Leaving,
    k: usize,
) -> Result<Event, usize>
    requires agents { length parts.now.agents ≤ 2 ^ 16 }
    requires settled { IsSettled plan.now parts.now }
    ensures { MatchResult result (λ event. slice_get (search.offered_from plan.now A.meaning parts.now (group_of leaving) 0) k ≡ Some event)
        (λ rest. length (search.offered_from plan.now A.meaning parts.now (group_of leaving) 0) + rest ≡ k) }
{
    if leaving.is_numbered(plan, parts) {
        numbered_at(plan, parts, leaving, k)
    } else {
        searched_at(plan, parts, leaving.group(), k)
    }
}

/// The k-th of the events that may come of a group's places, or how many places of a list are left after
/// them.
pub(crate) fn offered_at<A: Agent>(
    plan: &IndexedPlan,
    parts: &Parts<A>,
    group: Group,
    k: usize,
) -> Result<Event, usize>
    requires agents { length parts.now.agents ≤ 2 ^ 16 }
    requires settled { IsSettled plan.now parts.now }
    ensures { MatchResult result (λ event. slice_get (search.offered_from plan.now A.meaning parts.now group 0) k ≡ Some event)
        (λ rest. length (search.offered_from plan.now A.meaning parts.now group 0) + rest ≡ k) }
{
    match group {
        Group::OwnEvent { cpu } => own_at(plan, parts, Cpu(cpu), k),
        Group::Parks { cpu } => park_at(plan, parts, Cpu(cpu), k),
        Group::Unparks { cpu } => unparks_at(plan, parts, cpu, k),
        Group::Completions => completion_offered(plan, parts, k),
        Group::Cleanups => leaving_at(plan, parts, Leaving::Cleanup, k),
        Group::Destroys => leaving_at(plan, parts, Leaving::Destroy, k),
        Group::Starts {
            cpu,
            rank: Rank::Work,
        } => leaving_at(plan, parts, Leaving::Work { cpu }, k),
        Group::Starts {
            cpu,
            rank: Rank::Timed,
        } => leaving_at(plan, parts, Leaving::Timed { cpu }, k),
        Group::StartsFor { cpu, rank, object } => {
            starts_for_at(plan, parts, cpu, rank, object, k)
        }
        Group::Posts => posts_at(plan, parts, k),
        _ => searched_at(plan, parts, group, k),
    }
}

/// The same, by a search.
fn searched_at<A: Agent>(
    plan: &IndexedPlan,
    parts: &Parts<A>,
    group: Group,
    k: usize,
) -> Result<Event, usize>
    requires agents { length parts.now.agents ≤ 2 ^ 16 }
    ensures { MatchResult result (λ event. slice_get (search.offered_from plan.now A.meaning parts.now group 0) k ≡ Some event)
        (λ rest. length (search.offered_from plan.now A.meaning parts.now group 0) + rest ≡ k) }
{
    let end = search_len(plan, parts, group);
    if end == 0 {
        return Err(k);
    }
    walked_at(plan, parts, group, end, k)
}

/// The same, where a search goes over so many places.
fn walked_at<A: Agent>(
    plan: &IndexedPlan,
    parts: &Parts<A>,
    group: Group,
    end: usize,
    k: usize,
) -> Result<Event, usize>
    requires agents { length parts.now.agents ≤ 2 ^ 16 }
    requires all { end ≡ idle.search_len plan.now parts.now group }
    requires few { end ≤ 2 ^ 32 }
    ensures { MatchResult result (λ event. slice_get (search.offered_from plan.now A.meaning parts.now group 0) k ≡ Some event)
        (λ rest. length (search.offered_from plan.now A.meaning parts.now group 0) + rest ≡ k) }
{
    let mut left = k;
    let mut at = 0;
    'search: while let Some(place) = next_place(plan, parts, group, at, end) {
        if let Some(event) = offered(plan, parts, group, place) {
            if left == 0 {
                return Ok(event);
            }
            left -= 1;
        }
        at = place + 1;
    }
    Err(left)
}

/// The first event of an actor among those that may come of a group's places, by its place among them; or how
/// many may come, none of which is the actor's.
pub(crate) fn first_in<A: Agent>(
    plan: &IndexedPlan,
    parts: &Parts<A>,
    group: Group,
    actor: Actor,
) -> Result<usize, usize>
    requires agents { length parts.now.agents ≤ 2 ^ 16 }
    ensures first { MatchResult result (search.IsFirst (actors.is_by actor) (search.offered_from plan.now A.meaning parts.now group 0))
        (search.HasNone (actors.is_by actor) (search.offered_from plan.now A.meaning parts.now group 0)) }
    ensures small { MatchResult result (λ place. place ≤ 2 ^ 32) (λ count. count ≤ 2 ^ 32) }
{
    let mut count = 0;
    let end = search_len(plan, parts, group);
    let mut at = 0;
    'search: while let Some(place) = next_place(plan, parts, group, at, end) {
        if let Some(event) = offered(plan, parts, group, place) {
            if is_by(&event, actor) {
                return Ok(count);
            }
            count += 1;
        }
        at = place + 1;
    }
    Err(count)
}
