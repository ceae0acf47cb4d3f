//! What may come of all groups, block by block. A block that rests is left by one test, and the others group by group.
ghost use Rattle.std.specs.Prelude.{◌≡◌, ◌+◌, ◌*◌, ◌<◌, ◌≤◌, ◌^◌, IsTrue, Some, false, length, nat_lt, position, slice_get, true, MatchOption, MatchResult};
ghost use Rattle.std.specs.List.Sorted.{IsNonDecreasing, IsPartitionPoint};
ghost use Rattle.wdf_offers.specs.Leaving.{IsSettled};
ghost use Rattle.wdf_offers.specs.Search as search;
ghost use Rattle.wdf_ready.specs.Actors as actors;
ghost use Rattle.wdf_ready.specs.Blocks as blocks;
ghost use Rattle.wdf_ready.specs.Blocks.{all_of};

use crate::blocks::{Block, Blocks};
use crate::search::{first_in, offered_at, offered_len, starts_for_at, starts_for_len};
use wdf_base::{Actor, Agent, Cpu, Event, Rank};
use wdf_model::Group;
use wdf_offers::{next_object, own_len, rests};
use wdf_parts::Parts;
use wdf_plan_index::IndexedPlan;

/// How many of some rising ids are below one.
fn count_below(ids: &[u32], id: u32) -> usize
    requires rising { IsNonDecreasing ids.now }
    ensures within { result ≤ length ids.now }
    ensures splits { IsPartitionPoint (λ x. nat_lt x id ≡ true) (λ x. nat_lt x id ≡ false) ids.now result }
{
    ids.partition_point(|x| *x < id)
}

/// The place of the first object, from a place on, that is asked for starts of a rank: none may come for those before it. It is
/// found by what is counted, without a look at each.
fn next_asked<A: Agent>(
    plan: &IndexedPlan,
    parts: &Parts<A>,
    rank: Rank,
    objects: &[u32],
    from: usize,
) -> Option<usize>
    requires settled { IsSettled plan.now parts.now }
    requires rising { IsNonDecreasing objects.now }
    ensures { MatchOption result (blocks.NothingAfter plan.now A.meaning parts.now rank objects.now from)
        (λ place. blocks.NothingBetween plan.now A.meaning parts.now rank objects.now from place) }
{
    if from >= objects.len() {
        return None;
    }
    let object = objects[from];
    let next = next_object(plan, parts, rank, object);
    if next <= object {
        return Some(from);
    }
    let place = count_below(objects, next);
    if place < objects.len() {
        Some(place)
    } else {
        None
    }
}

/// How many starts of a rank may come on a processor for the requests of these objects.
fn each_len<A: Agent>(
    plan: &IndexedPlan,
    parts: &Parts<A>,
    cpu: u8,
    rank: Rank,
    objects: &[u32],
) -> usize
    requires agents { length parts.now.agents ≤ 2 ^ 16 }
    requires settled { IsSettled plan.now parts.now }
    requires few { length objects.now < 2 ^ 20 }
    requires rising { IsNonDecreasing objects.now }
    ensures length { result ≡ length (blocks.events_for plan.now A.meaning parts.now cpu rank objects.now) }
    ensures small { result ≤ length objects.now * 2 ^ 32 }
{
    let mut sum = 0;
    let mut at = 0;
    'walk: while let Some(place) = next_asked(plan, parts, rank, objects, at) {
        sum += starts_for_len(plan, parts, cpu, rank, objects[place]);
        at = place + 1;
    }
    sum
}

/// The k-th of them, or how many places of a list are left after them.
fn each_at<A: Agent>(
    plan: &IndexedPlan,
    parts: &Parts<A>,
    cpu: u8,
    rank: Rank,
    objects: &[u32],
    k: usize,
) -> Result<Event, usize>
    requires agents { length parts.now.agents ≤ 2 ^ 16 }
    requires settled { IsSettled plan.now parts.now }
    requires rising { IsNonDecreasing objects.now }
    ensures { MatchResult result (λ event. slice_get (blocks.events_for plan.now A.meaning parts.now cpu rank objects.now) k ≡ Some event)
        (λ rest. length (blocks.events_for plan.now A.meaning parts.now cpu rank objects.now) + rest ≡ k) }
{
    let mut left = k;
    let mut at = 0;
    'walk: while let Some(place) = next_asked(plan, parts, rank, objects, at) {
        match starts_for_at(plan, parts, cpu, rank, objects[place], left) {
            Ok(event) => return Ok(event),
            Err(rest) => left = rest,
        }
        at = place + 1;
    }
    Err(left)
}

/// The first of them that is an actor's, by its place among them; or how many may come, none of which is the actor's. It looks at
/// the groups of each object, as no premise says which may be left. Only [`first_by`] calls it, and no program calls that: they
/// call `first_of`.
fn first_of_each<A: Agent>(
    plan: &IndexedPlan,
    parts: &Parts<A>,
    cpu: u8,
    rank: Rank,
    objects: &[u32],
    actor: Actor,
) -> Result<usize, usize>
    requires agents { length parts.now.agents ≤ 2 ^ 16 }
    requires few { length objects.now < 2 ^ 20 }
    ensures first { MatchResult result (search.IsFirst (actors.is_by actor) (blocks.events_for plan.now A.meaning parts.now cpu rank objects.now))
        (search.HasNone (actors.is_by actor) (blocks.events_for plan.now A.meaning parts.now cpu rank objects.now)) }
    ensures small { MatchResult result (λ place. place ≤ length objects.now * 2 ^ 32) (λ count. count ≤ length objects.now * 2 ^ 32) }
{
    let mut before = 0;
    for object in objects {
        let group = Group::StartsFor {
            cpu,
            rank,
            object: *object,
        };
        match first_in(plan, parts, group, actor) {
            Ok(place) => return Ok(before + place),
            Err(count) => before += count,
        }
    }
    Err(before)
}

/// How many events may come of a block.
pub(crate) fn block_len<A: Agent>(
    plan: &IndexedPlan,
    parts: &Parts<A>,
    all: &Blocks,
    block: Block,
) -> usize
    requires agents { length parts.now.agents ≤ 2 ^ 16 }
    requires settled { IsSettled plan.now parts.now }
    requires few { length (blocks.groups_in all.now.objects block) < 2 ^ 20 }
    ensures length { result ≡ blocks.block_len plan.now A.meaning parts.now all.now.objects block }
    ensures small { result ≤ length (blocks.groups_in all.now.objects block) * 2 ^ 32 }
{
    match block {
        Block::One(group) => offered_len(plan, parts, group),
        Block::ForEach { cpu, rank } => {
            if rests(plan, parts, Cpu(cpu), rank) {
                return 0;
            }
            each_len(plan, parts, cpu, rank, all.objects_of(rank))
        }
    }
}

/// The k-th of them, or how many places of a list are left after them.
pub(crate) fn block_at<A: Agent>(
    plan: &IndexedPlan,
    parts: &Parts<A>,
    all: &Blocks,
    block: Block,
    k: usize,
) -> Result<Event, usize>
    requires agents { length parts.now.agents ≤ 2 ^ 16 }
    requires settled { IsSettled plan.now parts.now }
    ensures { MatchResult result (λ event. slice_get (blocks.events_in plan.now A.meaning parts.now all.now.objects block) k ≡ Some event)
        (λ rest. length (blocks.events_in plan.now A.meaning parts.now all.now.objects block) + rest ≡ k) }
{
    match block {
        Block::One(group) => offered_at(plan, parts, group, k),
        Block::ForEach { cpu, rank } => {
            if rests(plan, parts, Cpu(cpu), rank) {
                return Err(k);
            }
            each_at(plan, parts, cpu, rank, all.objects_of(rank), k)
        }
    }
}

/// The first of them that is an actor's, by its place among them; or how many may come, none of which is the actor's.
fn first_in_block<A: Agent>(
    plan: &IndexedPlan,
    parts: &Parts<A>,
    all: &Blocks,
    block: Block,
    actor: Actor,
) -> Result<usize, usize>
    requires agents { length parts.now.agents ≤ 2 ^ 16 }
    requires few { length (blocks.groups_in all.now.objects block) < 2 ^ 20 }
    ensures first { MatchResult result (search.IsFirst (actors.is_by actor) (blocks.events_in plan.now A.meaning parts.now all.now.objects block))
        (search.HasNone (actors.is_by actor) (blocks.events_in plan.now A.meaning parts.now all.now.objects block)) }
    ensures small { MatchResult result (λ place. place ≤ length (blocks.groups_in all.now.objects block) * 2 ^ 32)
        (λ count. count ≤ length (blocks.groups_in all.now.objects block) * 2 ^ 32) }
{
    match block {
        Block::One(group) => first_in(plan, parts, group, actor),
        Block::ForEach { cpu, rank } => {
            first_of_each(plan, parts, cpu, rank, all.objects_of(rank), actor)
        }
    }
}

/// The k-th of the events that may come of all these groups; `None` exactly where there are fewer.
pub fn allowed_at<A: Agent>(
    plan: &IndexedPlan,
    parts: &Parts<A>,
    all: &Blocks,
    k: usize,
) -> Option<Event>
    requires agents { length parts.now.agents ≤ 2 ^ 16 }
    requires settled { IsSettled plan.now parts.now }
    ensures { result ≡ slice_get (search.events_of plan.now A.meaning parts.now (all_of all.now)) k }
{
    let mut left = k;
    for at in 0..all.len() {
        match block_at(plan, parts, all, all.at(at), left) {
            Ok(event) => return Some(event),
            Err(rest) => left = rest,
        }
    }
    None
}

/// The place of the first event of an actor among those that may come of all these groups; `None` exactly
/// where there is none. It goes along each group.
pub fn first_by<A: Agent>(
    plan: &IndexedPlan,
    parts: &Parts<A>,
    all: &Blocks,
    actor: Actor,
) -> Option<usize>
    requires agents { length parts.now.agents ≤ 2 ^ 16 }
    requires few { length (all_of all.now) < 2 ^ 20 }
    ensures { result ≡ position (actors.is_by actor) (search.events_of plan.now A.meaning parts.now (all_of all.now)) }
{
    let mut before = 0;
    for at in 0..all.len() {
        match first_in_block(plan, parts, all, all.at(at), actor) {
            Ok(place) => return Some(before + place),
            Err(count) => before += count,
        }
    }
    None
}

/// Whether a block is the own event of a frame, and has it.
fn has_own<A: Agent>(plan: &IndexedPlan, parts: &Parts<A>, all: &Blocks, block: Block) -> bool
    ensures { IsTrue result → 0 < blocks.block_len plan.now A.meaning parts.now all.now.objects block }
{
    let _ = all;
    match block {
        Block::One(Group::OwnEvent { cpu }) => own_len(plan, parts, Cpu(cpu)) > 0,
        _ => false,
    }
}

/// Whether the top frame of a processor has an event of its own, where the processor's group is among these. Nothing but the top
/// frames is looked at.
pub fn any_own<A: Agent>(plan: &IndexedPlan, parts: &Parts<A>, all: &Blocks) -> bool
    ensures { IsTrue result → 0 < length (search.events_of plan.now A.meaning parts.now (all_of all.now)) }
{
    for at in 0..all.len() {
        if has_own(plan, parts, all, all.at(at)) {
            return true;
        }
    }
    false
}
