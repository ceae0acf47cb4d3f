//! Cleanups, ends, own events and completions, tested by the parts that decide and not by `may`.
ghost use Rattle.std.specs.Prelude.{◌≡◌, ◌+◌, ◌<◌, ◌≤◌, ◌^◌, ◌&&◌, Some, is_some, length, not, slice_get, MatchResult};
ghost use Rattle.wdf_base.specs.declared.event.Event.TheVariants as event;
ghost use Rattle.wdf_model.specs.State as state;
ghost use Rattle.wdf_model.specs.declared.enums.Group.TheVariants as group;
ghost use Rattle.wdf_model.specs.rules.Steps as steps;
ghost use Rattle.wdf_offers.specs.Search as search;

use crate::candidates::completion_at;
use wdf_base::{Agent, Callback, Cpu, Event, Frame, ObjectId};
use wdf_parts::Parts;
use wdf_plan_index::IndexedPlan;
use wdf_starts::{callback_over, clean_ready, destroy_ready};
use wdf_steps::{may_park, own_event, waits_on};

/// Whether the cleanup of an object may come.
#[tactic(auto, using(crate::proofs::Straight::clean_up_parts))]
fn may_clean_up<A: Agent>(plan: &IndexedPlan, parts: &Parts<A>, o: ObjectId) -> bool
    ensures { result ≡ steps.may plan.now A.meaning parts.now (event.Cleanup (state.handle_in plan.now parts.now o.0)) }
{
    clean_ready(parts, o) && callback_over(plan, parts, Callback::EvtCleanupCallback, o)
}

/// The cleanup of an object, if it may come.
pub fn cleanup_offered<A: Agent>(plan: &IndexedPlan, parts: &Parts<A>, o: ObjectId) -> Option<Event>
    ensures { result ≡ search.offered plan.now A.meaning parts.now group.Cleanups o.0 }
{
    if may_clean_up(plan, parts, o) {
        Some(Event::Cleanup {
            object: parts.handle_in(plan, o),
        })
    } else {
        None
    }
}

/// Whether the end of an object may come.
#[tactic(auto, using(crate::proofs::Straight::end_parts))]
fn may_end<A: Agent>(plan: &IndexedPlan, parts: &Parts<A>, o: ObjectId) -> bool
    ensures { result ≡ steps.may plan.now A.meaning parts.now (event.Destroy (state.handle_in plan.now parts.now o.0)) }
{
    destroy_ready(parts, o) && callback_over(plan, parts, Callback::EvtDestroyCallback, o)
}

/// The end of an object, if it may come.
pub fn end_offered<A: Agent>(plan: &IndexedPlan, parts: &Parts<A>, o: ObjectId) -> Option<Event>
    ensures { result ≡ search.offered plan.now A.meaning parts.now group.Destroys o.0 }
{
    if may_end(plan, parts, o) {
        Some(Event::Destroy {
            object: parts.handle_in(plan, o),
        })
    } else {
        None
    }
}

/// Whether a frame neither spends nor waits in vain.
fn is_awake<A: Agent>(parts: &Parts<A>, frame: &Frame) -> bool
    ensures { result ≡ (not (steps.spends parts.now frame.now) && not (steps.waits_on parts.now frame.now.pending)) }
{
    !(parts.now() < frame.until) && !waits_on(parts, frame)
}

/// Whether the top frame of a processor has an event of its own. It isn't made for that.
#[tactic(auto, using(crate::proofs::Own::awake_has_own, crate::proofs::Own::empty_has_none))]
fn has_own_event<A: Agent>(plan: &IndexedPlan, parts: &Parts<A>, cpu: Cpu) -> bool
    ensures { result ≡ is_some (steps.own_event plan.now A.meaning parts.now cpu.0) }
{
    let _ = plan;
    match parts.cpus().top(cpu) {
        Some(number) => is_awake(parts, parts.cpus().frame(number)),
        None => false,
    }
}

/// How many events the top frame of a processor has of its own.
#[tactic(auto, using(crate::proofs::Own::one_own, crate::proofs::Own::no_own))]
pub fn own_len<A: Agent>(plan: &IndexedPlan, parts: &Parts<A>, cpu: Cpu) -> usize
    ensures length { result ≡ length (search.offered_from plan.now A.meaning parts.now (group.OwnEvent cpu.0) 0) }
    ensures small { result ≤ 2 ^ 32 }
{
    if has_own_event(plan, parts, cpu) {
        1
    } else {
        0
    }
}

/// The event of a processor's top frame, where it is the k-th of its group, or how many places of a list are left after it.
pub fn own_at<A: Agent>(
    plan: &IndexedPlan,
    parts: &Parts<A>,
    cpu: Cpu,
    k: usize,
) -> Result<Event, usize>
    ensures { MatchResult result (λ event. slice_get (search.offered_from plan.now A.meaning parts.now (group.OwnEvent cpu.0) 0) k ≡ Some event)
        (λ rest. length (search.offered_from plan.now A.meaning parts.now (group.OwnEvent cpu.0) 0) + rest ≡ k) }
{
    match own_event(plan, parts, cpu) {
        Some(event) => {
            if k == 0 {
                return Ok(event);
            }
            Err(k - 1)
        }
        None => Err(k),
    }
}

/// The leaving of a processor's top frame, if it may come.
fn park_offered<A: Agent>(plan: &IndexedPlan, parts: &Parts<A>, cpu: Cpu) -> Option<Event>
    ensures { result ≡ search.offered plan.now A.meaning parts.now (group.Parks cpu.0) 0 }
{
    let _ = plan;
    let frame = parts.cpus().top(cpu)?;
    if may_park(parts, cpu, frame) {
        Some(Event::Park { cpu, frame })
    } else {
        None
    }
}

/// How many frames may leave a processor: the top one, or none.
pub fn park_len<A: Agent>(plan: &IndexedPlan, parts: &Parts<A>, cpu: Cpu) -> usize
    ensures length { result ≡ length (search.offered_from plan.now A.meaning parts.now (group.Parks cpu.0) 0) }
    ensures small { result ≤ 2 ^ 32 }
{
    match park_offered(plan, parts, cpu) {
        Some(_) => 1,
        None => 0,
    }
}

/// The leaving of a processor's top frame, where it is the k-th of its group, or how many places of a list are left after
/// it.
pub fn park_at<A: Agent>(
    plan: &IndexedPlan,
    parts: &Parts<A>,
    cpu: Cpu,
    k: usize,
) -> Result<Event, usize>
    ensures { MatchResult result (λ event. slice_get (search.offered_from plan.now A.meaning parts.now (group.Parks cpu.0) 0) k ≡ Some event)
        (λ rest. length (search.offered_from plan.now A.meaning parts.now (group.Parks cpu.0) 0) + rest ≡ k) }
{
    match park_offered(plan, parts, cpu) {
        Some(event) => {
            if k == 0 {
                return Ok(event);
            }
            Err(k - 1)
        }
        None => Err(k),
    }
}

/// How many completions may come.
#[tactic(auto, using(crate::proofs::Straight::completions_counted))]
pub fn completions_len<A: Agent>(plan: &IndexedPlan, parts: &Parts<A>) -> usize
    ensures length { result ≡ length (search.offered_from plan.now A.meaning parts.now group.Completions 0) }
    ensures small { result ≤ 2 ^ 32 }
{
    let _ = plan;
    parts.requests().closing_len() as usize
}

/// The k-th of them; `None` exactly where there are fewer.
#[tactic(auto, using(crate::proofs::Straight::completion_numbered))]
fn nth_completion<A: Agent>(plan: &IndexedPlan, parts: &Parts<A>, k: u32) -> Option<Event>
    ensures { result ≡ slice_get (search.offered_from plan.now A.meaning parts.now group.Completions 0) k }
{
    let r = parts.requests().closing_at(k)?;
    completion_at(plan, parts, r)
}

/// The k-th of them, or how many places of a list are left after them.
#[tactic(auto, using(crate::proofs::Straight::there))]
pub fn completion_offered<A: Agent>(
    plan: &IndexedPlan,
    parts: &Parts<A>,
    k: usize,
) -> Result<Event, usize>
    ensures { MatchResult result (λ event. slice_get (search.offered_from plan.now A.meaning parts.now group.Completions 0) k ≡ Some event)
        (λ rest. length (search.offered_from plan.now A.meaning parts.now group.Completions 0) + rest ≡ k) }
{
    let len = completions_len(plan, parts);
    if k >= len {
        return Err(k - len);
    }
    match nth_completion(plan, parts, k as u32) {
        Some(event) => Ok(event),
        None => Err(0),
    }
}
