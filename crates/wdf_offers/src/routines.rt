//! The starts of the completion routines of a target. It keeps the requests whose routine is due by themselves, and what all
//! these starts wait for is tested once.
ghost use Rattle.std.specs.Prelude.{◌≡◌, ◌+◌, ◌≤◌, ◌^◌, Some, length, slice_get, MatchResult};
ghost use Rattle.wdf_base.specs.declared.rank.Rank.TheVariants as rank;
ghost use Rattle.wdf_model.specs.declared.enums.Group.TheVariants as group;
ghost use Rattle.wdf_offers.specs.Leaving.{IsSettled};
ghost use Rattle.wdf_offers.specs.Search as search;

use crate::candidates::starts_for;
use crate::for_requests::begins_on;
use wdf_base::{Agent, Callback, Cpu, Event, ObjectId};
use wdf_parts::Parts;
use wdf_plan_index::IndexedPlan;

/// How many completion routines of a target may start on a processor.
pub fn routines_len<A: Agent>(plan: &IndexedPlan, parts: &Parts<A>, cpu: Cpu, t: ObjectId) -> usize
    requires settled { IsSettled plan.now parts.now }
    ensures length { result ≡ length (search.offered_from plan.now A.meaning parts.now (group.StartsFor cpu.0 rank.Completion t.0) 0) }
    ensures small { result ≤ 2 ^ 32 }
{
    let len = parts.targets().finished_len(t);
    if len > 0 && begins_on(plan, parts, cpu, Callback::EvtRequestCompletion, t) {
        len as usize
    } else {
        0
    }
}

/// The k-th of these starts, or how many places of a list are left after them.
pub fn routine_at<A: Agent>(
    plan: &IndexedPlan,
    parts: &Parts<A>,
    cpu: Cpu,
    t: ObjectId,
    k: usize,
) -> Result<Event, usize>
    requires settled { IsSettled plan.now parts.now }
    ensures { MatchResult result (λ event. slice_get (search.offered_from plan.now A.meaning parts.now (group.StartsFor cpu.0 rank.Completion t.0) 0) k ≡ Some event)
        (λ rest. length (search.offered_from plan.now A.meaning parts.now (group.StartsFor cpu.0 rank.Completion t.0) 0) + rest ≡ k) }
{
    let len = routines_len(plan, parts, cpu, t);
    if k >= len {
        return Err(k - len);
    }
    let callback = Callback::EvtRequestCompletion;
    match parts.targets().nth_finished(t, k as u32) {
        Some(r) => Ok(starts_for(plan, parts, cpu, callback, t, r)),
        None => Err(0),
    }
}
