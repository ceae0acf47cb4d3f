//! The lines of deferred work: queued DPCs and work items, and timers whose tick is reached.
ghost use Rattle.std.specs.Prelude.{◌≡◌};
ghost use Rattle.wdf_model.specs.rules.Waits as waits;

use wdf_base::{Agent, Callback, Cause, Irql, ObjectId, OpenThing, WaitLine};
use wdf_causes::{
    DISPATCH_LEVEL, PASSIVE_LEVEL, by_frame_on, cpu_of_dpc, head_lock, no_cpu, scope_is_held,
};
use wdf_parts::Parts;
use wdf_plan_index::IndexedPlan;
use wdf_starts::level_fits;

/// Why a DPC doesn't start: the lock that it needs is held, or that of the first in its processor's
/// list, or the processor's level is too high. (KMDF)
fn dpc_cause<A: Agent>(plan: &IndexedPlan, parts: &Parts<A>, o: ObjectId) -> Option<Cause>
    ensures { result ≡ waits.dpc_cause plan.now parts.now o.0 }
{
    let cpu = cpu_of_dpc(plan, parts, o);
    if scope_is_held(plan, parts, parts.tree().kind(o).dpc_function(), o)
        || !parts.locks().is_free_if_any(head_lock(plan, parts, cpu))
    {
        return Some(Cause::ScopeHeld);
    }
    if !level_fits(parts, cpu, DISPATCH_LEVEL) {
        return Some(Cause::NoCpu);
    }
    None
}

/// Why a timer or a work item doesn't start: its scope lock is held, a frame runs on it, or no
/// processor is left. (KMDF)
fn work_cause<A: Agent>(
    plan: &IndexedPlan,
    parts: &Parts<A>,
    callback: Callback,
    level: Irql,
    o: ObjectId,
) -> Option<Cause>
    ensures { result ≡ waits.work_cause plan.now parts.now callback level.0 o.0 }
{
    if scope_is_held(plan, parts, callback, o) {
        return Some(Cause::ScopeHeld);
    }
    if let Some(frame) = by_frame_on(parts, o) {
        return Some(frame);
    }
    if no_cpu(plan, parts, level) {
        return Some(Cause::NoCpu);
    }
    None
}

/// Why deferred work doesn't start.
fn deferred_cause<A: Agent>(plan: &IndexedPlan, parts: &Parts<A>, o: ObjectId) -> Option<Cause>
    ensures { result ≡ waits.deferred_cause plan.now parts.now o.0 }
{
    if parts.dpcs().is_dpc_queued(o) {
        dpc_cause(plan, parts, o)
    } else if parts.work_items().is_work_queued(o) {
        work_cause(plan, parts, Callback::EvtWorkItem, PASSIVE_LEVEL, o)
    } else {
        work_cause(plan, parts, Callback::EvtTimerFunc, DISPATCH_LEVEL, o)
    }
}

/// The line of deferred work.
pub(crate) fn deferred_line<A: Agent>(plan: &IndexedPlan, parts: &Parts<A>, o: ObjectId) -> WaitLine
    ensures { result ≡ waits.deferred_line plan.now parts.now o.0 }
{
    WaitLine {
        thing: OpenThing::Deferred {
            object: parts.handle_in(plan, o),
        },
        cause: deferred_cause(plan, parts, o),
    }
}
