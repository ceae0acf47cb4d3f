//! The lines of frames: what each waits for.
ghost use Rattle.std.specs.Prelude.{◌≡◌, ◌∷◌, ◌++◌, []};
ghost use Rattle.wdf_base.specs.declared.wait.Cause.TheVariants as cause;
ghost use Rattle.wdf_base.specs.Places.{is_returning_to, is_sent_to};
ghost use Rattle.wdf_model.specs.parts.Deferred.WorkItems.{is_work_queued};
ghost use Rattle.wdf_model.specs.State as state;
ghost use Rattle.wdf_model.specs.parts.Queues.{waiting_in};
ghost use Rattle.wdf_model.specs.rules.Steps as steps;
ghost use Rattle.wdf_model.specs.rules.Waits as waits;

use wdf_base::{Agent, Call, CallKind, Cause, FrameId, ObjectId, OpenThing, Pending, WaitLine};
use wdf_calls::is_met;
use wdf_causes::{
    PASSIVE_LEVEL, by_frame, by_frame_on, by_lock, by_request, least_held_from, least_returning_to,
    least_sent_to, least_waiting, no_cpu,
};
use wdf_maps::lesser_if;
use wdf_model::object_in;
use wdf_parts::Parts;
use wdf_plan_index::IndexedPlan;

/// The least request that the driver holds from a queue.
fn by_held<A: Agent>(plan: &IndexedPlan, parts: &Parts<A>, q: ObjectId) -> Option<Cause>
    ensures { result ≡ waits.by_request plan.now parts.now (state.held_from parts.now q.0) }
{
    by_request(plan, parts, least_held_from(plan, parts, q))
}

#[tactic(auto, using(wdf_maps::proofs::Leasts::least_append))]
/// The least request that the driver holds from a queue, or that waits in it.
fn by_held_or_waiting<A: Agent>(plan: &IndexedPlan, parts: &Parts<A>, q: ObjectId) -> Option<Cause>
    ensures { result ≡ waits.by_request plan.now parts.now (state.held_from parts.now q.0 ++ waiting_in parts.now.queues q.0) }
{
    let held = least_held_from(plan, parts, q);
    let waiting = least_waiting(parts, q);
    by_request(plan, parts, lesser_if(held, waiting))
}

#[tactic(auto, using(wdf_maps::proofs::Leasts::least_append))]
/// The least request that the driver holds from a queue, or that returns to it.
fn by_held_or_returning<A: Agent>(
    plan: &IndexedPlan,
    parts: &Parts<A>,
    q: ObjectId,
) -> Option<Cause>
    ensures { result ≡ waits.by_request plan.now parts.now (state.held_from parts.now q.0 ++ waits.requests_where parts.now (is_returning_to q.0)) }
{
    let held = least_held_from(plan, parts, q);
    let returning = least_returning_to(plan, parts, q);
    by_request(plan, parts, lesser_if(held, returning))
}

/// The least request that is sent to a target.
fn by_sent<A: Agent>(plan: &IndexedPlan, parts: &Parts<A>, t: ObjectId) -> Option<Cause>
    ensures { result ≡ waits.by_request plan.now parts.now (waits.requests_where parts.now (is_sent_to t.0)) }
{
    by_request(plan, parts, least_sent_to(plan, parts, t))
}

/// What keeps the flush of a work item: a frame that runs on it, else that it is queued.
fn flush_cause<A: Agent>(plan: &IndexedPlan, parts: &Parts<A>, o: ObjectId) -> Option<Cause>
    ensures { result ≡ waits.first_cause (waits.by_frame_on parts.now o.0 ∷ waits.cause_if (is_work_queued parts.now.work_items o.0) (cause.ByWork (state.handle_in plan.now parts.now o.0)) ∷ []) }
{
    if let Some(frame) = by_frame_on(parts, o) {
        return Some(frame);
    }
    if parts.work_items().is_work_queued(o) {
        return Some(Cause::ByWork {
            work: parts.handle_in(plan, o),
        });
    }
    None
}

/// What a call waits for.
fn call_cause<A: Agent>(plan: &IndexedPlan, parts: &Parts<A>, call: &Call) -> Option<Cause>
    ensures { result ≡ waits.call_cause plan.now parts.now call.now }
{
    let o = object_in(call.a);
    match call.kind {
        CallKind::WdfSpinLockAcquire => by_lock(plan, parts, o),
        CallKind::WdfWaitLockAcquire => by_lock(plan, parts, o),
        CallKind::WdfInterruptAcquireLock => by_lock(plan, parts, o),
        CallKind::WdfIoQueueStopSynchronously => by_held(plan, parts, o),
        CallKind::WdfIoQueueDrainSynchronously => by_held_or_waiting(plan, parts, o),
        CallKind::WdfIoQueuePurgeSynchronously => by_held_or_returning(plan, parts, o),
        CallKind::WdfIoTargetStop => by_sent(plan, parts, o),
        CallKind::WdfDpcCancel => by_frame_on(parts, o),
        CallKind::WdfTimerStop => by_frame_on(parts, o),
        CallKind::WdfWorkItemFlush => flush_cause(plan, parts, o),
        _ => None,
    }
}

/// What a frame waits for, if it waits.
fn pending_cause<A: Agent>(
    plan: &IndexedPlan,
    parts: &Parts<A>,
    pending: Option<Pending>,
) -> Option<Cause>
    ensures { result ≡ waits.pending_cause plan.now parts.now pending }
{
    match pending {
        Some(pending) => call_cause(plan, parts, &pending.call),
        None => None,
    }
}

/// Whether a frame waits, and its wait is over.
fn wait_is_over<A: Agent>(parts: &Parts<A>, pending: Option<Pending>) -> bool
    ensures { result ≡ steps.wait_is_over parts.now pending }
{
    match pending {
        Some(pending) => is_met(parts, &pending.call),
        None => false,
    }
}

/// Whether a parked frame whose wait is over finds no empty processor.
fn parked_for_cpu<A: Agent>(plan: &IndexedPlan, parts: &Parts<A>, f: FrameId) -> bool
    ensures { result ≡ waits.parked_for_cpu plan.now parts.now f.0 }
{
    parts.cpus().is_parked(f)
        && wait_is_over(parts, parts.cpus().frame(f).pending)
        && no_cpu(plan, parts, PASSIVE_LEVEL)
}

/// The least of the frames above one on its processor.
fn by_frame_above<A: Agent>(parts: &Parts<A>, f: FrameId) -> Option<Cause>
    ensures { result ≡ waits.by_frame (waits.frames_above parts.now f.0) }
{
    by_frame(parts.cpus().least_above(f).map(|above| above.0))
}

/// Why a frame has no step.
fn frame_cause<A: Agent>(plan: &IndexedPlan, parts: &Parts<A>, f: FrameId) -> Option<Cause>
    ensures { result ≡ waits.frame_cause plan.now parts.now f.0 }
{
    if let Some(above) = by_frame_above(parts, f) {
        return Some(above);
    }
    if let Some(pending) = pending_cause(plan, parts, parts.cpus().frame(f).pending) {
        return Some(pending);
    }
    if parked_for_cpu(plan, parts, f) {
        return Some(Cause::NoCpu);
    }
    None
}

/// The line of a frame.
pub(crate) fn frame_line<A: Agent>(plan: &IndexedPlan, parts: &Parts<A>, f: FrameId) -> WaitLine
    ensures { result ≡ waits.frame_line plan.now parts.now f.0 }
{
    let frame = parts.cpus().frame(f);
    WaitLine {
        thing: OpenThing::Waiting {
            frame: f,
            callback: frame.callback,
            object: frame.object,
        },
        cause: frame_cause(plan, parts, f),
    }
}
