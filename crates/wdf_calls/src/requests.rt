//! Requests: what the driver may do with those that it owns.
ghost use Rattle.std.specs.Prelude.{◌≡◌, ◌∷◌, []};
ghost use Rattle.wdf_base.specs.declared.value.Value.TheVariants.{Num, Stat};
ghost use Rattle.wdf_model.specs.Tables as tables;
ghost use Rattle.wdf_model.specs.parts.Requests as requests;
ghost use Rattle.wdf_model.specs.parts.Targets as targets;
ghost use Rattle.wdf_model.specs.rules.Calls as calls;

use crate::answers::{Outcome, answer, does, flag, number, refused};
use wdf_base::{Agent, Arg, Callback, Mark, ObjectId, Status, Value};
use wdf_model::{Deed, Mode};
use wdf_parts::{Deeds, Parts};
use wdf_plan_index::IndexedPlan;

/// The queue from which a request last became Owned; the id 0 for none.
fn origin_or_none<A: Agent>(parts: &Parts<A>, r: ObjectId) -> ObjectId
    ensures { result.0 ≡ calls.origin_or_none parts.now r.0 }
{
    match parts.requests().info(r).origin {
        Some(q) => q,
        None => ObjectId(0),
    }
}

/// Whether a request is cancelled.
fn is_cancelled<A: Agent>(parts: &Parts<A>, r: ObjectId) -> bool
    ensures { result ≡ requests.is_cancelled parts.now.requests r.0 }
{
    parts.requests().info(r).cancelled
}

/// What marking a request answers: CANCELLED where it is cancelled. (KMDF)
fn mark_answer<A: Agent>(parts: &Parts<A>, r: ObjectId) -> Status
    ensures { result ≡ requests.mark_answer parts.now.requests r.0 }
{
    if is_cancelled(parts, r) {
        Status::Cancelled
    } else {
        Status::Success
    }
}

/// A request becomes cancelable. (own: refused for a request of a queue without EvtRequestCancel)
pub(crate) fn mark_outcome<A: Agent>(
    plan: &IndexedPlan,
    parts: &Parts<A>,
    request: ObjectId,
) -> Outcome
    ensures answer { result.answer ≡ (calls.mark_outcome plan.now parts.now request.0).answer }
    ensures deeds { result.deeds ≡ (calls.mark_outcome plan.now parts.now request.0).deeds }
{
    let origin = origin_or_none(parts, request);
    if plan.declares(Callback::EvtRequestCancel, origin) {
        let status = mark_answer(parts, request);
        let deed = Deed::MarkRequest { request };
        answer(Value::Stat(status), Deeds::one(deed))
    } else {
        refused(Status::InvalidDeviceRequest)
    }
}

/// What unmarking a request answers: CANCELLED where its cancel is due or taken, INVALID_DEVICE_REQUEST
/// where it wasn't marked. (KMDF)
fn unmark_answer<A: Agent>(parts: &Parts<A>, r: ObjectId) -> Status
    ensures { result ≡ requests.unmark_answer parts.now.requests r.0 }
{
    match parts.requests().info(r).mark {
        Mark::Marked => Status::Success,
        Mark::Due => Status::Cancelled,
        Mark::Taken => Status::Cancelled,
        Mark::Unmarked => Status::InvalidDeviceRequest,
    }
}

/// A request is no longer cancelable, if its cancel isn't due. (KMDF)
pub(crate) fn unmark_outcome<A: Agent>(parts: &Parts<A>, request: ObjectId) -> Outcome
    ensures answer { result.answer ≡ Stat (requests.unmark_answer parts.now.requests request.0) }
    ensures deeds { result.deeds ≡ Deed.UnmarkRequest request ∷ [] }
{
    let status = unmark_answer(parts, request);
    let deed = Deed::UnmarkRequest { request };
    answer(Value::Stat(status), Deeds::one(deed))
}

/// 1 for a request that is cancelled, 0 for another. (KMDF)
pub(crate) fn is_cancelled_outcome<A: Agent>(parts: &Parts<A>, request: ObjectId) -> Outcome
    ensures answer { result.answer ≡ Num (tables.flag (requests.is_cancelled parts.now.requests request.0)) }
    ensures deeds { result.deeds ≡ [] }
{
    number(flag(is_cancelled(parts, request)), Deeds::none())
}

/// A request goes back to the head of a queue. One that is cancelled, or whose queue is Purged, is
/// cancelled in it at once. (KMDF)
pub(crate) fn requeue_outcome<A: Agent>(
    parts: &Parts<A>,
    request: ObjectId,
    queue: ObjectId,
) -> Outcome
    ensures answer { result.answer ≡ (calls.requeue_outcome parts.now request.0 queue.0).answer }
    ensures deeds { result.deeds ≡ (calls.requeue_outcome parts.now request.0 queue.0).deeds }
{
    if is_cancelled(parts, request) || matches!(parts.control().mode_of(queue), Mode::Purged) {
        does(Deed::GiveBack { request, queue })
    } else {
        does(Deed::Requeue { request, queue })
    }
}

/// A request goes back to the head of the queue that it came from. (KMDF)
pub(crate) fn requeue_to_origin<A: Agent>(parts: &Parts<A>, request: ObjectId) -> Outcome
    ensures answer { result.answer ≡ (calls.requeue_outcome parts.now request.0 (calls.origin_or_none parts.now request.0)).answer }
    ensures deeds { result.deeds ≡ (calls.requeue_outcome parts.now request.0 (calls.origin_or_none parts.now request.0)).deeds }
{
    requeue_outcome(parts, request, origin_or_none(parts, request))
}

/// Whether a queue is one that a request can't be forwarded to: its own, one of another device, or one
/// that has no handler for it. (own)
fn forwards_nowhere<A: Agent>(
    plan: &IndexedPlan,
    parts: &Parts<A>,
    r: ObjectId,
    q: ObjectId,
) -> bool
    ensures { result ≡ calls.forwards_nowhere plan.now parts.now r.0 q.0 }
{
    let info = parts.requests().info(r);
    origin_or_none(parts, r).0 == q.0
        || plan.device_of_queue(q).0 != info.device.0
        || !(plan.is_manual_queue(q) || plan.has_handler(q, info.form))
}

/// A request goes to the tail of another queue of the device, which accepts. (KMDF; own: what is refused)
pub(crate) fn forward_outcome<A: Agent>(
    plan: &IndexedPlan,
    parts: &Parts<A>,
    request: ObjectId,
    queue: ObjectId,
) -> Outcome
    ensures answer { result.answer ≡ (calls.forward_outcome plan.now parts.now request.0 queue.0).answer }
    ensures deeds { result.deeds ≡ (calls.forward_outcome plan.now parts.now request.0 queue.0).deeds }
{
    if forwards_nowhere(plan, parts, request, queue) {
        refused(Status::InvalidDeviceRequest)
    } else if !parts.control().accepts(queue) {
        refused(Status::WdfBusy)
    } else if is_cancelled(parts, request) {
        does(Deed::GiveBack { request, queue })
    } else {
        does(Deed::Forward { request, queue })
    }
}

/// EvtIoStop is answered: with 0 the request is kept, else it goes back to its queue. (KMDF)
pub(crate) fn acknowledge_outcome<A: Agent>(
    parts: &Parts<A>,
    request: ObjectId,
    requeue: Arg,
) -> Outcome
    ensures answer { result.answer ≡ (calls.acknowledge_outcome parts.now request.0 requeue).answer }
    ensures deeds { result.deeds ≡ (calls.acknowledge_outcome parts.now request.0 requeue).deeds }
{
    if requeue.is_number(0) {
        does(Deed::Acknowledge { request })
    } else {
        requeue_to_origin(parts, request)
    }
}

/// Whether a request may be sent to a target: it is live and takes more, and the request isn't
/// cancelled. (own)
fn may_send<A: Agent>(parts: &Parts<A>, r: ObjectId, t: ObjectId) -> bool
    ensures { result ≡ calls.may_send parts.now r.0 t.0 }
{
    parts.is_live(t) && parts.targets().takes_more(t) && !is_cancelled(parts, r)
}

/// A request is sent to a target, or isn't. (KMDF; own: when it isn't)
pub(crate) fn send_outcome<A: Agent>(
    parts: &Parts<A>,
    request: ObjectId,
    target: ObjectId,
    forget: bool,
) -> Outcome
    ensures answer { result.answer ≡ (calls.send_outcome parts.now request.0 target.0 forget).answer }
    ensures deeds { result.deeds ≡ (calls.send_outcome parts.now request.0 target.0 forget).deeds }
{
    if may_send(parts, request, target) {
        let deed = Deed::SendRequest {
            request,
            target,
            forget,
        };
        number(1, Deeds::one(deed))
    } else {
        number(0, Deeds::none())
    }
}

/// The target of a sent request is told to cancel it: 1 if it has it and isn't done, else 0. (KMDF)
pub(crate) fn cancel_sent_outcome<A: Agent>(parts: &Parts<A>, request: ObjectId) -> Outcome
    ensures answer { result.answer ≡ Num (tables.flag (targets.is_undone parts.now.targets request.0)) }
    ensures deeds { result.deeds ≡ [] }
{
    number(flag(parts.targets().is_undone(request)), Deeds::none())
}
