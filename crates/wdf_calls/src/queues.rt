//! Queues: their front, and their notification.
ghost use Rattle.std.specs.Prelude.{◌≡◌, ◌∷◌, [], option_map};
ghost use Rattle.wdf_model.specs.rules.Calls as calls;

use crate::answers::{Outcome, answer, does, refused};
use wdf_base::{Agent, Arg, Callback, ObjectId, Status, Value};
use wdf_model::{Deed, Mode};
use wdf_parts::{Deeds, Parts};
use wdf_plan_index::IndexedPlan;

/// The front of a queue, if there is one, is presented to the caller. (KMDF)
fn retrieve_front<A: Agent>(
    plan: &IndexedPlan,
    parts: &Parts<A>,
    queue: ObjectId,
    front: Option<ObjectId>,
) -> Outcome
    ensures answer { result.answer ≡ (calls.retrieve_front plan.now parts.now queue.0 (option_map (λ r. r.0) front)).answer }
    ensures deeds { result.deeds ≡ (calls.retrieve_front plan.now parts.now queue.0 (option_map (λ r. r.0) front)).deeds }
{
    match front {
        None => refused(Status::NoMoreEntries),
        Some(request) => {
            let handle = parts.handle_in(plan, request);
            let deed = Deed::Present { queue, request };
            answer(Value::Obj(handle), Deeds::one(deed))
        }
    }
}

/// The next request of a queue, where it delivers. (KMDF: not of a parallel queue; own: without asking
/// whether a sequential queue is free)
pub(crate) fn retrieve_outcome<A: Agent>(
    plan: &IndexedPlan,
    parts: &Parts<A>,
    queue: ObjectId,
) -> Outcome
    ensures answer { result.answer ≡ (calls.retrieve_outcome plan.now parts.now queue.0).answer }
    ensures deeds { result.deeds ≡ (calls.retrieve_outcome plan.now parts.now queue.0).deeds }
{
    if plan.is_parallel_queue(queue) {
        refused(Status::InvalidDeviceState)
    } else if !parts.queue_delivers(plan, queue) {
        refused(Status::WdfPaused)
    } else {
        retrieve_front(plan, parts, queue, parts.queues().front(queue))
    }
}

/// Notification of a manual queue is registered, or not. (KMDF; own: at any time)
pub(crate) fn notify_outcome(plan: &IndexedPlan, queue: ObjectId, context: Arg) -> Outcome
    ensures answer { result.answer ≡ (calls.notify_outcome plan.now queue.0 context).answer }
    ensures deeds { result.deeds ≡ (calls.notify_outcome plan.now queue.0 context).deeds }
{
    if plan.is_manual_queue(queue) && plan.declares(Callback::EvtIoQueueState, queue) {
        let on = !context.is_number(0);
        does(Deed::RegisterQueue { queue, on })
    } else {
        refused(Status::InvalidDeviceRequest)
    }
}

/// A control call of a queue but a purge. (KMDF: Start, Stop and Drain)
pub(crate) fn mode_outcome(queue: ObjectId, mode: Mode) -> Outcome
    ensures answer { result.answer ≡ (calls.success (Deed.SetMode queue mode ∷ [])).answer }
    ensures deeds { result.deeds ≡ (calls.success (Deed.SetMode queue mode ∷ [])).deeds }
{
    does(Deed::SetMode { queue, mode })
}
