//! The table of the calls.
ghost use Rattle.std.specs.Prelude.{◌≡◌};
ghost use Rattle.wdf_model.specs.rules.Calls as calls;

use crate::answers::{Outcome, answer, does, success};
use crate::arguments::{class_in, number_in, value_in};
use crate::creation::{create_as_named, create_outcome};
use crate::deferred::{
    cancel_dpc_outcome, dpc_outcome, isr_dpc_outcome, stop_timer_outcome, timer_outcome,
    work_outcome,
};
use crate::locks::{acquire_outcome, release_outcome};
use crate::queues::{mode_outcome, notify_outcome, retrieve_outcome};
use crate::requests::{
    acknowledge_outcome, cancel_sent_outcome, forward_outcome, is_cancelled_outcome, mark_outcome,
    requeue_to_origin, send_outcome, unmark_outcome,
};
use wdf_base::{Agent, Call, CallKind, Cpu, FrameId};
use wdf_model::{Deed, Mode, object_in};
use wdf_parts::{Deeds, Parts};
use wdf_plan_index::IndexedPlan;

/// What a call of a frame on a processor answers and does; of a call that waits, its first part.
pub fn outcome<A: Agent>(
    plan: &IndexedPlan,
    parts: &Parts<A>,
    cpu: Cpu,
    frame: FrameId,
    call: &Call,
) -> Outcome
    ensures answer { result.answer ≡ (calls.outcome plan.now parts.now cpu.0 frame.0 call.now).answer }
    ensures deeds { result.deeds ≡ (calls.outcome plan.now parts.now cpu.0 frame.0 call.now).deeds }
{
    let class = class_in(call.a);
    let object = object_in(call.a);
    let other = object_in(call.b);
    match call.kind {
        CallKind::WdfObjectCreate => create_outcome(plan, parts, class, other),
        CallKind::WdfSpinLockCreate => create_outcome(plan, parts, class, other),
        CallKind::WdfWaitLockCreate => create_outcome(plan, parts, class, other),
        CallKind::WdfRequestCreate => create_outcome(plan, parts, class, other),
        CallKind::WdfDpcCreate => create_as_named(plan, parts, class),
        CallKind::WdfTimerCreate => create_as_named(plan, parts, class),
        CallKind::WdfWorkItemCreate => create_as_named(plan, parts, class),
        CallKind::WdfObjectDelete => does(Deed::AskDeletion { object }),
        CallKind::WdfObjectReference => does(Deed::Refer { object }),
        CallKind::WdfObjectDereference => does(Deed::Unrefer { object }),
        CallKind::GetContext => {
            answer(
                parts.tree().cell_of(object, number_in(call.b)),
                Deeds::none(),
            )
        }
        CallKind::SetContext => does(Deed::WriteCell {
            object,
            cell: number_in(call.b),
            value: value_in(call.c),
        }),
        CallKind::WdfSpinLockAcquire => acquire_outcome(plan, parts, frame, object),
        CallKind::WdfSpinLockRelease => release_outcome(plan, parts, frame, object),
        CallKind::WdfWaitLockAcquire => acquire_outcome(plan, parts, frame, object),
        CallKind::WdfWaitLockRelease => release_outcome(plan, parts, frame, object),
        CallKind::WdfInterruptAcquireLock => acquire_outcome(plan, parts, frame, object),
        CallKind::WdfInterruptReleaseLock => release_outcome(plan, parts, frame, object),
        CallKind::WdfRequestComplete => does(Deed::CompleteRequest { request: object }),
        CallKind::WdfRequestMarkCancelableEx => mark_outcome(plan, parts, object),
        CallKind::WdfRequestUnmarkCancelable => unmark_outcome(parts, object),
        CallKind::WdfRequestIsCanceled => is_cancelled_outcome(parts, object),
        CallKind::WdfRequestRequeue => requeue_to_origin(parts, object),
        CallKind::WdfRequestForwardToIoQueue => forward_outcome(plan, parts, object, other),
        CallKind::WdfRequestStopAcknowledge => acknowledge_outcome(parts, object, call.b),
        CallKind::WdfRequestSend => send_outcome(parts, object, other, call.c.is_number(1)),
        CallKind::WdfRequestCancelSentRequest => cancel_sent_outcome(parts, object),
        CallKind::WdfIoQueueStart => mode_outcome(object, Mode::Started),
        CallKind::WdfIoQueueStop => mode_outcome(object, Mode::Stopped),
        CallKind::WdfIoQueueDrain => mode_outcome(object, Mode::Drained),
        CallKind::WdfIoQueuePurge => does(Deed::PurgeQueue { queue: object }),
        CallKind::WdfIoQueueStopSynchronously => mode_outcome(object, Mode::Stopped),
        CallKind::WdfIoQueueDrainSynchronously => mode_outcome(object, Mode::Drained),
        CallKind::WdfIoQueuePurgeSynchronously => does(Deed::PurgeQueue { queue: object }),
        CallKind::WdfIoQueueRetrieveNextRequest => retrieve_outcome(plan, parts, object),
        CallKind::WdfIoQueueReadyNotify => notify_outcome(plan, object, call.b),
        CallKind::WdfInterruptQueueDpcForIsr => isr_dpc_outcome(plan, parts, cpu, object),
        CallKind::WdfDpcEnqueue => dpc_outcome(parts, cpu, object),
        CallKind::WdfDpcCancel => cancel_dpc_outcome(parts, object),
        CallKind::WdfTimerStart => timer_outcome(parts, object, number_in(call.b)),
        CallKind::WdfTimerStop => stop_timer_outcome(parts, object),
        CallKind::WdfWorkItemEnqueue => work_outcome(parts, object),
        CallKind::WdfWorkItemFlush => success(Deeds::none()),
        CallKind::WdfIoTargetStop => does(Deed::StopTarget { target: object }),
        CallKind::WdfIoTargetStart => does(Deed::StartTarget { target: object }),
    }
}
