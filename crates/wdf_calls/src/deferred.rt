//! Deferred work: DPCs, timers and work items. What isn't live is never queued.
ghost use Rattle.std.specs.Prelude.{◌≡◌, ◌∷◌, []};
ghost use Rattle.wdf_model.specs.Tables.{flag};
ghost use Rattle.wdf_model.specs.parts.Deferred.Dpcs as dpcs;
ghost use Rattle.wdf_model.specs.parts.Deferred.Timers as timers;
ghost use Rattle.wdf_model.specs.rules.Calls as calls;

use crate::answers::{Outcome, does, flag, number, success};
use wdf_base::{Agent, Callback, Cpu, ObjectId};
use wdf_model::Deed;
use wdf_parts::{Deeds, Parts};
use wdf_plan_index::IndexedPlan;

/// An interrupt's DPC is queued last on a processor: that of an enabled one that declares an
/// EvtInterruptDpc and isn't queued already. (KMDF)
pub(crate) fn isr_dpc_outcome<A: Agent>(
    plan: &IndexedPlan,
    parts: &Parts<A>,
    cpu: Cpu,
    object: ObjectId,
) -> Outcome
    ensures answer { result.answer ≡ (calls.isr_dpc_outcome plan.now parts.now cpu.0 object.0).answer }
    ensures deeds { result.deeds ≡ (calls.isr_dpc_outcome plan.now parts.now cpu.0 object.0).deeds }
{
    if parts.interrupts().is_enabled(object)
        && plan.declares(Callback::EvtInterruptDpc, object)
        && !parts.dpcs().is_dpc_queued(object)
    {
        number(1, Deeds::one(Deed::EnqueueDpc { cpu, object }))
    } else {
        number(0, Deeds::none())
    }
}

/// A DPC is queued last on a processor, if it isn't queued already. (KMDF)
pub(crate) fn dpc_outcome<A: Agent>(parts: &Parts<A>, cpu: Cpu, object: ObjectId) -> Outcome
    ensures answer { result.answer ≡ (calls.dpc_outcome parts.now cpu.0 object.0).answer }
    ensures deeds { result.deeds ≡ (calls.dpc_outcome parts.now cpu.0 object.0).deeds }
{
    if parts.is_live(object) && !parts.dpcs().is_dpc_queued(object) {
        number(1, Deeds::one(Deed::EnqueueDpc { cpu, object }))
    } else {
        number(0, Deeds::none())
    }
}

/// A timer is due so many ticks from now. (KMDF)
pub(crate) fn timer_outcome<A: Agent>(parts: &Parts<A>, object: ObjectId, ticks: u64) -> Outcome
    ensures answer { result.answer ≡ (calls.timer_outcome parts.now object.0 ticks).answer }
    ensures deeds { result.deeds ≡ (calls.timer_outcome parts.now object.0 ticks).deeds }
{
    if parts.is_live(object) {
        let was_queued = flag(parts.timers().is_timer_queued(object));
        number(was_queued, Deeds::one(Deed::StartTimer { object, ticks }))
    } else {
        number(0, Deeds::none())
    }
}

/// A work item is queued, once. (KMDF)
pub(crate) fn work_outcome<A: Agent>(parts: &Parts<A>, object: ObjectId) -> Outcome
    ensures answer { result.answer ≡ (calls.work_outcome parts.now object.0).answer }
    ensures deeds { result.deeds ≡ (calls.work_outcome parts.now object.0).deeds }
{
    if parts.is_live(object) {
        does(Deed::EnqueueWork { object })
    } else {
        success(Deeds::none())
    }
}

/// A DPC is taken out of its queue; 1 if it was there. (KMDF)
pub(crate) fn cancel_dpc_outcome<A: Agent>(parts: &Parts<A>, object: ObjectId) -> Outcome
    ensures answer { result.answer ≡ (calls.number (flag (dpcs.is_dpc_queued parts.now.dpcs object.0)) (Deed.CancelDpc object ∷ [])).answer }
    ensures deeds { result.deeds ≡ (calls.number (flag (dpcs.is_dpc_queued parts.now.dpcs object.0)) (Deed.CancelDpc object ∷ [])).deeds }
{
    let was_queued = flag(parts.dpcs().is_dpc_queued(object));
    number(was_queued, Deeds::one(Deed::CancelDpc { object }))
}

/// A timer is taken out of its queue; 1 if it was there. (KMDF)
pub(crate) fn stop_timer_outcome<A: Agent>(parts: &Parts<A>, object: ObjectId) -> Outcome
    ensures answer { result.answer ≡ (calls.number (flag (timers.is_timer_queued parts.now.timers object.0)) (Deed.StopTimer object ∷ [])).answer }
    ensures deeds { result.deeds ≡ (calls.number (flag (timers.is_timer_queued parts.now.timers object.0)) (Deed.StopTimer object ∷ [])).deeds }
{
    let was_queued = flag(parts.timers().is_timer_queued(object));
    number(was_queued, Deeds::one(Deed::StopTimer { object }))
}
