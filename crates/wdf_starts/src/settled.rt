//! When the interrupts and the power-managed queues of a device are at rest.
ghost use Rattle.std.specs.Prelude.{◌≡◌, not};
ghost use Rattle.std.specs.List.{list_all};
ghost use Rattle.wdf_model.specs.Plans as plans;
ghost use Rattle.wdf_model.specs.parts.Cpus.{nobody_on};
ghost use Rattle.wdf_model.specs.parts.Deferred.Dpcs.{is_dpc_queued};
ghost use Rattle.wdf_model.specs.rules.Starts as starts;

use wdf_base::{Agent, Callback, ObjectId};
use wdf_parts::Parts;
use wdf_plan_index::IndexedPlan;

/// Whether no EvtInterruptDpc of a device is queued or runs.
pub fn is_quiet<A: Agent>(plan: &IndexedPlan, parts: &Parts<A>, d: ObjectId) -> bool
    ensures { result ≡ starts.is_quiet plan.now parts.now d.0 }
{
    no_interrupt_queued(plan, parts, d) && !parts.cpus().is_running(Callback::EvtInterruptDpc, d)
}

/// Whether no interrupt of a device is queued for its EvtInterruptDpc.
fn no_interrupt_queued<A: Agent>(plan: &IndexedPlan, parts: &Parts<A>, d: ObjectId) -> bool
    ensures { result ≡ list_all (λ i. not (is_dpc_queued parts.now.dpcs i)) (plans.interrupts_of plan.now d.0) }
{
    plan.interrupts_of(d)
        .all(|i| !parts.dpcs().is_dpc_queued(i))
}

/// Whether each request that is held from the power-managed queues of a device is acknowledged, and no
/// frame runs on one of these queues.
pub fn is_settled<A: Agent>(plan: &IndexedPlan, parts: &Parts<A>, d: ObjectId) -> bool
    ensures { result ≡ starts.is_settled plan.now parts.now d.0 }
{
    parts.power().unsettled(d) == 0 && nobody_on_managed(plan, parts, d)
}

/// Whether no frame runs on a power-managed queue of a device.
fn nobody_on_managed<A: Agent>(plan: &IndexedPlan, parts: &Parts<A>, d: ObjectId) -> bool
    ensures { result ≡ list_all (nobody_on parts.now.cpus) (plans.managed_queues plan.now d.0) }
{
    plan.queues_of(d)
        .filter(|q| plan.is_managed(*q))
        .all(|q| parts.cpus().nobody_on(q))
}
