//! Which processors are left for a start, and what is in their lists of DPCs.
ghost use Rattle.std.specs.Prelude.{◌≡◌};
ghost use Rattle.wdf_base.specs.declared.event.Stage.TheVariants as stage;
ghost use Rattle.wdf_model.specs.rules.Waits as waits;

use wdf_base::{Agent, Cpu, Irql, LockRef, ObjectId};
use wdf_lock::scope_of;
use wdf_parts::Parts;
use wdf_plan_index::IndexedPlan;
use wdf_starts::level_fits;

/// The level of DPCs, of timers and of completion routines.
pub const DISPATCH_LEVEL: Irql = Irql(2);

/// The level of an empty processor.
pub const PASSIVE_LEVEL: Irql = Irql(0);

#[tactic(auto, using(crate::proofs::OnCpus::none_at_first, crate::proofs::OnCpus::none_after, crate::proofs::OnCpus::none_but_this, crate::proofs::OnCpus::none_at_all))]
/// Whether no processor can take a start of this level.
pub fn no_cpu<A: Agent>(plan: &IndexedPlan, parts: &Parts<A>, level: Irql) -> bool
    ensures { result ≡ waits.no_cpu plan.now parts.now level.0 }
{
    for cpu in 0..plan.plan().cpus() {
        if level_fits(parts, Cpu(cpu), level) {
            return false;
        }
    }
    true
}

#[tactic(auto, using(crate::proofs::OnDeclared::queued_at_first, crate::proofs::OnDeclared::queued_after, crate::proofs::OnDeclared::queued_here, crate::proofs::OnDeclared::queued_nowhere))]
/// Whether a DPC of a device is in a processor's list.
pub(crate) fn has_dpc_of<A: Agent>(
    plan: &IndexedPlan,
    parts: &Parts<A>,
    d: ObjectId,
    cpu: Cpu,
) -> bool
    ensures { result ≡ waits.has_dpc_of plan.now parts.now d.0 cpu.0 }
{
    for k in 0..plan.declared_len() {
        let i = ObjectId(k + 1);
        if plan.is_interrupt_of(d, i) && parts.dpcs().is_on(cpu, i) {
            return true;
        }
    }
    false
}

#[tactic(auto, using(crate::proofs::OnCpus::blocked_at_first, crate::proofs::OnCpus::blocked_after, crate::proofs::OnCpus::blocked_here, crate::proofs::OnCpus::blocked_nowhere))]
/// Whether some processor that has a DPC of a device in its list can't take the start of a DPC.
pub(crate) fn no_cpu_for_dpc<A: Agent>(plan: &IndexedPlan, parts: &Parts<A>, d: ObjectId) -> bool
    ensures { result ≡ waits.stage_cpus plan.now parts.now d.0 stage.Quiet }
{
    for cpu in 0..plan.plan().cpus() {
        if has_dpc_of(plan, parts, d, Cpu(cpu)) && !level_fits(parts, Cpu(cpu), DISPATCH_LEVEL) {
            return true;
        }
    }
    false
}

#[tactic(auto, using(crate::proofs::OnCpus::holding_at_first, crate::proofs::OnCpus::holding_after, crate::proofs::OnCpus::holding_here, crate::proofs::OnCpus::holding_nowhere))]
/// The processor in whose list a DPC is, the first where it is in none.
pub fn cpu_of_dpc<A: Agent>(plan: &IndexedPlan, parts: &Parts<A>, o: ObjectId) -> Cpu
    ensures { result.0 ≡ waits.cpu_of_dpc plan.now parts.now o.0 }
{
    for cpu in 0..plan.plan().cpus() {
        if parts.dpcs().is_on(Cpu(cpu), o) {
            return Cpu(cpu);
        }
    }
    Cpu(0)
}

/// The scope lock that the first DPC of a processor's list needs.
pub fn head_lock<A: Agent>(plan: &IndexedPlan, parts: &Parts<A>, cpu: Cpu) -> Option<LockRef>
    ensures { result ≡ waits.head_lock plan.now parts.now cpu.0 }
{
    match parts.dpcs().dpc_head(cpu) {
        Some(o) => scope_of(
            plan.plan(),
            parts.tree().kind(o).dpc_function(),
            o,
            parts.declared_in(plan, o),
        ),
        None => None,
    }
}
