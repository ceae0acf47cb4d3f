//! The frames that keep a step of a device, looked for by processors and by queues.
ghost use Rattle.std.specs.Prelude.{◌≡◌, None};
ghost use Rattle.std.specs.List.{flat_map};
ghost use Rattle.wdf_base.specs.declared.event.Stage.TheVariants as stage;
ghost use Rattle.wdf_model.specs.Tables.{least};
ghost use Rattle.wdf_model.specs.rules.Waits as waits;
ghost use Rattle.wdf_causes.specs.Keepers as keepers;

use crate::causes::least_holder;
use crate::cpus::{has_dpc_of, head_lock, no_cpu};
use crate::least::{least_on, some_resume};
use wdf_base::{Agent, Callback, Cpu, ObjectId};
use wdf_lock::scope_of;
use wdf_maps::lesser_if;
use wdf_parts::Parts;
use wdf_plan_index::IndexedPlan;

/// The frame that holds the lock that the first DPC of a processor's list needs, where a DPC of the
/// device is in that list.
fn head_holder<A: Agent>(plan: &IndexedPlan, parts: &Parts<A>, d: ObjectId, cpu: Cpu) -> Option<u32>
    ensures { result ≡ least (keepers.head_holders plan.now parts.now d.0 cpu.0) }
{
    if has_dpc_of(plan, parts, d, cpu) {
        least_holder(parts, head_lock(plan, parts, cpu))
    } else {
        None
    }
}

#[tactic(auto, using(crate::proofs::OnCpus::heads_at_first, crate::proofs::OnCpus::heads_after, crate::proofs::OnCpus::heads_at_last))]
/// The least frame that holds a lock without which no DPC of a device comes next on its processor.
pub(crate) fn least_head_holder<A: Agent>(
    plan: &IndexedPlan,
    parts: &Parts<A>,
    d: ObjectId,
) -> Option<u32>
    ensures { result ≡ least (flat_map (λ cpu. waits.holders_of parts.now (waits.head_lock plan.now parts.now cpu)) (waits.cpus_with_dpc plan.now parts.now d.0)) }
{
    let mut least = None;
    for cpu in 0..plan.plan().cpus() {
        least = lesser_if(least, head_holder(plan, parts, d, Cpu(cpu)));
    }
    least
}

/// Whether a queue is a power-managed one of a device.
fn is_managed_at(plan: &IndexedPlan, d: ObjectId, q: ObjectId) -> bool
    ensures { result ≡ keepers.is_managed_at plan.now d.0 q.0 }
{
    plan.is_queue_of(d, q) && plan.is_managed(q)
}

/// Whether a queue is a power-managed one of a device, and a resume is due from it.
fn is_to_resume<A: Agent>(plan: &IndexedPlan, parts: &Parts<A>, d: ObjectId, q: ObjectId) -> bool
    ensures { result ≡ keepers.is_to_resume plan.now parts.now d.0 q.0 }
{
    is_managed_at(plan, d, q) && some_resume(plan, parts, q)
}

/// The frame that holds the scope lock that EvtIoResume of a queue needs, where a resume is due from it.
fn resume_holder<A: Agent>(
    plan: &IndexedPlan,
    parts: &Parts<A>,
    d: ObjectId,
    q: ObjectId,
) -> Option<u32>
    ensures { result ≡ least (keepers.resume_holders plan.now parts.now d.0 q.0) }
{
    if is_to_resume(plan, parts, d, q) {
        let declared = parts.declared_in(plan, q);
        least_holder(
            parts,
            scope_of(plan.plan(), Callback::EvtIoResume, q, declared),
        )
    } else {
        None
    }
}

#[tactic(auto, using(crate::proofs::OnDeclared::holders_at_first, crate::proofs::OnDeclared::holders_after, crate::proofs::OnDeclared::holders_at_last))]
/// The least frame that holds a scope lock that an EvtIoResume of a device needs.
pub fn least_resume_holder<A: Agent>(
    plan: &IndexedPlan,
    parts: &Parts<A>,
    d: ObjectId,
) -> Option<u32>
    ensures { result ≡ least (waits.scope_holders plan.now parts.now (waits.queues_to_resume plan.now parts.now d.0)) }
{
    let mut least = None;
    for k in 0..plan.declared_len() {
        least = lesser_if(least, resume_holder(plan, parts, d, ObjectId(k + 1)));
    }
    least
}

#[tactic(auto, using(crate::proofs::OnDeclared::left_at_first, crate::proofs::OnDeclared::left_after, crate::proofs::OnDeclared::left_here, crate::proofs::OnDeclared::left_nowhere))]
/// Whether no processor is left for some EvtIoResume of a device.
pub fn no_cpu_for_resume<A: Agent>(plan: &IndexedPlan, parts: &Parts<A>, d: ObjectId) -> bool
    ensures { result ≡ waits.resume_cpus plan.now parts.now d.0 }
{
    for k in 0..plan.declared_len() {
        let q = ObjectId(k + 1);
        let level = plan.callback_irql(Callback::EvtIoResume, q);
        if is_to_resume(plan, parts, d, q) && no_cpu(plan, parts, level) {
            return true;
        }
    }
    false
}

/// The least frame that runs on a queue, where that is a power-managed one of the device.
fn frame_on_queue<A: Agent>(
    plan: &IndexedPlan,
    parts: &Parts<A>,
    d: ObjectId,
    q: ObjectId,
) -> Option<u32>
    ensures { result ≡ least (keepers.frames_on_queue plan.now parts.now d.0 q.0) }
{
    if is_managed_at(plan, d, q) {
        least_on(parts, q)
    } else {
        None
    }
}

#[tactic(auto, using(crate::proofs::OnDeclared::running_at_first, crate::proofs::OnDeclared::running_after, crate::proofs::OnDeclared::running_at_last))]
/// The least frame that runs on a power-managed queue of a device.
pub(crate) fn least_on_managed<A: Agent>(
    plan: &IndexedPlan,
    parts: &Parts<A>,
    d: ObjectId,
) -> Option<u32>
    ensures { result ≡ least (waits.stage_frames plan.now parts.now d.0 stage.Settled None) }
{
    let mut least = None;
    for k in 0..plan.declared_len() {
        least = lesser_if(least, frame_on_queue(plan, parts, d, ObjectId(k + 1)));
    }
    least
}
