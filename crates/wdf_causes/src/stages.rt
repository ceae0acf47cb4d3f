//! What keeps a stage of a Plug and Play or power sequence.
ghost use Rattle.std.specs.Prelude.{◌≡◌};
ghost use Rattle.wdf_base.specs.declared.event.Step.TheVariants as step;
ghost use Rattle.wdf_model.specs.Tables.{least};
ghost use Rattle.wdf_model.specs.rules.Waits as waits;

use crate::causes::{by_frame, by_request, least_lock_holder};
use crate::cpus::no_cpu_for_dpc;
use crate::keepers::{least_head_holder, least_on_managed};
use crate::least::{least_left_at, least_running};
use wdf_base::{Agent, Callback, Cause, Handle, ObjectId, Stage};
use wdf_maps::lesser_if;
use wdf_parts::Parts;
use wdf_plan_index::IndexedPlan;
use wdf_starts::handle_id;

/// The least request that keeps a stage of a device.
fn least_stage_request<A: Agent>(
    plan: &IndexedPlan,
    parts: &Parts<A>,
    d: ObjectId,
    stage: Stage,
) -> Option<u32>
    ensures { result ≡ least (waits.stage_requests plan.now parts.now d.0 stage) }
{
    match stage {
        Stage::Settled => parts.power().least_unsettled(d).map(|r| r.0),
        Stage::Removed => least_left_at(plan, parts, d),
        _ => None,
    }
}

#[tactic(auto, using(wdf_maps::proofs::Leasts::least_append))]
/// The least frame that keeps `quiet` of a device: one that runs its EvtInterruptDpc, or that holds a
/// lock without which its DPC doesn't come.
fn least_quiet_frame<A: Agent>(plan: &IndexedPlan, parts: &Parts<A>, d: ObjectId) -> Option<u32>
    ensures { result ≡ least (waits.quiet_frames plan.now parts.now d.0) }
{
    let running = least_running(parts, Callback::EvtInterruptDpc, d);
    lesser_if(running, least_head_holder(plan, parts, d))
}

/// The least frame that keeps a stage of a device.
fn least_stage_frame<A: Agent>(
    plan: &IndexedPlan,
    parts: &Parts<A>,
    d: ObjectId,
    stage: Stage,
    interrupt: Option<Handle>,
) -> Option<u32>
    ensures { result ≡ least (waits.stage_frames plan.now parts.now d.0 stage interrupt) }
{
    match stage {
        Stage::Settled => least_on_managed(plan, parts, d),
        Stage::Disabled => least_lock_holder(parts, handle_id(interrupt)),
        Stage::Quiet => least_quiet_frame(plan, parts, d),
        _ => None,
    }
}

/// Whether no processor is left for what a stage waits for.
fn stage_cpus<A: Agent>(plan: &IndexedPlan, parts: &Parts<A>, d: ObjectId, stage: Stage) -> bool
    ensures { result ≡ waits.stage_cpus plan.now parts.now d.0 stage }
{
    match stage {
        Stage::Quiet => no_cpu_for_dpc(plan, parts, d),
        _ => false,
    }
}

/// Why a stage of a device isn't passed.
pub fn stage_cause<A: Agent>(
    plan: &IndexedPlan,
    parts: &Parts<A>,
    d: ObjectId,
    stage: Stage,
    interrupt: Option<Handle>,
) -> Option<Cause>
    ensures { result ≡ waits.step_cause plan.now parts.now d.0 (step.Pass stage interrupt) }
{
    if let Some(request) = by_request(plan, parts, least_stage_request(plan, parts, d, stage)) {
        return Some(request);
    }
    if let Some(frame) = by_frame(least_stage_frame(plan, parts, d, stage, interrupt)) {
        return Some(frame);
    }
    if stage_cpus(plan, parts, d, stage) {
        return Some(Cause::NoCpu);
    }
    None
}
