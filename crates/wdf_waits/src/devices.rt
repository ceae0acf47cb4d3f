//! The lines of devices: the step that runs or comes next, and what keeps it.
ghost use Rattle.std.specs.Prelude.{◌≡◌, ◌∷◌, []};
ghost use Rattle.wdf_base.specs.declared.event.Step.TheVariants as step;
ghost use Rattle.wdf_model.specs.Tables.{least};
ghost use Rattle.wdf_model.specs.rules.Waits as waits;
ghost use Rattle.wdf_waits.specs.Lines as lines;

use wdf_base::{Agent, Callback, Cause, Handle, ObjectId, OpenThing, Step, WaitLine};
use wdf_causes::{
    by_frame, least_holder, least_resume_holder, least_running, no_cpu, no_cpu_for_resume,
    stage_cause,
};
use wdf_lock::lock_of_callback;
use wdf_maps::lesser_if;
use wdf_parts::Parts;
use wdf_plan_index::IndexedPlan;

/// The object of a step's callback: the interrupt, or the device where there is none.
fn object_of_step(d: ObjectId, interrupt: Option<Handle>) -> ObjectId
    ensures { result.0 ≡ waits.object_of_step d.0 interrupt }
{
    match interrupt {
        Some(interrupt) => interrupt.id,
        None => d,
    }
}

/// Why a step's callback doesn't start: the lock that it takes is held, or no processor is left.
fn run_cause<A: Agent>(
    plan: &IndexedPlan,
    parts: &Parts<A>,
    d: ObjectId,
    callback: Callback,
    interrupt: Option<Handle>,
) -> Option<Cause>
    ensures { result ≡ waits.step_cause plan.now parts.now d.0 (step.Run callback interrupt) }
{
    let o = object_of_step(d, interrupt);
    let lock = lock_of_callback(plan.plan(), callback, o, parts.declared_in(plan, o));
    if let Some(frame) = by_frame(least_holder(parts, lock)) {
        return Some(frame);
    }
    if no_cpu(plan, parts, plan.callback_irql(callback, o)) {
        return Some(Cause::NoCpu);
    }
    None
}

/// Why a step doesn't come, apart from the resumes that it waits for.
fn step_cause<A: Agent>(
    plan: &IndexedPlan,
    parts: &Parts<A>,
    d: ObjectId,
    step: Step,
) -> Option<Cause>
    ensures { result ≡ waits.step_cause plan.now parts.now d.0 step }
{
    match step {
        Step::Run {
            callback,
            interrupt,
        } => run_cause(plan, parts, d, callback, interrupt),
        Step::Pass { stage, interrupt } => stage_cause(plan, parts, d, stage, interrupt),
    }
}

#[tactic(auto, using(wdf_maps::proofs::Leasts::least_append))]
/// The least frame that runs an EvtIoResume of a device, or that holds a scope lock that one needs.
fn least_resume_frame<A: Agent>(plan: &IndexedPlan, parts: &Parts<A>, d: ObjectId) -> Option<u32>
    ensures { result ≡ least (waits.resume_frames plan.now parts.now d.0) }
{
    let running = least_running(parts, Callback::EvtIoResume, d);
    lesser_if(running, least_resume_holder(plan, parts, d))
}

/// What the step after `queues_up` waits for first: resumes. (KMDF)
fn resumes_cause<A: Agent>(plan: &IndexedPlan, parts: &Parts<A>, d: ObjectId) -> Option<Cause>
    ensures { result ≡ waits.resumes_cause plan.now parts.now d.0 }
{
    if !parts.pnp().follows_queues_up(d) {
        return None;
    }
    if let Some(frame) = by_frame(least_resume_frame(plan, parts, d)) {
        return Some(frame);
    }
    if no_cpu_for_resume(plan, parts, d) {
        return Some(Cause::NoCpu);
    }
    None
}

/// Why the next step of a device doesn't come.
fn next_step_cause<A: Agent>(
    plan: &IndexedPlan,
    parts: &Parts<A>,
    d: ObjectId,
    step: Step,
) -> Option<Cause>
    ensures { result ≡ waits.first_cause (waits.resumes_cause plan.now parts.now d.0 ∷ waits.step_cause plan.now parts.now d.0 step ∷ []) }
{
    if let Some(resumes) = resumes_cause(plan, parts, d) {
        return Some(resumes);
    }
    step_cause(plan, parts, d, step)
}

/// A running callback keeps its step.
fn running_cause<A: Agent>(parts: &Parts<A>, d: ObjectId, step: Step) -> Option<Cause>
    ensures { result ≡ waits.running_cause parts.now d.0 step }
{
    match step {
        Step::Run { callback, .. } => by_frame(least_running(parts, callback, d)),
        Step::Pass { .. } => None,
    }
}

/// The line of a device at a step.
fn step_line<A: Agent>(
    plan: &IndexedPlan,
    parts: &Parts<A>,
    d: ObjectId,
    step: Step,
    cause: Option<Cause>,
) -> WaitLine
    ensures { result ≡ lines.step_line plan.now parts.now d.0 step cause }
{
    WaitLine {
        thing: OpenThing::Sequence {
            device: parts.handle_in(plan, d),
            step,
        },
        cause,
    }
}

/// The line of a device: that of the step whose callback runs, else that of the next one.
pub(crate) fn device_line<A: Agent>(
    plan: &IndexedPlan,
    parts: &Parts<A>,
    d: ObjectId,
) -> Option<WaitLine>
    ensures { result ≡ waits.device_line plan.now parts.now d.0 }
{
    if let Some(running) = parts.pnp().running_step(d) {
        let cause = running_cause(parts, d, running);
        return Some(step_line(plan, parts, d, running, cause));
    }
    match parts.pnp().next_step(d) {
        Some(next) => {
            let cause = next_step_cause(plan, parts, d, next);
            Some(step_line(plan, parts, d, next, cause))
        }
        None => None,
    }
}
