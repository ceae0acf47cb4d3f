//! Steps of Plug and Play and power sequences: when a step may come, and what a stage does.
ghost use Rattle.std.specs.Prelude.{◌≡◌};
ghost use Rattle.std.specs.Option.{option_to_list};
ghost use Rattle.wdf_base.specs.declared.plan.Plan.{Plan};
ghost use Rattle.wdf_model.specs.rules.Deeds.{do_deeds};
ghost use Rattle.wdf_model.specs.rules.Room.{AreDoable};
ghost use Rattle.wdf_model.specs.rules.Starts as starts;

use crate::checks::{handle_id, is_step};
use crate::drained::is_drained;
use crate::settled::{is_quiet, is_settled};
use wdf_base::{Agent, Callback, Handle, LockRef, ObjectId, Stage, Step};
use wdf_model::Deed;
use wdf_parts::Parts;
use wdf_plan_index::IndexedPlan;

/// Whether the step after `queues_up` needn't wait: no resume is due, and no EvtIoResume runs.
pub fn resumes_over<A: Agent>(parts: &Parts<A>, d: ObjectId) -> bool
    ensures { result ≡ starts.resumes_over parts.now d.0 }
{
    !parts.power().any_resume_due(d) && !parts.cpus().is_running(Callback::EvtIoResume, d)
}

/// Whether a step of a device may come: it is the next one, the callback before it has ended, and it
/// waits for resumes where it must. (own)
pub fn step_ready<A: Agent>(parts: &Parts<A>, d: ObjectId, step: Step) -> bool
    ensures { result ≡ starts.step_ready parts.now d.0 step }
{
    is_step(parts.pnp().next_step(d), step)
        && !parts.pnp().is_running_step(d)
        && (!parts.pnp().follows_queues_up(d) || resumes_over(parts, d))
}

/// Whether what a stage waits for is so. (own)
///
/// - `settled`: held requests are acknowledged, and no frame is on a power-managed queue of the device.
/// - `disabled`: the interrupt's lock is free.
/// - `quiet`: no EvtInterruptDpc of the device is queued or runs.
/// - `removed`: its arrived requests are done, and nothing is sent to its targets.
/// - The others wait for nothing.
pub fn stage_ready<A: Agent>(
    plan: &IndexedPlan,
    parts: &Parts<A>,
    d: ObjectId,
    stage: Stage,
    interrupt: Option<Handle>,
) -> bool
    ensures { result ≡ starts.stage_ready plan.now parts.now d.0 stage interrupt }
{
    match stage {
        Stage::Settled => is_settled(plan, parts, d),
        Stage::Disabled => parts
            .locks()
            .is_free_lock(LockRef::Object(handle_id(interrupt))),
        Stage::Quiet => is_quiet(plan, parts, d),
        Stage::Removed => is_drained(plan, parts, d),
        _ => true,
    }
}

/// Whether a device may pass a stage.
pub fn may_pass<A: Agent>(
    plan: &IndexedPlan,
    parts: &Parts<A>,
    d: ObjectId,
    stage: Stage,
    interrupt: Option<Handle>,
) -> bool
    ensures { result ≡ starts.may_pass plan.now parts.now d.0 stage interrupt }
{
    step_ready(parts, d, Step::Pass { stage, interrupt })
        && stage_ready(plan, parts, d, stage, interrupt)
}

/// What a stage does beside power and phase. (own)
fn stage_effect(d: ObjectId, stage: Stage, interrupt: Option<Handle>) -> Option<Deed>
    ensures { (plan : Plan) → option_to_list result ≡ starts.stage_effect plan d.0 stage interrupt }
{
    match stage {
        Stage::Enabled => Some(Deed::EnableInterrupt {
            interrupt: handle_id(interrupt),
        }),
        Stage::Disabled => Some(Deed::DisableInterrupt {
            interrupt: handle_id(interrupt),
        }),
        Stage::QueuesDown => Some(Deed::CloseReturning { device: d }),
        Stage::Closed => Some(Deed::CloseDevice { device: d }),
        Stage::Removed => Some(Deed::AskDeletion { object: d }),
        _ => None,
    }
}

/// What passing a stage does is done: the step is taken, power follows it, and the stage has its effect. (own)
pub fn pass_stage<A: Agent>(
    plan: &IndexedPlan,
    parts: &mut Parts<A>,
    d: ObjectId,
    stage: Stage,
    interrupt: Option<Handle>,
)
    requires { AreDoable plan.now (starts.stage_deeds plan.now d.0 stage interrupt) parts.old }
    ensures { parts.new ≡ do_deeds plan.now (starts.stage_deeds plan.now d.0 stage interrupt) parts.old }
{
    let step = Step::Pass { stage, interrupt };
    parts.do_deed(plan, &Deed::TakeStep { device: d });
    parts.do_deed(plan, &Deed::AdvancePower { device: d, step });
    parts.do_if_any(plan, &stage_effect(d, stage, interrupt));
}

/// The interrupt of a step's callback; none where the device itself is its object.
fn interrupt_of_step<A: Agent>(plan: &IndexedPlan, parts: &Parts<A>, o: ObjectId) -> Option<Handle>
    ensures { result ≡ starts.interrupt_of_step plan.now parts.now o.0 }
{
    if plan.interrupt_of(o).is_some() {
        Some(parts.handle_in(plan, o))
    } else {
        None
    }
}

/// A callback as the step that it is.
pub fn step_of<A: Agent>(
    plan: &IndexedPlan,
    parts: &Parts<A>,
    callback: Callback,
    o: ObjectId,
) -> Step
    ensures { result ≡ starts.step_of plan.now parts.now callback o.0 }
{
    Step::Run {
        callback,
        interrupt: interrupt_of_step(plan, parts, o),
    }
}
