//! What a frame was about to do.
ghost use Rattle.std.specs.Prelude.{◌≡◌};
ghost use Rattle.wdf_model.specs.parts.Cpus.{top};
ghost use Rattle.wdf_explain_run.specs.Endings.{doing_of, first_of, second_of, third_of, top_doing};

use crate::standing::standing_of;
use wdf_base::{Agent, Arg, Cpu, Frame, FrameId, Intent, Value};
use wdf_explain::Doing;
use wdf_parts::Parts;
use wdf_plan_index::IndexedPlan;
use wdf_script::next;

/// The first argument of a call that a frame is about to make.
fn first_of(intent: &Intent) -> Arg
    ensures { result ≡ first_of intent.now }
{
    match intent {
        Intent::Do(call) => call.a,
        _ => Arg::Val(Value::Num(0)),
    }
}

/// The second one.
fn second_of(intent: &Intent) -> Arg
    ensures { result ≡ second_of intent.now }
{
    match intent {
        Intent::Do(call) => call.b,
        _ => Arg::Val(Value::Num(0)),
    }
}

/// The third one.
fn third_of(intent: &Intent) -> Arg
    ensures { result ≡ third_of intent.now }
{
    match intent {
        Intent::Do(call) => call.c,
        _ => Arg::Val(Value::Num(0)),
    }
}

/// What a frame on a processor is about to do, and how the objects are that it names.
fn doing_of<A: Agent>(
    parts: &Parts<A>,
    plan: &IndexedPlan,
    cpu: Cpu,
    number: FrameId,
    frame: &Frame,
    intent: &Intent,
) -> Doing
    ensures { result ≡ doing_of plan.now parts.now cpu number.0 frame.now intent.now }
{
    Doing {
        cpu,
        number,
        callback: frame.callback,
        object: frame.object,
        intent: *intent,
        first: standing_of(parts, plan, first_of(intent)),
        second: standing_of(parts, plan, second_of(intent)),
        third: standing_of(parts, plan, third_of(intent)),
    }
}

/// What the top frame of a processor is about to do.
pub(crate) fn top_doing<A: Agent>(parts: &Parts<A>, plan: &IndexedPlan, cpu: Cpu) -> Option<Doing>
    ensures { result ≡ top_doing plan.now parts.now cpu (top parts.now.cpus cpu.0) }
{
    let number = parts.cpus().top(cpu)?;
    let frame = parts.cpus().frame(number);
    let intent = next(plan.plan(), frame);
    Some(doing_of(parts, plan, cpu, number, frame, &intent))
}
