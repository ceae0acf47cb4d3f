//! How a frame goes on.
ghost use Rattle.std.specs.Prelude.{◌≡◌, ◌+◌, ◌<◌, ◌^◌};
ghost use Rattle.wdf_model.specs.rules.Steps as steps;
ghost use Rattle.wdf_cpu.specs.FrameUpdate.{gone};

use wdf_base::{Act, Call, Change, Frame, Intent, Pending, Statement, Value};
use wdf_cpu::FrameUpdate;
use wdf_plan_index::IndexedPlan;
use wdf_script::statement_at;

/// A frame that is at a statement, and as it was otherwise.
fn placed(frame: &Frame, change: Change, at: u32) -> FrameUpdate
    ensures { gone result frame.now ≡ record (steps.changed frame.now change) { at = at } }
{
    FrameUpdate {
        change,
        at,
        until: frame.until,
        pending: frame.pending,
    }
}

/// The number of the statement that follows; at the callback's end it stays as it is.
fn next_place(frame: &Frame, statement: Option<Statement>) -> u32
    ensures { record frame.now { at = result } ≡ steps.at_next frame.now statement }
{
    match statement {
        None => frame.at,
        Some(statement) => statement.next,
    }
}

/// A frame that goes on.
pub(crate) fn goes_on(plan: &IndexedPlan, frame: &Frame) -> FrameUpdate
    ensures { gone result frame.now ≡ steps.goes_on plan.now frame.now }
{
    let at = next_place(frame, statement_at(plan.plan(), frame));
    placed(frame, Change::Branch, at)
}

/// The variable that gets the answer of a statement, if any.
fn result_of(statement: Option<Statement>) -> Option<u8>
    ensures { result ≡ steps.result_of statement }
{
    match statement?.act {
        Act::Call { into, .. } => into,
        Act::Get { variable, .. } => Some(variable),
        _ => None,
    }
}

/// What the answer of a statement changes.
fn answer_of(variable: Option<u8>, value: Value) -> Change
    ensures { (frame : Frame) → steps.changed frame result ≡ steps.with_answer frame variable value }
{
    match variable {
        None => Change::Branch,
        Some(variable) => Change::Assign { variable, value },
    }
}

/// A frame whose statement is answered goes on.
pub(crate) fn answered(plan: &IndexedPlan, frame: &Frame, value: Value) -> FrameUpdate
    ensures { gone result frame.now ≡ steps.answered plan.now frame.now value }
{
    let statement = statement_at(plan.plan(), frame);
    FrameUpdate {
        change: answer_of(result_of(statement), value),
        at: next_place(frame, statement),
        until: frame.until,
        pending: None,
    }
}

/// A step inside a frame.
pub(crate) fn stepped(frame: &Frame, intent: &Intent) -> FrameUpdate
    ensures { gone result frame.now ≡ steps.stepped frame.now intent.now }
{
    match intent {
        Intent::Local { change, next } => placed(frame, *change, *next),
        _ => placed(frame, Change::Branch, frame.at),
    }
}

/// A frame that goes on once so many ticks have passed.
pub(crate) fn spending(plan: &IndexedPlan, frame: &Frame, now: u64, ticks: u64) -> FrameUpdate
    requires { now + ticks < 2 ^ 64 }
    ensures { gone result frame.now ≡ record (steps.goes_on plan.now frame.now) { until = now + ticks } }
{
    FrameUpdate {
        until: now + ticks,
        ..goes_on(plan, frame)
    }
}

/// A frame that waits for a call.
pub(crate) fn waiting(frame: &Frame, call: &Call, answer: Value) -> FrameUpdate
    ensures { gone result frame.now ≡ steps.waiting frame.now call.now answer }
{
    FrameUpdate {
        pending: Some(Pending {
            call: *call,
            answer,
        }),
        ..placed(frame, Change::Branch, frame.at)
    }
}
