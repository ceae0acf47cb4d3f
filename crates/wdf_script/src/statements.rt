//! What the statement does at which a frame is.
ghost use Rattle.std.specs.Prelude.{◌≡◌, unwrap_or, option_map, slice_get};
ghost use Rattle.wdf_model.specs.rules.Script as script;

use crate::arguments::call_of;
use crate::expressions::value_of;
use wdf_base::{Act, Change, Frame, Intent, Plan, Statement, Status, Value};

/// The greatest number of a `repeat`.
const REPEAT_LIMIT: u64 = 1000;

/// The greatest number of a `spend`.
const SPEND_LIMIT: u64 = 1_000_000;

fn let_intent(variable: u8, next: u32, value: Option<Value>) -> Intent
    ensures { result ≡ script.let_intent variable next value }
{
    match value {
        Some(value) => {
            let change = Change::Assign { variable, value };
            Intent::Local { change, next }
        }
        None => Intent::Broken,
    }
}

fn put_intent(register: u32, value: Option<Value>) -> Intent
    ensures { result ≡ script.put_intent register value }
{
    match value {
        Some(Value::Num(value)) => Intent::Put { register, value },
        _ => Intent::Broken,
    }
}

// A number other than 0 takes the first branch.
fn if_intent(next: u32, otherwise: u32, test: Option<Value>) -> Intent
    ensures { result ≡ script.if_intent next otherwise test }
{
    match test {
        Some(Value::Num(number)) => Intent::Local {
            change: Change::Branch,
            next: if number == 0 { otherwise } else { next },
        },
        _ => Intent::Broken,
    }
}

// So many runs of the body are left, or it is passed.
fn repeat_intent(next: u32, depth: u8, past: u32, count: Option<Value>) -> Intent
    ensures { result ≡ script.repeat_intent next depth past count }
{
    match count {
        Some(Value::Num(runs)) if runs <= REPEAT_LIMIT => Intent::Local {
            change: Change::Count {
                depth,
                left: runs as u32,
            },
            next: if runs == 0 { past } else { next },
        },
        _ => Intent::Broken,
    }
}

// How many runs of the `repeat` at this depth are left.
fn runs_left(frame: &Frame, depth: u8) -> u32
    ensures { result ≡ script.runs_left frame.now depth }
{
    let left = frame.counters.get(usize::from(depth));
    left.copied().unwrap_or(0)
}

// At the body's end: to its start again, or past the `repeat` where all runs are done.
fn again_intent(next: u32, depth: u8, body: u32, left: u32) -> Intent
    ensures { result ≡ script.again_intent next depth body left }
{
    let left = left.saturating_sub(1);
    Intent::Local {
        change: Change::Count { depth, left },
        next: if left == 0 { next } else { body },
    }
}

fn spend_intent(ticks: Option<Value>) -> Intent
    ensures { result ≡ script.spend_intent ticks }
{
    match ticks {
        Some(Value::Num(ticks)) if ticks <= SPEND_LIMIT => Intent::Spend(ticks),
        _ => Intent::Broken,
    }
}

fn log_intent(value: Option<Value>) -> Intent
    ensures { result ≡ script.log_intent value }
{
    value.map_or(Intent::Broken, Intent::Log)
}

fn return_intent(value: Option<Value>) -> Intent
    ensures { result ≡ script.return_intent value }
{
    value.map_or(Intent::Broken, Intent::Return)
}

// What an act of a frame does, where the statement after it is `next`.
fn act_intent(plan: &Plan, frame: &Frame, next: u32, act: Act) -> Intent
    ensures { result ≡ script.act_intent plan.now frame.now next act }
{
    match act {
        Act::Let { variable, value } => let_intent(variable, next, value_of(plan, frame, value)),
        Act::Call { kind, a, b, c, .. } => Intent::Do(call_of(plan, frame, kind, a, b, c)),
        Act::Get { register, .. } => Intent::Get(register),
        Act::Put { register, value } => put_intent(register, value_of(plan, frame, value)),
        Act::If { test, otherwise } => if_intent(next, otherwise, value_of(plan, frame, test)),
        Act::Repeat { count, depth, past } => {
            repeat_intent(next, depth, past, value_of(plan, frame, count))
        }
        Act::Again { depth, body } => again_intent(next, depth, body, runs_left(frame, depth)),
        Act::Spend { ticks } => spend_intent(value_of(plan, frame, ticks)),
        Act::Log { value } => log_intent(value_of(plan, frame, value)),
        Act::Return { value } => return_intent(value_of(plan, frame, value)),
    }
}

/// The statement at which a frame is, none at the callback's end.
pub fn statement_at(plan: &Plan, frame: &Frame) -> Option<Statement>
    ensures { result ≡ script.statement_at plan.now frame.now }
{
    if frame.script < plan.script_len() && frame.at < plan.statement_len(frame.script) {
        Some(plan.statement(frame.script, frame.at))
    } else {
        None
    }
}

/// What the statement does at which a frame is; at the callback's end it returns SUCCESS.
pub fn next(plan: &Plan, frame: &Frame) -> Intent
    ensures { result ≡ script.intent_of plan.now frame.now }
{
    match statement_at(plan, frame) {
        Some(statement) => act_intent(plan, frame, statement.next, statement.act),
        None => Intent::Return(Value::Stat(Status::Success)),
    }
}

// The line of the `on` of a frame's callback.
fn end_line(plan: &Plan, frame: &Frame) -> u32
    ensures { result ≡ unwrap_or (option_map (λ s. s.line) (slice_get plan.now.scripts frame.now.script)) 0 }
{
    if frame.script < plan.script_len() {
        plan.script_line(frame.script)
    } else {
        0
    }
}

/// The line that a step or a fault of a frame names: that of the statement at which it is, and at the
/// callback's end that of its `on`.
pub fn line_of(plan: &Plan, frame: &Frame) -> u32
    ensures { result ≡ script.line_of plan.now frame.now }
{
    match statement_at(plan, frame) {
        Some(statement) => statement.line,
        None => end_line(plan, frame),
    }
}
