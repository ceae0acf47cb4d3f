//! A frame's own event: what its statement, its fault, its end or its waking is.
ghost use Rattle.std.specs.Prelude.{◌≡◌};
ghost use Rattle.wdf_model.specs.rules.Steps as steps;
ghost use Rattle.wdf_model.specs.Plans as plans;
ghost use Rattle.wdf_model.specs.rules.Calls as calls;
ghost use Rattle.wdf_model.specs.rules.Faults as faults;
ghost use Rattle.wdf_model.specs.rules.Script as script;
ghost use Rattle.wdf_model.specs.rules.Starts as starts;

use crate::view::TopFrame;
use wdf_base::{Access, Agent, Call, Cpu, Event, Fault, Frame, FrameId, Intent, Pending};
use wdf_calls::{is_met, is_met_then, outcome};
use wdf_parts::Parts;
use wdf_plan_index::IndexedPlan;
use wdf_rules::fault_of;
use wdf_script::{line_of, next};
use wdf_starts::shown;

/// A call without a fault is answered, or waits where its condition isn't met once its first part is done.
fn call_event<A: Agent>(
    plan: &IndexedPlan,
    parts: &Parts<A>,
    cpu: Cpu,
    frame: FrameId,
    call: &Call,
) -> Event
    ensures { result ≡ steps.call_event plan.now parts.now cpu.0 call.now (calls.outcome plan.now parts.now cpu.0 frame.0 call.now) }
{
    if is_met_then(plan, parts, call) {
        Event::Did {
            cpu,
            call: *call,
            answer: outcome(plan, parts, cpu, frame, call).answer,
        }
    } else {
        Event::Waiting { cpu, call: *call }
    }
}

/// The value of a register, as the agent of its device shows it.
fn register_value<A: Agent>(plan: &IndexedPlan, parts: &Parts<A>, register: u32) -> u64
    ensures { result ≡ starts.shown plan.now A.meaning parts.now (plans.device_of_register plan.now register) register }
{
    shown(plan, parts, plan.device_of_register(register), register)
}

/// The event of an intent without a fault.
fn intent_event<A: Agent>(
    plan: &IndexedPlan,
    parts: &Parts<A>,
    cpu: Cpu,
    number: FrameId,
    frame: &Frame,
    intent: &Intent,
) -> Event
    ensures { result ≡ steps.intent_event plan.now A.meaning parts.now cpu.0 number.0 frame.now intent.now }
{
    match intent {
        Intent::Local { .. } => Event::Local {
            cpu,
            line: line_of(plan.plan(), frame),
        },
        Intent::Log(value) => Event::Log { cpu, value: *value },
        Intent::Spend(ticks) => Event::Spend { cpu, ticks: *ticks },
        Intent::Get(register) => Event::Register {
            cpu,
            access: Access::Read,
            register: *register,
            value: register_value(plan, parts, *register),
        },
        Intent::Put { register, value } => Event::Register {
            cpu,
            access: Access::Write,
            register: *register,
            value: *value,
        },
        Intent::Do(call) => call_event(plan, parts, cpu, number, call),
        Intent::Return(value) => Event::End {
            cpu,
            callback: frame.callback,
            object: frame.object,
            value: *value,
        },
        Intent::Broken => Event::Fault {
            cpu,
            fault: Fault::ScriptError,
            line: line_of(plan.plan(), frame),
        },
    }
}

/// The fault of an intent, if there is one.
fn fault_in<A: Agent>(
    plan: &IndexedPlan,
    parts: &Parts<A>,
    cpu: Cpu,
    number: FrameId,
    intent: &Intent,
) -> Option<Fault>
    ensures { result ≡ faults.fault_of (steps.view_of plan.now parts.now cpu.0 number.0) intent.now }
{
    let view = TopFrame {
        plan,
        tree: parts.tree(),
        requests: parts.requests(),
        targets: parts.targets(),
        power: parts.power(),
        cpus: parts.cpus(),
        locks: parts.locks(),
        cpu,
        number,
    };
    fault_of(&view, intent)
}

/// The next event of a frame that doesn't wait: a fault comes in place of what it is about to do.
fn next_event<A: Agent>(
    plan: &IndexedPlan,
    parts: &Parts<A>,
    cpu: Cpu,
    number: FrameId,
    frame: &Frame,
) -> Event
    ensures { result ≡ steps.next_event plan.now A.meaning parts.now cpu.0 number.0 frame.now (script.intent_of plan.now frame.now) }
{
    let intent = next(plan.plan(), frame);
    match fault_in(plan, parts, cpu, number, &intent) {
        Some(fault) => Event::Fault {
            cpu,
            fault,
            line: line_of(plan.plan(), frame),
        },
        None => intent_event(plan, parts, cpu, number, frame, &intent),
    }
}

/// A frame that waits wakes where its condition is met.
fn woken_event<A: Agent>(parts: &Parts<A>, cpu: Cpu, pending: &Pending) -> Option<Event>
    ensures { result ≡ steps.woken_event parts.now cpu.0 pending.now }
{
    if is_met(parts, &pending.call) {
        Some(Event::Woke {
            cpu,
            call: pending.call,
            answer: pending.answer,
        })
    } else {
        None
    }
}

/// The event of a frame, if it has one.
fn event_of_frame<A: Agent>(
    plan: &IndexedPlan,
    parts: &Parts<A>,
    cpu: Cpu,
    number: FrameId,
    frame: &Frame,
) -> Option<Event>
    ensures { result ≡ steps.event_of_frame plan.now A.meaning parts.now cpu.0 number.0 frame.now frame.now.pending }
{
    match &frame.pending {
        Some(pending) => woken_event(parts, cpu, pending),
        None => Some(next_event(plan, parts, cpu, number, frame)),
    }
}

/// The one event of a processor's top frame, other than leaving the processor; `None` exactly where the
/// processor is empty, or the frame spends, or waits in vain.
pub fn own_event<A: Agent>(plan: &IndexedPlan, parts: &Parts<A>, cpu: Cpu) -> Option<Event>
    ensures { result ≡ steps.own_event plan.now A.meaning parts.now cpu.0 }
{
    let number = parts.cpus().top(cpu)?;
    let frame = parts.cpus().frame(number);
    if parts.now() < frame.until {
        None
    } else {
        event_of_frame(plan, parts, cpu, number, frame)
    }
}

/// Whether a frame waits and its wait isn't over.
pub fn waits_on<A: Agent>(parts: &Parts<A>, frame: &Frame) -> bool
    ensures { result ≡ steps.waits_on parts.now frame.now.pending }
{
    match &frame.pending {
        None => false,
        Some(pending) => !is_met(parts, &pending.call),
    }
}

/// Whether a frame waits and its wait is over.
pub fn wait_is_over<A: Agent>(parts: &Parts<A>, frame: &Frame) -> bool
    ensures { result ≡ steps.wait_is_over parts.now frame.now.pending }
{
    match &frame.pending {
        None => false,
        Some(pending) => is_met(parts, &pending.call),
    }
}
