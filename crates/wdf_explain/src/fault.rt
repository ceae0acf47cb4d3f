//! The story of a fault.
ghost use Rattle.std.specs.Prelude.{◌≡◌, ◌-◌, ◌++◌, OnOk, Some, length, slice_get};
ghost use Rattle.wdf_explain.specs.Stories.{about_text, began_text, callback_text, cpu_heading, cpu_story, doing_story, doing_text, ended_text, fault_story, fault_text, heading_text, is_call, object_story, objects_story, place_text, rule_line, told_fault};

use crate::asked::Asked;
use crate::numbers::push_last;
use crate::rules::rule_of;
use crate::standing::push_standing;
use crate::told::{Doing, Standing};
use crate::words::{
    callback_bytes, fault_bytes, push_between, push_intent, push_numbered, push_three,
};
use std::alloc::Global;
use wdf_base::{Cpu, Event, Fault, Handle, Intent, Memory, Plan};
use wdf_writing::Text;

/// Adds the heading of the events about an object.
#[tactic(auto, unfolding(crate::specs::Stories::heading_text))]
fn push_heading(out: &mut Text, plan: &Plan, object: Handle) -> Result<(), Memory>
    ensures { OnOk result (out.new ≡ out.old ++ heading_text plan.now object) }
{
    push_between(out, plan, b"The last events about ", object, b":\n")
}

/// Adds how an object is at the end of a run, and the last events about it.
fn push_object_story(
    alloc: Global,
    out: &mut Text,
    plan: &Plan,
    events: &[Event],
    standing: &Standing,
) -> Result<(), Memory>
    ensures { OnOk result (out.new ≡ out.old ++ object_story plan.now events.now (Some standing.now)) }
{
    push_standing(alloc, out, plan, events, standing)?;
    push_heading(out, plan, standing.object)?;
    push_last(alloc, out, plan, events, Asked::About(standing.object.id))
}

/// Adds the same where there is an object.
fn push_if_any(
    alloc: Global,
    out: &mut Text,
    plan: &Plan,
    events: &[Event],
    standing: &Option<Standing>,
) -> Result<(), Memory>
    ensures { OnOk result (out.new ≡ out.old ++ object_story plan.now events.now standing.now) }
{
    match standing {
        Some(standing) => push_object_story(alloc, out, plan, events, standing),
        None => Ok(()),
    }
}

/// Adds the heading of the events on a processor.
#[tactic(auto, unfolding(crate::specs::Stories::cpu_heading))]
fn push_cpu_heading(out: &mut Text, cpu: Cpu) -> Result<(), Memory>
    ensures { OnOk result (out.new ≡ out.old ++ cpu_heading cpu) }
{
    push_numbered(out, b"The last events on cpu", cpu.0 as usize, b":\n")
}

/// Adds the last events on a processor.
fn push_cpu_story(
    alloc: Global,
    out: &mut Text,
    plan: &Plan,
    events: &[Event],
    cpu: Cpu,
) -> Result<(), Memory>
    ensures { OnOk result (out.new ≡ out.old ++ cpu_story plan.now events.now cpu) }
{
    push_cpu_heading(out, cpu)?;
    push_last(alloc, out, plan, events, Asked::OnCpu(cpu))
}

/// Whether a frame is about to make a call.
fn is_call(intent: &Intent) -> bool
    ensures { result ≡ is_call intent.now }
{
    matches!(intent, Intent::Do(_))
}

/// Adds what is told of what a frame is about to do: of a call its objects, of anything else the processor.
fn push_objects(
    alloc: Global,
    out: &mut Text,
    plan: &Plan,
    events: &[Event],
    doing: &Doing,
) -> Result<(), Memory>
    ensures { OnOk result (out.new ≡ out.old ++ objects_story plan.now events.now doing.now) }
{
    if !is_call(&doing.intent) {
        return push_cpu_story(alloc, out, plan, events, doing.cpu);
    }
    push_if_any(alloc, out, plan, events, &doing.first)?;
    push_if_any(alloc, out, plan, events, &doing.second)?;
    push_if_any(alloc, out, plan, events, &doing.third)
}

/// Adds the callback of a frame.
fn push_callback(out: &mut Text, plan: &Plan, doing: &Doing) -> Result<(), Memory>
    ensures { OnOk result (out.new ≡ out.old ++ callback_text plan.now doing.now) }
{
    out.push(callback_bytes(doing.callback))?;
    push_between(out, plan, b" of ", doing.object, b" began on cpu")
}

/// Adds its processor, and the event with which it began.
fn push_began(out: &mut Text, doing: &Doing) -> Result<(), Memory>
    ensures { OnOk result (out.new ≡ out.old ++ began_text doing.now) }
{
    out.push_number(doing.cpu.0 as u64)?;
    push_numbered(
        out,
        b" with event ",
        doing.number.0 as usize,
        b". It was about to ",
    )
}

/// Adds what it was about to do.
#[tactic(auto, unfolding(crate::specs::Stories::about_text))]
fn push_about(out: &mut Text, plan: &Plan, doing: &Doing) -> Result<(), Memory>
    ensures { OnOk result (out.new ≡ out.old ++ about_text plan.now doing.now) }
{
    push_intent(out, plan, &doing.intent)?;
    out.push(b".\n")
}

/// Adds the callback of a frame, and what it was about to do.
#[tactic(auto, unfolding(crate::specs::Stories::doing_text))]
fn push_doing(out: &mut Text, plan: &Plan, doing: &Doing) -> Result<(), Memory>
    ensures { OnOk result (out.new ≡ out.old ++ doing_text plan.now doing.now) }
{
    push_callback(out, plan, doing)?;
    push_began(out, doing)?;
    push_about(out, plan, doing)
}

/// Adds what a frame was about to do, and how the objects are that it names.
fn push_doing_story(
    alloc: Global,
    out: &mut Text,
    plan: &Plan,
    events: &[Event],
    doing: &Option<Doing>,
) -> Result<(), Memory>
    ensures { OnOk result (out.new ≡ out.old ++ doing_story plan.now events.now doing.now) }
{
    match doing {
        Some(doing) => {
            push_doing(out, plan, doing)?;
            push_objects(alloc, out, plan, events, doing)
        }
        None => Ok(()),
    }
}

/// Adds how many events there were.
#[tactic(auto, unfolding(crate::specs::Stories::ended_text))]
fn push_ended(out: &mut Text, events: usize) -> Result<(), Memory>
    ensures { OnOk result (out.new ≡ out.old ++ ended_text events) }
{
    push_numbered(out, b"The run of ", events, b" events ended in the fault ")
}

/// Adds a fault and its line.
fn push_place(out: &mut Text, fault: Fault, line: u32) -> Result<(), Memory>
    ensures { OnOk result (out.new ≡ out.old ++ place_text fault line) }
{
    out.push(fault_bytes(fault))?;
    push_numbered(out, b" at line ", line as usize, b".\n")
}

/// Adds its rule.
#[tactic(auto, unfolding(crate::specs::Stories::rule_line))]
fn push_rule(out: &mut Text, fault: Fault) -> Result<(), Memory>
    ensures { OnOk result (out.new ≡ out.old ++ rule_line fault) }
{
    push_three(out, b"The rule: ", rule_of(fault), b"\n")
}

/// Adds how many events there were, and a fault with its line and its rule.
#[tactic(auto, unfolding(crate::specs::Stories::fault_text))]
fn push_fault(out: &mut Text, events: usize, fault: Fault, line: u32) -> Result<(), Memory>
    ensures { OnOk result (out.new ≡ out.old ++ fault_text events fault line) }
{
    push_ended(out, events)?;
    push_place(out, fault, line)?;
    push_rule(out, fault)
}

/// Adds the story of a fault.
#[tactic(auto, unfolding(crate::specs::Stories::told_fault))]
fn push_told(
    alloc: Global,
    out: &mut Text,
    plan: &Plan,
    events: &[Event],
    doing: &Option<Doing>,
    fault: Fault,
    line: u32,
) -> Result<(), Memory>
    ensures { OnOk result (out.new ≡ out.old ++ told_fault plan.now events.now doing.now fault line) }
{
    push_fault(out, events.len(), fault, line)?;
    push_doing_story(alloc, out, plan, events, doing)
}

/// Adds the story of the fault that is the last event of a run.
pub(crate) fn push_fault_story(
    alloc: Global,
    out: &mut Text,
    plan: &Plan,
    events: &[Event],
    doing: &Option<Doing>,
) -> Result<(), Memory>
    ensures { OnOk result (out.new ≡ out.old ++ fault_story plan.now events.now doing.now (slice_get events.now (length events.now - 1))) }
{
    match events.last() {
        Some(Event::Fault { fault, line, .. }) => {
            push_told(alloc, out, plan, events, doing, *fault, *line)
        }
        _ => Ok(()),
    }
}
