//! What is written on the items of a viewer.
ghost use Rattle.std.specs.Prelude.{◌≡◌, ◌++◌, map, decimal, string_bytes, OnOk, IfOk};
ghost use Rattle.wdf_lines.specs.Lines.{cpu_text, object_text};
ghost use Rattle.wdf_perfetto.specs.Titles.{plain, title_text, line_at};

use crate::row::Title;
use crate::text::add;
use itoa::Buffer;
use std::alloc::Global;
use wdf_base::{Callback, Cpu, Event, Handle, Memory, Plan};
use wdf_lines::{line_of, name_bytes};

/// Adds a number in decimal digits.
fn add_number(text: &mut String, number: u64) -> Result<(), Memory>
    ensures { OnOk result (string_bytes text.new ≡ string_bytes text.old ++ map plain (decimal number)) }
{
    let mut buffer = Buffer::new();
    add(text, buffer.format(number).as_bytes())
}

/// Adds an object: its name, a dot and its id.
fn add_object(text: &mut String, plan: &Plan, object: Handle) -> Result<(), Memory>
    ensures { OnOk result (string_bytes text.new ≡ string_bytes text.old ++ map plain (object_text plan.now object)) }
{
    add(text, name_bytes(plan, object.name))?;
    add(text, b".")?;
    add_number(text, u64::from(object.id.0))
}

/// Adds a processor.
fn add_cpu(text: &mut String, cpu: Cpu) -> Result<(), Memory>
    ensures { OnOk result (string_bytes text.new ≡ string_bytes text.old ++ map plain (cpu_text cpu)) }
{
    add(text, b"cpu")?;
    add_number(text, u64::from(cpu.0))
}

/// Adds a callback and its object.
fn add_callback(
    text: &mut String,
    plan: &Plan,
    callback: Callback,
    object: Handle,
) -> Result<(), Memory>
    ensures { OnOk result (string_bytes text.new ≡ string_bytes text.old ++ map plain (title_text plan.now (Title.Callback callback object))) }
{
    add(text, callback.word().as_bytes())?;
    add(text, b" ")?;
    add_object(text, plan, object)
}

/// Adds the text of a title.
fn add_title(text: &mut String, plan: &Plan, title: Title) -> Result<(), Memory>
    ensures { OnOk result (string_bytes text.new ≡ string_bytes text.old ++ map plain (title_text plan.now title)) }
{
    match title {
        Title::Cpu(cpu) => add_cpu(text, cpu),
        Title::Object(object) => add_object(text, plan, object),
        Title::Callback { callback, object } => add_callback(text, plan, callback, object),
        Title::Call(kind) => add(text, kind.word().as_bytes()),
        Title::Waits => add(text, b"waits"),
        Title::Cancel => add(text, b"cancel"),
        Title::Stage(stage) => add(text, stage.word().as_bytes()),
        Title::Standing(standing) => add(text, standing.word().as_bytes()),
        Title::Place(told) => add(text, told.word().as_bytes()),
        Title::Fault(fault) => add(text, fault.word().as_bytes()),
    }
}

/// The text of a title.
pub(crate) fn title_text(alloc: Global, plan: &Plan, title: Title) -> Result<String, Memory>
    ensures { IfOk result (λ text. string_bytes text ≡ map plain (title_text plan.now title)) }
{
    let mut text = String::new(alloc);
    add_title(&mut text, plan, title)?;
    Ok(text)
}

/// Adds the trace line of the event with this number, nothing where there is none.
fn add_line(text: &mut String, plan: &Plan, events: &[Event], number: u32) -> Result<(), Memory>
    ensures { OnOk result (string_bytes text.new ≡ string_bytes text.old ++ map plain (line_at plan.now events.now number)) }
{
    if number == 0 {
        return Ok(());
    }
    match events.get(number as usize - 1) {
        Some(event) => add(text, line_of(plan, number as usize, event).bytes()),
        None => Ok(()),
    }
}

/// The trace line of the event with this number, nothing where there is none.
pub(crate) fn line_at(
    alloc: Global,
    plan: &Plan,
    events: &[Event],
    number: u32,
) -> Result<String, Memory>
    ensures { IfOk result (λ text. string_bytes text ≡ map plain (line_at plan.now events.now number)) }
{
    let mut text = String::new(alloc);
    add_line(&mut text, plan, events, number)?;
    Ok(text)
}
