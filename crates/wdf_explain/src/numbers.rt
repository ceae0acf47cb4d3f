//! The numbers of the events of a run that are looked for, and their lines.
ghost use Rattle.std.specs.Prelude.{◌≡◌, ◌-◌, ◌++◌, IfOk, OnOk, slice_get};
ghost use Rattle.wdf_explain.specs.About.{event_if_any, event_lines, last_number, last_of, number_if, numbers_of};

use crate::asked::Asked;
use crate::words::push_three;
use std::alloc::Global;
use wdf_base::{Event, Memory, Plan};
use wdf_lines::line_of;
use wdf_writing::Text;

/// How many events are shown.
const SHOWN: usize = 6;

/// Adds a number, where its event is looked for.
fn push_if(numbers: &mut Vec<usize>, is_asked: bool, number: usize) -> Result<(), Memory>
    ensures { OnOk result (numbers.new.items ≡ numbers.old.items ++ number_if is_asked number) }
{
    if is_asked {
        numbers.push(number)?;
    }
    Ok(())
}

/// The numbers of the events that are looked for, in their order.
pub(crate) fn numbers_of(
    alloc: Global,
    events: &[Event],
    asked: Asked,
) -> Result<Vec<usize>, Memory>
    ensures { IfOk result (λ numbers. numbers.items ≡ numbers_of asked events.now) }
{
    let mut numbers = Vec::new(alloc);
    for k in 0..events.len() {
        push_if(&mut numbers, asked.is_for(&events[k]), k + 1)?;
    }
    Ok(numbers)
}

/// The number of the last event that is looked for.
pub(crate) fn last_number(
    alloc: Global,
    events: &[Event],
    asked: Asked,
) -> Result<Option<usize>, Memory>
    ensures { IfOk result (λ number. number ≡ last_number (numbers_of asked events.now)) }
{
    let numbers = numbers_of(alloc, events, asked)?;
    Ok(numbers.last().copied())
}

/// The last of some numbers, as many as are shown.
fn last_of(numbers: &[usize]) -> &[usize]
    ensures { result.now ≡ last_of numbers.now }
{
    &numbers[numbers.len().saturating_sub(SHOWN)..]
}

/// Adds the line of the event with this number, two blanks before it.
fn push_event(out: &mut Text, plan: &Plan, events: &[Event], number: usize) -> Result<(), Memory>
    ensures { OnOk result (out.new ≡ out.old ++ event_if_any plan.now number (slice_get events.now (number - 1))) }
{
    match events.get(number.saturating_sub(1)) {
        Some(event) => push_three(out, b"  ", line_of(plan, number, event).bytes(), b"\n"),
        None => Ok(()),
    }
}

/// Adds the lines of the events with these numbers.
pub(crate) fn push_events(
    out: &mut Text,
    plan: &Plan,
    events: &[Event],
    numbers: &[usize],
) -> Result<(), Memory>
    ensures { OnOk result (out.new ≡ out.old ++ event_lines plan.now events.now numbers.now) }
{
    for number in numbers {
        push_event(out, plan, events, *number)?;
    }
    Ok(())
}

/// Adds the lines of the last events that are looked for.
pub(crate) fn push_last(
    alloc: Global,
    out: &mut Text,
    plan: &Plan,
    events: &[Event],
    asked: Asked,
) -> Result<(), Memory>
    ensures { OnOk result (out.new ≡ out.old ++ event_lines plan.now events.now (last_of (numbers_of asked events.now))) }
{
    let numbers = numbers_of(alloc, events, asked)?;
    push_events(out, plan, events, last_of(numbers.as_slice()))
}
