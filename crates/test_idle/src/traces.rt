//! The events of traces, for the checker.
use check_idle::check;
use std::alloc::Global;
use wdf_base::{Event, Memory, Plan};
use wdf_trace::read_line;

/// Adds the event of a line; whether the line is one of an event.
fn add(events: &mut Vec<Event>, plan: &Plan, line: &[u8]) -> Result<bool, Memory> {
    match read_line(plan, line) {
        Some((_, event)) => match events.push(event) {
            Ok(()) => Ok(true),
            Err(_) => Err(Memory),
        },
        None => Ok(false),
    }
}

/// Adds the events of the first lines of a trace; whether each is one of an event.
fn add_lines(
    events: &mut Vec<Event>,
    plan: &Plan,
    trace: &str,
    count: usize,
) -> Result<bool, Memory> {
    for line in trace.lines().take(count) {
        match add(events, plan, line.as_bytes()) {
            Ok(true) => {}
            other => return other,
        }
    }
    Ok(true)
}

/// Adds the events of the first lines of a trace, and then those of other lines.
fn add_both(
    events: &mut Vec<Event>,
    plan: &Plan,
    first: (&str, usize),
    more: &str,
) -> Result<bool, Memory> {
    match add_lines(events, plan, first.0, first.1) {
        Ok(true) => add_lines(events, plan, more, usize::MAX),
        other => other,
    }
}

/// Whether the checker finds this in events.
fn finds_in(
    alloc: Global,
    plan: &Plan,
    events: &[Event],
    due: Option<usize>,
) -> Result<bool, Memory> {
    match check(alloc, plan, events) {
        Ok(found) => Ok(found == due),
        Err(memory) => Err(memory),
    }
}

/// Whether the checker finds this in the first lines of a trace and other lines behind them, each of which is one of an
/// event.
pub fn finds(
    alloc: Global,
    plan: &Plan,
    first: (&str, usize),
    more: &str,
    due: Option<usize>,
) -> Result<bool, Memory> {
    let mut events = Vec::new(alloc);
    match add_both(&mut events, plan, first, more) {
        Ok(true) => finds_in(alloc, plan, &events, due),
        other => other,
    }
}
