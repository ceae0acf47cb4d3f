//! The events of worked runs, for the checker.
use crate::worked::plan_of;
use check_trace::check;
use std::alloc::Global;
use test_worked_texts::Worked;
use wdf_base::{Event, Memory, Plan};
use wdf_trace::read_line;

/// Which events of a run are given to the checker.
#[derive(Clone, Copy)]
pub enum Given {
    /// All.
    All,
    /// The first three, and the third once more.
    ThirdTwice,
}

/// What the checker finds: the number of the first broken law, and the place of the event that breaks it.
pub type Found = Option<(u8, usize)>;

/// Adds the event of a line; whether the line is one of an event.
fn add(events: &mut Vec<Event>, plan: &Plan, line: &[u8]) -> Result<bool, Memory> {
    match read_line(plan, line) {
        Some((_, event)) => match events.push(event) {
            Ok(()) => Ok(true),
            Err(_) => Err(Memory),
        },
        None => Ok(false),
    }
}

/// Adds the events of so many lines of a trace; whether there are as many.
fn add_lines(
    events: &mut Vec<Event>,
    plan: &Plan,
    trace: &str,
    count: usize,
) -> Result<bool, Memory> {
    for line in trace.lines().take(count) {
        match add(events, plan, line.as_bytes()) {
            Ok(true) => {}
            Ok(false) => return Ok(false),
            Err(memory) => return Err(memory),
        }
    }
    Ok(events.len() == count)
}

/// Adds the last event once more.
fn repeat_last(events: &mut Vec<Event>) -> Result<bool, Memory> {
    match events.last() {
        Some(last) => {
            let event = *last;
            match events.push(event) {
                Ok(()) => Ok(true),
                Err(_) => Err(Memory),
            }
        }
        None => Ok(false),
    }
}

/// Adds what is given of a run; whether it is there.
fn add_given(
    events: &mut Vec<Event>,
    plan: &Plan,
    run: &Worked,
    given: Given,
) -> Result<bool, Memory> {
    match given {
        Given::All => add_lines(events, plan, run.trace, run.events),
        Given::ThirdTwice => match add_lines(events, plan, run.trace, 3) {
            Ok(true) => repeat_last(events),
            other => other,
        },
    }
}

/// Whether the checker finds this in events.
fn finds_in(alloc: Global, plan: &Plan, events: &[Event], due: Found) -> Result<bool, Memory> {
    match check(alloc, plan, events) {
        Ok(found) => Ok(found == due),
        Err(memory) => Err(memory),
    }
}

/// Whether the checker finds this in what is given of a run, with a plan that is made for it.
fn finds_with(
    alloc: Global,
    plan: Plan,
    run: &Worked,
    given: Given,
    due: Found,
) -> Result<bool, Memory> {
    let mut events = Vec::new(alloc);
    match add_given(&mut events, &plan, run, given) {
        Ok(true) => finds_in(alloc, &plan, &events, due),
        other => other,
    }
}

/// Whether a run has a plan and what is given of it, and the checker finds this there.
pub fn finds(alloc: Global, run: &Worked, given: Given, due: Found) -> Result<bool, Memory> {
    match plan_of(alloc, run.scenario) {
        Some(plan) => finds_with(alloc, plan, run, given, due),
        None => Ok(false),
    }
}
