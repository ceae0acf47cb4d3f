//! The lines of a trace, read and written.
use crate::waits::{wait_at, waits_len};
use test_worked_texts::Worked;
use wdf_base::{Ending, Plan, WaitLine};
use wdf_lines::{ending_line, line_of, wait_line};
use wdf_trace::{read_line, reads_as_ending, reads_as_wait};

/// Whether the line of an event is read with its number, and written from what is read.
fn is_event(plan: &Plan, number: usize, line: &[u8]) -> bool {
    match read_line(plan, line) {
        Some((read, event)) => read == number && line_of(plan, read, &event).bytes() == line,
        None => false,
    }
}

/// Whether a line is that of the run's ending.
fn is_ending(run: &Worked, line: &[u8]) -> bool {
    !matches!(run.ending, Ending::Running)
        && reads_as_ending(line)
        && ending_line(run.events, run.ending).bytes() == line
}

/// Whether a line is that of the stated line of a wait list.
fn is_wait(plan: &Plan, wait: &WaitLine, line: &[u8]) -> bool {
    reads_as_wait(plan, line) && wait_line(plan, wait).bytes() == line
}

/// Whether the line of a trace with this number, from 1 on, is as due: first those of the events, then that of the
/// ending, then those of the wait list.
fn is_line(plan: &Plan, run: &Worked, number: usize, line: &[u8]) -> bool {
    if number <= run.events {
        return is_event(plan, number, line);
    }
    match (number - run.events).checked_sub(2) {
        None => is_ending(run, line),
        Some(k) => match wait_at(run.name, k) {
            Some(wait) => is_wait(plan, wait, line),
            None => false,
        },
    }
}

/// The number of the first line of a run's trace that isn't as due, or that is missing.
pub fn first_wrong(plan: &Plan, run: &Worked) -> Option<usize> {
    for (number, line) in (1..usize::MAX).zip(run.trace.lines()) {
        if !is_line(plan, run, number, line.as_bytes()) {
            return Some(number);
        }
    }
    let last = run.events.saturating_add(waits_len(run.name));
    match run.trace.lines().nth(last) {
        Some(_) => None,
        None => Some(last.saturating_add(1)),
    }
}
