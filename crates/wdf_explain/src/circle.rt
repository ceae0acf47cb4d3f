//! A circle of lines of which each waits for the next.
ghost use Rattle.std.specs.Prelude.{◌≡◌, ◌++◌, None, OnOk, find, length, slice_index_or, suc};
ghost use Rattle.std.specs.List.{range_with_len};
ghost use Rattle.wdf_explain.specs.Links as links;

use crate::links::nexts_of;
use crate::words::push_counted;
use std::alloc::Global;
use wdf_base::{Memory, WaitLine};
use wdf_writing::Text;

/// The line that the line at a place waits for.
fn next_of_place(nexts: &[Option<usize>], place: usize) -> Option<usize>
    ensures { result ≡ slice_index_or nexts.now place None }
{
    match nexts.get(place) {
        Some(next) => *next,
        None => None,
    }
}

/// The line that the line with this number waits for.
fn next_at(nexts: &[Option<usize>], line: usize) -> Option<usize>
    ensures { result ≡ links.next_at nexts.now line }
{
    next_of_place(nexts, line.saturating_sub(1))
}

/// The line at which one comes from a line after so many steps.
fn follow(nexts: &[Option<usize>], steps: usize, from: usize) -> Option<usize>
    ensures { result ≡ links.follow nexts.now steps from }
{
    let mut at = from;
    for _step in 0..steps {
        match next_at(nexts, at) {
            Some(next) => at = next,
            None => return None,
        }
    }
    Some(at)
}

/// The line at which one comes from the line at a place after more steps than there are lines.
fn far_from(nexts: &[Option<usize>], place: usize) -> Option<usize>
    ensures { result ≡ links.far_from nexts.now place }
{
    match next_of_place(nexts, place) {
        Some(next) => follow(nexts, nexts.len(), next),
        None => None,
    }
}

/// Whether one can go on from the line at a place for so long.
fn goes_round(nexts: &[Option<usize>], place: usize) -> bool
    ensures { result ≡ links.goes_round nexts.now place }
{
    far_from(nexts, place).is_some()
}

/// The place of the first line from which one goes round.
fn first_round(nexts: &[Option<usize>]) -> Option<usize>
    ensures { result ≡ find (links.goes_round nexts.now) (range_with_len 0 (length nexts.now)) }
{
    (0..nexts.len()).find(|place| goes_round(nexts, *place))
}

/// A line of the circle at which one comes from there.
fn entry(nexts: &[Option<usize>]) -> Option<usize>
    ensures { result ≡ links.entry nexts.now }
{
    match first_round(nexts) {
        Some(place) => far_from(nexts, place),
        None => None,
    }
}

/// Whether from the line after a line one is back at it in so many steps.
fn is_back(nexts: &[Option<usize>], line: usize, steps: usize) -> bool
    ensures { result ≡ links.is_back nexts.now line steps }
{
    let Some(next) = next_at(nexts, line) else {
        return false;
    };
    match follow(nexts, steps, next) {
        Some(at) => at == line,
        None => false,
    }
}

/// In how many steps.
fn steps_back(nexts: &[Option<usize>], line: usize) -> Option<usize>
    ensures { result ≡ links.steps_back nexts.now line }
{
    (0..nexts.len()).find(|steps| is_back(nexts, line, *steps))
}

/// Adds the lines after a line, so many steps on, each after a comma.
fn push_steps(
    out: &mut Text,
    nexts: &[Option<usize>],
    steps: usize,
    from: usize,
) -> Result<(), Memory>
    ensures { OnOk result (out.new ≡ out.old ++ links.steps_text nexts.now steps from) }
{
    let mut at = from;
    for _step in 0..steps {
        match next_at(nexts, at) {
            Some(next) => {
                push_counted(out, b", ", next)?;
                at = next;
            }
            None => return Ok(()),
        }
    }
    Ok(())
}

/// Adds the lines after a line, one step more than these.
fn push_more(
    out: &mut Text,
    nexts: &[Option<usize>],
    steps: usize,
    from: usize,
) -> Result<(), Memory>
    ensures { OnOk result (out.new ≡ out.old ++ links.steps_text nexts.now (suc steps) from) }
{
    match next_at(nexts, from) {
        Some(next) => {
            push_counted(out, b", ", next)?;
            push_steps(out, nexts, steps, next)
        }
        None => Ok(()),
    }
}

/// Adds the lines of a circle, from one of them on until that comes again.
fn push_round(out: &mut Text, nexts: &[Option<usize>], line: usize) -> Result<(), Memory>
    ensures { OnOk result (out.new ≡ out.old ++ links.round_text nexts.now line (links.steps_back nexts.now line)) }
{
    match steps_back(nexts, line) {
        Some(steps) => {
            push_counted(out, b"These lines wait in a circle: ", line)?;
            push_more(out, nexts, steps, line)?;
            out.push(b".\n")
        }
        None => Ok(()),
    }
}

/// Adds the circle among the lines of a wait list, where there is one.
pub(crate) fn push_circle(alloc: Global, out: &mut Text, waits: &[WaitLine]) -> Result<(), Memory>
    ensures { OnOk result (out.new ≡ out.old ++ links.circle_text waits.now) }
{
    let nexts = nexts_of(alloc, waits)?;
    match entry(nexts.as_slice()) {
        Some(line) => push_round(out, nexts.as_slice(), line),
        None => Ok(()),
    }
}
