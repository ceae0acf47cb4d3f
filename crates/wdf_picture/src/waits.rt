//! The wait list of a stuck run: what is open, and an arrow from each to what it waits for.
use std::alloc::Global;
use wdf_base::{Cause, Handle, Memory, OpenThing, Plan, WaitLine};
use wdf_lines::wait_line;
use wdf_page::Page;

/// The height of a line.
const LINE: u64 = 30;

/// Whether an open thing is this frame.
fn is_frame(thing: &OpenThing, number: u32) -> bool {
    match thing {
        OpenThing::Waiting { frame, .. } => frame.0 == number,
        _ => false,
    }
}

/// The object that an open thing is.
fn object_of(thing: &OpenThing) -> Option<Handle> {
    match *thing {
        OpenThing::Owned { request }
        | OpenThing::Sent { request, .. }
        | OpenThing::Queued { request, .. }
        | OpenThing::Returning { request, .. } => Some(request),
        OpenThing::Sequence { device, .. } | OpenThing::Asking { device } => Some(device),
        OpenThing::Leaving { object } | OpenThing::Deferred { object } => Some(object),
        OpenThing::Waiting { .. } => None,
    }
}

/// Whether an open thing is this object.
fn is_object(thing: &OpenThing, id: u32) -> bool {
    match object_of(thing) {
        Some(object) => object.id.0 == id,
        None => false,
    }
}

/// Whether an open thing is what a cause names.
fn is_named(thing: &OpenThing, cause: Cause) -> bool {
    match cause {
        Cause::ByFrame { frame } | Cause::ByLock { frame, .. } => is_frame(thing, frame.0),
        Cause::ByRequest { request } | Cause::Behind { request } => is_object(thing, request.id.0),
        Cause::ByWork { work } => is_object(thing, work.id.0),
        Cause::ByChild { child } => is_object(thing, child.id.0),
        _ => false,
    }
}

/// The place in the wait list of what a line waits for, if it is there.
fn next_of(waits: &[WaitLine], line: &WaitLine) -> Option<usize> {
    let cause = line.cause?;
    waits.iter().position(|other| is_named(&other.thing, cause))
}

/// For each line of a wait list the place of what it waits for, if it is there.
#[derive(Drop)]
struct Arrows {
    next: Vec<Option<usize>>,
}

impl Arrows {
    fn new(alloc: Global, waits: &[WaitLine]) -> Result<Arrows, Memory> {
        let mut next = Vec::new(alloc);
        for line in waits {
            next.push(next_of(waits, line))?;
        }
        Ok(Arrows { next })
    }

    fn next(&self, at: usize) -> Option<usize> {
        match self.next.as_slice().get(at) {
            Some(next) => *next,
            None => None,
        }
    }

    /// Whether the line at a place waits for itself, by way of others.
    fn is_in_circle(&self, at: usize) -> bool {
        let mut place = at;
        for _ in 0..self.next.len() {
            match self.next(place) {
                Some(next) => place = next,
                None => return false,
            }
            if place == at {
                return true;
            }
        }
        false
    }
}

/// Adds a number as an attribute of this name.
fn push_number(
    page: &mut Page,
    front: &'static str,
    value: u64,
    back: &'static str,
) -> Result<(), Memory> {
    page.markup(front)?;
    page.number(value)?;
    page.markup(back)
}

/// Adds the arrow from a line to another. It leaves a line above its middle and ends below one, so that two lines that wait for
/// each other have two arrows that can be told apart.
fn push_arrow(page: &mut Page, from: usize, to: usize, red: bool) -> Result<(), Memory> {
    let start = (from as u64).saturating_mul(LINE).saturating_add(10);
    let end = (to as u64).saturating_mul(LINE).saturating_add(20);
    let bend = (from.abs_diff(to) as u64)
        .saturating_mul(20)
        .saturating_add(560)
        .min(860);
    page.markup(if red {
        "<path class=\"arrow circle\" "
    } else {
        "<path class=\"arrow\" "
    })?;
    page.markup(if red {
        "marker-end=\"url(#red)\" "
    } else {
        "marker-end=\"url(#tip)\" "
    })?;
    push_number(page, "d=\"M522 ", start, " C")?;
    push_number(page, "", bend, " ")?;
    push_number(page, "", start, " ")?;
    push_number(page, "", bend, " ")?;
    push_number(page, "", end, " 524 ")?;
    push_number(page, "", end, "\"/>\n")
}

/// Adds a line of the wait list.
fn push_wait(
    page: &mut Page,
    plan: &Plan,
    line: &WaitLine,
    arrows: &Arrows,
    at: usize,
) -> Result<(), Memory> {
    let red = arrows.is_in_circle(at);
    let y = (at as u64).saturating_mul(LINE).saturating_add(3);
    page.markup(if red {
        "<g class=\"w circle\">"
    } else {
        "<g class=\"w\">"
    })?;
    push_number(
        page,
        "<rect x=\"2\" width=\"520\" height=\"24\" rx=\"4\" y=\"",
        y,
        "\"/>",
    )?;
    push_number(page, "<text x=\"12\" y=\"", y.saturating_add(16), "\">")?;
    page.text(wait_line(plan, line).bytes())?;
    page.markup("</text></g>\n")?;
    match arrows.next(at) {
        Some(next) => push_arrow(page, at, next, red),
        None => Ok(()),
    }
}

/// Adds the wait list of a stuck run.
///
/// # Errors
///
/// [`Memory`] where memory was refused.
pub(crate) fn push_waits(
    alloc: Global,
    page: &mut Page,
    plan: &Plan,
    waits: &[WaitLine],
) -> Result<(), Memory> {
    if waits.is_empty() {
        return Ok(());
    }
    page.markup("<section id=\"stuck\"><h2>What waits for what</h2>\n")?;
    push_number(
        page,
        "<svg width=\"780\" height=\"",
        (waits.len() as u64).saturating_mul(LINE).saturating_add(6),
        "\">\n",
    )?;
    page.markup(
        "<defs><marker id=\"tip\" viewBox=\"0 0 10 10\" refX=\"9\" refY=\"5\" markerUnits=\"userSpaceOnUse\" markerWidth=\"12\" markerHeight=\"12\" orient=\"auto\"><path d=\"M0 0L10 5L0 10z\"/></marker>",
    )?;
    page.markup(
        "<marker id=\"red\" viewBox=\"0 0 10 10\" refX=\"9\" refY=\"5\" markerUnits=\"userSpaceOnUse\" markerWidth=\"12\" markerHeight=\"12\" orient=\"auto\"><path d=\"M0 0L10 5L0 10z\"/></marker></defs>\n",
    )?;
    let arrows = Arrows::new(alloc, waits)?;
    for at in 0..waits.len() {
        push_wait(page, plan, &waits[at], &arrows, at)?;
    }
    page.markup("</svg></section>\n")
}
