//! The story of a stuck run.
ghost use Rattle.std.specs.Prelude.{◌≡◌, ◌++◌, OnOk, codes};
ghost use Rattle.wdf_lines.specs.Endings.{wait_text};
ghost use Rattle.wdf_explain.specs.Stories.{in_callback, numbered_text, open_text, owned_since, owned_story, see_text, stuck_story, stuck_text, wait_stories, wait_story};

use crate::asked::Asked;
use crate::circle::push_circle;
use crate::links::next_of;
use crate::numbers::{last_number, push_events};
use crate::rules::why_of;
use crate::turns::frame_of;
use crate::words::{push_counted, push_numbered, push_three};
use std::alloc::Global;
use wdf_base::{Event, Memory, OpenThing, Plan, WaitLine};
use wdf_lines::wait_line;
use wdf_writing::Text;

/// Adds the callback in which an event came.
fn push_callback(out: &mut Text, frame: Option<usize>) -> Result<(), Memory>
    ensures { OnOk result (out.new ≡ out.old ++ in_callback frame) }
{
    match frame {
        Some(frame) => push_counted(out, b" in the callback of event ", frame),
        None => Ok(()),
    }
}

/// Adds by which event the driver got a request, and in which callback.
fn push_since(
    out: &mut Text,
    plan: &Plan,
    events: &[Event],
    number: Option<usize>,
) -> Result<(), Memory>
    ensures { OnOk result (out.new ≡ out.old ++ owned_since plan.now events.now number) }
{
    let Some(number) = number else {
        return Ok(());
    };
    out.push(b"  It got it")?;
    push_callback(out, frame_of(events, number))?;
    out.push(b", by\n")?;
    push_events(out, plan, events, &[number])
}

/// Adds what is told of a request that the driver has.
fn push_owned(
    alloc: Global,
    out: &mut Text,
    plan: &Plan,
    events: &[Event],
    thing: &OpenThing,
) -> Result<(), Memory>
    ensures { OnOk result (out.new ≡ out.old ++ owned_story plan.now events.now thing.now) }
{
    match thing {
        OpenThing::Owned { request } => {
            let number = last_number(alloc, events, Asked::Moves(request.id))?;
            push_since(out, plan, events, number)
        }
        _ => Ok(()),
    }
}

/// Adds the line for which a line waits.
fn push_see(out: &mut Text, line: Option<usize>) -> Result<(), Memory>
    ensures { OnOk result (out.new ≡ out.old ++ see_text line) }
{
    match line {
        Some(line) => push_numbered(out, b" See line ", line, b"."),
        None => Ok(()),
    }
}

/// Adds a line of the wait list after a colon.
fn push_wait_text(out: &mut Text, plan: &Plan, wait: &WaitLine) -> Result<(), Memory>
    ensures { OnOk result (out.new ≡ out.old ++ (codes ": " ++ wait_text plan.now wait.now ++ codes "\n")) }
{
    push_three(out, b": ", wait_line(plan, wait).bytes(), b"\n")
}

/// Adds a line of the wait list with this number.
fn push_line(out: &mut Text, plan: &Plan, number: usize, wait: &WaitLine) -> Result<(), Memory>
    ensures { OnOk result (out.new ≡ out.old ++ numbered_text plan.now number wait.now) }
{
    out.push_number(number as u64)?;
    push_wait_text(out, plan, wait)
}

/// Adds why it is open, and the line for which it waits.
#[tactic(auto, unfolding(crate::specs::Stories::open_text))]
fn push_open(out: &mut Text, waits: &[WaitLine], wait: &WaitLine) -> Result<(), Memory>
    ensures { OnOk result (out.new ≡ out.old ++ open_text waits.now wait.now) }
{
    out.push(b"  ")?;
    out.push(why_of(wait))?;
    push_see(out, next_of(waits, wait))?;
    out.push(b"\n")
}

/// Adds a line of the wait list with this number, why it is open, and the line for which it waits.
#[tactic(auto, unfolding(crate::specs::Stories::wait_story))]
fn push_wait(
    alloc: Global,
    out: &mut Text,
    plan: &Plan,
    events: &[Event],
    waits: &[WaitLine],
    number: usize,
    wait: &WaitLine,
) -> Result<(), Memory>
    ensures { OnOk result (out.new ≡ out.old ++ wait_story plan.now events.now waits.now number wait.now) }
{
    push_line(out, plan, number, wait)?;
    push_open(out, waits, wait)?;
    push_owned(alloc, out, plan, events, &wait.thing)
}

/// Adds the lines of a wait list, numbered from 1.
fn push_waits(
    alloc: Global,
    out: &mut Text,
    plan: &Plan,
    events: &[Event],
    waits: &[WaitLine],
) -> Result<(), Memory>
    ensures { OnOk result (out.new ≡ out.old ++ wait_stories plan.now events.now waits.now 1 waits.now) }
{
    let mut before = 0;
    for wait in waits {
        push_wait(alloc, out, plan, events, waits, before + 1, wait)?;
        before += 1;
    }
    Ok(())
}

/// Adds how many events there were.
#[tactic(auto, unfolding(crate::specs::Stories::stuck_text))]
fn push_stuck(out: &mut Text, events: usize) -> Result<(), Memory>
    ensures { OnOk result (out.new ≡ out.old ++ stuck_text events) }
{
    push_numbered(
        out,
        b"The run of ",
        events,
        b" events is stuck: this is open, and nothing can happen.\n",
    )
}

/// Adds the story of a stuck run.
pub(crate) fn push_stuck_story(
    alloc: Global,
    out: &mut Text,
    plan: &Plan,
    events: &[Event],
    waits: &[WaitLine],
) -> Result<(), Memory>
    ensures { OnOk result (out.new ≡ out.old ++ stuck_story plan.now events.now waits.now) }
{
    push_stuck(out, events.len())?;
    push_waits(alloc, out, plan, events, waits)?;
    push_circle(alloc, out, waits)
}
