//! The story of a run's ending.
ghost use Rattle.std.specs.Prelude.{◌≡◌, ◌++◌, IfOk, OnOk};
ghost use Rattle.wdf_explain.specs.Stories.{story_of};

use crate::fault::push_fault_story;
use crate::stuck::push_stuck_story;
use crate::told::Doing;
use crate::words::push_numbered;
use std::alloc::Global;
use wdf_base::{Ending, Event, Memory, Plan, WaitLine};
use wdf_writing::Text;

/// Adds the story of a run's ending.
fn push_story(
    alloc: Global,
    out: &mut Text,
    plan: &Plan,
    events: &[Event],
    ending: Ending,
    waits: &[WaitLine],
    doing: &Option<Doing>,
) -> Result<(), Memory>
    ensures { OnOk result (out.new ≡ out.old ++ story_of plan.now events.now doing.now waits.now ending) }
{
    match ending {
        Ending::Running => Ok(()),
        Ending::Finished => push_numbered(
            out,
            b"The run of ",
            events.len(),
            b" events finished: nothing is open.\n",
        ),
        Ending::Limit => push_numbered(
            out,
            b"The run came to its limit of ",
            events.len(),
            b" events, and might go on.\n",
        ),
        Ending::Fault(_) => push_fault_story(alloc, out, plan, events, doing),
        Ending::Stuck => push_stuck_story(alloc, out, plan, events, waits),
    }
}

/// The story of a run's ending, from its events and its wait list, and from what was about to be done where it ended in a fault.
///
/// # Errors
///
/// [`Memory`] where memory was refused.
pub fn story_of(
    alloc: Global,
    plan: &Plan,
    events: &[Event],
    ending: Ending,
    waits: &[WaitLine],
    doing: &Option<Doing>,
) -> Result<Text, Memory>
    ensures { IfOk result (λ text. text ≡ story_of plan.now events.now doing.now waits.now ending) }
{
    let mut out = Text::new(alloc);
    push_story(alloc, &mut out, plan, events, ending, waits, doing)?;
    Ok(out)
}
