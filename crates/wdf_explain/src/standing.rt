//! How an object is at the end of a run, in words.
ghost use Rattle.std.specs.Prelude.{◌≡◌, ◌++◌, OnOk, codes};
ghost use Rattle.wdf_base.specs.Words.{status_word};
ghost use Rattle.wdf_lines.specs.Lines.{object_text};
ghost use Rattle.wdf_explain.specs.Standings.{having_text, holder_text, kept_text, life_text, mark_text, moved_at, references_text, since_text, standing_text, taken_at, who_text};

use crate::asked::Asked;
use crate::numbers::last_number;
use crate::told::{Having, Standing};
use crate::words::{push_between, push_numbered, push_object, push_three, push_with, status_bytes};
use std::alloc::Global;
use wdf_base::{Event, Handle, Life, Mark, Memory, Plan, Status};
use wdf_writing::Text;

/// Adds since when it is so, where that is known, and ends the sentence.
fn push_since(out: &mut Text, number: Option<usize>) -> Result<(), Memory>
    ensures { OnOk result (out.new ≡ out.old ++ since_text number) }
{
    match number {
        Some(number) => push_numbered(out, b", since event ", number, b"."),
        None => out.push(b"."),
    }
}

/// Adds since when a request is where it is.
fn push_moved(
    alloc: Global,
    out: &mut Text,
    events: &[Event],
    request: Handle,
) -> Result<(), Memory>
    ensures { OnOk result (out.new ≡ out.old ++ since_text (moved_at events.now request)) }
{
    let number = last_number(alloc, events, Asked::Moves(request.id))?;
    push_since(out, number)
}

/// Adds the frame that holds a lock.
fn push_holder(out: &mut Text, number: Option<usize>, holder: Option<u32>) -> Result<(), Memory>
    ensures { OnOk result (out.new ≡ out.old ++ holder_text number holder) }
{
    match holder {
        Some(frame) => {
            push_numbered(
                out,
                b" The callback of event ",
                frame as usize,
                b" holds its lock",
            )?;
            push_since(out, number)
        }
        None => out.push(b" No callback holds its lock."),
    }
}

/// Adds who holds the lock of an object.
fn push_lock(
    alloc: Global,
    out: &mut Text,
    events: &[Event],
    object: Handle,
    holder: Option<u32>,
) -> Result<(), Memory>
    ensures { OnOk result (out.new ≡ out.old ++ holder_text (taken_at events.now object) holder) }
{
    let number = last_number(alloc, events, Asked::Takes(object.id))?;
    push_holder(out, number, holder)
}

/// Adds that a request goes back to the driver.
fn push_returning(out: &mut Text, plan: &Plan, queue: Handle) -> Result<(), Memory>
    ensures { OnOk result (out.new ≡ out.old ++ (codes " It was cancelled in " ++ object_text plan.now queue ++ codes ", and EvtIoCanceledOnQueue is due for it.")) }
{
    push_between(
        out,
        plan,
        b" It was cancelled in ",
        queue,
        b", and EvtIoCanceledOnQueue is due for it.",
    )
}

/// Adds that the framework is about to complete a request.
fn push_closing(out: &mut Text, status: Status) -> Result<(), Memory>
    ensures { OnOk result (out.new ≡ out.old ++ (codes " The framework is about to complete it with " ++ status_word status ++ codes ".")) }
{
    push_three(
        out,
        b" The framework is about to complete it with ",
        status_bytes(status),
        b".",
    )
}

/// Adds bytes, an object and since when a request is where it is.
fn push_place(
    alloc: Global,
    out: &mut Text,
    plan: &Plan,
    events: &[Event],
    request: Handle,
    front: &[u8],
    object: Handle,
) -> Result<(), Memory>
    ensures { OnOk result (out.new ≡ out.old ++ (front.now ++ object_text plan.now object ++ since_text (moved_at events.now request))) }
{
    push_with(out, plan, front, object)?;
    push_moved(alloc, out, events, request)
}

/// Adds bytes and since when a request is where it is.
fn push_told(
    alloc: Global,
    out: &mut Text,
    events: &[Event],
    request: Handle,
    front: &[u8],
) -> Result<(), Memory>
    ensures { OnOk result (out.new ≡ out.old ++ (front.now ++ since_text (moved_at events.now request))) }
{
    out.push(front)?;
    push_moved(alloc, out, events, request)
}

/// Adds who has an object.
fn push_having(
    alloc: Global,
    out: &mut Text,
    plan: &Plan,
    events: &[Event],
    standing: &Standing,
) -> Result<(), Memory>
    ensures { OnOk result (out.new ≡ out.old ++ having_text plan.now events.now standing.now.object standing.now.having) }
{
    let object = standing.object;
    match standing.having {
        Having::Driver => push_told(alloc, out, events, object, b" The driver has it"),
        Having::Queued(queue) => {
            push_place(alloc, out, plan, events, object, b" It waits in ", queue)
        }
        Having::Target(target) => {
            push_place(alloc, out, plan, events, object, b" It is at ", target)
        }
        Having::Done => push_told(alloc, out, events, object, b" It is completed"),
        Having::Returning(queue) => push_returning(out, plan, queue),
        Having::Closing(status) => push_closing(out, status),
        Having::Lock(holder) => push_lock(alloc, out, events, object, holder),
        Having::Nobody => Ok(()),
    }
}

/// How far the cancel of a request has come.
fn mark_bytes(mark: Mark) -> &'static [u8]
    ensures { result.now ≡ mark_text mark }
{
    match mark {
        Mark::Unmarked => b"",
        Mark::Marked => b" It is cancelable.",
        Mark::Due => b" It was cancelable and is cancelled: its EvtRequestCancel is due.",
        Mark::Taken => b" Its EvtRequestCancel has begun.",
    }
}

/// Adds how many references the driver holds.
fn push_references(out: &mut Text, count: u32) -> Result<(), Memory>
    ensures { OnOk result (out.new ≡ out.old ++ references_text count) }
{
    if count == 0 {
        return Ok(());
    }
    push_numbered(
        out,
        b" The driver holds ",
        count as usize,
        b" references to it.",
    )
}

/// How far the deletion of an object has come.
fn life_bytes(life: Life) -> &'static [u8]
    ensures { result.now ≡ life_text life }
{
    match life {
        Life::Live => b" Nobody has asked for its deletion.",
        Life::Asked => b" Its deletion was asked.",
        Life::Cleaned => b" It is cleaned up.",
        Life::Gone => b" It is gone.",
    }
}

/// Adds who has an object, and how far its cancel has come.
#[tactic(auto, unfolding(crate::specs::Standings::who_text))]
fn push_who(
    alloc: Global,
    out: &mut Text,
    plan: &Plan,
    events: &[Event],
    standing: &Standing,
) -> Result<(), Memory>
    ensures { OnOk result (out.new ≡ out.old ++ who_text plan.now events.now standing.now) }
{
    push_having(alloc, out, plan, events, standing)?;
    out.push(mark_bytes(standing.mark))
}

/// Adds its references, and how far its deletion has come.
#[tactic(auto, unfolding(crate::specs::Standings::kept_text))]
fn push_life(out: &mut Text, standing: &Standing) -> Result<(), Memory>
    ensures { OnOk result (out.new ≡ out.old ++ kept_text standing.now) }
{
    push_references(out, standing.references)?;
    out.push(life_bytes(standing.life))
}

/// Adds how an object is, in one line.
#[tactic(auto, unfolding(crate::specs::Standings::standing_text))]
pub(crate) fn push_standing(
    alloc: Global,
    out: &mut Text,
    plan: &Plan,
    events: &[Event],
    standing: &Standing,
) -> Result<(), Memory>
    ensures { OnOk result (out.new ≡ out.old ++ standing_text plan.now events.now standing.now) }
{
    push_object(out, plan, standing.object)?;
    out.push(b":")?;
    push_who(alloc, out, plan, events, standing)?;
    push_life(out, standing)?;
    out.push(b"\n")
}
