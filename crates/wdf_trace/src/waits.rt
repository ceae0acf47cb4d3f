ghost use Rattle.std.specs.Prelude.{◌≡◌, ◌≢◌, ◌↔◌, ◌+◌, ◌<◌, IsTrue, true, Option};
ghost use Rattle.wdf_base.specs.declared.wait.WaitLine.{WaitLine};
ghost use Rattle.wdf_base.specs.Resolved.{IsResolved};
ghost use Rattle.wdf_lines.specs.Endings.{ending_text, wait_text};
ghost use Rattle.wdf_trace.specs.Reading.{words};
ghost use Rattle.wdf_trace.specs.Waits.{IsEndingText, ending_of, has_cause, IsThingOf, IsCauseOf, IsWaitOf, frame_of, cause_in, step_of, queued_line, sequence_line, object_line, wait_in};

use crate::cause_word::CauseWord;
use crate::reading::{has_dot, number_of, object_of, short_of, word};
use crate::told::{callback_in, callback_named, stage_in};
use crate::valid::is_handle;
use wdf_base::{Cause, Ending, Fault, FrameId, OpenThing, Plan, Step, WaitLine};
use wdf_lines::{ending_line, wait_line};

/// The ending that a word gives; a fault is any. A run that goes on has no word.
fn ending_of(word: &[u8]) -> Ending
    ensures { result ≡ ending_of word.now }
{
    if word == b"finished".as_slice() {
        Ending::Finished
    } else if word == b"limit".as_slice() {
        Ending::Limit
    } else if word == b"fault".as_slice() {
        Ending::Fault(Fault::ScriptError)
    } else if word == b"stuck".as_slice() {
        Ending::Stuck
    } else {
        Ending::Running
    }
}

/// Whether a run has ended so.
fn is_over(ending: Ending) -> bool
    ensures { IsTrue result ↔ (ending ≢ Ending.Running) }
{
    !matches!(ending, Ending::Running)
}

/// Whether a run has ended so, and the text is the line of its ending.
fn is_line_of_ending(events: usize, ending: Ending, text: &[u8]) -> bool
    ensures { IsTrue result ↔ ((ending ≢ Ending.Running) × (ending_text events ending ≡ text.now)) }
{
    is_over(ending) && ending_line(events, ending).bytes() == text
}

/// Whether a text is the line of an ending, without its line feed.
pub fn reads_as_ending(text: &[u8]) -> bool
    ensures { IsTrue result ↔ IsEndingText text.now }
{
    let ending = ending_of(word(text, 0));
    let events = number_of(word(text, 1)) as usize;
    is_line_of_ending(events, ending, text)
}

/// A frame that a word names.
fn frame_of(word: &[u8]) -> FrameId
    ensures { result ≡ frame_of word.now }
{
    FrameId(short_of(word))
}

/// The cause that comes from this place on.
fn cause_in(plan: &Plan, place: usize, text: &[u8]) -> Option<Cause>
    requires { place < 16 }
    ensures { result ≡ cause_in plan.now place (words text.now) }
{
    let cause = match CauseWord::from_word(word(text, place))? {
        CauseWord::Frame => Cause::ByFrame {
            frame: frame_of(word(text, place + 1)),
        },
        CauseWord::Lock => Cause::ByLock {
            lock: object_of(plan, word(text, place + 1)),
            frame: frame_of(word(text, place + 4)),
        },
        CauseWord::Request => Cause::ByRequest {
            request: object_of(plan, word(text, place + 1)),
        },
        CauseWord::Work => Cause::ByWork {
            work: object_of(plan, word(text, place + 1)),
        },
        CauseWord::Stopped => Cause::Stopped,
        CauseWord::Unpowered => Cause::Unpowered,
        CauseWord::Manual => Cause::Manual,
        CauseWord::Behind => Cause::Behind {
            request: object_of(plan, word(text, place + 1)),
        },
        CauseWord::Full => Cause::Full,
        CauseWord::Scope => Cause::ScopeHeld,
        CauseWord::Cpus => Cause::NoCpu,
        CauseWord::References => Cause::References {
            count: short_of(word(text, place + 1)),
        },
        CauseWord::Child => Cause::ByChild {
            child: object_of(plan, word(text, place + 1)),
        },
        CauseWord::Sent => Cause::AtTarget {
            target: object_of(plan, word(text, place + 1)),
        },
    };
    Some(cause)
}

/// The step that a word names, without an interrupt.
fn step_of(word: &[u8]) -> Step
    ensures { result ≡ step_of word.now }
{
    match callback_named(word) {
        Some(callback) => Step::Run {
            callback,
            interrupt: None,
        },
        None => Step::Pass {
            stage: stage_in(word),
            interrupt: None,
        },
    }
}

/// A line with `queued`: a request in the line of a queue, or an object that is queued itself.
fn queued_line(plan: &Plan, text: &[u8]) -> WaitLine
    ensures { result ≡ queued_line plan.now (words text.now) }
{
    let object = object_of(plan, word(text, 0));
    if has_dot(word(text, 2)) {
        WaitLine {
            thing: OpenThing::Queued {
                request: object,
                queue: object_of(plan, word(text, 2)),
            },
            cause: cause_in(plan, 3, text),
        }
    } else {
        WaitLine {
            thing: OpenThing::Deferred { object },
            cause: cause_in(plan, 2, text),
        }
    }
}

/// A line with the step of a sequence.
fn sequence_line(plan: &Plan, text: &[u8]) -> WaitLine
    ensures { result ≡ sequence_line plan.now (words text.now) }
{
    WaitLine {
        thing: OpenThing::Sequence {
            device: object_of(plan, word(text, 0)),
            step: step_of(word(text, 1)),
        },
        cause: cause_in(plan, 3, text),
    }
}

/// A line that begins with an object.
fn object_line(plan: &Plan, text: &[u8]) -> WaitLine
    ensures { result ≡ object_line plan.now (words text.now) }
{
    let object = object_of(plan, word(text, 0));
    let what = word(text, 1);
    if what == b"owned".as_slice() {
        WaitLine {
            thing: OpenThing::Owned { request: object },
            cause: None,
        }
    } else if what == b"sent".as_slice() {
        WaitLine {
            thing: OpenThing::Sent {
                request: object,
                target: object_of(plan, word(text, 2)),
            },
            cause: None,
        }
    } else if what == b"returning".as_slice() {
        WaitLine {
            thing: OpenThing::Returning {
                request: object,
                queue: object_of(plan, word(text, 2)),
            },
            cause: cause_in(plan, 3, text),
        }
    } else if word(text, 2) == b"waits".as_slice() {
        sequence_line(plan, text)
    } else if what == b"queued".as_slice() {
        queued_line(plan, text)
    } else {
        WaitLine {
            thing: OpenThing::Leaving { object },
            cause: cause_in(plan, 1, text),
        }
    }
}

/// The line of a wait list that a text gives, if it gives any.
fn wait_in(plan: &Plan, text: &[u8]) -> WaitLine
    ensures { result ≡ wait_in plan.now (words text.now) }
{
    if word(text, 0) == b"frame".as_slice() {
        WaitLine {
            thing: OpenThing::Waiting {
                frame: frame_of(word(text, 1)),
                callback: callback_in(word(text, 2)),
                object: object_of(plan, word(text, 3)),
            },
            cause: cause_in(plan, 5, text),
        }
    } else if word(text, 0) == b"pnp".as_slice() {
        WaitLine {
            thing: OpenThing::Asking {
                device: object_of(plan, word(text, 2)),
            },
            cause: None,
        }
    } else {
        object_line(plan, text)
    }
}

/// Whether what is open has names of the plan.
fn is_thing(plan: &Plan, thing: OpenThing) -> bool
    ensures { IsTrue result ↔ IsThingOf plan.now thing }
{
    match thing {
        OpenThing::Waiting { object, .. } => is_handle(plan, object),
        OpenThing::Owned { request } => is_handle(plan, request),
        OpenThing::Sent { request, target } => is_handle(plan, request) && is_handle(plan, target),
        OpenThing::Queued { request, queue } => is_handle(plan, request) && is_handle(plan, queue),
        OpenThing::Returning { request, queue } => {
            is_handle(plan, request) && is_handle(plan, queue)
        }
        OpenThing::Sequence { device, .. } => is_handle(plan, device),
        OpenThing::Leaving { object } => is_handle(plan, object),
        OpenThing::Deferred { object } => is_handle(plan, object),
        OpenThing::Asking { device } => is_handle(plan, device),
    }
}

/// Whether a cause, if there is one, has names of the plan.
fn is_cause(plan: &Plan, cause: Option<Cause>) -> bool
    ensures { IsTrue result ↔ IsCauseOf plan.now cause }
{
    match cause {
        Some(Cause::ByLock { lock, .. }) => is_handle(plan, lock),
        Some(Cause::ByRequest { request }) => is_handle(plan, request),
        Some(Cause::ByWork { work }) => is_handle(plan, work),
        Some(Cause::Behind { request }) => is_handle(plan, request),
        Some(Cause::ByChild { child }) => is_handle(plan, child),
        Some(Cause::AtTarget { target }) => is_handle(plan, target),
        _ => true,
    }
}

/// Whether a cause is in the row of what is open.
fn has_cause(thing: OpenThing, cause: Option<Cause>) -> bool
    ensures { result ≡ has_cause thing cause }
{
    use Cause::*;
    match thing {
        OpenThing::Waiting { .. } => matches!(
            cause,
            Some(ByFrame { .. } | ByLock { .. } | ByRequest { .. } | ByWork { .. } | NoCpu)
        ),
        OpenThing::Owned { .. } => cause.is_none(),
        OpenThing::Sent { .. } => cause.is_none(),
        OpenThing::Queued { .. } => matches!(
            cause,
            Some(Stopped | Unpowered | Manual | Behind { .. } | Full | ScopeHeld | NoCpu)
        ),
        OpenThing::Returning { .. } => matches!(cause, Some(ScopeHeld | NoCpu)),
        OpenThing::Sequence { .. } => {
            matches!(cause, Some(ByRequest { .. } | ByFrame { .. } | NoCpu))
        }
        OpenThing::Leaving { .. } => matches!(
            cause,
            Some(References { .. } | ByChild { .. } | ByFrame { .. } | NoCpu | AtTarget { .. })
        ),
        OpenThing::Deferred { .. } => matches!(cause, Some(ScopeHeld | ByFrame { .. } | NoCpu)),
        OpenThing::Asking { .. } => cause.is_none(),
    }
}

/// Whether a wait line has names of the plan and a cause of its row.
fn is_wait(plan: &Plan, wait: WaitLine) -> bool
    ensures { IsTrue result ↔ IsWaitOf plan.now wait }
{
    has_cause(wait.thing, wait.cause) && is_thing(plan, wait.thing) && is_cause(plan, wait.cause)
}

/// Whether a wait line is one of the plan, and the text its line.
fn is_line_of_wait(plan: &Plan, wait: WaitLine, text: &[u8]) -> bool
    ensures { IsTrue result ↔ ((wait_text plan.now wait ≡ text.now) × IsWaitOf plan.now wait) }
{
    is_wait(plan, wait) && wait_line(plan, &wait).bytes() == text
}

/// Whether a text is a line of a wait list of the plan, without its line feed.
pub fn reads_as_wait(plan: &Plan, text: &[u8]) -> bool
    // Only such a line reads so.
    ensures only { IsTrue result → (wait : WaitLine) × (wait_text plan.now wait ≡ text.now) × IsWaitOf plan.now wait }

    // Each line of a wait list of a resolved plan reads so.
    ensures each { IsResolved plan.now → (wait : WaitLine) → IsWaitOf plan.now wait → wait_text plan.now wait ≡ text.now → IsTrue result }
{
    is_line_of_wait(plan, wait_in(plan, text), text)
}
