ghost use Rattle.std.specs.Prelude.{◌≡◌, ◌≢◌, ◌+◌, ◌<◌, ◌≤◌, ◌++◌, ◌∷◌, [], length, codes, decimal, Option};
ghost use Rattle.wdf_lines.specs.Lines.{spaced, object_text};
ghost use Rattle.wdf_lines.specs.Endings.{joined, ending_text, ending_word, step_word, thing_words, cause_words, wait_text};

use crate::line::{LINE_LIMIT, Line};
use crate::pieces::*;
use wdf_base::{Callback, Cause, Ending, FrameId, Handle, OpenThing, Plan, Step, WaitLine};

/// The word of an ending; a run that goes on has none.
pub fn ending_word(ending: Ending) -> &'static [u8]
    ensures value { result.now ≡ ending_word ending }
    ensures small { length result.now ≤ 8 }
{
    match ending {
        Ending::Running => b"",
        Ending::Finished => b"finished",
        Ending::Limit => b"limit",
        Ending::Fault(_) => b"fault",
        Ending::Stuck => b"stuck",
    }
}

/// The line of an ending after this many events, without its line feed.
pub fn ending_line(events: usize, ending: Ending) -> Line
    requires { ending ≢ Ending.Running }
    ensures value { result ≡ ending_text events ending }
    ensures small { length result < LINE_LIMIT }
{
    let mut line = Line::new();
    line.push(ending_word(ending));
    line.push_number(events as u64);
    line
}

/// The word of a step of a sequence.
fn step_bytes(step: Step) -> &'static [u8]
    ensures value { result.now ≡ step_word step }
    ensures small { length result.now ≤ 40 }
{
    match step {
        Step::Run { callback, .. } => callback_bytes(callback),
        Step::Pass { stage, .. } => stage_bytes(stage),
    }
}

/// Adds a frame with no blank before it.
fn push_frame(line: &mut Line, frame: FrameId)
    requires { length line.old + 26 ≤ LINE_LIMIT }
    ensures value { line.new ≡ line.old ++ joined (codes "frame" ∷ decimal frame.0 ∷ []) }
    ensures length { length line.new ≤ length line.old + 26 }
{
    line.push(b"frame");
    line.push_number(u64::from(frame.0));
}

/// Adds an object and a word with no blank before them.
fn push_object_word(line: &mut Line, plan: &Plan, object: Handle, word: &[u8])
    requires room { length line.old + 94 ≤ LINE_LIMIT }
    requires short { length word.now ≤ 40 }
    ensures value { line.new ≡ line.old ++ joined (object_text plan.now object ∷ word.now ∷ []) }
    ensures length { length line.new ≤ length line.old + 94 }
{
    push_first_object(line, plan, object);
    line.push_word(word);
}

/// Adds a waiting frame with no blank before it.
fn push_waiting(line: &mut Line, plan: &Plan, frame: FrameId, callback: Callback, object: Handle)
    requires { length line.old + 130 ≤ LINE_LIMIT }
    ensures value { line.new ≡ line.old ++ joined (thing_words plan.now (OpenThing.Waiting frame callback object)) }
    ensures length { length line.new ≤ length line.old + 130 }
{
    push_frame(line, frame);
    line.push_word(callback_bytes(callback));
    push_object(line, plan, object);
    line.push_word(b"waits");
}

/// Adds what is open with no blank before it.
fn push_thing(line: &mut Line, plan: &Plan, thing: &OpenThing)
    requires { length line.old + 150 ≤ LINE_LIMIT }
    ensures value { line.new ≡ line.old ++ joined (thing_words plan.now thing.now) }
    ensures length { length line.new ≤ length line.old + 150 }
{
    match *thing {
        OpenThing::Waiting {
            frame,
            callback,
            object,
        } => push_waiting(line, plan, frame, callback, object),
        OpenThing::Owned { request } => push_object_word(line, plan, request, b"owned"),
        OpenThing::Sent { request, target } => {
            push_object_word(line, plan, request, b"sent");
            push_object(line, plan, target);
        }
        OpenThing::Queued { request, queue } => {
            push_object_word(line, plan, request, b"queued");
            push_object(line, plan, queue);
        }
        OpenThing::Returning { request, queue } => {
            push_object_word(line, plan, request, b"returning");
            push_object(line, plan, queue);
        }
        OpenThing::Sequence { device, step } => {
            push_object_word(line, plan, device, step_bytes(step));
            line.push_word(b"waits");
        }
        OpenThing::Leaving { object } => push_first_object(line, plan, object),
        OpenThing::Deferred { object } => push_object_word(line, plan, object, b"queued"),
        OpenThing::Asking { device } => {
            line.push(b"pnp");
            push_word_object(line, plan, b"waits", device);
        }
    }
}

/// Adds the words of a cause.
fn push_cause(line: &mut Line, plan: &Plan, cause: Option<Cause>)
    requires { length line.old + 170 ≤ LINE_LIMIT }
    ensures value { line.new ≡ line.old ++ spaced (cause_words plan.now cause) }
    ensures length { length line.new ≤ length line.old + 170 }
{
    let Some(cause) = cause else {
        return;
    };
    match cause {
        Cause::ByFrame { frame } => push_word_number(line, b"frame", u64::from(frame.0)),
        Cause::ByLock { lock, frame } => {
            push_word_object(line, plan, b"lock", lock);
            line.push_word(b"of");
            push_word_number(line, b"frame", u64::from(frame.0));
        }
        Cause::ByRequest { request } => push_word_object(line, plan, b"request", request),
        Cause::ByWork { work } => push_word_object(line, plan, b"work", work),
        Cause::Stopped => line.push_word(b"stopped"),
        Cause::Unpowered => line.push_word(b"unpowered"),
        Cause::Manual => line.push_word(b"manual"),
        Cause::Behind { request } => push_word_object(line, plan, b"behind", request),
        Cause::Full => line.push_word(b"full"),
        Cause::ScopeHeld => line.push_word(b"scope"),
        Cause::NoCpu => line.push_word(b"cpus"),
        Cause::References { count } => push_word_number(line, b"references", u64::from(count)),
        Cause::ByChild { child } => push_word_object(line, plan, b"child", child),
        Cause::AtTarget { target } => push_word_object(line, plan, b"sent", target),
    }
}

/// A line of the wait list, without its line feed.
pub fn wait_line(plan: &Plan, wait: &WaitLine) -> Line
    ensures value { result ≡ wait_text plan.now wait.now }
    ensures small { length result < LINE_LIMIT }
{
    let mut line = Line::new();
    push_thing(&mut line, plan, &wait.thing);
    push_cause(&mut line, plan, wait.cause);
    line
}
