ghost use Rattle.std.specs.Prelude.{◌≡◌, length, Option};
ghost use Rattle.wdf_trace.specs.Reading.{class_of};
ghost use Rattle.wdf_trace.specs.Told.{value_of, class_or_value, argument_of, call_with, call_in, answer_in, optional_of, answer_of, posted_in, asked_in, start_in, end_in, kind_in, callback_named, callback_in, fault_in, stage_in, status_in, told, event_in};

use crate::reading::{
    Words, agent_of, class_of, cpu_of, has_dot, number_of, object_of, register_of, short_of,
};
use crate::verb::Verb;
use wdf_base::{
    Access, Action, Arg, Ask, Call, CallKind, Callback, Event, Fault, FrameId, Handle, Plan, Post,
    Stage, Status, Value,
};

/// The value that a word names.
fn value_of(plan: &Plan, word: &[u8]) -> Value
    ensures { result ≡ value_of plan.now word.now }
{
    if has_dot(word) {
        return Value::Obj(object_of(plan, word));
    }
    match Status::from_word(word) {
        Some(status) => Value::Stat(status),
        None => Value::Num(number_of(word)),
    }
}

/// The class that a word names, or else the value.
fn class_or_value(plan: &Plan, word: &[u8]) -> Arg
    ensures { result ≡ class_or_value (class_of plan.now word.now) (value_of plan.now word.now) }
{
    match class_of(plan, word) {
        Some(class) => Arg::Class(class),
        None => Arg::Val(value_of(plan, word)),
    }
}

/// The argument that a word names. One that isn't taken is the number 0.
fn argument_of(plan: &Plan, taken: bool, word: &[u8]) -> Arg
    ensures { result ≡ argument_of plan.now taken word.now }
{
    if taken {
        class_or_value(plan, word)
    } else {
        Arg::Val(Value::Num(0))
    }
}

/// The call of this kind whose arguments a line has.
fn call_with(plan: &Plan, kind: CallKind, words: &Words) -> Call
    ensures { result ≡ call_with plan.now kind words.now }
{
    let count = kind.signature().count();
    Call {
        kind,
        count,
        a: argument_of(plan, count > 0, words.at(4)),
        b: argument_of(plan, count > 1, words.at(5)),
        c: argument_of(plan, count > 2, words.at(6)),
    }
}

/// The kind of call of a word; of another word it is any.
#[tactic(auto, unfolding(crate::specs::Told::kind_in))]
fn kind_in(word: &[u8]) -> CallKind
    ensures { result ≡ kind_in word.now }
{
    CallKind::from_word(word).unwrap_or(CallKind::GetContext)
}

/// The call of a line.
fn call_in(plan: &Plan, words: &Words) -> Call
    ensures { result ≡ call_in plan.now words.now }
{
    call_with(plan, kind_in(words.at(3)), words)
}

/// The answer of a line with a call, after its arguments and an arrow.
fn answer_in(plan: &Plan, call: &Call, words: &Words) -> Value
    ensures { result ≡ answer_in plan.now call.now words.now }
{
    value_of(plan, words.at(usize::from(call.count) + 5))
}

/// The object that a word names, where there is a word.
fn optional_of(plan: &Plan, word: &[u8]) -> Option<Handle>
    ensures { result ≡ optional_of plan.now word.now }
{
    if word.is_empty() {
        None
    } else {
        Some(object_of(plan, word))
    }
}

/// The answer to a post.
fn answer_of(plan: &Plan, word: &[u8]) -> Option<Handle>
    ensures { result ≡ answer_of plan.now word.now }
{
    if has_dot(word) {
        Some(object_of(plan, word))
    } else {
        None
    }
}

/// The callback of a word, if it is one.
#[tactic(auto, unfolding(crate::specs::Told::callback_named))]
pub fn callback_named(word: &[u8]) -> Option<Callback>
    ensures { result ≡ callback_named word.now }
{
    Callback::from_word(word)
}

/// The callback of a word; of another word it is any.
#[tactic(auto, unfolding(crate::specs::Told::callback_in))]
pub fn callback_in(word: &[u8]) -> Callback
    ensures { result ≡ callback_in word.now }
{
    Callback::from_word(word).unwrap_or(Callback::EvtIoRead)
}

/// The fault of a word; of another word it is any.
fn fault_in(word: &[u8]) -> Fault
    ensures { result ≡ fault_in word.now }
{
    Fault::from_word(word).unwrap_or(Fault::ScriptError)
}

/// The stage of a word; of another word it is any.
pub fn stage_in(word: &[u8]) -> Stage
    ensures { result ≡ stage_in word.now }
{
    Stage::from_word(word).unwrap_or(Stage::Working)
}

/// The status of a word; of another word it is any.
fn status_in(word: &[u8]) -> Status
    ensures { result ≡ status_in word.now }
{
    Status::from_word(word).unwrap_or(Status::Success)
}

/// The event that an agent posts.
fn posted_in(plan: &Plan, words: &Words, post: Post, answer: Option<Handle>) -> Event
    ensures { result ≡ posted_in plan.now words.now post answer }
{
    Event::Posted {
        agent: agent_of(plan, words.at(1)),
        post,
        answer,
    }
}

/// The event that the Plug and Play manager asks.
fn asked_in(plan: &Plan, words: &Words, ask: Ask) -> Event
    ensures { result ≡ asked_in plan.now words.now ask }
{
    let device = object_of(plan, words.at(3));
    posted_in(plan, words, Post::Ask { ask, device }, None)
}

/// The event that a callback starts, or else that a device is asked to start.
fn start_in(plan: &Plan, words: &Words) -> Event
    ensures { result ≡ start_in plan.now words.now }
{
    match callback_named(words.at(3)) {
        Some(callback) => Event::Start {
            cpu: cpu_of(words.at(1)),
            callback,
            object: object_of(plan, words.at(4)),
            request: optional_of(plan, words.at(5)),
        },
        None => asked_in(plan, words, Ask::Start),
    }
}

/// The event that a callback ends.
fn end_in(plan: &Plan, words: &Words) -> Event
    ensures { result ≡ end_in plan.now words.now }
{
    Event::End {
        cpu: cpu_of(words.at(1)),
        callback: callback_in(words.at(3)),
        object: object_of(plan, words.at(4)),
        value: value_of(plan, words.at(5)),
    }
}

/// The event of a line with this verb.
fn told(plan: &Plan, words: &Words, verb: Option<Verb>) -> Event
    ensures { result ≡ told plan.now words.now verb }
{
    let Some(verb) = verb else {
        let ask = Ask::from_word(words.at(2)).unwrap_or(Ask::Start);
        return asked_in(plan, words, ask);
    };
    match verb {
        Verb::Start => start_in(plan, words),
        Verb::Step => Event::Local {
            cpu: cpu_of(words.at(1)),
            line: short_of(words.at(3)),
        },
        Verb::Log => Event::Log {
            cpu: cpu_of(words.at(1)),
            value: value_of(plan, words.at(3)),
        },
        Verb::Spend => Event::Spend {
            cpu: cpu_of(words.at(1)),
            ticks: number_of(words.at(3)),
        },
        Verb::Get => Event::Register {
            cpu: cpu_of(words.at(1)),
            access: Access::Read,
            register: register_of(plan, words.at(3)),
            value: number_of(words.at(5)),
        },
        Verb::Put => Event::Register {
            cpu: cpu_of(words.at(1)),
            access: Access::Write,
            register: register_of(plan, words.at(3)),
            value: number_of(words.at(4)),
        },
        Verb::Call => {
            let call = call_in(plan, words);
            Event::Did {
                cpu: cpu_of(words.at(1)),
                call,
                answer: answer_in(plan, &call, words),
            }
        }
        Verb::Wait => Event::Waiting {
            cpu: cpu_of(words.at(1)),
            call: call_in(plan, words),
        },
        Verb::Woke => {
            let call = call_in(plan, words);
            Event::Woke {
                cpu: cpu_of(words.at(1)),
                call,
                answer: answer_in(plan, &call, words),
            }
        }
        Verb::Park => Event::Park {
            cpu: cpu_of(words.at(1)),
            frame: FrameId(short_of(words.at(3))),
        },
        Verb::Unpark => Event::Unpark {
            cpu: cpu_of(words.at(1)),
            frame: FrameId(short_of(words.at(3))),
        },
        Verb::End => end_in(plan, words),
        Verb::Fault => Event::Fault {
            cpu: cpu_of(words.at(1)),
            fault: fault_in(words.at(3)),
            line: short_of(words.at(4)),
        },
        Verb::Stage => Event::Stage {
            device: object_of(plan, words.at(3)),
            stage: stage_in(words.at(4)),
            interrupt: optional_of(plan, words.at(5)),
        },
        Verb::Complete => Event::Complete {
            request: object_of(plan, words.at(3)),
            status: status_in(words.at(4)),
        },
        Verb::Cleanup => Event::Cleanup {
            object: object_of(plan, words.at(3)),
        },
        Verb::Destroy => Event::Destroy {
            object: object_of(plan, words.at(3)),
        },
        Verb::Read => {
            let device = object_of(plan, words.at(3));
            let length = number_of(words.at(4));
            let answer = answer_of(plan, words.at(6));
            posted_in(plan, words, Post::Read { device, length }, answer)
        }
        Verb::Write => {
            let device = object_of(plan, words.at(3));
            let length = number_of(words.at(4));
            let answer = answer_of(plan, words.at(6));
            posted_in(plan, words, Post::Write { device, length }, answer)
        }
        Verb::Control => {
            let post = Post::Control {
                device: object_of(plan, words.at(3)),
                code: number_of(words.at(4)),
                length: number_of(words.at(5)),
            };
            posted_in(plan, words, post, answer_of(plan, words.at(7)))
        }
        Verb::Cancel => {
            let arrival = number_of(words.at(3));
            let answer = answer_of(plan, words.at(5));
            posted_in(plan, words, Post::Cancel { arrival }, answer)
        }
        Verb::Set => {
            let action = Action::Set {
                register: register_of(plan, words.at(3)),
                value: number_of(words.at(4)),
            };
            posted_in(plan, words, Post::Act { action }, None)
        }
        Verb::Raise => {
            let interrupt = object_of(plan, words.at(3));
            let action = Action::Raise { interrupt };
            posted_in(plan, words, Post::Act { action }, None)
        }
        Verb::Lower => {
            let interrupt = object_of(plan, words.at(3));
            let action = Action::Lower { interrupt };
            posted_in(plan, words, Post::Act { action }, None)
        }
        Verb::Done => {
            let post = Post::Done {
                request: object_of(plan, words.at(3)),
                status: status_in(words.at(4)),
            };
            posted_in(plan, words, post, None)
        }
        Verb::Tick => Event::Tick {
            time: number_of(words.at(3)),
        },
    }
}

/// The event that a line gives, if it gives any.
pub fn event_in(plan: &Plan, words: &Words) -> Event
    ensures { result ≡ event_in plan.now words.now }
{
    told(plan, words, Verb::from_word(words.at(2)))
}
