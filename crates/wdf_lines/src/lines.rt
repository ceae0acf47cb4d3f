ghost use Rattle.std.specs.Prelude.{◌≡◌, ◌+◌, ◌<◌, ◌≤◌, ◌++◌, length, Option};
ghost use Rattle.wdf_lines.specs.Lines.{spaced, line_text, event_words, post_words, action_words, access_words, answered_words};

use crate::line::{LINE_LIMIT, Line};
use crate::pieces::*;
use wdf_base::{Access, Action, Call, Event, Handle, Plan, Post, Value};

/// Adds the words of what a device does.
fn push_action(line: &mut Line, plan: &Plan, action: Action)
    requires { length line.old + 95 ≤ LINE_LIMIT }
    ensures value { line.new ≡ line.old ++ spaced (action_words plan.now action) }
    ensures length { length line.new ≤ length line.old + 95 }
{
    match action {
        Action::Set { register, value } => {
            line.push_word(b"set");
            push_register(line, plan, register);
            line.push_number(value);
        }
        Action::Raise { interrupt } => push_word_object(line, plan, b"raise", interrupt),
        Action::Lower { interrupt } => push_word_object(line, plan, b"lower", interrupt),
    }
}

/// Adds the words of a post and of its answer.
fn push_post(line: &mut Line, plan: &Plan, post: &Post, answer: Option<Handle>)
    requires { length line.old + 200 ≤ LINE_LIMIT }
    ensures value { line.new ≡ line.old ++ spaced (post_words plan.now post.now answer) }
    ensures length { length line.new ≤ length line.old + 200 }
{
    match *post {
        Post::Read { device, length } => {
            push_word_object(line, plan, b"read", device);
            line.push_number(length);
            push_answer(line, plan, answer);
        }
        Post::Write { device, length } => {
            push_word_object(line, plan, b"write", device);
            line.push_number(length);
            push_answer(line, plan, answer);
        }
        Post::Control {
            device,
            code,
            length,
        } => {
            push_word_object(line, plan, b"control", device);
            line.push_number(code);
            line.push_number(length);
            push_answer(line, plan, answer);
        }
        Post::Cancel { arrival } => {
            push_word_number(line, b"cancel", arrival);
            push_answer(line, plan, answer);
        }
        Post::Ask { ask, device } => push_word_object(line, plan, ask_bytes(ask), device),
        Post::Act { action } => push_action(line, plan, action),
        Post::Done { request, status } => {
            push_word_object(line, plan, b"done", request);
            line.push_word(status_bytes(status));
        }
    }
}

/// Adds the words of an access to a register.
fn push_access(line: &mut Line, plan: &Plan, access: Access, register: u32, value: u64)
    requires { length line.old + 100 ≤ LINE_LIMIT }
    ensures value { line.new ≡ line.old ++ spaced (access_words plan.now access register value) }
    ensures length { length line.new ≤ length line.old + 100 }
{
    match access {
        Access::Read => {
            line.push_word(b"get");
            push_register(line, plan, register);
            push_word_number(line, b"->", value);
        }
        Access::Write => {
            line.push_word(b"put");
            push_register(line, plan, register);
            line.push_number(value);
        }
    }
}

/// Adds the words of a call and of its answer.
fn push_answered(line: &mut Line, plan: &Plan, call: &Call, answer: Value)
    requires { length line.old + 260 ≤ LINE_LIMIT }
    ensures value { line.new ≡ line.old ++ spaced (answered_words plan.now call.now answer) }
    ensures length { length line.new ≤ length line.old + 260 }
{
    push_call(line, plan, call);
    line.push_word(b"->");
    push_value(line, plan, answer);
}

/// Adds the words of an event.
fn push_event(line: &mut Line, plan: &Plan, event: &Event)
    requires { length line.old + 300 ≤ LINE_LIMIT }
    ensures value { line.new ≡ line.old ++ spaced (event_words plan.now event.now) }
    ensures length { length line.new ≤ length line.old + 300 }
{
    match event {
        Event::Start {
            cpu,
            callback,
            object,
            request,
        } => {
            push_cpu(line, *cpu);
            line.push_word(b"start");
            push_word_object(line, plan, callback_bytes(*callback), *object);
            push_optional(line, plan, *request);
        }
        Event::Local { cpu, line: number } => {
            push_cpu(line, *cpu);
            push_word_number(line, b"step", u64::from(*number));
        }
        Event::Log { cpu, value } => {
            push_cpu(line, *cpu);
            line.push_word(b"log");
            push_value(line, plan, *value);
        }
        Event::Spend { cpu, ticks } => {
            push_cpu(line, *cpu);
            push_word_number(line, b"spend", *ticks);
        }
        Event::Register {
            cpu,
            access,
            register,
            value,
        } => {
            push_cpu(line, *cpu);
            push_access(line, plan, *access, *register, *value);
        }
        Event::Did { cpu, call, answer } => {
            push_cpu(line, *cpu);
            line.push_word(b"call");
            push_answered(line, plan, call, *answer);
        }
        Event::Waiting { cpu, call } => {
            push_cpu(line, *cpu);
            line.push_word(b"wait");
            push_call(line, plan, call);
        }
        Event::Woke { cpu, call, answer } => {
            push_cpu(line, *cpu);
            line.push_word(b"woke");
            push_answered(line, plan, call, *answer);
        }
        Event::Park { cpu, frame } => {
            push_cpu(line, *cpu);
            push_word_number(line, b"park", u64::from(frame.0));
        }
        Event::Unpark { cpu, frame } => {
            push_cpu(line, *cpu);
            push_word_number(line, b"unpark", u64::from(frame.0));
        }
        Event::End {
            cpu,
            callback,
            object,
            value,
        } => {
            push_cpu(line, *cpu);
            line.push_word(b"end");
            push_word_object(line, plan, callback_bytes(*callback), *object);
            push_value(line, plan, *value);
        }
        Event::Fault {
            cpu,
            fault,
            line: number,
        } => {
            push_cpu(line, *cpu);
            line.push_word(b"fault");
            push_word_number(line, fault_bytes(*fault), u64::from(*number));
        }
        Event::Stage {
            device,
            stage,
            interrupt,
        } => {
            line.push_word(b"fw");
            push_word_object(line, plan, b"stage", *device);
            line.push_word(stage_bytes(*stage));
            push_optional(line, plan, *interrupt);
        }
        Event::Complete { request, status } => {
            line.push_word(b"fw");
            push_word_object(line, plan, b"complete", *request);
            line.push_word(status_bytes(*status));
        }
        Event::Cleanup { object } => {
            line.push_word(b"fw");
            push_word_object(line, plan, b"cleanup", *object);
        }
        Event::Destroy { object } => {
            line.push_word(b"fw");
            push_word_object(line, plan, b"destroy", *object);
        }
        Event::Posted {
            agent,
            post,
            answer,
        } => {
            push_agent(line, plan, *agent);
            push_post(line, plan, post, *answer);
        }
        Event::Tick { time } => {
            line.push_word(b"clock");
            push_word_number(line, b"tick", *time);
        }
    }
}

/// Writes over a line: it becomes that of an event with this number, without its line feed.
pub fn rewrite(line: &mut Line, plan: &Plan, number: usize, event: &Event)
    ensures value { line.new ≡ line_text plan.now number event.now }
    ensures small { length line.new < LINE_LIMIT }
{
    line.clear();
    line.push_digits(number as u64);
    push_event(line, plan, event);
}

/// The line of an event with this number, without its line feed.
pub fn line_of(plan: &Plan, number: usize, event: &Event) -> Line
    ensures value { result ≡ line_text plan.now number event.now }
    ensures small { length result < LINE_LIMIT }
{
    let mut line = Line::new();
    rewrite(&mut line, plan, number, event);
    line
}
