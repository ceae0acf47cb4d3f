//! Equality of events and of what they are made of.
ghost use Rattle.std.specs.Prelude.{◌≡◌, ◌↔◌, IsTrue};
ghost use Rattle.wdf_base.specs.Same as same;

use crate::plain::{
    same_access, same_call, same_cpu, same_fault, same_frame_id, same_handle, same_option_handle,
    same_stage, same_value,
};
use wdf_base::{
    Action, Actor, Ending, Event, Fault, Post, Stage, Step, same_callback, same_status,
};

/// Whether the two actors are one.
pub fn same_actor(a: Actor, b: Actor) -> bool
    ensures value { result ≡ same.same_actor a b }
    ensures exact { IsTrue result ↔ (a ≡ b) }
{
    a == b
}

/// Whether the two steps are one.
pub fn same_step(a: Step, b: Step) -> bool
    ensures value { result ≡ same.same_step a b }
    ensures exact { IsTrue result ↔ (a ≡ b) }
{
    match (a, b) {
        (
            Step::Run {
                callback,
                interrupt,
            },
            Step::Run {
                callback: other_callback,
                interrupt: other_interrupt,
            },
        ) => {
            same_callback(callback, other_callback)
                && same_option_handle(interrupt, other_interrupt)
        }
        (
            Step::Pass { stage, interrupt },
            Step::Pass {
                stage: other_stage,
                interrupt: other_interrupt,
            },
        ) => { same_stage(stage, other_stage) && same_option_handle(interrupt, other_interrupt) }
        _ => false,
    }
}

/// Whether the two actions of a device are one.
pub fn same_action(a: Action, b: Action) -> bool
    ensures value { result ≡ same.same_action a b }
    ensures exact { IsTrue result ↔ (a ≡ b) }
{
    a == b
}

/// Whether the two posts are one.
pub fn same_post(a: &Post, b: &Post) -> bool
    ensures value { result ≡ same.same_post a.now b.now }
    ensures exact { IsTrue result ↔ (a.now ≡ b.now) }
{
    a == b
}

/// Whether the two events are one.
pub fn same_event(a: &Event, b: &Event) -> bool
    ensures value { result ≡ same.same_event a.now b.now }
    ensures exact { IsTrue result ↔ (a.now ≡ b.now) }
{
    match (a, b) {
        (
            Event::Start {
                cpu,
                callback,
                object,
                request,
            },
            Event::Start {
                cpu: other_cpu,
                callback: other_callback,
                object: other_object,
                request: other_request,
            },
        ) => {
            same_cpu(*cpu, *other_cpu)
                && same_callback(*callback, *other_callback)
                && same_handle(*object, *other_object)
                && same_option_handle(*request, *other_request)
        }
        (
            Event::Local { cpu, line },
            Event::Local {
                cpu: other_cpu,
                line: other_line,
            },
        ) => { same_cpu(*cpu, *other_cpu) && *line == *other_line }
        (
            Event::Log { cpu, value },
            Event::Log {
                cpu: other_cpu,
                value: other_value,
            },
        ) => { same_cpu(*cpu, *other_cpu) && same_value(*value, *other_value) }
        (
            Event::Spend { cpu, ticks },
            Event::Spend {
                cpu: other_cpu,
                ticks: other_ticks,
            },
        ) => { same_cpu(*cpu, *other_cpu) && *ticks == *other_ticks }
        (
            Event::Register {
                cpu,
                access,
                register,
                value,
            },
            Event::Register {
                cpu: other_cpu,
                access: other_access,
                register: other_register,
                value: other_value,
            },
        ) => {
            same_cpu(*cpu, *other_cpu)
                && same_access(*access, *other_access)
                && *register == *other_register
                && *value == *other_value
        }
        (
            Event::Did { cpu, call, answer },
            Event::Did {
                cpu: other_cpu,
                call: other_call,
                answer: other_answer,
            },
        ) => {
            same_cpu(*cpu, *other_cpu)
                && same_call(call, other_call)
                && same_value(*answer, *other_answer)
        }
        (
            Event::Waiting { cpu, call },
            Event::Waiting {
                cpu: other_cpu,
                call: other_call,
            },
        ) => { same_cpu(*cpu, *other_cpu) && same_call(call, other_call) }
        (
            Event::Woke { cpu, call, answer },
            Event::Woke {
                cpu: other_cpu,
                call: other_call,
                answer: other_answer,
            },
        ) => {
            same_cpu(*cpu, *other_cpu)
                && same_call(call, other_call)
                && same_value(*answer, *other_answer)
        }
        (
            Event::Park { cpu, frame },
            Event::Park {
                cpu: other_cpu,
                frame: other_frame,
            },
        ) => { same_cpu(*cpu, *other_cpu) && same_frame_id(*frame, *other_frame) }
        (
            Event::Unpark { cpu, frame },
            Event::Unpark {
                cpu: other_cpu,
                frame: other_frame,
            },
        ) => { same_cpu(*cpu, *other_cpu) && same_frame_id(*frame, *other_frame) }
        (
            Event::End {
                cpu,
                callback,
                object,
                value,
            },
            Event::End {
                cpu: other_cpu,
                callback: other_callback,
                object: other_object,
                value: other_value,
            },
        ) => {
            same_cpu(*cpu, *other_cpu)
                && same_callback(*callback, *other_callback)
                && same_handle(*object, *other_object)
                && same_value(*value, *other_value)
        }
        (
            Event::Fault { cpu, fault, line },
            Event::Fault {
                cpu: other_cpu,
                fault: other_fault,
                line: other_line,
            },
        ) => {
            same_cpu(*cpu, *other_cpu) && same_fault(*fault, *other_fault) && *line == *other_line
        }
        (
            Event::Stage {
                device,
                stage,
                interrupt,
            },
            Event::Stage {
                device: other_device,
                stage: other_stage,
                interrupt: other_interrupt,
            },
        ) => {
            same_handle(*device, *other_device)
                && same_stage(*stage, *other_stage)
                && same_option_handle(*interrupt, *other_interrupt)
        }
        (
            Event::Complete { request, status },
            Event::Complete {
                request: other_request,
                status: other_status,
            },
        ) => { same_handle(*request, *other_request) && same_status(*status, *other_status) }
        (
            Event::Cleanup { object },
            Event::Cleanup {
                object: other_object,
            },
        ) => { same_handle(*object, *other_object) }
        (
            Event::Destroy { object },
            Event::Destroy {
                object: other_object,
            },
        ) => { same_handle(*object, *other_object) }
        (
            Event::Posted {
                agent,
                post,
                answer,
            },
            Event::Posted {
                agent: other_agent,
                post: other_post,
                answer: other_answer,
            },
        ) => {
            *agent == *other_agent
                && same_post(post, other_post)
                && same_option_handle(*answer, *other_answer)
        }
        (Event::Tick { time }, Event::Tick { time: other_time }) => { *time == *other_time }
        _ => false,
    }
}

/// Whether the two endings are one.
pub fn same_ending(a: Ending, b: Ending) -> bool
    ensures value { result ≡ same.same_ending a b }
    ensures exact { IsTrue result ↔ (a ≡ b) }
{
    a == b
}
