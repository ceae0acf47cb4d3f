ghost use Rattle.std.specs.Prelude.{◌≡◌, ◌↔◌, IsTrue, Option, is_some};
ghost use Rattle.wdf_base.specs.Callbacks.{row_of, carries_request};
ghost use Rattle.wdf_trace.specs.Events.{IsHandleOf, IsOptionalOf, IsValueOf, IsArgumentOf, IsCallOf, IsActionOf, IsPostOf, IsEventOf};

use wdf_base::{Action, Arg, Call, Callback, Event, Handle, Plan, Post, Value};

/// Whether an object has a name of the plan.
pub fn is_handle(plan: &Plan, object: Handle) -> bool
    ensures { IsTrue result ↔ IsHandleOf plan.now object }
{
    object.name < plan.name_len()
}

/// Whether an object, if there is one, has a name of the plan.
fn is_optional(plan: &Plan, object: Option<Handle>) -> bool
    ensures { IsTrue result ↔ IsOptionalOf plan.now object }
{
    match object {
        Some(object) => is_handle(plan, object),
        None => true,
    }
}

/// Whether a value, if it is an object, has a name of the plan.
fn is_value(plan: &Plan, value: Value) -> bool
    ensures { IsTrue result ↔ IsValueOf plan.now value }
{
    match value {
        Value::Obj(object) => is_handle(plan, object),
        _ => true,
    }
}

/// Whether an argument that is taken has names of the plan, and one that isn't is the number 0.
fn is_argument(plan: &Plan, taken: bool, argument: Arg) -> bool
    ensures { IsTrue result ↔ IsArgumentOf plan.now taken argument }
{
    match (taken, argument) {
        (false, Arg::Val(Value::Num(number))) => number == 0,
        (false, _) => false,
        (true, Arg::Val(value)) => is_value(plan, value),
        (true, Arg::Class(class)) => class < plan.class_len(),
    }
}

/// Whether a call has as many arguments as it takes.
fn is_call(plan: &Plan, call: Call) -> bool
    ensures { IsTrue result ↔ IsCallOf plan.now call }
{
    let signature = call.kind.signature();
    call.count == signature.count()
        && is_argument(plan, call.count > 0, call.a)
        && is_argument(plan, call.count > 1, call.b)
        && is_argument(plan, call.count > 2, call.c)
}

/// Whether a callback has a request exactly where its rank carries one.
fn is_carried(callback: Callback, request: Option<Handle>) -> bool
    ensures { IsTrue result ↔ (carries_request (row_of callback).rank ≡ is_some request) }
{
    callback.row().rank.carries_request() == request.is_some()
}

/// Whether what a device does names a register and an interrupt of the plan.
fn is_action(plan: &Plan, action: Action) -> bool
    ensures { IsTrue result ↔ IsActionOf plan.now action }
{
    match action {
        Action::Set { register, .. } => register < plan.register_len(),
        Action::Raise { interrupt } => is_handle(plan, interrupt),
        Action::Lower { interrupt } => is_handle(plan, interrupt),
    }
}

/// Whether a post and its answer name objects and registers of the plan.
fn is_post(plan: &Plan, post: Post, answer: Option<Handle>) -> bool
    ensures { IsTrue result ↔ IsPostOf plan.now post answer }
{
    match post {
        Post::Read { device, .. } => is_handle(plan, device) && is_optional(plan, answer),
        Post::Write { device, .. } => is_handle(plan, device) && is_optional(plan, answer),
        Post::Control { device, .. } => is_handle(plan, device) && is_optional(plan, answer),
        Post::Cancel { .. } => is_optional(plan, answer),
        Post::Ask { device, .. } => is_handle(plan, device) && answer.is_none(),
        Post::Act { action } => is_action(plan, action) && answer.is_none(),
        Post::Done { request, .. } => is_handle(plan, request) && answer.is_none(),
    }
}

/// Whether an event is one whose text is a line of the plan.
pub fn is_event(plan: &Plan, event: Event) -> bool
    ensures { IsTrue result ↔ IsEventOf plan.now event }
{
    match event {
        Event::Start {
            callback,
            object,
            request,
            ..
        } => {
            is_handle(plan, object) && is_optional(plan, request) && is_carried(callback, request)
        }
        Event::Local { .. } => true,
        Event::Log { value, .. } => is_value(plan, value),
        Event::Spend { .. } => true,
        Event::Register { register, .. } => register < plan.register_len(),
        Event::Did { call, answer, .. } => is_call(plan, call) && is_value(plan, answer),
        Event::Waiting { call, .. } => is_call(plan, call),
        Event::Woke { call, answer, .. } => is_call(plan, call) && is_value(plan, answer),
        Event::Park { .. } => true,
        Event::Unpark { .. } => true,
        Event::End { object, value, .. } => is_handle(plan, object) && is_value(plan, value),
        Event::Fault { .. } => true,
        Event::Stage {
            device,
            stage,
            interrupt,
        } => {
            is_handle(plan, device)
                && is_optional(plan, interrupt)
                && stage.is_for_interrupt() == interrupt.is_some()
        }
        Event::Complete { request, .. } => is_handle(plan, request),
        Event::Cleanup { object } => is_handle(plan, object),
        Event::Destroy { object } => is_handle(plan, object),
        Event::Posted {
            agent,
            post,
            answer,
        } => agent < plan.agent_len() && is_post(plan, post, answer),
        Event::Tick { .. } => true,
    }
}
