//! What an event says of an object.
ghost use Rattle.std.specs.Prelude.{◌≡◌};
ghost use Rattle.wdf_explain.specs.About as about;

use wdf_base::{Action, Arg, Call, CallKind, Callback, Event, Handle, ObjectId, Post, Value};

fn is_object(object: ObjectId, handle: Handle) -> bool
    ensures { result ≡ about.is_object object.0 handle }
{
    handle.id.0 == object.0
}

fn is_if_any(object: ObjectId, handle: Option<Handle>) -> bool
    ensures { result ≡ about.is_if_any object.0 handle }
{
    match handle {
        Some(handle) => is_object(object, handle),
        None => false,
    }
}

fn is_value(object: ObjectId, value: Value) -> bool
    ensures { result ≡ about.is_value object.0 value }
{
    match value {
        Value::Obj(handle) => is_object(object, handle),
        _ => false,
    }
}

fn is_argument(object: ObjectId, argument: Arg) -> bool
    ensures { result ≡ about.is_argument object.0 argument }
{
    match argument {
        Arg::Val(value) => is_value(object, value),
        Arg::Class(_) => false,
    }
}

/// Whether an argument of a call is the object.
fn is_in_call(object: ObjectId, call: &Call) -> bool
    ensures { result ≡ about.is_in_call object.0 call.now }
{
    is_argument(object, call.a) || is_argument(object, call.b) || is_argument(object, call.c)
}

/// Whether a post names the object.
fn is_in_post(object: ObjectId, post: &Post) -> bool
    ensures { result ≡ about.is_in_post object.0 post.now }
{
    match *post {
        Post::Read { device, .. }
        | Post::Write { device, .. }
        | Post::Control { device, .. }
        | Post::Ask { device, .. } => is_object(object, device),
        Post::Act {
            action: Action::Raise { interrupt },
        }
        | Post::Act {
            action: Action::Lower { interrupt },
        } => is_object(object, interrupt),
        Post::Done { request, .. } => is_object(object, request),
        _ => false,
    }
}

/// Whether an event is about the object.
pub(crate) fn is_about(object: ObjectId, event: &Event) -> bool
    ensures { result ≡ about.is_about object.0 event.now }
{
    match event {
        Event::Start {
            object: on,
            request,
            ..
        } => is_object(object, *on) || is_if_any(object, *request),
        Event::Did { call, answer, .. } | Event::Woke { call, answer, .. } => {
            is_in_call(object, call) || is_value(object, *answer)
        }
        Event::Waiting { call, .. } => is_in_call(object, call),
        Event::End {
            object: on,
            value,
            ..
        } => is_object(object, *on) || is_value(object, *value),
        Event::Log { value, .. } => is_value(object, *value),
        Event::Stage {
            device,
            interrupt,
            ..
        } => is_object(object, *device) || is_if_any(object, *interrupt),
        Event::Complete { request, .. } => is_object(object, *request),
        Event::Cleanup { object: gone } | Event::Destroy { object: gone } => {
            is_object(object, *gone)
        }
        Event::Posted { post, answer, .. } => {
            is_in_post(object, post) || is_if_any(object, *answer)
        }
        _ => false,
    }
}

/// Whether the start of a callback gives the driver its request.
fn is_giving(callback: Callback) -> bool
    ensures { result ≡ about.is_giving callback }
{
    matches!(
        callback,
        Callback::EvtIoRead
            | Callback::EvtIoWrite
            | Callback::EvtIoDeviceControl
            | Callback::EvtIoDefault
            | Callback::EvtIoCanceledOnQueue
            | Callback::EvtRequestCompletion
    )
}

/// Whether a call with this answer moves the request of its first argument.
fn is_moving(kind: CallKind, b: Arg, answer: Value) -> bool
    ensures { result ≡ about.is_moving kind b answer }
{
    match kind {
        CallKind::WdfRequestComplete | CallKind::WdfRequestRequeue => true,
        CallKind::WdfRequestForwardToIoQueue => answer.is_success(),
        CallKind::WdfRequestStopAcknowledge => !b.is_number(0),
        CallKind::WdfRequestSend => answer.is_one(),
        _ => false,
    }
}

/// Whether the answer of a call is a request that the driver has from then on.
fn is_getting(kind: CallKind) -> bool
    ensures { result ≡ about.is_getting kind }
{
    matches!(
        kind,
        CallKind::WdfIoQueueRetrieveNextRequest | CallKind::WdfRequestCreate
    )
}

/// Whether a post with this answer brings the request where it is.
fn is_moving_post(request: ObjectId, post: &Post, answer: Option<Handle>) -> bool
    ensures { result ≡ about.is_moving_post request.0 post.now answer }
{
    match *post {
        Post::Cancel { .. } => false,
        Post::Done { request: done, .. } => is_object(request, done),
        _ => is_if_any(request, answer),
    }
}

/// Whether an event brings the request where it is.
pub(crate) fn moves(request: ObjectId, event: &Event) -> bool
    ensures { result ≡ about.moves request.0 event.now }
{
    match event {
        Event::Start {
            callback,
            request: on,
            ..
        } => is_giving(*callback) && is_if_any(request, *on),
        Event::Did { call, answer, .. } => {
            (is_moving(call.kind, call.b, *answer) && is_argument(request, call.a))
                || (is_getting(call.kind) && is_value(request, *answer))
        }
        Event::Complete { request: done, .. } => is_object(request, *done),
        Event::Posted { post, answer, .. } => is_moving_post(request, post, *answer),
        _ => false,
    }
}

/// Whether an event is a call that took the lock of the object.
pub(crate) fn takes(object: ObjectId, event: &Event) -> bool
    ensures { result ≡ about.takes object.0 event.now }
{
    match event {
        Event::Did { call, .. } | Event::Woke { call, .. } => {
            call.kind.is_acquire() && is_argument(object, call.a)
        }
        _ => false,
    }
}
