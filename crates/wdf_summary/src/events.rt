//! Which events are counted.
ghost use Rattle.std.specs.Prelude.{◌≡◌};
ghost use Rattle.wdf_base.specs.Same.{same_call_kind};
ghost use Rattle.wdf_laws.specs.Events as told;
ghost use Rattle.wdf_summary.specs.Counts.{is_arrival, is_completion};

use wdf_base::{Arg, Call, CallKind, Event, Post, Value};
use wdf_same::same_call_kind;

/// Whether a post is of a read, a write or a control.
fn brings_request(post: &Post) -> bool
    ensures { result ≡ told.is_there (told.brought_to post.now) }
{
    matches!(
        post,
        Post::Read { .. } | Post::Write { .. } | Post::Control { .. }
    )
}

/// Whether an event brings a request: a post of one that was answered with it.
pub fn is_arrival(event: &Event) -> bool
    ensures { result ≡ is_arrival event.now }
{
    match event {
        Event::Posted { post, answer, .. } => brings_request(post) && answer.is_some(),
        _ => false,
    }
}

/// Whether an argument is an object.
fn is_object(argument: Arg) -> bool
    ensures { result ≡ told.is_there (told.argument_object argument) }
{
    matches!(argument, Arg::Val(Value::Obj(_)))
}

/// Whether a call completes a request.
fn completes(call: &Call) -> bool
    ensures { result ≡ told.is_there (told.where_so (same_call_kind call.now.kind CallKind.WdfRequestComplete) (told.argument_object call.now.a)) }
{
    same_call_kind(call.kind, CallKind::WdfRequestComplete) && is_object(call.a)
}

/// Whether an event completes a request: the driver's call that was done, or the framework.
pub fn is_completion(event: &Event) -> bool
    ensures { result ≡ is_completion event.now }
{
    match event {
        Event::Did { call, .. } => completes(call),
        Event::Complete { .. } => true,
        _ => false,
    }
}
