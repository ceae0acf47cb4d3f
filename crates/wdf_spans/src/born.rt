//! How requests come to be: they arrive from an app, or the driver makes them.
ghost use Rattle.std.specs.Prelude.{◌≡◌};
ghost use Rattle.wdf_spans.specs.Births.{is_making, arrived, made, request_born, birth_by};

use wdf_base::{Call, CallKind, Event, Handle, Post, Value};

/// The event that brings a request into being.
#[derive(Clone, Copy)]
pub struct Birth {
    /// The number of the event.
    pub number: u32,
    pub request: Handle,
}

/// Whether a call makes a request.
fn is_making(kind: CallKind) -> bool
    ensures { result ≡ is_making kind }
{
    matches!(kind, CallKind::WdfRequestCreate)
}

/// The request that an arrival made.
fn arrived(post: &Post, answer: Option<Handle>) -> Option<Handle>
    ensures { result ≡ arrived post.now answer }
{
    if post.is_request() { answer } else { None }
}

/// The request that a call made.
fn made(call: &Call, answer: Value) -> Option<Handle>
    ensures { result ≡ made call.now answer }
{
    match answer {
        Value::Obj(request) => {
            if is_making(call.kind) {
                Some(request)
            } else {
                None
            }
        }
        _ => None,
    }
}

/// The request that an event brings into being, if it does.
pub(crate) fn request_born(event: &Event) -> Option<Handle>
    ensures { result ≡ request_born event.now }
{
    match event {
        Event::Posted { post, answer, .. } => arrived(post, *answer),
        Event::Did { call, answer, .. } => made(call, *answer),
        _ => None,
    }
}

/// The birth that an event with this number is, if it is one.
pub(crate) fn birth_by(number: u32, event: &Event) -> Option<Birth>
    ensures { result ≡ birth_by number event.now }
{
    match request_born(event) {
        Some(request) => Some(Birth { number, request }),
        None => None,
    }
}
