//! One request that a connector has: what events make of it, and what is due for it.
ghost use Rattle.std.specs.Prelude.{◌≡◌, ◌==◌};
ghost use Rattle.wdf_model.specs.agents.Connector as connector;
ghost use Rattle.wdf_stack.specs.Line.{has_post};
ghost use Rattle.wdf_stack.specs.Spans.{lower_in, number_in};

use wdf_base::{Handle, ObjectId, Post, Status, same_object_id};
use wdf_model::{Descent, Forwarded};

/// Whether a request has no arrival yet.
pub(crate) fn is_waiting(sent: &Forwarded) -> bool
    ensures { result ≡ connector.is_waiting sent.now }
{
    matches!(sent.descent, Descent::Waiting)
}

/// What an arrival makes of its request.
pub(crate) fn arrived_below(number: u64, answer: Option<Handle>) -> Descent
    ensures { result ≡ connector.arrived_below number answer }
{
    match answer {
        Some(request) => Descent::Below {
            lower: request.id,
            number,
            passed_on: false,
        },
        None => Descent::Refused,
    }
}

/// A request as it is cancelled, if it is this one.
pub(crate) fn cancelled_one(sent: Forwarded, r: ObjectId) -> Forwarded
    ensures { result ≡ connector.cancelled_one r.0 sent }
{
    Forwarded {
        cancelled: sent.cancelled || same_object_id(sent.request.id, r),
        ..sent
    }
}

/// What becomes of a request whose cancel is passed on, if it has this arrival.
pub(crate) fn passed_on_at(descent: Descent, arrival: u64) -> Descent
    ensures { result ≡ connector.passed_on_at arrival descent }
{
    match descent {
        Descent::Below {
            lower,
            number,
            passed_on,
        } => Descent::Below {
            lower,
            number,
            passed_on: passed_on || number == arrival,
        },
        other => other,
    }
}

/// What becomes of a request, if this is the one below that is completed.
pub(crate) fn completed_at(descent: Descent, x: ObjectId, status: Status) -> Descent
    ensures { result ≡ connector.completed_at x.0 status descent }
{
    match descent {
        Descent::Below { lower, .. } if same_object_id(lower, x) => Descent::Completed(status),
        other => other,
    }
}

/// A request as done with a status.
fn done_with(sent: &Forwarded, status: Status) -> Post
    ensures { result ≡ connector.done_with sent.now status }
{
    Post::Done {
        request: sent.request,
        status,
    }
}

/// The post for a request without an arrival.
fn post_waiting(room: u64, sent: &Forwarded) -> Post
    ensures { result ≡ connector.post_waiting room sent.now }
{
    if sent.cancelled {
        done_with(sent, Status::Cancelled)
    } else if room == 0 {
        done_with(sent, Status::InsufficientResources)
    } else {
        sent.post
    }
}

/// The post that is due for a request, if one is.
pub(crate) fn post_of(room: u64, sent: &Forwarded) -> Option<Post>
    ensures { result ≡ connector.post_of room sent.now }
{
    match sent.descent {
        Descent::Completed(status) => Some(done_with(sent, status)),
        Descent::Refused => Some(done_with(sent, Status::InvalidDeviceState)),
        Descent::Waiting => Some(post_waiting(room, sent)),
        Descent::Below {
            number,
            passed_on,
            ..
        } => {
            if sent.cancelled && !passed_on {
                Some(Post::Cancel { arrival: number })
            } else {
                None
            }
        }
    }
}

/// Whether a post is due for a request, whatever room there is.
pub(crate) fn has_post(sent: &Forwarded) -> bool
    ensures { result ≡ has_post sent.now }
{
    match sent.descent {
        Descent::Below { passed_on, .. } => sent.cancelled && !passed_on,
        _ => true,
    }
}

/// The request at the lower device, of one that has come there.
pub(crate) fn lower_of(descent: Descent) -> Option<u64>
    ensures { result ≡ lower_in descent }
{
    match descent {
        Descent::Below { lower, .. } => Some(u64::from(lower.0)),
        _ => None,
    }
}

/// The number of its arrival.
pub(crate) fn number_of(descent: Descent) -> Option<u64>
    ensures { result ≡ number_in descent }
{
    match descent {
        Descent::Below { number, .. } => Some(number),
        _ => None,
    }
}
