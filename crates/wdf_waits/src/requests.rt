//! The lines of requests: where each is, and why it stays there.
ghost use Rattle.std.specs.Prelude.{◌≡◌, option_map};
ghost use Rattle.wdf_base.specs.declared.wait.Cause.TheVariants as cause;
ghost use Rattle.wdf_model.specs.State.{handle_in};
ghost use Rattle.wdf_model.specs.Tables.{least};
ghost use Rattle.wdf_waits.specs.Lines as lines;
ghost use Rattle.wdf_model.specs.rules.Ready as ready;
ghost use Rattle.wdf_model.specs.rules.Waits as waits;

use wdf_base::{Agent, Callback, Cause, ObjectId, OpenThing, Place, WaitLine};
use wdf_causes::{least_ahead, no_cpu, scope_is_held};
use wdf_model::Request;
use wdf_parts::Parts;
use wdf_plan_index::IndexedPlan;
use wdf_qctl::delivers_in;

/// Whether the scope lock of a queue's callbacks is held.
fn queue_scope_held<A: Agent>(plan: &IndexedPlan, parts: &Parts<A>, q: ObjectId) -> bool
    ensures { result ≡ waits.queue_scope_held plan.now parts.now q.0 }
{
    scope_is_held(plan, parts, Callback::EvtIoDefault, q)
}

/// Why no callback of a queue starts: its scope lock is held, or no processor is left.
fn returning_cause<A: Agent>(plan: &IndexedPlan, parts: &Parts<A>, q: ObjectId) -> Option<Cause>
    ensures { result ≡ waits.returning_cause plan.now parts.now q.0 }
{
    if queue_scope_held(plan, parts, q) {
        return Some(Cause::ScopeHeld);
    }
    if no_cpu(plan, parts, plan.callback_irql(Callback::EvtIoDefault, q)) {
        return Some(Cause::NoCpu);
    }
    None
}

/// Another request is ahead of one in a queue, if there is one.
fn behind_cause<A: Agent>(
    plan: &IndexedPlan,
    parts: &Parts<A>,
    q: ObjectId,
    r: ObjectId,
) -> Option<Cause>
    ensures { result ≡ option_map (λ x. cause.Behind (handle_in plan.now parts.now x)) (least (waits.ahead parts.now q.0 r.0)) }
{
    match least_ahead(parts, q, r) {
        Some(ahead) => Some(Cause::Behind {
            request: parts.handle_in(plan, ObjectId(ahead)),
        }),
        None => None,
    }
}

/// Why a request stays in a queue's waiting list. (KMDF)
fn queued_cause<A: Agent>(
    plan: &IndexedPlan,
    parts: &Parts<A>,
    q: ObjectId,
    r: ObjectId,
) -> Option<Cause>
    ensures { result ≡ waits.queued_cause plan.now parts.now q.0 r.0 }
{
    if !delivers_in(parts.control().mode_of(q)) {
        return Some(Cause::Stopped);
    }
    if !parts.is_powered(plan, q) {
        return Some(Cause::Unpowered);
    }
    if plan.is_manual_queue(q) {
        return Some(Cause::Manual);
    }
    if let Some(behind) = behind_cause(plan, parts, q, r) {
        return Some(behind);
    }
    if !parts.queues().is_free(q) {
        return Some(Cause::Full);
    }
    returning_cause(plan, parts, q)
}

/// The line of a request; None where it is about to be completed, or is.
pub(crate) fn request_line<A: Agent>(
    plan: &IndexedPlan,
    parts: &Parts<A>,
    r: ObjectId,
    place: Place,
) -> Option<WaitLine>
    ensures { result ≡ waits.request_line plan.now parts.now r.0 place }
{
    let request = parts.handle_in(plan, r);
    match place {
        Place::Owned => Some(WaitLine {
            thing: OpenThing::Owned { request },
            cause: None,
        }),
        Place::Sent(t) => Some(WaitLine {
            thing: OpenThing::Sent {
                request,
                target: parts.handle_in(plan, t),
            },
            cause: None,
        }),
        Place::Queued(q) => Some(WaitLine {
            thing: OpenThing::Queued {
                request,
                queue: parts.handle_in(plan, q),
            },
            cause: queued_cause(plan, parts, q, r),
        }),
        Place::Returning(q) => Some(WaitLine {
            thing: OpenThing::Returning {
                request,
                queue: parts.handle_in(plan, q),
            },
            cause: returning_cause(plan, parts, q),
        }),
        Place::Closing(_) | Place::Done => None,
    }
}

/// Whether a request at this place has a line.
pub(crate) fn has_line_at(place: Place) -> bool
    ensures { result ≡ lines.has_line_at place }
{
    match place {
        Place::Owned | Place::Sent(_) | Place::Queued(_) | Place::Returning(_) => true,
        Place::Closing(_) | Place::Done => false,
    }
}

/// Whether a request is open: an arrived one that isn't done, or a made one that is sent.
pub(crate) fn is_open_request(request: &Request) -> bool
    ensures { result ≡ ready.is_open_request request.now }
{
    let has_arrived = 0 < request.info.arrival;
    (has_arrived && !request.place.is_done()) || (!has_arrived && request.place.is_sent())
}
