//! What one event is.
ghost use Rattle.std.specs.Prelude.{◌≡◌};
ghost use Rattle.wdf_laws.specs.Events as told;

use wdf_base::{
    Arg, Call, CallKind, Callback, Event, Handle, Plan, Post, Rank, Stage, Value, same_callback,
};
use wdf_declared::parent_of_class;
use wdf_laws::{Taking, Told};
use wdf_same::{same_call_kind, same_stage};

fn id_in(handle: Option<Handle>) -> Option<u32>
    ensures { result ≡ told.id_in handle }
{
    handle.map(|h| h.id.0)
}

fn value_object(value: Value) -> Option<u32>
    ensures { result ≡ told.value_object value }
{
    match value {
        Value::Obj(h) => Some(h.id.0),
        _ => None,
    }
}

fn argument_object(argument: Arg) -> Option<u32>
    ensures { result ≡ told.argument_object argument }
{
    match argument {
        Arg::Val(v) => value_object(v),
        Arg::Class(_) => None,
    }
}

fn where_so(test: bool, id: Option<u32>) -> Option<u32>
    ensures { result ≡ told.where_so test id }
{
    if test { id } else { None }
}

/// The object that a call of this kind names first.
pub fn called(kind: CallKind, event: &Event) -> Option<u32>
    ensures { result ≡ told.called kind event.now }
{
    match event {
        Event::Did { call, .. } => where_so(
            same_call_kind(call.kind, kind),
            argument_object(call.a),
        ),
        _ => None,
    }
}

/// The same, where the call answers SUCCESS.
pub fn called_well(kind: CallKind, event: &Event) -> Option<u32>
    ensures { result ≡ told.called_well kind event.now }
{
    match event {
        Event::Did { call, answer, .. } => where_so(
            same_call_kind(call.kind, kind) && answer.is_success(),
            argument_object(call.a),
        ),
        _ => None,
    }
}

/// The object on which this callback begins.
pub fn begun_on(kind: Callback, event: &Event) -> Option<u32>
    ensures { result ≡ told.begun_on kind event.now }
{
    match event {
        Event::Start {
            callback,
            object,
            ..
        } => where_so(same_callback(*callback, kind), Some(object.id.0)),
        _ => None,
    }
}

/// The request for which this callback begins.
pub fn begun_for(kind: Callback, event: &Event) -> Option<u32>
    ensures { result ≡ told.begun_for kind event.now }
{
    match event {
        Event::Start {
            callback,
            request,
            ..
        } => where_so(same_callback(*callback, kind), id_in(*request)),
        _ => None,
    }
}

/// The object on which this callback ends, with SUCCESS or without.
pub fn ended_on(kind: Callback, well: bool, event: &Event) -> Option<u32>
    ensures { result ≡ told.ended_on kind well event.now }
{
    match event {
        Event::End {
            callback,
            object,
            value,
            ..
        } => where_so(
            same_callback(*callback, kind)
                && (if well {
                    value.is_success()
                } else {
                    !value.is_success()
                }),
            Some(object.id.0),
        ),
        _ => None,
    }
}

/// The device that passes this stage.
pub fn passed(kind: Stage, event: &Event) -> Option<u32>
    ensures { result ≡ told.passed kind event.now }
{
    match event {
        Event::Stage { device, stage, .. } => where_so(same_stage(*stage, kind), Some(device.id.0)),
        _ => None,
    }
}

/// The interrupt for which this stage is passed.
pub fn passed_for(kind: Stage, event: &Event) -> Option<u32>
    ensures { result ≡ told.passed_for kind event.now }
{
    match event {
        Event::Stage {
            stage,
            interrupt,
            ..
        } => where_so(same_stage(*stage, kind), id_in(*interrupt)),
        _ => None,
    }
}

fn brought_to(post: &Post) -> Option<u32>
    ensures { result ≡ told.brought_to post.now }
{
    match post {
        Post::Read { device, .. } => Some(device.id.0),
        Post::Write { device, .. } => Some(device.id.0),
        Post::Control { device, .. } => Some(device.id.0),
        _ => None,
    }
}

fn is_there(id: Option<u32>) -> bool
    ensures { result ≡ told.is_there id }
{
    id.is_some()
}

/// The request that arrives.
pub fn arrived(event: &Event) -> Option<u32>
    ensures { result ≡ told.arrived event.now }
{
    match event {
        Event::Posted { post, answer, .. } => where_so(is_there(brought_to(post)), id_in(*answer)),
        _ => None,
    }
}

/// The device to which a read, a write or a control is posted, whatever the answer.
pub fn arrived_at(event: &Event) -> Option<u32>
    ensures { result ≡ told.arrived_at event.now }
{
    match event {
        Event::Posted { post, .. } => brought_to(post),
        _ => None,
    }
}

fn cancelled_in(post: &Post, answer: Option<Handle>) -> Option<u32>
    ensures { result ≡ told.cancelled_in post.now answer }
{
    match post {
        Post::Cancel { .. } => id_in(answer),
        _ => None,
    }
}

/// The request that an app cancels.
pub fn cancel_posted(event: &Event) -> Option<u32>
    ensures { result ≡ told.cancel_posted event.now }
{
    match event {
        Event::Posted { post, answer, .. } => cancelled_in(post, *answer),
        _ => None,
    }
}

/// The request that is completed.
pub fn completed(event: &Event) -> Option<u32>
    ensures { result ≡ told.completed event.now }
{
    match event {
        Event::Did { call, .. } => where_so(
            same_call_kind(call.kind, CallKind::WdfRequestComplete),
            argument_object(call.a),
        ),
        Event::Complete { request, .. } => Some(request.id.0),
        _ => None,
    }
}

fn is_handler(rank: Rank) -> bool
    ensures { result ≡ told.is_handler rank }
{
    matches!(rank, Rank::Handler)
}

fn pair_of(request: Option<u32>, queue: Option<u32>) -> Option<Taking>
    ensures { result ≡ told.pair_of request queue }
{
    match (request, queue) {
        (Some(request), Some(queue)) => Some(Taking { request, queue }),
        _ => None,
    }
}

/// The presentation that an event is.
pub fn presented(event: &Event) -> Option<Taking>
    ensures { result ≡ told.presented event.now }
{
    match event {
        Event::Start {
            callback,
            object,
            request,
            ..
        } => pair_of(
            where_so(is_handler(callback.row().rank), id_in(*request)),
            Some(object.id.0),
        ),
        Event::Did { call, answer, .. } => pair_of(
            where_so(
                same_call_kind(call.kind, CallKind::WdfIoQueueRetrieveNextRequest),
                value_object(*answer),
            ),
            argument_object(call.a),
        ),
        _ => None,
    }
}

/// The taking that an event is.
pub fn taken(event: &Event) -> Option<Taking>
    ensures { result ≡ told.taken event.now }
{
    match event {
        Event::Start {
            callback,
            object,
            request,
            ..
        } => pair_of(
            where_so(
                is_handler(callback.row().rank)
                    || same_callback(*callback, Callback::EvtIoCanceledOnQueue),
                id_in(*request),
            ),
            Some(object.id.0),
        ),
        Event::Did { .. } => presented(event),
        _ => None,
    }
}

fn is_giving_up(call: &Call, answer: Value) -> bool
    ensures { result ≡ told.is_giving_up call.now answer }
{
    match call.kind {
        CallKind::WdfRequestComplete => true,
        CallKind::WdfRequestRequeue => true,
        CallKind::WdfRequestForwardToIoQueue => answer.is_success(),
        CallKind::WdfRequestStopAcknowledge => !call.b.is_number(0),
        CallKind::WdfRequestSend => call.c.is_number(1) && answer.is_one(),
        _ => false,
    }
}

/// The request that the driver gives up, or that the framework completes.
pub fn given_up(event: &Event) -> Option<u32>
    ensures { result ≡ told.given_up event.now }
{
    match event {
        Event::Did { call, answer, .. } => where_so(
            is_giving_up(call, *answer),
            argument_object(call.a),
        ),
        Event::Complete { request, .. } => Some(request.id.0),
        _ => None,
    }
}

fn is_heading(call: &Call) -> bool
    ensures { result ≡ told.is_heading call.now }
{
    match call.kind {
        CallKind::WdfRequestRequeue => true,
        CallKind::WdfRequestStopAcknowledge => !call.b.is_number(0),
        _ => false,
    }
}

/// The request that enters a queue at its head.
pub fn headed(event: &Event) -> Option<u32>
    ensures { result ≡ told.headed event.now }
{
    match event {
        Event::Did { call, .. } => where_so(is_heading(call), argument_object(call.a)),
        _ => None,
    }
}

/// The request that enters a queue at its tail: one that was forwarded, or one that arrives.
pub fn tailed(event: &Event) -> Option<u32>
    ensures { result ≡ told.tailed event.now }
{
    match event {
        Event::Did { call, answer, .. } => where_so(
            same_call_kind(call.kind, CallKind::WdfRequestForwardToIoQueue) && answer.is_success(),
            argument_object(call.a),
        ),
        Event::Posted { post, answer, .. } => where_so(is_there(brought_to(post)), id_in(*answer)),
        _ => None,
    }
}

/// The request that is acknowledged and kept while its device loses power.
pub fn acknowledged(event: &Event) -> Option<u32>
    ensures { result ≡ told.acknowledged event.now }
{
    match event {
        Event::Did { call, .. } => where_so(
            same_call_kind(call.kind, CallKind::WdfRequestStopAcknowledge) && call.b.is_number(0),
            argument_object(call.a),
        ),
        _ => None,
    }
}

fn is_undoing(call: &Call, answer: Value) -> bool
    ensures { result ≡ told.is_undoing call.now answer }
{
    match call.kind {
        CallKind::WdfRequestUnmarkCancelable => answer.is_success(),
        CallKind::WdfRequestSend => answer.is_one(),
        _ => is_giving_up(call, answer),
    }
}

/// The request whose mark as cancelable is undone: it is unmarked, sent, given up or completed.
pub fn mark_undone(event: &Event) -> Option<u32>
    ensures { result ≡ told.mark_undone event.now }
{
    match event {
        Event::Did { call, answer, .. } => where_so(
            is_undoing(call, *answer),
            argument_object(call.a),
        ),
        Event::Complete { request, .. } => Some(request.id.0),
        _ => None,
    }
}

/// The object whose cleanup an event is.
pub fn cleaned(event: &Event) -> Option<u32>
    ensures { result ≡ told.cleaned event.now }
{
    match event {
        Event::Cleanup { object } => Some(object.id.0),
        _ => None,
    }
}

/// The object whose end an event is.
pub fn destroyed(event: &Event) -> Option<u32>
    ensures { result ≡ told.destroyed event.now }
{
    match event {
        Event::Destroy { object } => Some(object.id.0),
        _ => None,
    }
}

fn told_of(parent: u32, class: Option<u16>, object: Option<u32>) -> Option<Told>
    ensures { result ≡ told.told_of parent class object }
{
    match object {
        Some(object) => Some(Told {
            object,
            parent,
            class,
        }),
        None => None,
    }
}

fn or_none(object: Option<u32>) -> u32
    ensures { result ≡ told.or_none object }
{
    match object {
        Some(o) => o,
        None => 0,
    }
}

fn is_made_under_class(kind: CallKind) -> bool
    ensures { result ≡ told.is_made_under_class kind }
{
    matches!(
        kind,
        CallKind::WdfDpcCreate | CallKind::WdfTimerCreate | CallKind::WdfWorkItemCreate
    )
}

fn is_made_under_argument(kind: CallKind) -> bool
    ensures { result ≡ told.is_made_under_argument kind }
{
    matches!(
        kind,
        CallKind::WdfObjectCreate
            | CallKind::WdfSpinLockCreate
            | CallKind::WdfWaitLockCreate
            | CallKind::WdfRequestCreate
    )
}

fn told_by_call(plan: &Plan, call: &Call, answer: Value) -> Option<Told>
    ensures { result ≡ told.told_by_call plan.now call.now.kind call.now.a call.now.b answer }
{
    match call.a {
        Arg::Val(_) => None,
        Arg::Class(class) => {
            if is_made_under_class(call.kind) {
                told_of(
                    parent_of_class(plan, class).0,
                    Some(class),
                    value_object(answer),
                )
            } else if is_made_under_argument(call.kind) {
                told_of(
                    or_none(argument_object(call.b)),
                    Some(class),
                    value_object(answer),
                )
            } else {
                None
            }
        }
    }
}

/// What an event says of an object.
pub fn told(plan: &Plan, event: &Event) -> Option<Told>
    ensures { result ≡ told.told plan.now event.now }
{
    match event {
        Event::Posted { post, answer, .. } => told_of(
            or_none(brought_to(post)),
            None,
            where_so(is_there(brought_to(post)), id_in(*answer)),
        ),
        Event::Did { call, answer, .. } => told_by_call(plan, call, *answer),
        _ => None,
    }
}
