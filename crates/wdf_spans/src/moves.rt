//! What an event tells of where a request goes, as a reader of the trace has it.
ghost use Rattle.std.specs.Prelude.{◌≡◌};
ghost use Rattle.wdf_spans.specs.Words.{place_word};

use wdf_base::{
    Arg, Call, CallKind, Callback, Declared, DispatchKind, Event, Handle, ObjectId, Plan, Post,
    QueueInfo, Value,
};

/// Where a request is told to be.
#[derive(Clone, Copy, PartialEq, Eq)]
pub enum Told {
    /// In a queue.
    Queued,
    /// In the driver's hands.
    Owned,
    /// At a target, and also when that is done with it, until the driver has it back.
    Sent,
    /// On its way out: it was cancelled in its queue, or the framework is to complete it.
    Returning,
    /// Completed.
    Done,
}

impl Told {
    /// Its word.
    pub fn word(self) -> &'static str
        ensures { result.now ≡ place_word self }
    {
        match self {
            Told::Queued => "queued",
            Told::Owned => "owned",
            Told::Sent => "sent",
            Told::Returning => "returning",
            Told::Done => "done",
        }
    }
}

/// The way that a request goes.
#[derive(Clone, Copy)]
pub(crate) enum Way {
    /// It arrives for this queue, which takes it if it accepts any; for none where it is refused.
    Arrives(Option<ObjectId>),
    /// The driver gets it from this queue.
    Presented(ObjectId),
    /// The driver makes it, or has it back from a target.
    Comes,
    /// The driver gives it back to its queue.
    Requeued,
    /// The driver gives it to another queue.
    Forwarded(ObjectId),
    /// The driver sends it to a target, and forgets it or not.
    Sent { forgotten: bool },
    /// Its target is done with it.
    Finished,
    /// It is cancelled.
    Cancelled,
    Completed,
}

/// A request, and the way that it goes.
#[derive(Clone, Copy)]
pub(crate) struct Move {
    pub request: Handle,
    pub way: Way,
}

fn moved(request: Handle, way: Way) -> Option<Move> {
    Some(Move { request, way })
}

/// The object that an argument is.
fn object_in(argument: Arg) -> Option<Handle> {
    match argument {
        Arg::Val(Value::Obj(object)) => Some(object),
        _ => None,
    }
}

/// The id of the object that an argument is.
pub(crate) fn id_in(argument: Arg) -> Option<ObjectId> {
    match object_in(argument) {
        Some(object) => Some(object.id),
        None => None,
    }
}

/// Whether a callback gets a request out of its queue.
fn is_presenting(callback: Callback) -> bool {
    matches!(
        callback,
        Callback::EvtIoRead
            | Callback::EvtIoWrite
            | Callback::EvtIoDeviceControl
            | Callback::EvtIoDefault
            | Callback::EvtIoCanceledOnQueue
    )
}

/// What the start of a callback tells of its request.
fn told_by_start(callback: Callback, object: Handle, request: Option<Handle>) -> Option<Move> {
    let request = request?;
    if is_presenting(callback) {
        moved(request, Way::Presented(object.id))
    } else if matches!(callback, Callback::EvtRequestCompletion) {
        moved(request, Way::Comes)
    } else {
        None
    }
}

/// What a call that succeeds tells of the request that it is made on.
fn told_by_success(call: &Call, request: Handle) -> Option<Move> {
    match call.kind {
        CallKind::WdfRequestRequeue => moved(request, Way::Requeued),
        CallKind::WdfRequestForwardToIoQueue => {
            let queue = id_in(call.b)?;
            moved(request, Way::Forwarded(queue))
        }
        CallKind::WdfRequestStopAcknowledge => {
            if call.b.is_number(0) {
                None
            } else {
                moved(request, Way::Requeued)
            }
        }
        _ => None,
    }
}

/// What a call tells of the request that it is made on.
fn told_by_call(call: &Call, answer: Value) -> Option<Move> {
    let request = object_in(call.a)?;
    if matches!(call.kind, CallKind::WdfRequestComplete) {
        moved(request, Way::Completed)
    } else if matches!(call.kind, CallKind::WdfRequestSend) && matches!(answer, Value::Num(1)) {
        let forgotten = call.c.is_number(1);
        moved(request, Way::Sent { forgotten })
    } else if answer.is_success() {
        told_by_success(call, request)
    } else {
        None
    }
}

/// What a call tells of the request that it answers.
fn told_by_answer(call: &Call, answer: Value) -> Option<Move> {
    match answer {
        Value::Obj(request) => match call.kind {
            CallKind::WdfRequestCreate => moved(request, Way::Comes),
            CallKind::WdfIoQueueRetrieveNextRequest => {
                let queue = id_in(call.a)?;
                moved(request, Way::Presented(queue))
            }
            _ => None,
        },
        _ => None,
    }
}

/// Whether a queue takes a type of requests.
fn takes(queue: &QueueInfo, post: &Post) -> bool {
    match post {
        Post::Read { .. } => queue.serves.read,
        Post::Write { .. } => queue.serves.write,
        Post::Control { .. } => queue.serves.control,
        _ => false,
    }
}

/// The queue of a device that takes an arrival, or else its default queue.
fn queue_for(plan: &Plan, device: Handle, post: &Post) -> Option<ObjectId> {
    let mut rest = None;
    for o in 0..plan.declared_len() {
        let id = ObjectId(o + 1);
        if let Declared::Queue(queue) = plan.declared(id) {
            if queue.device.0 == device.id.0 {
                if takes(&queue, post) {
                    return Some(id);
                }
                if queue.serves.rest {
                    rest = Some(id);
                }
            }
        }
    }
    rest
}

/// The callback of a queue for a type of requests.
fn handler_for(post: &Post) -> Callback {
    match post {
        Post::Read { .. } => Callback::EvtIoRead,
        Post::Write { .. } => Callback::EvtIoWrite,
        Post::Control { .. } => Callback::EvtIoDeviceControl,
        _ => Callback::EvtIoDefault,
    }
}

/// Whether a post is a read or a write of length 0.
fn is_empty(post: &Post) -> bool {
    matches!(
        post,
        Post::Read { length: 0, .. } | Post::Write { length: 0, .. }
    )
}

/// Whether a queue keeps an arrival, if it accepts any: the framework completes one that nobody can get.
fn keeps(plan: &Plan, declared: Declared, post: &Post) -> bool {
    let Declared::Queue(queue) = declared else {
        return false;
    };
    if is_empty(post) && !queue.zero {
        return false;
    }
    matches!(queue.dispatch, DispatchKind::Manual)
        || plan.script(handler_for(post), declared).is_some()
        || plan.script(Callback::EvtIoDefault, declared).is_some()
}

/// The queue that keeps an arrival, if it accepts any.
fn queue_that_keeps(plan: &Plan, device: Handle, post: &Post) -> Option<ObjectId> {
    let queue = queue_for(plan, device, post)?;
    if queue.0 == 0 || queue.0 > plan.declared_len() {
        return None;
    }
    let declared = plan.declared(queue);
    if keeps(plan, declared, post) {
        Some(queue)
    } else {
        None
    }
}

/// What a post tells of its request.
fn told_by_post(plan: &Plan, post: &Post, answer: Option<Handle>) -> Option<Move> {
    match *post {
        Post::Read { device, .. } | Post::Write { device, .. } | Post::Control { device, .. } => {
            let request = answer?;
            moved(request, Way::Arrives(queue_that_keeps(plan, device, post)))
        }
        Post::Cancel { .. } => {
            let request = answer?;
            moved(request, Way::Cancelled)
        }
        Post::Done { request, .. } => moved(request, Way::Finished),
        _ => None,
    }
}

/// What an event tells of a request.
pub(crate) fn move_by(plan: &Plan, event: &Event) -> Option<Move> {
    match event {
        Event::Start {
            callback,
            object,
            request,
            ..
        } => told_by_start(*callback, *object, *request),
        Event::Did { call, answer, .. } => match told_by_call(call, *answer) {
            Some(told) => Some(told),
            None => told_by_answer(call, *answer),
        },
        Event::Posted { post, answer, .. } => told_by_post(plan, post, *answer),
        Event::Complete { request, .. } => moved(*request, Way::Completed),
        _ => None,
    }
}
