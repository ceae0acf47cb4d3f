//! Groups of calls, and what each needs of its request or lock.
ghost use Rattle.std.specs.Prelude.{◌≡◌};
ghost use Rattle.wdf_base.specs.Calls as calls;
ghost use Rattle.wdf_model.specs.Tables as tables;
ghost use Rattle.wdf_model.specs.rules.Faults as faults;

use crate::view::View;
use wdf_base::{
    Call, CallKind, CallLevel, Callback, Handle, Kind, LockRef, ObjectId, same_callback,
    same_object_id,
};
use wdf_model::object_in;
use wdf_same::{same_call_kind, same_frame_id, same_kind};

/// Whether a call on a request needs it Owned.
fn needs_owned(kind: CallKind) -> bool
    ensures { result ≡ faults.needs_owned kind }
{
    matches!(
        kind,
        CallKind::WdfRequestComplete
            | CallKind::WdfRequestMarkCancelableEx
            | CallKind::WdfRequestRequeue
            | CallKind::WdfRequestForwardToIoQueue
            | CallKind::WdfRequestSend
    )
}

/// Whether a call is a StopAcknowledge that gives the request back.
fn is_return_at_stop(call: &Call) -> bool
    ensures { result ≡ faults.is_return_at_stop call.now }
{
    match call.kind {
        CallKind::WdfRequestStopAcknowledge => !call.b.is_number(0),
        _ => false,
    }
}

/// Whether the driver gives up a request by a call.
pub fn gives_up(call: &Call) -> bool
    ensures { result ≡ faults.gives_up call.now }
{
    match call.kind {
        CallKind::WdfRequestComplete
        | CallKind::WdfRequestRequeue
        | CallKind::WdfRequestForwardToIoQueue
        | CallKind::WdfRequestSend => true,
        _ => is_return_at_stop(call),
    }
}

/// Whether a call waits for what runs on an object or is held from it.
pub fn waits_for_others(call: &Call) -> bool
    ensures { result ≡ faults.waits_for_others call.now }
{
    match call.kind {
        CallKind::WdfIoQueueStopSynchronously
        | CallKind::WdfIoQueueDrainSynchronously
        | CallKind::WdfIoQueuePurgeSynchronously
        | CallKind::WdfWorkItemFlush => true,
        CallKind::WdfDpcCancel | CallKind::WdfTimerStop => !call.b.is_number(0),
        _ => false,
    }
}

/// The greatest level at which a call may be made.
pub fn greatest_level<V: View>(view: &V, call: &Call) -> u8
    ensures { result ≡ faults.greatest_level (V.seen view.now) call.now (calls.signature_of call.now.kind).level }
{
    match call.kind.signature().level {
        CallLevel::AtMost(level) => level.0,
        CallLevel::OfInterrupt => view.level_of(object_in(call.a)).0,
        CallLevel::DispatchIf(n) => { if call.b.is_number(u64::from(n)) { 2 } else { 0 } }
    }
}

/// Whether a request is not in the driver's hands as a call needs it.
pub fn is_not_owned<V: View>(view: &V, call: &Call, r: ObjectId) -> bool
    ensures { result ≡ faults.is_not_owned (V.seen view.now) call.now r.0 }
{
    match call.kind {
        CallKind::WdfRequestStopAcknowledge => {
            !view.held(r) || (is_return_at_stop(call) && !view.place(r).is_owned())
        }
        CallKind::WdfRequestIsCanceled => !view.held(r),
        _ => needs_owned(call.kind) && !view.place(r).is_owned(),
    }
}

/// Whether a callback's request is this one.
fn is_handle_of(request: Option<Handle>, r: ObjectId) -> bool
    ensures { result ≡ faults.is_handle_of request r.0 }
{
    match request {
        Some(handle) => same_object_id(handle.id, r),
        None => false,
    }
}

/// Whether the request came from this queue.
fn is_from<V: View>(view: &V, r: ObjectId, queue: ObjectId) -> bool
    ensures { result ≡ tables.same_id ((V.seen view.now).origin r.0) queue.0 }
{
    match view.origin(r) {
        Some(origin) => same_object_id(origin, queue),
        None => false,
    }
}

/// Whether this frame is the EvtIoStop of the request, on the queue that it came from.
pub fn is_stop_of<V: View>(view: &V, r: ObjectId) -> bool
    ensures { result ≡ faults.is_stop_of (V.seen view.now) r.0 }
{
    let frame = view.frame();
    same_callback(frame.callback, Callback::EvtIoStop)
        && is_handle_of(frame.request, r)
        && is_from(view, r, frame.object.id)
}

/// Whether this frame holds the lock.
pub fn holds_lock<V: View>(view: &V, lock: LockRef) -> bool
    ensures { result ≡ faults.holds_lock (V.seen view.now) lock }
{
    match view.holder(lock) {
        Some(frame) => same_frame_id(frame, view.number()),
        None => false,
    }
}

/// Whether this frame holds the scope lock that the callbacks of an object need.
pub fn holds_scope<V: View>(view: &V, o: ObjectId) -> bool
    ensures { result ≡ faults.holds_if_any (V.seen view.now) ((V.seen view.now).scope o.0) }
{
    match view.scope(o) {
        Some(lock) => holds_lock(view, lock),
        None => false,
    }
}

/// Whether only the framework or the system deletes an object of this kind.
pub fn is_never_deleted(kind: Kind) -> bool
    ensures { result ≡ faults.is_never_deleted kind }
{
    matches!(
        kind,
        Kind::Driver | Kind::Device | Kind::Queue | Kind::Interrupt | Kind::Target | Kind::Request
    )
}

/// Whether a call is a SendAndForget of a request that the driver made.
pub fn forgets_made<V: View>(view: &V, call: &Call) -> bool
    ensures { result ≡ faults.forgets_made (V.seen view.now) call.now }
{
    same_call_kind(call.kind, CallKind::WdfRequestSend)
        && call.c.is_number(1)
        && same_kind(view.kind(object_in(call.a)), Kind::Made)
}
