//! The ids that a request belongs to, and what is open.

ghost use Rattle.std.specs.Prelude.{◌≡◌, is_some};
ghost use Rattle.wdf_model.specs.Tables.{flag};
ghost use Rattle.wdf_model.specs.rules.Ready.{is_open_request};
ghost use Rattle.wdf_request.specs.Keys as keys;

use wdf_base::{ObjectId, Place};
use wdf_model::Request;

/// The queue that a request is Returning to.
pub(crate) fn returning_queue(place: Place) -> Option<ObjectId>
    ensures { result ≡ keys.returning_queue place }
{
    match place {
        Place::Returning(q) => Some(q),
        _ => None,
    }
}

/// Whether a request is Returning to some queue.
pub(crate) fn is_back(place: Place) -> bool
    ensures { result ≡ is_some (keys.returning_queue place) }
{
    matches!(place, Place::Returning(_))
}

/// The target that a request is Sent to.
pub(crate) fn sent_target(place: Place) -> Option<ObjectId>
    ensures { result ≡ keys.sent_target place }
{
    match place {
        Place::Sent(t) => Some(t),
        _ => None,
    }
}

/// The device at which a request arrived that isn't done.
pub(crate) fn unfinished_device(request: Request) -> Option<ObjectId>
    ensures { result ≡ keys.unfinished_device request }
{
    if request.info.arrival > 0 && !request.place.is_done() {
        Some(request.info.device)
    } else {
        None
    }
}

/// 1 for a request that keeps a run from its end, 0 for another. It arrived and isn't done, or the
/// driver made it and it is sent.
pub(crate) fn open_flag(request: Request) -> u32
    ensures { result ≡ flag (is_open_request request) }
{
    let is_open = if request.info.arrival > 0 {
        !request.place.is_done()
    } else {
        request.place.is_sent()
    };
    if is_open { 1 } else { 0 }
}

/// The queue from which the driver has a request, where EvtRequestCancel is due for it.
pub(crate) fn due_queue(request: &Request) -> Option<ObjectId>
    ensures { result ≡ keys.due_queue request.now }
{
    if request.info.mark.is_due() && request.place.is_owned() {
        request.info.origin
    } else {
        None
    }
}

/// 1 for a request that is Sent and for which EvtRequestCancel is due, 0 for another.
pub(crate) fn due_sent_flag(request: &Request) -> u32
    ensures { result ≡ flag (keys.is_due_sent request.now) }
{
    if request.info.mark.is_due() && request.place.is_sent() {
        1
    } else {
        0
    }
}
