//! What an act changes of one request.

ghost use Rattle.std.specs.Prelude.{◌≡◌};
ghost use Rattle.wdf_model.specs.parts.Requests as requests;

use wdf_base::{Mark, ObjectId, Place, RequestForm, RequestInfo, Status};
use wdf_model::Request;

/// What is no request, or is gone.
pub(crate) const NO_REQUEST: Request = Request {
    place: Place::Done,
    info: RequestInfo {
        device: ObjectId(0),
        form: RequestForm::Control,
        length: 0,
        code: 0,
        origin: None,
        agent: 0,
        arrival: 0,
        mark: Mark::Unmarked,
        cancelled: false,
        received: false,
    },
};

/// The mark of a request that comes to a place: none again, but where it becomes Owned or Done. (KMDF)
fn mark_at(place: Place, mark: Mark) -> Mark
    ensures { result ≡ requests.mark_at place mark }
{
    match place {
        Place::Owned | Place::Done => mark,
        Place::Queued(_) | Place::Returning(_) | Place::Closing(_) | Place::Sent(_) => {
            Mark::Unmarked
        }
    }
}

/// The origin of a request that moves: the queue from which it becomes Owned, if it does. (KMDF)
fn origin_from(from: Place, to: Place, origin: Option<ObjectId>) -> Option<ObjectId>
    ensures { result ≡ requests.origin_from from to origin }
{
    match (from, to) {
        (Place::Queued(q) | Place::Returning(q), Place::Owned) => Some(q),
        _ => origin,
    }
}

/// The request at another place.
pub(crate) fn moved(place: Place, request: Request) -> Request
    ensures { result ≡ requests.moved place request }
{
    let info = request.info;
    Request {
        place,
        info: RequestInfo {
            mark: mark_at(place, info.mark),
            origin: origin_from(request.place, place, info.origin),
            received: info.received || place.is_owned(),
            ..info
        },
    }
}

/// The request with another mark.
pub(crate) fn with_mark(mark: Mark, request: Request) -> Request
    ensures { result ≡ requests.with_mark mark request }
{
    Request {
        info: RequestInfo {
            mark,
            ..request.info
        },
        ..request
    }
}

/// The request made cancelable, unless it is cancelled. (KMDF)
pub(crate) fn marked(request: Request) -> Request
    ensures { result ≡ requests.marked request }
{
    if request.info.cancelled {
        request
    } else {
        with_mark(Mark::Marked, request)
    }
}

/// The request made not cancelable, if EvtRequestCancel isn't due for it. (KMDF)
pub(crate) fn unmarked(request: Request) -> Request
    ensures { result ≡ requests.unmarked request }
{
    if request.info.mark.is_marked() {
        with_mark(Mark::Unmarked, request)
    } else {
        request
    }
}

/// What WdfRequestUnmarkCancelable answers at a mark. (KMDF)
pub(crate) fn answer_of_mark(mark: Mark) -> Status
    ensures { result ≡ requests.answer_of_mark mark }
{
    match mark {
        Mark::Marked => Status::Success,
        Mark::Due | Mark::Taken => Status::Cancelled,
        Mark::Unmarked => Status::InvalidDeviceRequest,
    }
}

/// The mark of a request that is cancelled: EvtRequestCancel is due where it was cancelable. (KMDF)
fn mark_cancelled(mark: Mark) -> Mark
    ensures { result ≡ requests.mark_cancelled mark }
{
    match mark {
        Mark::Marked => Mark::Due,
        Mark::Due | Mark::Taken | Mark::Unmarked => mark,
    }
}

/// The request cancelled.
pub(crate) fn cancelled(request: Request) -> Request
    ensures { result ≡ requests.cancelled request }
{
    Request {
        info: RequestInfo {
            cancelled: true,
            mark: mark_cancelled(request.info.mark),
            ..request.info
        },
        ..request
    }
}

/// Whether the framework is done with a request: it is completed, or the driver made it and gave it
/// to nobody.
fn is_over(request: Request) -> bool
    ensures { result ≡ requests.is_over request }
{
    match request.place {
        Place::Done => true,
        Place::Owned => request.info.origin.is_none(),
        Place::Queued(_) | Place::Returning(_) | Place::Closing(_) | Place::Sent(_) => false,
    }
}

/// What is kept of a request whose object is gone: nothing, where the framework is done with it.
pub(crate) fn forgotten(request: Request) -> Request
    ensures { result ≡ requests.forgotten request }
{
    if is_over(request) {
        NO_REQUEST
    } else {
        request
    }
}
