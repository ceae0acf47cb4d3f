//! Requests: their places, their marks, and what is kept of all of them.
use crate::trials::Wrong;
use std::alloc::Global;
use wdf_base::{Mark, Memory, ObjectId, Place, Plan, RequestForm, RequestInfo, Status};
use wdf_model::{EVENTS, OBJECTS};
use wdf_request::Requests;

const QUEUE: ObjectId = ObjectId(3);

const OTHER: ObjectId = ObjectId(4);

const TARGET: ObjectId = ObjectId(5);

const DEVICE: ObjectId = ObjectId(2);

const REQUEST: ObjectId = ObjectId(10);

/// The second arrival of agent 0, a read.
const READ: RequestInfo = RequestInfo {
    device: DEVICE,
    form: RequestForm::Read,
    length: 16,
    code: 0,
    origin: None,
    agent: 0,
    arrival: 2,
    mark: Mark::Unmarked,
    cancelled: false,
    received: false,
};

/// What happens to the requests, with the answer that is due.
#[derive(Clone, Copy)]
enum Act {
    /// A request arrives in the queue, with its number among the arrivals.
    Arrive(ObjectId, u32),
    /// The request moves.
    To(Place),
    Mark(Status),
    Unmark(Status),
    Cancel,
    TakeCancel,
    Complete,
    /// A request is forgotten.
    Forget(ObjectId),
    /// What waits in a queue or returns to it is to be completed.
    Close(ObjectId),
    /// What returns to a queue is to be completed.
    CloseReturning(ObjectId),
    /// This holds.
    Is(Fact),
}

/// What is read of the requests, with the answer that is due.
#[derive(Clone, Copy)]
enum Fact {
    /// Whether the request returns to the queue, is sent to the target, and is closing.
    Counts(bool, bool, bool),
    /// Whether the request isn't finished.
    Open(bool),
    /// The request of an agent with a number among its arrivals.
    Arrival(u16, u32, Option<ObjectId>),
    /// The place of the request.
    At(Place),
    /// The first request from an id on for which EvtRequestCancel is due.
    NextDue(u32, Option<ObjectId>),
    /// How many ids there are.
    Len(u32),
}

/// Whether the request is counted in these.
fn is_counted(requests: &Requests, returning: bool, sent: bool, closing: bool) -> bool {
    requests.returns_to(QUEUE) == returning
        && !requests.returns_to(OTHER)
        && requests.sent_to(TARGET) == sent
        && requests.closing_len() == u32::from(closing)
        && requests.closing_at(0).is_some() == closing
        && requests.next_closing(REQUEST).is_some() == closing
        && requests.next_closing(ObjectId(11)).is_none()
}

/// Whether a fact holds.
fn holds(requests: &Requests, fact: Fact) -> bool {
    match fact {
        Fact::Counts(returning, sent, closing) => is_counted(requests, returning, sent, closing),
        Fact::Open(due) => { requests.unfinished_at(DEVICE) == due && requests.some_open() == due }
        Fact::Arrival(agent, k, due) => requests.arrival_of(agent, k) == due,
        Fact::At(due) => requests.request(REQUEST).place == due,
        Fact::NextDue(from, due) => requests.next_due(ObjectId(from)) == due,
        Fact::Len(due) => requests.len() == due,
    }
}

/// A request arrives with a number, if there is room; whether there is.
fn arrives(requests: &mut Requests, id: ObjectId, arrival: u32) -> bool {
    let room = id.0 < OBJECTS && requests.arrived() < EVENTS;
    if room {
        requests.arrive(id, Place::Queued(QUEUE), RequestInfo { arrival, ..READ });
    }
    room
}

/// Does an act on the request; whether it is there, and the answer is the due one.
fn does_to_it(requests: &mut Requests, act: Act) -> bool {
    if requests.len() <= REQUEST.0 {
        return false;
    }
    match act {
        Act::To(place) => requests.move_to(REQUEST, place),
        Act::Mark(status) => return requests.mark(REQUEST) == status,
        Act::Unmark(status) => return requests.unmark(REQUEST) == status,
        Act::Cancel => requests.cancel(REQUEST),
        Act::TakeCancel => requests.take_cancel(REQUEST),
        Act::Complete => requests.complete(REQUEST),
        _ => return false,
    }
    true
}

/// A request is forgotten, or those of a queue are closed; whether the act is one of these.
fn ends(requests: &mut Requests, act: Act) -> bool {
    match act {
        Act::Forget(id) => requests.forget(id),
        Act::Close(q) => requests.close(q),
        Act::CloseReturning(q) => requests.close_returning(q),
        _ => return false,
    }
    true
}

/// Does an act; whether it may come, and the answer is the due one.
fn does(requests: &mut Requests, act: Act) -> bool {
    match act {
        Act::Arrive(id, arrival) => arrives(requests, id, arrival),
        Act::Forget(_) | Act::Close(_) | Act::CloseReturning(_) => ends(requests, act),
        Act::Is(fact) => holds(requests, fact),
        _ => does_to_it(requests, act),
    }
}

/// The place of the first act that isn't as due.
fn first_wrong(requests: &mut Requests, acts: &[Act]) -> Option<usize> {
    for (place, act) in acts.iter().enumerate() {
        if !does(requests, *act) {
            return Some(place);
        }
    }
    None
}

/// What the request that waited in the queue has come to after some acts.
struct Case {
    acts: &'static [Act],
    place: Place,
    mark: Mark,
    cancelled: bool,
    origin: Option<ObjectId>,
}

const ARRIVED: Act = Act::Arrive(REQUEST, 2);

const PRESENTED: Act = Act::To(Place::Owned);

const MARKED: Act = Act::Mark(Status::Success);

static CASES: [Case; 10] = [
    // it becomes Owned from a queue, which is its origin
    Case {
        acts: &[ARRIVED, PRESENTED],
        place: Place::Owned,
        mark: Mark::Unmarked,
        cancelled: false,
        origin: Some(QUEUE),
    },
    // marked, then unmarked
    Case {
        acts: &[ARRIVED, PRESENTED, MARKED, Act::Unmark(Status::Success)],
        place: Place::Owned,
        mark: Mark::Unmarked,
        cancelled: false,
        origin: Some(QUEUE),
    },
    // none was marked
    Case {
        acts: &[
            ARRIVED,
            PRESENTED,
            Act::Unmark(Status::InvalidDeviceRequest),
        ],
        place: Place::Owned,
        mark: Mark::Unmarked,
        cancelled: false,
        origin: Some(QUEUE),
    },
    // a cancelled cancelable request has EvtRequestCancel due, and can't be unmarked
    Case {
        acts: &[
            ARRIVED,
            PRESENTED,
            MARKED,
            Act::Cancel,
            Act::Unmark(Status::Cancelled),
        ],
        place: Place::Owned,
        mark: Mark::Due,
        cancelled: true,
        origin: Some(QUEUE),
    },
    // EvtRequestCancel starts
    Case {
        acts: &[ARRIVED, PRESENTED, MARKED, Act::Cancel, Act::TakeCancel],
        place: Place::Owned,
        mark: Mark::Taken,
        cancelled: true,
        origin: Some(QUEUE),
    },
    // a cancelled request doesn't become cancelable
    Case {
        acts: &[
            ARRIVED,
            PRESENTED,
            Act::Cancel,
            Act::Mark(Status::Cancelled),
        ],
        place: Place::Owned,
        mark: Mark::Unmarked,
        cancelled: true,
        origin: Some(QUEUE),
    },
    // the mark is none again where it enters a queue; the origin stays until it is Owned again
    Case {
        acts: &[ARRIVED, PRESENTED, MARKED, Act::To(Place::Queued(OTHER))],
        place: Place::Queued(OTHER),
        mark: Mark::Unmarked,
        cancelled: false,
        origin: Some(QUEUE),
    },
    // the mark is none again where it is sent; back from the target it keeps its origin
    Case {
        acts: &[
            ARRIVED,
            PRESENTED,
            MARKED,
            Act::To(Place::Sent(TARGET)),
            PRESENTED,
        ],
        place: Place::Owned,
        mark: Mark::Unmarked,
        cancelled: false,
        origin: Some(QUEUE),
    },
    // a returning request becomes Owned from the queue that its place names
    Case {
        acts: &[
            ARRIVED,
            PRESENTED,
            Act::To(Place::Returning(OTHER)),
            PRESENTED,
        ],
        place: Place::Owned,
        mark: Mark::Unmarked,
        cancelled: false,
        origin: Some(OTHER),
    },
    // it is completed
    Case {
        acts: &[ARRIVED, PRESENTED, Act::Complete],
        place: Place::Done,
        mark: Mark::Unmarked,
        cancelled: false,
        origin: Some(QUEUE),
    },
];

/// Whether the request is as the case says.
fn is_as(requests: &Requests, case: &Case) -> bool {
    let info = requests.info(REQUEST);
    requests.place(REQUEST) == case.place
        && info.mark == case.mark
        && info.cancelled == case.cancelled
        && info.origin == case.origin
        && info.received
        && requests.arrived() == 1
}

/// What is kept of all requests follows each move.
static MOVES: [Act; 18] = [
    Act::Arrive(REQUEST, 2),
    Act::To(Place::Queued(QUEUE)),
    Act::Is(Fact::Counts(false, false, false)),
    Act::Is(Fact::Open(true)),
    Act::To(Place::Returning(QUEUE)),
    Act::Is(Fact::Counts(true, false, false)),
    Act::Is(Fact::Open(true)),
    Act::To(Place::Sent(TARGET)),
    Act::Is(Fact::Counts(false, true, false)),
    Act::Is(Fact::Open(true)),
    Act::To(Place::Closing(Status::Cancelled)),
    Act::Is(Fact::Counts(false, false, true)),
    Act::Is(Fact::Open(true)),
    Act::To(Place::Owned),
    Act::Is(Fact::Counts(false, false, false)),
    Act::Is(Fact::Open(true)),
    Act::Complete,
    Act::Is(Fact::Open(false)),
];

/// A request is found by its number among the agent's arrivals, until it is forgotten; also past
/// the agent's lines, and where a number came twice.
static ARRIVALS: [Act; 20] = [
    Act::Arrive(REQUEST, 2),
    Act::Arrive(ObjectId(11), 1),
    Act::Is(Fact::Arrival(0, 2, Some(REQUEST))),
    Act::Arrive(ObjectId(12), 9),
    Act::Is(Fact::Arrival(0, 2, Some(REQUEST))),
    Act::Arrive(ObjectId(13), 1),
    Act::Is(Fact::Arrival(0, 2, Some(REQUEST))),
    Act::Is(Fact::Arrival(0, 1, Some(ObjectId(11)))),
    Act::Is(Fact::Arrival(0, 9, Some(ObjectId(12)))),
    Act::Is(Fact::Arrival(0, 0, None)),
    Act::Is(Fact::Arrival(0, 3, None)),
    Act::Is(Fact::Arrival(1, 2, None)),
    Act::Forget(REQUEST),
    Act::Is(Fact::Arrival(0, 2, Some(REQUEST))),
    Act::Complete,
    Act::Forget(REQUEST),
    Act::Is(Fact::Arrival(0, 2, None)),
    Act::Is(Fact::At(Place::Done)),
    Act::Forget(ObjectId(77)),
    Act::Is(Fact::Len(14)),
];

/// EvtRequestCancel is due for a marked request from its cancel until it starts.
static DUE: [Act; 9] = [
    ARRIVED,
    PRESENTED,
    MARKED,
    Act::Is(Fact::NextDue(0, None)),
    Act::Cancel,
    Act::Is(Fact::NextDue(10, Some(REQUEST))),
    Act::Is(Fact::NextDue(11, None)),
    Act::TakeCancel,
    Act::Is(Fact::NextDue(0, None)),
];

const CLOSING: Act = Act::Is(Fact::At(Place::Closing(Status::Cancelled)));

/// What returns to a queue is to be completed with CANCELLED, and at its purge also what waits
/// there. What the driver owns, and what is of another queue, stays.
static CLOSED: [Act; 16] = [
    ARRIVED,
    Act::CloseReturning(QUEUE),
    Act::Is(Fact::At(Place::Queued(QUEUE))),
    Act::Close(OTHER),
    Act::Is(Fact::At(Place::Queued(QUEUE))),
    Act::Close(QUEUE),
    CLOSING,
    Act::To(Place::Returning(OTHER)),
    Act::CloseReturning(QUEUE),
    Act::Is(Fact::At(Place::Returning(OTHER))),
    Act::CloseReturning(OTHER),
    CLOSING,
    PRESENTED,
    Act::Close(QUEUE),
    Act::CloseReturning(QUEUE),
    Act::Is(Fact::At(Place::Owned)),
];

/// What is wrong where no request came before: the place of an act that isn't as due, or the number
/// of acts where the request isn't as the case says after them.
fn wrong_in(mut requests: Requests, acts: &[Act], due: Option<&Case>) -> Option<usize> {
    if !requests.is_empty() {
        return Some(0);
    }
    match (first_wrong(&mut requests, acts), due) {
        (None, Some(case)) if !is_as(&requests, case) => Some(acts.len()),
        (wrong, _) => wrong,
    }
}

/// What is wrong with these acts.
fn wrong_of(
    alloc: Global,
    plan: &Plan,
    acts: &[Act],
    due: Option<&Case>,
) -> Result<Option<usize>, Memory> {
    match Requests::make(alloc, plan) {
        Ok(requests) => Ok(wrong_in(requests, acts, due)),
        Err(memory) => Err(memory),
    }
}

/// What is wrong in the cases of the one request: the number of the case.
fn wrong_of_one(alloc: Global, plan: &Plan) -> Result<Wrong, Memory> {
    for (number, case) in CASES.iter().enumerate() {
        match wrong_of(alloc, plan, case.acts, Some(case)) {
            Ok(None) => {}
            Ok(_) => return Ok(Some(("a request", number))),
            Err(memory) => return Err(memory),
        }
    }
    Ok(None)
}

/// What is wrong in the cases of all requests.
fn wrong_of_all(alloc: Global, plan: &Plan) -> Result<Wrong, Memory> {
    for (name, acts) in [
        ("moves", MOVES.as_slice()),
        ("arrivals", ARRIVALS.as_slice()),
        ("due", DUE.as_slice()),
        ("closed", CLOSED.as_slice()),
    ] {
        match wrong_of(alloc, plan, acts, None) {
            Ok(None) => {}
            Ok(Some(place)) => return Ok(Some((name, place))),
            Err(memory) => return Err(memory),
        }
    }
    Ok(None)
}

/// What is wrong in the cases.
pub fn wrong(alloc: Global, plan: &Plan) -> Result<Wrong, Memory> {
    match wrong_of_one(alloc, plan) {
        Ok(None) => wrong_of_all(alloc, plan),
        wrong => wrong,
    }
}
