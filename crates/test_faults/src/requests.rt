//! What the driver may do with a request.
use crate::sight::*;
use crate::values::*;
use std::test::Fail;
use wdf_base::{CallKind, Callback, Fault, Kind, Mark, ObjectId, Place};

/// The calls by which the driver gives a request up.
static GIVING_UP: [Doing; 5] = [
    (Kind::Request, CallKind::WdfRequestComplete, &[IT, SUCCESS]),
    (Kind::Request, CallKind::WdfRequestRequeue, &[IT]),
    (
        Kind::Request,
        CallKind::WdfRequestForwardToIoQueue,
        &[IT, QUEUE],
    ),
    (Kind::Request, CallKind::WdfRequestSend, &[IT, TARGET, ZERO]),
    (
        Kind::Request,
        CallKind::WdfRequestStopAcknowledge,
        &[IT, ONE],
    ),
];

/// Calls on a request that is held, Owned or sent.
static HELD: [Doing; 2] = [
    (
        Kind::Request,
        CallKind::WdfRequestStopAcknowledge,
        &[IT, ZERO],
    ),
    (Kind::Request, CallKind::WdfRequestIsCanceled, &[IT]),
];

/// Calls on a request wherever it is.
static ANYWHERE: [Doing; 2] = [
    (Kind::Request, CallKind::WdfRequestUnmarkCancelable, &[IT]),
    (Kind::Request, CallKind::WdfRequestCancelSentRequest, &[IT]),
];

static MARKING: [Doing; 1] = [(Kind::Request, CallKind::WdfRequestMarkCancelableEx, &[IT])];

static ACKNOWLEDGING: [Doing; 2] = [
    (
        Kind::Request,
        CallKind::WdfRequestStopAcknowledge,
        &[IT, ZERO],
    ),
    (
        Kind::Request,
        CallKind::WdfRequestStopAcknowledge,
        &[IT, ONE],
    ),
];

/// The frame is the request's EvtIoStop.
const STOPS: But = But::Runs(Callback::EvtIoStop);

const SENT: But = But::Place(Place::Sent(ObjectId(4)));

/// A request is given up or marked that isn't Owned, or another call needs it held.
#[test]
fn giving_up_a_request_that_is_not_owned_is_a_fault(rt: HostRuntime) -> Result<(), Fail> {
    let not_owned = Some(Fault::NotOwned);
    check(&rt, &GIVING_UP, &[STOPS], None);
    for place in [
        Place::Queued(OWN_QUEUE.id),
        Place::Returning(OWN_QUEUE.id),
        Place::Sent(LOWER.id),
        Place::Done,
    ] {
        check(&rt, &GIVING_UP, &[STOPS, But::Place(place)], not_owned);
        check(&rt, &MARKING, &[But::Place(place)], not_owned);
    }
    check(&rt, &HELD, &[STOPS, SENT], None);
    check(&rt, &HELD, &[STOPS, But::NotHeld], not_owned);
    check(&rt, &ANYWHERE, &[SENT, But::NotHeld], None);
    Ok(())
}

/// A request that is given up may be neither cancelable nor have its EvtRequestCancel due.
#[test]
fn giving_up_a_cancelable_request_is_a_fault(rt: HostRuntime) -> Result<(), Fail> {
    for (mark, fault) in [
        (Mark::Unmarked, None),
        (Mark::Marked, Some(Fault::CompleteWhileMarked)),
        (Mark::Due, Some(Fault::CompleteBeforeCancelCallback)),
        (Mark::Taken, None),
    ] {
        check(&rt, &GIVING_UP, &[STOPS, But::Mark(mark)], fault);
        check(&rt, &HELD, &[STOPS, But::Mark(mark)], None);
        check(&rt, &ANYWHERE, &[But::Mark(mark)], None);
    }
    Ok(())
}

/// A request is marked that is cancelable already, or has its EvtRequestCancel due.
#[test]
fn marking_a_request_twice_is_a_fault(rt: HostRuntime) -> Result<(), Fail> {
    let twice = Some(Fault::MarkedTwice);
    check(&rt, &MARKING, &[], None);
    check(&rt, &MARKING, &[But::Mark(Mark::Marked)], twice);
    check(&rt, &MARKING, &[But::Mark(Mark::Due)], twice);
    Ok(())
}

/// A request is acknowledged once, by its own EvtIoStop on the queue that it came from.
#[test]
fn acknowledging_outside_the_own_stop_is_a_fault(rt: HostRuntime) -> Result<(), Fail> {
    let outside = Some(Fault::AckOutsideStop);
    check(&rt, &ACKNOWLEDGING, &[STOPS], None);
    check(&rt, &ACKNOWLEDGING, &[], outside);
    check(
        &rt,
        &ACKNOWLEDGING,
        &[STOPS, But::RunsFor(ObjectId(6))],
        outside,
    );
    check(
        &rt,
        &ACKNOWLEDGING,
        &[STOPS, But::RunsOn(ObjectId(8))],
        outside,
    );
    check(&rt, &ACKNOWLEDGING, &[STOPS, But::Acknowledged], outside);
    Ok(())
}
