//! Lines of framework calls, most of them from traces of the worked runs.
use crate::plan::*;
use wdf_base::CallKind::*;
use wdf_base::Status::*;
use wdf_base::{Arg, Call, CallKind, Cpu, Event, Plan, Status, Value};

/// An argument or an answer.
#[derive(Clone, Copy)]
enum Word {
    Nothing,
    Object(u32, u32),
    Number(u64),
    State(Status),
    Class(u16),
}

use Word::*;

/// The value that stands for a word, and 0 where there is none.
fn value(word: Word) -> Value {
    match word {
        Object(name, id) => Value::Obj(object((name, id))),
        Number(number) => Value::Num(number),
        State(status) => Value::Stat(status),
        Nothing | Class(_) => Value::Num(0),
    }
}

fn argument(word: Word) -> Arg {
    match word {
        Class(class) => Arg::Class(class),
        _ => Arg::Val(value(word)),
    }
}

/// How many arguments there are.
fn count(arguments: [Word; 3]) -> u8 {
    match arguments {
        [Nothing, _, _] => 0,
        [_, Nothing, _] => 1,
        [_, _, Nothing] => 2,
        _ => 3,
    }
}

fn call(kind: CallKind, arguments: [Word; 3]) -> Call {
    let [a, b, c] = arguments;
    Call {
        kind,
        count: count(arguments),
        a: argument(a),
        b: argument(b),
        c: argument(c),
    }
}

/// Calls that are answered at once.
static CALLS: [(usize, u8, CallKind, [Word; 3], Word, &str); 66] = [
    (
        3,
        0,
        WdfRequestComplete,
        [Object(REQ, 4), State(Success), Nothing],
        State(Success),
        "3 cpu0 call WdfRequestComplete req.4 SUCCESS -> SUCCESS",
    ),
    (
        3,
        0,
        WdfRequestMarkCancelableEx,
        [Object(REQ, 4), Nothing, Nothing],
        State(Success),
        "3 cpu0 call WdfRequestMarkCancelableEx req.4 -> SUCCESS",
    ),
    (
        5,
        0,
        WdfRequestUnmarkCancelable,
        [Object(REQ, 4), Nothing, Nothing],
        State(Cancelled),
        "5 cpu0 call WdfRequestUnmarkCancelable req.4 -> CANCELLED",
    ),
    (
        9,
        0,
        WdfRequestComplete,
        [Object(REQ, 4), State(Cancelled), Nothing],
        State(Success),
        "9 cpu0 call WdfRequestComplete req.4 CANCELLED -> SUCCESS",
    ),
    (
        4,
        0,
        WdfRequestUnmarkCancelable,
        [Object(REQ, 4), Nothing, Nothing],
        State(Success),
        "4 cpu0 call WdfRequestUnmarkCancelable req.4 -> SUCCESS",
    ),
    (
        3,
        0,
        WdfIoQueueStop,
        [Object(Q, 3), Nothing, Nothing],
        State(Success),
        "3 cpu0 call WdfIoQueueStop Q.3 -> SUCCESS",
    ),
    (
        4,
        0,
        WdfRequestRequeue,
        [Object(REQ, 4), Nothing, Nothing],
        State(Success),
        "4 cpu0 call WdfRequestRequeue req.4 -> SUCCESS",
    ),
    (
        6,
        0,
        WdfRequestComplete,
        [Object(REQ, 5), State(Success), Nothing],
        State(Success),
        "6 cpu0 call WdfRequestComplete req.5 SUCCESS -> SUCCESS",
    ),
    (
        9,
        0,
        WdfRequestComplete,
        [Object(REQ, 6), State(Success), Nothing],
        State(Success),
        "9 cpu0 call WdfRequestComplete req.6 SUCCESS -> SUCCESS",
    ),
    (
        6,
        1,
        WdfRequestComplete,
        [Object(REQ, 6), State(Success), Nothing],
        State(Success),
        "6 cpu1 call WdfRequestComplete req.6 SUCCESS -> SUCCESS",
    ),
    (
        5,
        0,
        WdfSpinLockCreate,
        [Class(L_CLASS), Object(D, 2), Nothing],
        Object(L, 4),
        "5 cpu0 call WdfSpinLockCreate L D.2 -> L.4",
    ),
    (
        6,
        0,
        WdfSpinLockAcquire,
        [Object(L, 4), Nothing, Nothing],
        State(Success),
        "6 cpu0 call WdfSpinLockAcquire L.4 -> SUCCESS",
    ),
    (
        10,
        0,
        WdfInterruptQueueDpcForIsr,
        [Object(I, 3), Nothing, Nothing],
        Number(1),
        "10 cpu0 call WdfInterruptQueueDpcForIsr I.3 -> 1",
    ),
    (
        11,
        0,
        WdfInterruptQueueDpcForIsr,
        [Object(I, 3), Nothing, Nothing],
        Number(0),
        "11 cpu0 call WdfInterruptQueueDpcForIsr I.3 -> 0",
    ),
    (
        13,
        0,
        WdfSpinLockRelease,
        [Object(L, 4), Nothing, Nothing],
        State(Success),
        "13 cpu0 call WdfSpinLockRelease L.4 -> SUCCESS",
    ),
    (
        5,
        0,
        WdfTimerStart,
        [Object(T, 3), Number(1), Nothing],
        Number(0),
        "5 cpu0 call WdfTimerStart T.3 1 -> 0",
    ),
    (
        11,
        0,
        WdfObjectDelete,
        [Object(T, 3), Nothing, Nothing],
        State(Success),
        "11 cpu0 call WdfObjectDelete T.3 -> SUCCESS",
    ),
    (
        4,
        0,
        WdfObjectCreate,
        [Class(O_CLASS), Object(D, 2), Nothing],
        Object(O, 3),
        "4 cpu0 call WdfObjectCreate O D.2 -> O.3",
    ),
    (
        5,
        0,
        SetContext,
        [Object(O, 3), Number(0), Number(5)],
        State(Success),
        "5 cpu0 call SetContext O.3 0 5 -> SUCCESS",
    ),
    (
        6,
        0,
        WdfObjectReference,
        [Object(O, 3), Nothing, Nothing],
        State(Success),
        "6 cpu0 call WdfObjectReference O.3 -> SUCCESS",
    ),
    (
        7,
        0,
        WdfObjectDelete,
        [Object(O, 3), Nothing, Nothing],
        State(Success),
        "7 cpu0 call WdfObjectDelete O.3 -> SUCCESS",
    ),
    (
        11,
        0,
        GetContext,
        [Object(O, 3), Number(0), Nothing],
        Number(5),
        "11 cpu0 call GetContext O.3 0 -> 5",
    ),
    (
        12,
        0,
        WdfObjectDereference,
        [Object(O, 3), Nothing, Nothing],
        State(Success),
        "12 cpu0 call WdfObjectDereference O.3 -> SUCCESS",
    ),
    (
        3,
        0,
        GetContext,
        [Object(REQ, 4), Number(0), Nothing],
        Number(0),
        "3 cpu0 call GetContext req.4 0 -> 0",
    ),
    (
        5,
        0,
        SetContext,
        [Object(REQ, 4), Number(0), Number(1)],
        State(Success),
        "5 cpu0 call SetContext req.4 0 1 -> SUCCESS",
    ),
    (
        9,
        0,
        GetContext,
        [Object(REQ, 5), Number(0), Nothing],
        Number(0),
        "9 cpu0 call GetContext req.5 0 -> 0",
    ),
    (
        11,
        0,
        SetContext,
        [Object(REQ, 5), Number(0), Number(1)],
        State(Success),
        "11 cpu0 call SetContext req.5 0 1 -> SUCCESS",
    ),
    (
        15,
        0,
        GetContext,
        [Object(REQ, 6), Number(0), Nothing],
        Number(0),
        "15 cpu0 call GetContext req.6 0 -> 0",
    ),
    (
        17,
        0,
        SetContext,
        [Object(REQ, 6), Number(0), Number(1)],
        State(Success),
        "17 cpu0 call SetContext req.6 0 1 -> SUCCESS",
    ),
    (
        24,
        0,
        WdfRequestStopAcknowledge,
        [Object(REQ, 4), Number(0), Nothing],
        State(Success),
        "24 cpu0 call WdfRequestStopAcknowledge req.4 0 -> SUCCESS",
    ),
    (
        31,
        0,
        WdfRequestStopAcknowledge,
        [Object(REQ, 5), Number(1), Nothing],
        State(Success),
        "31 cpu0 call WdfRequestStopAcknowledge req.5 1 -> SUCCESS",
    ),
    (
        53,
        0,
        GetContext,
        [Object(REQ, 5), Number(0), Nothing],
        Number(1),
        "53 cpu0 call GetContext req.5 0 -> 1",
    ),
    (
        7,
        0,
        WdfRequestSend,
        [Object(REQ, 8), Object(T, 5), Number(0)],
        Number(1),
        "7 cpu0 call WdfRequestSend req.8 T.5 0 -> 1",
    ),
    (
        13,
        0,
        WdfRequestComplete,
        [Object(REQ, 6), State(Cancelled), Nothing],
        State(Success),
        "13 cpu0 call WdfRequestComplete req.6 CANCELLED -> SUCCESS",
    ),
    (
        20,
        0,
        WdfRequestComplete,
        [Object(REQ, 8), State(Success), Nothing],
        State(Success),
        "20 cpu0 call WdfRequestComplete req.8 SUCCESS -> SUCCESS",
    ),
    (
        5,
        0,
        WdfObjectCreate,
        [Class(O_CLASS), Object(D, 2), Nothing],
        State(InsufficientResources),
        "5 cpu0 call WdfObjectCreate O D.2 -> INSUFFICIENT_RESOURCES",
    ),
    (
        11,
        0,
        WdfObjectCreate,
        [Class(O_CLASS), Object(D, 2), Nothing],
        Object(O, 4),
        "11 cpu0 call WdfObjectCreate O D.2 -> O.4",
    ),
    (
        4,
        0,
        WdfWaitLockCreate,
        [Class(L_CLASS), Object(D, 2), Nothing],
        Object(L, 3),
        "4 cpu0 call WdfWaitLockCreate L D.2 -> L.3",
    ),
    (
        5,
        0,
        WdfWaitLockCreate,
        [Class(L_CLASS), Object(D, 2), Nothing],
        Object(L, 4),
        "5 cpu0 call WdfWaitLockCreate L D.2 -> L.4",
    ),
    (
        6,
        0,
        SetContext,
        [Object(D, 2), Number(0), Object(L, 3)],
        State(Success),
        "6 cpu0 call SetContext D.2 0 L.3 -> SUCCESS",
    ),
    (
        7,
        0,
        SetContext,
        [Object(D, 2), Number(1), Object(L, 4)],
        State(Success),
        "7 cpu0 call SetContext D.2 1 L.4 -> SUCCESS",
    ),
    (
        8,
        0,
        WdfWorkItemCreate,
        [Class(X_CLASS), Nothing, Nothing],
        Object(X, 5),
        "8 cpu0 call WdfWorkItemCreate X -> X.5",
    ),
    (
        9,
        0,
        WdfWorkItemCreate,
        [Class(Y_CLASS), Nothing, Nothing],
        Object(Y, 6),
        "9 cpu0 call WdfWorkItemCreate Y -> Y.6",
    ),
    (
        10,
        0,
        WdfWorkItemEnqueue,
        [Object(X, 5), Nothing, Nothing],
        State(Success),
        "10 cpu0 call WdfWorkItemEnqueue X.5 -> SUCCESS",
    ),
    (
        11,
        0,
        WdfWorkItemEnqueue,
        [Object(Y, 6), Nothing, Nothing],
        State(Success),
        "11 cpu0 call WdfWorkItemEnqueue Y.6 -> SUCCESS",
    ),
    (
        14,
        0,
        GetContext,
        [Object(D, 2), Number(0), Nothing],
        Object(L, 3),
        "14 cpu0 call GetContext D.2 0 -> L.3",
    ),
    (
        15,
        0,
        GetContext,
        [Object(D, 2), Number(1), Nothing],
        Object(L, 4),
        "15 cpu0 call GetContext D.2 1 -> L.4",
    ),
    (
        16,
        0,
        WdfWaitLockAcquire,
        [Object(L, 3), Nothing, Nothing],
        State(Success),
        "16 cpu0 call WdfWaitLockAcquire L.3 -> SUCCESS",
    ),
    (
        19,
        1,
        GetContext,
        [Object(D, 2), Number(0), Nothing],
        Object(L, 3),
        "19 cpu1 call GetContext D.2 0 -> L.3",
    ),
    (
        20,
        1,
        GetContext,
        [Object(D, 2), Number(1), Nothing],
        Object(L, 4),
        "20 cpu1 call GetContext D.2 1 -> L.4",
    ),
    (
        21,
        1,
        WdfWaitLockAcquire,
        [Object(L, 4), Nothing, Nothing],
        State(Success),
        "21 cpu1 call WdfWaitLockAcquire L.4 -> SUCCESS",
    ),
    (
        4,
        0,
        WdfTimerCreate,
        [Class(TM_CLASS), Nothing, Nothing],
        Object(TM, 7),
        "4 cpu0 call WdfTimerCreate TM -> TM.7",
    ),
    (
        5,
        0,
        SetContext,
        [Object(D, 2), Number(0), Object(TM, 7)],
        State(Success),
        "5 cpu0 call SetContext D.2 0 TM.7 -> SUCCESS",
    ),
    (
        8,
        0,
        GetContext,
        [Object(D, 2), Number(0), Nothing],
        Object(TM, 7),
        "8 cpu0 call GetContext D.2 0 -> TM.7",
    ),
    (
        9,
        0,
        WdfTimerStart,
        [Object(TM, 7), Number(2), Nothing],
        Number(0),
        "9 cpu0 call WdfTimerStart TM.7 2 -> 0",
    ),
    (
        16,
        0,
        WdfRequestForwardToIoQueue,
        [Object(REQ, 8), Object(PEND, 6), Nothing],
        State(Success),
        "16 cpu0 call WdfRequestForwardToIoQueue req.8 PEND.6 -> SUCCESS",
    ),
    (
        22,
        0,
        WdfRequestForwardToIoQueue,
        [Object(REQ, 9), Object(PEND, 6), Nothing],
        State(Success),
        "22 cpu0 call WdfRequestForwardToIoQueue req.9 PEND.6 -> SUCCESS",
    ),
    (
        34,
        0,
        WdfRequestComplete,
        [Object(REQ, 10), State(Success), Nothing],
        State(Success),
        "34 cpu0 call WdfRequestComplete req.10 SUCCESS -> SUCCESS",
    ),
    (
        45,
        0,
        SetContext,
        [Object(D, 2), Number(1), Number(65)],
        State(Success),
        "45 cpu0 call SetContext D.2 1 65 -> SUCCESS",
    ),
    (
        46,
        0,
        WdfInterruptQueueDpcForIsr,
        [Object(IRQ, 3), Nothing, Nothing],
        Number(1),
        "46 cpu0 call WdfInterruptQueueDpcForIsr IRQ.3 -> 1",
    ),
    (
        49,
        0,
        WdfIoQueueRetrieveNextRequest,
        [Object(PEND, 6), Nothing, Nothing],
        Object(REQ, 8),
        "49 cpu0 call WdfIoQueueRetrieveNextRequest PEND.6 -> req.8",
    ),
    (
        65,
        0,
        WdfTimerStop,
        [Object(TM, 7), Number(1), Nothing],
        Number(0),
        "65 cpu0 call WdfTimerStop TM.7 1 -> 0",
    ),
    (
        92,
        0,
        WdfRequestComplete,
        [Object(REQ, 11), State(Success), Nothing],
        State(Success),
        "92 cpu0 call WdfRequestComplete req.11 SUCCESS -> SUCCESS",
    ),
    (
        107,
        0,
        WdfIoQueueRetrieveNextRequest,
        [Object(PEND, 6), Nothing, Nothing],
        Object(REQ, 9),
        "107 cpu0 call WdfIoQueueRetrieveNextRequest PEND.6 -> req.9",
    ),
    (
        109,
        0,
        WdfRequestComplete,
        [Object(REQ, 9), State(Success), Nothing],
        State(Success),
        "109 cpu0 call WdfRequestComplete req.9 SUCCESS -> SUCCESS",
    ),
    (
        117,
        0,
        WdfRequestForwardToIoQueue,
        [Object(REQ, 12), Object(PEND, 6), Nothing],
        State(Success),
        "117 cpu0 call WdfRequestForwardToIoQueue req.12 PEND.6 -> SUCCESS",
    ),
];

/// A call that creates a timer T, in a plan where T is a class.
static TIMER_CALLS: [(usize, u8, CallKind, [Word; 3], Word, &str); 1] = [(
    4,
    0,
    WdfTimerCreate,
    [Class(0), Nothing, Nothing],
    Object(T, 3),
    "4 cpu0 call WdfTimerCreate T -> T.3",
)];

/// Calls that wait.
static WAITS: [(usize, u8, CallKind, [Word; 3], &str); 2] = [
    (
        26,
        0,
        WdfWaitLockAcquire,
        [Object(L, 4), Nothing, Nothing],
        "26 cpu0 wait WdfWaitLockAcquire L.4",
    ),
    (
        28,
        1,
        WdfWaitLockAcquire,
        [Object(L, 3), Nothing, Nothing],
        "28 cpu1 wait WdfWaitLockAcquire L.3",
    ),
];

/// The first line of these that isn't as it should be.
fn wrong_calls(
    plan: &Plan,
    rows: &[(usize, u8, CallKind, [Word; 3], Word, &'static str)],
) -> Option<&'static str> {
    for (number, cpu, kind, arguments, answer, text) in rows {
        let event = Event::Did {
            cpu: Cpu(*cpu),
            call: call(*kind, *arguments),
            answer: value(*answer),
        };
        if !is_line(plan, *number, &event, text) {
            return Some(*text);
        }
    }
    None
}

/// The first line of these that isn't as it should be.
fn wrong_waits(plan: &Plan) -> Option<&'static str> {
    for (number, cpu, kind, arguments, text) in &WAITS {
        let event = Event::Waiting {
            cpu: Cpu(*cpu),
            call: call(*kind, *arguments),
        };
        if !is_line(plan, *number, &event, text) {
            return Some(*text);
        }
    }
    None
}

/// The first line of a call that isn't as it should be.
pub fn wrong(plan: &Plan) -> Option<&'static str> {
    wrong_calls(plan, &CALLS).or(wrong_waits(plan))
}

/// The same in the plan where T is a class.
pub fn wrong_of_timer(plan: &Plan) -> Option<&'static str> {
    wrong_calls(plan, &TIMER_CALLS)
}
