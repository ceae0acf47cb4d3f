//! Lines that are made by hand, and the test of all lines.
use crate::objects::{D, DRIVER, IRQ, L, Q, REQ, T, TM};
use crate::plan::{is_line, plan, timer_plan};
use crate::{callbacks, calls, endings, events};
use std::test::Fail;
use wdf_base::{
    Access, Action, Arg, Ask, Call, CallKind, Callback, Cpu, Event, Fault, FrameId, Plan, Post,
    Stage, Status, Value,
};
use wdf_trace::read_line;

const CPU: Cpu = Cpu(0);

const ZERO: Arg = Arg::Val(Value::Num(0));

const SUCCESS: Value = Value::Stat(Status::Success);

/// Callbacks start and end.
static FRAMES: [(Event, &str); 7] = [
    (
        Event::Start {
            cpu: CPU,
            callback: Callback::EvtIoRead,
            object: Q,
            request: Some(REQ),
        },
        "7 cpu0 start EvtIoRead Q.3 req.8",
    ),
    (
        Event::Start {
            cpu: CPU,
            callback: Callback::EvtInterruptIsr,
            object: IRQ,
            request: None,
        },
        "7 cpu0 start EvtInterruptIsr IRQ.4",
    ),
    (
        Event::Start {
            cpu: CPU,
            callback: Callback::EvtDeviceD0EntryPostInterruptsEnabled,
            object: D,
            request: None,
        },
        "7 cpu0 start EvtDeviceD0EntryPostInterruptsEnabled D.2",
    ),
    (
        Event::Start {
            cpu: CPU,
            callback: Callback::EvtIoQueueState,
            object: Q,
            request: None,
        },
        "7 cpu0 start EvtIoQueueState Q.3",
    ),
    (
        Event::End {
            cpu: CPU,
            callback: Callback::EvtTimerFunc,
            object: TM,
            value: SUCCESS,
        },
        "7 cpu0 end EvtTimerFunc TM.7 SUCCESS",
    ),
    (
        Event::End {
            cpu: CPU,
            callback: Callback::EvtDeviceQueryStop,
            object: D,
            value: Value::Stat(Status::Unsuccessful),
        },
        "7 cpu0 end EvtDeviceQueryStop D.2 UNSUCCESSFUL",
    ),
    (
        Event::End {
            cpu: CPU,
            callback: Callback::EvtWorkItem,
            object: L,
            value: Value::Num(0),
        },
        "7 cpu0 end EvtWorkItem L.6 0",
    ),
];

/// What frames do.
static STATEMENTS: [(Event, &str); 9] = [
    (
        Event::Local {
            cpu: Cpu(1),
            line: 10,
        },
        "0 cpu1 step 10",
    ),
    (
        Event::Log {
            cpu: Cpu(255),
            value: Value::Num(u64::MAX),
        },
        "0 cpu255 log 18446744073709551615",
    ),
    (
        Event::Log {
            cpu: CPU,
            value: Value::Obj(DRIVER),
        },
        "0 cpu0 log driver.1",
    ),
    (Event::Spend { cpu: CPU, ticks: 1 }, "0 cpu0 spend 1"),
    (
        Event::Register {
            cpu: CPU,
            access: Access::Read,
            register: 0,
            value: 65,
        },
        "0 cpu0 get RX -> 65",
    ),
    (
        Event::Register {
            cpu: CPU,
            access: Access::Write,
            register: 1,
            value: 1,
        },
        "0 cpu0 put CTL 1",
    ),
    (
        Event::Park {
            cpu: CPU,
            frame: FrameId(13),
        },
        "0 cpu0 park 13",
    ),
    (
        Event::Unpark {
            cpu: CPU,
            frame: FrameId(8),
        },
        "0 cpu0 unpark 8",
    ),
    (
        Event::Fault {
            cpu: CPU,
            fault: Fault::CompleteBeforeCancelCallback,
            line: 10,
        },
        "0 cpu0 fault CompleteBeforeCancelCallback 10",
    ),
];

/// Framework calls.
static CALLS: [(Event, &str); 10] = [
    (
        Event::Did {
            cpu: CPU,
            call: Call {
                kind: CallKind::WdfRequestComplete,
                count: 2,
                a: Arg::Val(Value::Obj(REQ)),
                b: Arg::Val(SUCCESS),
                c: ZERO,
            },
            answer: SUCCESS,
        },
        "3 cpu0 call WdfRequestComplete req.8 SUCCESS -> SUCCESS",
    ),
    (
        Event::Did {
            cpu: CPU,
            call: Call {
                kind: CallKind::SetContext,
                count: 3,
                a: Arg::Val(Value::Obj(D)),
                b: ZERO,
                c: Arg::Val(Value::Obj(L)),
            },
            answer: SUCCESS,
        },
        "3 cpu0 call SetContext D.2 0 L.6 -> SUCCESS",
    ),
    (
        Event::Did {
            cpu: CPU,
            call: Call {
                kind: CallKind::WdfTimerCreate,
                count: 1,
                a: Arg::Class(1),
                b: ZERO,
                c: ZERO,
            },
            answer: Value::Obj(TM),
        },
        "3 cpu0 call WdfTimerCreate TM -> TM.7",
    ),
    (
        Event::Did {
            cpu: CPU,
            call: Call {
                kind: CallKind::WdfWaitLockCreate,
                count: 2,
                a: Arg::Class(0),
                b: Arg::Val(Value::Obj(D)),
                c: ZERO,
            },
            answer: Value::Obj(L),
        },
        "3 cpu0 call WdfWaitLockCreate L D.2 -> L.6",
    ),
    (
        Event::Did {
            cpu: CPU,
            call: Call {
                kind: CallKind::WdfRequestSend,
                count: 3,
                a: Arg::Val(Value::Obj(REQ)),
                b: Arg::Val(Value::Obj(T)),
                c: ZERO,
            },
            answer: Value::Num(1),
        },
        "3 cpu0 call WdfRequestSend req.8 T.5 0 -> 1",
    ),
    (
        Event::Waiting {
            cpu: CPU,
            call: Call {
                kind: CallKind::WdfWaitLockAcquire,
                count: 1,
                a: Arg::Val(Value::Obj(L)),
                b: ZERO,
                c: ZERO,
            },
        },
        "3 cpu0 wait WdfWaitLockAcquire L.6",
    ),
    (
        Event::Woke {
            cpu: CPU,
            call: Call {
                kind: CallKind::WdfTimerStop,
                count: 2,
                a: Arg::Val(Value::Obj(TM)),
                b: Arg::Val(Value::Num(1)),
                c: ZERO,
            },
            answer: Value::Num(0),
        },
        "3 cpu0 woke WdfTimerStop TM.7 1 -> 0",
    ),
    (
        Event::Did {
            cpu: CPU,
            call: Call {
                kind: CallKind::WdfObjectDelete,
                count: 1,
                a: Arg::Class(1),
                b: ZERO,
                c: ZERO,
            },
            answer: SUCCESS,
        },
        "3 cpu0 call WdfObjectDelete TM -> SUCCESS",
    ),
    (
        Event::Waiting {
            cpu: CPU,
            call: Call {
                kind: CallKind::WdfRequestSend,
                count: 3,
                a: Arg::Class(0),
                b: Arg::Class(1),
                c: Arg::Class(2),
            },
        },
        "3 cpu0 wait WdfRequestSend L TM O",
    ),
    (
        Event::Woke {
            cpu: CPU,
            call: Call {
                kind: CallKind::WdfTimerCreate,
                count: 1,
                a: Arg::Val(SUCCESS),
                b: ZERO,
                c: ZERO,
            },
            answer: Value::Num(0),
        },
        "3 cpu0 woke WdfTimerCreate SUCCESS -> 0",
    ),
];

/// What the framework and the clock do.
static STEPS: [(Event, &str); 6] = [
    (
        Event::Stage {
            device: D,
            stage: Stage::Hardware,
            interrupt: None,
        },
        "12 fw stage D.2 hardware",
    ),
    (
        Event::Stage {
            device: D,
            stage: Stage::Enabled,
            interrupt: Some(IRQ),
        },
        "12 fw stage D.2 enabled IRQ.4",
    ),
    (
        Event::Complete {
            request: REQ,
            status: Status::Cancelled,
        },
        "12 fw complete req.8 CANCELLED",
    ),
    (Event::Cleanup { object: D }, "12 fw cleanup D.2"),
    (Event::Destroy { object: REQ }, "12 fw destroy req.8"),
    (Event::Tick { time: 40 }, "12 clock tick 40"),
];

/// What agents post.
static POSTS: [(Event, &str); 11] = [
    (
        Event::Posted {
            agent: 1,
            post: Post::Read {
                device: D,
                length: 16,
            },
            answer: Some(REQ),
        },
        "1 A read D.2 16 -> req.8",
    ),
    (
        Event::Posted {
            agent: 1,
            post: Post::Write {
                device: D,
                length: 0,
            },
            answer: None,
        },
        "1 A write D.2 0 -> none",
    ),
    (
        Event::Posted {
            agent: 1,
            post: Post::Control {
                device: D,
                code: 3,
                length: 8,
            },
            answer: Some(REQ),
        },
        "1 A control D.2 3 8 -> req.8",
    ),
    (
        Event::Posted {
            agent: 1,
            post: Post::Cancel { arrival: 2 },
            answer: Some(REQ),
        },
        "1 A cancel 2 -> req.8",
    ),
    (
        Event::Posted {
            agent: 0,
            post: Post::Ask {
                ask: Ask::Start,
                device: D,
            },
            answer: None,
        },
        "1 pnp start D.2",
    ),
    (
        Event::Posted {
            agent: 0,
            post: Post::Ask {
                ask: Ask::Surprise,
                device: D,
            },
            answer: None,
        },
        "1 pnp surprise D.2",
    ),
    (
        Event::Posted {
            agent: 2,
            post: Post::Act {
                action: Action::Set {
                    register: 0,
                    value: 65,
                },
            },
            answer: None,
        },
        "1 D.2 set RX 65",
    ),
    (
        Event::Posted {
            agent: 2,
            post: Post::Act {
                action: Action::Raise { interrupt: IRQ },
            },
            answer: None,
        },
        "1 D.2 raise IRQ.4",
    ),
    (
        Event::Posted {
            agent: 2,
            post: Post::Act {
                action: Action::Lower { interrupt: IRQ },
            },
            answer: None,
        },
        "1 D.2 lower IRQ.4",
    ),
    (
        Event::Posted {
            agent: 3,
            post: Post::Done {
                request: REQ,
                status: Status::Success,
            },
            answer: None,
        },
        "1 T.5 done req.8 SUCCESS",
    ),
    (
        Event::Posted {
            agent: 3,
            post: Post::Read {
                device: D,
                length: 16,
            },
            answer: Some(REQ),
        },
        "1 T.5 read D.2 16 -> req.8",
    ),
];

/// The first line of these, with a number, that isn't as it should be.
fn wrong_of(plan: &Plan, number: usize, rows: &[(Event, &'static str)]) -> Option<&'static str> {
    for (event, text) in rows {
        if !is_line(plan, number, event, text) {
            return Some(*text);
        }
    }
    None
}

/// The first line that isn't as it should be.
fn wrong_events(plan: &Plan) -> Option<&'static str> {
    for (number, rows) in [
        (7, FRAMES.as_slice()),
        (0, STATEMENTS.as_slice()),
        (3, CALLS.as_slice()),
        (12, STEPS.as_slice()),
        (1, POSTS.as_slice()),
    ] {
        let wrong = wrong_of(plan, number, rows);
        if wrong.is_some() {
            return wrong;
        }
    }
    None
}

/// Texts that are no event's line.
const OTHERS: [&str; 38] = [
    "",
    "1",
    "clock tick 1",
    "01 clock tick 1",
    "1 clock tick 01",
    "1 clock tick 1 ",
    "1  clock tick 1",
    "1 clock tick 1\r",
    "1 clock tick 18446744073709551616",
    "18446744073709551616 clock tick 1",
    "1 clock tick -1",
    "1 cpu256 step 3",
    "1 cpu step 3",
    "1 cpu0 step 4294967296",
    "1 cpu0 start EvtIoRead Q.3",
    "1 cpu0 start EvtIoQueueState Q.3 req.4",
    "1 cpu0 start EvtInterruptIsr IRQ.4 req.4",
    "1 cpu0 call WdfTimerCreate TM D.2 -> TM.7",
    "1 cpu0 call WdfTimerCreate TM.7",
    "1 cpu0 call WdfObjectDelete D -> SUCCESS",
    "1 cpu0 call WdfObjectDelete TMX -> SUCCESS",
    "1 cpu0 call WdfObjectDelete TM D.2 -> SUCCESS",
    "1 cpu0 call WdfRequestComplete req.4 -> SUCCESS",
    "1 fw stage D.2 enabled",
    "1 fw stage D.2 hardware IRQ.4",
    "1 fw cleanup DX.2",
    "1 fw cleanup D",
    "1 fw cleanup D.2.2",
    "1 fw cleanup driver.01",
    "1 A read D.2 16 -> 0",
    "1 A read D.2 16",
    "1 D read D.2 16 -> req.4",
    "1 A.10 read D.2 16 -> req.4",
    "1 D.3 set RX 65",
    "1 D.2 set L 65",
    "1 DQ read D.2 16 -> req.4",
    "1 pnp pause D.2",
    "finished 4",
];

/// The first of these texts that is read.
fn wrong_others(plan: &Plan) -> Option<&'static str> {
    for text in OTHERS {
        if read_line(plan, text.as_bytes()).is_some() {
            return Some(text);
        }
    }
    None
}

/// The first text that isn't as it should be.
fn wrong(plan: &Plan) -> Option<&'static str> {
    for wrong in [
        wrong_events(plan),
        wrong_others(plan),
        callbacks::wrong(plan),
        calls::wrong(plan),
        events::wrong(plan),
        endings::wrong_waits(plan),
    ] {
        if wrong.is_some() {
            return wrong;
        }
    }
    None
}

/// The same in a plan that is made for it; or in the one where T is a class of timers.
fn wrong_in(plan: Plan, is_timer: bool) -> Option<&'static str> {
    if is_timer {
        calls::wrong_of_timer(&plan)
    } else {
        wrong(&plan)
    }
}

#[test]
fn lines_are_written_and_read(rt: HostRuntime) -> Result<(), Fail> {
    let plan = plan(rt.alloc())?;
    assert_eq!(rt; wrong_in(plan, false), None);
    let timer_plan = timer_plan(rt.alloc())?;
    assert_eq!(rt; wrong_in(timer_plan, true), None);
    assert_eq!(rt; endings::wrong_endings(), None);
    Ok(())
}
