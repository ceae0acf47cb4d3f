use crate::tests::statements::check_statements;
use crate::tests::{DEVICE, FRAME, QUEUE, REQUEST, SUCCESS, TARGET};
use std::test::Fail;
use wdf_base::{Act, Arg, ArgNode, Call, CallKind, Intent, Value};

/// A call's row: it is done also where an argument has the wrong kind or is too great, which is the
/// call's fault.
static CALLS: [(Act, Intent); 9] = [
    (
        Act::Call {
            kind: CallKind::WdfRequestComplete,
            into: None,
            a: ArgNode::Expression(9),
            b: ArgNode::Expression(6),
            c: ArgNode::NoArgument,
        },
        Intent::Do(Call {
            kind: CallKind::WdfRequestComplete,
            count: 2,
            a: Arg::Val(Value::Obj(REQUEST)),
            b: Arg::Val(SUCCESS),
            c: Arg::Val(Value::Num(0)),
        }),
    ),
    (
        Act::Call {
            kind: CallKind::WdfRequestComplete,
            into: Some(5),
            a: ArgNode::Expression(9),
            b: ArgNode::Expression(1),
            c: ArgNode::NoArgument,
        },
        Intent::Do(Call {
            kind: CallKind::WdfRequestComplete,
            count: 2,
            a: Arg::Val(Value::Obj(REQUEST)),
            b: Arg::Val(Value::Num(7)),
            c: Arg::Val(Value::Num(0)),
        }),
    ),
    (
        Act::Call {
            kind: CallKind::WdfTimerCreate,
            into: Some(5),
            a: ArgNode::OfClass(1),
            b: ArgNode::NoArgument,
            c: ArgNode::NoArgument,
        },
        Intent::Do(Call {
            kind: CallKind::WdfTimerCreate,
            count: 1,
            a: Arg::Class(1),
            b: Arg::Val(Value::Num(0)),
            c: Arg::Val(Value::Num(0)),
        }),
    ),
    (
        Act::Call {
            kind: CallKind::WdfObjectCreate,
            into: Some(5),
            a: ArgNode::OfClass(2),
            b: ArgNode::Expression(8),
            c: ArgNode::NoArgument,
        },
        Intent::Do(Call {
            kind: CallKind::WdfObjectCreate,
            count: 2,
            a: Arg::Class(2),
            b: Arg::Val(Value::Obj(DEVICE)),
            c: Arg::Val(Value::Num(0)),
        }),
    ),
    (
        Act::Call {
            kind: CallKind::SetContext,
            into: None,
            a: ArgNode::Expression(7),
            b: ArgNode::Expression(1),
            c: ArgNode::Expression(13),
        },
        Intent::Do(Call {
            kind: CallKind::SetContext,
            count: 3,
            a: Arg::Val(Value::Obj(QUEUE)),
            b: Arg::Val(Value::Num(7)),
            c: Arg::Val(Value::Obj(TARGET)),
        }),
    ),
    (
        Act::Call {
            kind: CallKind::GetContext,
            into: Some(5),
            a: ArgNode::Expression(8),
            b: ArgNode::Expression(3),
            c: ArgNode::NoArgument,
        },
        Intent::Do(Call {
            kind: CallKind::GetContext,
            count: 2,
            a: Arg::Val(Value::Obj(DEVICE)),
            b: Arg::Val(Value::Num(1001)),
            c: Arg::Val(Value::Num(0)),
        }),
    ),
    (
        Act::Call {
            kind: CallKind::WdfTimerStart,
            into: None,
            a: ArgNode::Expression(14),
            b: ArgNode::Expression(10),
            c: ArgNode::NoArgument,
        },
        Intent::Do(Call {
            kind: CallKind::WdfTimerStart,
            count: 2,
            a: Arg::Val(Value::Num(0)),
            b: Arg::Val(Value::Num(16)),
            c: Arg::Val(Value::Num(0)),
        }),
    ),
    (
        Act::Call {
            kind: CallKind::WdfRequestSend,
            into: None,
            a: ArgNode::Expression(9),
            b: ArgNode::Expression(13),
            c: ArgNode::Expression(0),
        },
        Intent::Do(Call {
            kind: CallKind::WdfRequestSend,
            count: 3,
            a: Arg::Val(Value::Obj(REQUEST)),
            b: Arg::Val(Value::Obj(TARGET)),
            c: Arg::Val(Value::Num(0)),
        }),
    ),
    (
        Act::Call {
            kind: CallKind::WdfIoQueueStart,
            into: None,
            a: ArgNode::Expression(7),
            b: ArgNode::NoArgument,
            c: ArgNode::NoArgument,
        },
        Intent::Do(Call {
            kind: CallKind::WdfIoQueueStart,
            count: 1,
            a: Arg::Val(Value::Obj(QUEUE)),
            b: Arg::Val(Value::Num(0)),
            c: Arg::Val(Value::Num(0)),
        }),
    ),
];

#[test]
fn calls_have_their_arguments(rt: HostRuntime) -> Result<(), Fail> {
    check_statements(&rt, rt.alloc(), &FRAME, &CALLS)?;
    Ok(())
}
