//! The callbacks in the plan of the scenario of version 2: variables in the order of their first assignments, nodes
//! of expressions in the order of the text.
use crate::callbacks::{self, Owner, Scripted};
use crate::second_text::{BELL, HELD, LINK, OBJECTS, READS, SLOW, TASKS};
use wdf_base::{
    Act, ArgNode, CallKind, Callback, ContextWord, ExprNode, Operator, Plan, Statement, Status,
};

/// The nodes of the expressions; the operands of an operator come before it.
static NODES: [ExprNode; 37] = [
    // The timer.
    ExprNode::Number(1),
    // The reads: the variables are n and m.
    ExprNode::Context(ContextWord::RequestLength),
    ExprNode::Number(1),
    ExprNode::Binary {
        operator: Operator::Subtract,
        left: 1,
        right: 2,
    },
    ExprNode::Context(ContextWord::OwnRequest),
    ExprNode::Object(HELD),
    ExprNode::Variable(1),
    ExprNode::Literal(Status::Success),
    ExprNode::Binary {
        operator: Operator::Differs,
        left: 6,
        right: 7,
    },
    ExprNode::Variable(0),
    ExprNode::Context(ContextWord::OwnRequest),
    ExprNode::Variable(1),
    // The completion.
    ExprNode::Context(ContextWord::OwnRequest),
    ExprNode::Context(ContextWord::CompletionStatus),
    // The entry: the variables are a, b and c.
    ExprNode::Variable(2),
    ExprNode::Variable(1),
    ExprNode::Binary {
        operator: Operator::Equals,
        left: 14,
        right: 15,
    },
    ExprNode::Variable(1),
    ExprNode::Number(3),
    ExprNode::Binary {
        operator: Operator::Add,
        left: 17,
        right: 18,
    },
    ExprNode::Context(ContextWord::NearestDevice),
    ExprNode::Variable(2),
    ExprNode::Variable(0),
    ExprNode::Variable(1),
    ExprNode::Binary {
        operator: Operator::Remainder,
        left: 22,
        right: 23,
    },
    ExprNode::Binary {
        operator: Operator::BitOr,
        left: 21,
        right: 24,
    },
    ExprNode::Variable(0),
    ExprNode::Object(READS),
    // The exit: the variables are c and a.
    ExprNode::Variable(0),
    // The device Hi.
    ExprNode::Context(ContextWord::OwnRequest),
    ExprNode::Object(LINK),
    ExprNode::Number(1),
    ExprNode::Object(SLOW),
    ExprNode::Object(TASKS),
    ExprNode::Object(BELL),
    // The last classes.
    ExprNode::Number(2),
    ExprNode::Literal(Status::Cancelled),
];

static SCRIPTS: [Scripted; 14] = [
    (Callback::EvtTimerFunc, Owner::Class(3), 29, 1),
    (Callback::EvtTimerFunc, Owner::Class(4), 35, 0),
    (Callback::EvtInterruptIsr, Owner::Object(4), 50, 1),
    (Callback::EvtIoRead, Owner::Object(5), 59, 5),
    (Callback::EvtRequestCompletion, Owner::Object(6), 69, 1),
    (Callback::EvtInterruptIsr, Owner::Object(7), 74, 0),
    (Callback::EvtDeviceD0Entry, Owner::Object(2), 79, 7),
    (Callback::EvtDeviceD0Exit, Owner::Object(2), 90, 2),
    (Callback::EvtRequestCompletion, Owner::Object(9), 102, 0),
    (Callback::EvtIoDefault, Owner::Object(10), 108, 1),
    (Callback::EvtInterruptIsr, Owner::Object(11), 113, 2),
    (Callback::EvtDeviceD0Entry, Owner::Object(8), 124, 5),
    (Callback::EvtWorkItem, Owner::Class(5), 152, 1),
    (Callback::EvtDpcFunc, Owner::Class(6), 157, 1),
];

/// The statements of all callbacks, one after the other.
static STATEMENTS: [Statement; 27] = [
    Statement {
        line: 30,
        next: 1,
        act: Act::Log { value: 0 },
    },
    Statement {
        line: 51,
        next: 1,
        act: Act::Get {
            variable: 0,
            register: 1,
        },
    },
    Statement {
        line: 60,
        next: 1,
        act: Act::Let {
            variable: 0,
            value: 3,
        },
    },
    Statement {
        line: 61,
        next: 2,
        act: Act::Call {
            kind: CallKind::WdfRequestForwardToIoQueue,
            into: Some(1),
            a: ArgNode::Expression(4),
            b: ArgNode::Expression(5),
            c: ArgNode::NoArgument,
        },
    },
    Statement {
        line: 62,
        next: 3,
        act: Act::If {
            test: 8,
            otherwise: 5,
        },
    },
    Statement {
        line: 63,
        next: 4,
        act: Act::Log { value: 9 },
    },
    Statement {
        line: 64,
        next: 5,
        act: Act::Call {
            kind: CallKind::WdfRequestComplete,
            into: None,
            a: ArgNode::Expression(10),
            b: ArgNode::Expression(11),
            c: ArgNode::NoArgument,
        },
    },
    Statement {
        line: 70,
        next: 1,
        act: Act::Call {
            kind: CallKind::WdfRequestComplete,
            into: None,
            a: ArgNode::Expression(12),
            b: ArgNode::Expression(13),
            c: ArgNode::NoArgument,
        },
    },
    Statement {
        line: 81,
        next: 1,
        act: Act::If {
            test: 16,
            otherwise: 6,
        },
    },
    Statement {
        line: 82,
        next: 2,
        act: Act::Let {
            variable: 0,
            value: 19,
        },
    },
    Statement {
        line: 83,
        next: 3,
        act: Act::Get {
            variable: 1,
            register: 0,
        },
    },
    Statement {
        line: 84,
        next: 4,
        act: Act::Call {
            kind: CallKind::WdfSpinLockCreate,
            into: Some(2),
            a: ArgNode::OfClass(1),
            b: ArgNode::Expression(20),
            c: ArgNode::NoArgument,
        },
    },
    Statement {
        line: 85,
        next: 5,
        act: Act::Let {
            variable: 0,
            value: 25,
        },
    },
    Statement {
        line: 86,
        next: 6,
        act: Act::Put {
            register: 1,
            value: 26,
        },
    },
    Statement {
        line: 88,
        next: 7,
        act: Act::Call {
            kind: CallKind::WdfObjectCreate,
            into: Some(1),
            a: ArgNode::OfClass(0),
            b: ArgNode::Expression(27),
            c: ArgNode::NoArgument,
        },
    },
    Statement {
        line: 91,
        next: 1,
        act: Act::Call {
            kind: CallKind::WdfTimerCreate,
            into: Some(0),
            a: ArgNode::OfClass(4),
            b: ArgNode::NoArgument,
            c: ArgNode::NoArgument,
        },
    },
    Statement {
        line: 92,
        next: 2,
        act: Act::Let {
            variable: 1,
            value: 28,
        },
    },
    Statement {
        line: 109,
        next: 1,
        act: Act::Call {
            kind: CallKind::WdfRequestSend,
            into: None,
            a: ArgNode::Expression(29),
            b: ArgNode::Expression(30),
            c: ArgNode::Expression(31),
        },
    },
    Statement {
        line: 114,
        next: 1,
        act: Act::Get {
            variable: 0,
            register: 2,
        },
    },
    Statement {
        line: 115,
        next: 2,
        act: Act::Call {
            kind: CallKind::WdfInterruptAcquireLock,
            into: None,
            a: ArgNode::Expression(32),
            b: ArgNode::NoArgument,
            c: ArgNode::NoArgument,
        },
    },
    Statement {
        line: 125,
        next: 1,
        act: Act::Call {
            kind: CallKind::WdfTimerCreate,
            into: Some(0),
            a: ArgNode::OfClass(3),
            b: ArgNode::NoArgument,
            c: ArgNode::NoArgument,
        },
    },
    Statement {
        line: 126,
        next: 2,
        act: Act::Call {
            kind: CallKind::WdfWorkItemCreate,
            into: Some(1),
            a: ArgNode::OfClass(5),
            b: ArgNode::NoArgument,
            c: ArgNode::NoArgument,
        },
    },
    Statement {
        line: 127,
        next: 3,
        act: Act::Call {
            kind: CallKind::WdfWaitLockCreate,
            into: Some(2),
            a: ArgNode::OfClass(2),
            b: ArgNode::Expression(33),
            c: ArgNode::NoArgument,
        },
    },
    Statement {
        line: 128,
        next: 4,
        act: Act::Call {
            kind: CallKind::WdfDpcCreate,
            into: Some(3),
            a: ArgNode::OfClass(6),
            b: ArgNode::NoArgument,
            c: ArgNode::NoArgument,
        },
    },
    Statement {
        line: 129,
        next: 5,
        act: Act::Log { value: 34 },
    },
    Statement {
        line: 153,
        next: 1,
        act: Act::Spend { ticks: 35 },
    },
    Statement {
        line: 158,
        next: 1,
        act: Act::Return { value: 36 },
    },
];

/// Whether the callbacks have their statements.
pub fn has_scripts(plan: &Plan) -> bool {
    callbacks::has_scripts(plan, &OBJECTS, &SCRIPTS, &STATEMENTS)
}

/// Whether the nodes of expressions are in the order of the text.
pub fn has_nodes(plan: &Plan) -> bool {
    plan.exprs.as_slice() == NODES.as_slice()
}
