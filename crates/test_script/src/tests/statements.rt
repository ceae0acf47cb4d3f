use crate::tests::{
    DEVICE, DRIVER, FRAME, QUEUE, REQUEST, SUCCESS, TARGET, add, nodes_of, plan_of,
};
use std::alloc::Global;
use std::process::Abort;
use std::test::Fail;
use wdf_base::{
    Act, Callback, Change, ContextWord, ExprNode, Frame, Intent, Items, MANY, Memory, Operator,
    Statement, Status, Value,
};
use wdf_script::next;

/// The nodes of the statements below.
static NODES: [ExprNode; 22] = [
    ExprNode::Number(0),
    ExprNode::Number(7),
    ExprNode::Number(1000),
    ExprNode::Number(1001),
    ExprNode::Number(1_000_000),
    ExprNode::Number(1_000_001),
    ExprNode::Literal(Status::Success),
    ExprNode::Context(ContextWord::OwnObject),
    ExprNode::Context(ContextWord::NearestDevice),
    ExprNode::Context(ContextWord::OwnRequest),
    ExprNode::Context(ContextWord::RequestLength),
    ExprNode::Context(ContextWord::RequestCode),
    ExprNode::Context(ContextWord::CompletionStatus),
    ExprNode::Object(TARGET),
    ExprNode::Variable(5),
    // node 15: ( 7 / 0 )
    ExprNode::Binary {
        operator: Operator::Divide,
        left: 1,
        right: 0,
    },
    // node 16: ( 7 - 1000 ) wraps
    ExprNode::Binary {
        operator: Operator::Subtract,
        left: 1,
        right: 2,
    },
    // node 17: ( ( 7 - 1000 ) + 1001 ) is 8
    ExprNode::Binary {
        operator: Operator::Add,
        left: 16,
        right: 3,
    },
    // node 18: ( ( ( 7 - 1000 ) + 1001 ) * length ) is 128
    ExprNode::Binary {
        operator: Operator::Multiply,
        left: 17,
        right: 10,
    },
    // node 19: ( 0 == ( 7 / 0 ) )
    ExprNode::Binary {
        operator: Operator::Equals,
        left: 0,
        right: 15,
    },
    // node 20: its right operand doesn't come before it
    ExprNode::Binary {
        operator: Operator::Equals,
        left: 0,
        right: 20,
    },
    // node 21: its left operand doesn't come before it
    ExprNode::Binary {
        operator: Operator::Equals,
        left: 90,
        right: 0,
    },
];

const NEXT: u32 = 80;

const OTHERWISE: u32 = 90;

/// What a statement does whose next one is `NEXT`.
static STATEMENTS: [(Act, Intent); 47] = [
    (
        Act::Let {
            variable: 5,
            value: 7,
        },
        Intent::Local {
            change: Change::Assign {
                variable: 5,
                value: Value::Obj(QUEUE),
            },
            next: NEXT,
        },
    ),
    (
        Act::Let {
            variable: 0,
            value: 15,
        },
        Intent::Broken,
    ),
    (
        Act::Get {
            variable: 3,
            register: 6,
        },
        Intent::Get(6),
    ),
    (
        Act::Put {
            register: 6,
            value: 1,
        },
        Intent::Put {
            register: 6,
            value: 7,
        },
    ),
    (
        Act::Put {
            register: 6,
            value: 6,
        },
        Intent::Broken,
    ),
    (
        Act::Put {
            register: 6,
            value: 8,
        },
        Intent::Broken,
    ),
    (
        Act::Put {
            register: 6,
            value: 15,
        },
        Intent::Broken,
    ),
    (
        Act::If {
            test: 1,
            otherwise: OTHERWISE,
        },
        Intent::Local {
            change: Change::Branch,
            next: NEXT,
        },
    ),
    (
        Act::If {
            test: 0,
            otherwise: OTHERWISE,
        },
        Intent::Local {
            change: Change::Branch,
            next: OTHERWISE,
        },
    ),
    (
        Act::If {
            test: 6,
            otherwise: OTHERWISE,
        },
        Intent::Broken,
    ),
    (
        Act::If {
            test: 9,
            otherwise: OTHERWISE,
        },
        Intent::Broken,
    ),
    (
        Act::If {
            test: 19,
            otherwise: OTHERWISE,
        },
        Intent::Broken,
    ),
    (
        Act::Repeat {
            count: 0,
            depth: 2,
            past: OTHERWISE,
        },
        Intent::Local {
            change: Change::Count { depth: 2, left: 0 },
            next: OTHERWISE,
        },
    ),
    (
        Act::Repeat {
            count: 1,
            depth: 2,
            past: OTHERWISE,
        },
        Intent::Local {
            change: Change::Count { depth: 2, left: 7 },
            next: NEXT,
        },
    ),
    (
        Act::Repeat {
            count: 2,
            depth: 2,
            past: OTHERWISE,
        },
        Intent::Local {
            change: Change::Count {
                depth: 2,
                left: 1000,
            },
            next: NEXT,
        },
    ),
    (
        Act::Repeat {
            count: 3,
            depth: 2,
            past: OTHERWISE,
        },
        Intent::Broken,
    ),
    (
        Act::Repeat {
            count: 6,
            depth: 2,
            past: OTHERWISE,
        },
        Intent::Broken,
    ),
    (
        Act::Repeat {
            count: 13,
            depth: 2,
            past: OTHERWISE,
        },
        Intent::Broken,
    ),
    (
        Act::Repeat {
            count: 15,
            depth: 2,
            past: OTHERWISE,
        },
        Intent::Broken,
    ),
    (
        Act::Again { depth: 0, body: 70 },
        Intent::Local {
            change: Change::Count { depth: 0, left: 2 },
            next: 70,
        },
    ),
    (
        Act::Again { depth: 1, body: 70 },
        Intent::Local {
            change: Change::Count { depth: 1, left: 0 },
            next: NEXT,
        },
    ),
    (Act::Spend { ticks: 0 }, Intent::Spend(0)),
    (Act::Spend { ticks: 4 }, Intent::Spend(1_000_000)),
    (Act::Spend { ticks: 5 }, Intent::Broken),
    (Act::Spend { ticks: 6 }, Intent::Broken),
    (Act::Spend { ticks: 8 }, Intent::Broken),
    (Act::Spend { ticks: 15 }, Intent::Broken),
    (Act::Log { value: 1 }, Intent::Log(Value::Num(7))),
    (Act::Log { value: 6 }, Intent::Log(SUCCESS)),
    (Act::Log { value: 7 }, Intent::Log(Value::Obj(QUEUE))),
    (Act::Log { value: 8 }, Intent::Log(Value::Obj(DEVICE))),
    (Act::Log { value: 9 }, Intent::Log(Value::Obj(REQUEST))),
    (Act::Log { value: 10 }, Intent::Log(Value::Num(16))),
    (Act::Log { value: 11 }, Intent::Log(Value::Num(7))),
    (
        Act::Log { value: 12 },
        Intent::Log(Value::Stat(Status::Cancelled)),
    ),
    (Act::Log { value: 13 }, Intent::Log(Value::Obj(TARGET))),
    (Act::Log { value: 14 }, Intent::Log(Value::Num(0))),
    (Act::Log { value: 18 }, Intent::Log(Value::Num(128))),
    (Act::Log { value: 15 }, Intent::Broken),
    (Act::Log { value: 19 }, Intent::Broken),
    (Act::Log { value: 20 }, Intent::Broken),
    (Act::Log { value: 21 }, Intent::Broken),
    (Act::Log { value: 99 }, Intent::Broken),
    (Act::Return { value: 1 }, Intent::Return(Value::Num(7))),
    (
        Act::Return { value: 12 },
        Intent::Return(Value::Stat(Status::Cancelled)),
    ),
    (
        Act::Return { value: 13 },
        Intent::Return(Value::Obj(TARGET)),
    ),
    (Act::Return { value: 15 }, Intent::Broken),
];

fn statements_of(alloc: Global, rows: &[(Act, Intent)]) -> Result<Items<Statement, MANY>, Memory> {
    let mut statements = Items::new(alloc);
    for row in rows {
        let statement = Statement {
            line: 11,
            next: NEXT,
            act: row.0,
        };
        match add(&mut statements, statement) {
            Ok(()) => {}
            Err(error) => return Err(error),
        }
    }
    Ok(statements)
}

/// Each row does what it says, one statement a row, and after them the callback ends with SUCCESS.
pub fn check_statements(
    rt: &impl Abort,
    alloc: Global,
    frame: &Frame,
    rows: &[(Act, Intent)],
) -> Result<(), Memory> {
    let plan = plan_of(alloc, nodes_of(alloc, &NODES)?, statements_of(alloc, rows)?)?;
    let mut frame = *frame;
    for row in rows {
        assert_eq!(rt; next(&plan, &frame), row.1);
        if frame.at < 1000 {
            frame.at += 1;
        }
    }
    assert_eq!(rt; next(&plan, &frame), Intent::Return(SUCCESS));
    Ok(())
}

#[test]
fn each_statement_has_its_intent(rt: HostRuntime) -> Result<(), Fail> {
    check_statements(&rt, rt.alloc(), &FRAME, &STATEMENTS)?;
    Ok(())
}

/// A callback of an object under the driver, without a request; variable 5 has a value.
const PLAIN: Frame = Frame {
    callback: Callback::EvtCleanupCallback,
    object: TARGET,
    device: DRIVER,
    request: None,
    length: 0,
    code: 0,
    status: Status::Success,
    script: 0,
    at: 0,
    variables: [
        Value::Num(0),
        Value::Num(0),
        Value::Num(0),
        Value::Num(0),
        Value::Num(0),
        Value::Obj(QUEUE),
        Value::Num(0),
        Value::Num(0),
        Value::Num(0),
        Value::Num(0),
        Value::Num(0),
        Value::Num(0),
        Value::Num(0),
        Value::Num(0),
        Value::Num(0),
        Value::Num(0),
    ],
    counters: [0; 16],
    until: 0,
    pending: None,
};

static PLAIN_WORDS: [(Act, Intent); 7] = [
    (Act::Log { value: 7 }, Intent::Log(Value::Obj(TARGET))),
    (Act::Log { value: 8 }, Intent::Log(Value::Obj(DRIVER))),
    (Act::Log { value: 9 }, Intent::Log(Value::Num(0))),
    (Act::Log { value: 10 }, Intent::Log(Value::Num(0))),
    (Act::Log { value: 11 }, Intent::Log(Value::Num(0))),
    (Act::Log { value: 12 }, Intent::Log(SUCCESS)),
    (Act::Log { value: 14 }, Intent::Log(Value::Obj(QUEUE))),
];

#[test]
fn words_without_a_request_have_their_values(rt: HostRuntime) -> Result<(), Fail> {
    check_statements(&rt, rt.alloc(), &PLAIN, &PLAIN_WORDS)?;
    Ok(())
}
