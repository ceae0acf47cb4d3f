use crate::tests::{FRAME, QUEUE, add, plan_of};
use std::alloc::Global;
use std::process::Abort;
use std::test::Fail;
use wdf_base::{
    Act, ContextWord, ExprNode, Intent, Items, MANY, Memory, Operator, Plan, Statement, Status,
    Value,
};
use wdf_script::next;

/// A row: two atoms and an operator between them, and what `log` makes of it.
type Operation = (ExprNode, Operator, ExprNode, Intent);

/// The nodes of an operation, after others, and the statement that logs it.
fn add_operation(
    nodes: &mut Items<ExprNode, MANY>,
    statements: &mut Items<Statement, MANY>,
    operation: &Operation,
) -> Result<(), Memory> {
    let at = nodes.len();
    if at < 900 {
        add(nodes, operation.0)?;
        add(nodes, operation.2)?;
        add(
            nodes,
            ExprNode::Binary {
                operator: operation.1,
                left: at,
                right: at + 1,
            },
        )?;
        add(
            statements,
            Statement {
                line: 11,
                next: 0,
                act: Act::Log { value: at + 2 },
            },
        )?;
    }
    Ok(())
}

fn plan_of_operations(alloc: Global, operations: &[Operation]) -> Result<Plan, Memory> {
    let mut nodes = Items::new(alloc);
    let mut statements = Items::new(alloc);
    for operation in operations {
        match add_operation(&mut nodes, &mut statements, operation) {
            Ok(()) => {}
            Err(error) => return Err(error),
        }
    }
    plan_of(alloc, nodes, statements)
}

const MAX: ExprNode = ExprNode::Number(18_446_744_073_709_551_615);

const ZERO: ExprNode = ExprNode::Number(0);

const ONE: ExprNode = ExprNode::Number(1);

const TWO: ExprNode = ExprNode::Number(2);

const SIX: ExprNode = ExprNode::Number(6);

const TWELVE: ExprNode = ExprNode::Number(12);

const DONE: ExprNode = ExprNode::Literal(Status::Success);

const BUSY: ExprNode = ExprNode::Literal(Status::WdfBusy);

const OWN: ExprNode = ExprNode::Context(ContextWord::OwnObject);

const NEAREST: ExprNode = ExprNode::Context(ContextWord::NearestDevice);

static NUMBERS: [Operation; 25] = [
    (TWELVE, Operator::Add, SIX, Intent::Log(Value::Num(18))),
    (MAX, Operator::Add, TWO, Intent::Log(Value::Num(1))),
    (TWELVE, Operator::Subtract, SIX, Intent::Log(Value::Num(6))),
    (
        ONE,
        Operator::Subtract,
        TWO,
        Intent::Log(Value::Num(18_446_744_073_709_551_615)),
    ),
    (TWELVE, Operator::Multiply, SIX, Intent::Log(Value::Num(72))),
    (
        MAX,
        Operator::Multiply,
        TWO,
        Intent::Log(Value::Num(18_446_744_073_709_551_614)),
    ),
    (MAX, Operator::Multiply, MAX, Intent::Log(Value::Num(1))),
    (TWELVE, Operator::Divide, SIX, Intent::Log(Value::Num(2))),
    (ONE, Operator::Divide, TWO, Intent::Log(Value::Num(0))),
    (TWELVE, Operator::Divide, ZERO, Intent::Broken),
    (MAX, Operator::Remainder, SIX, Intent::Log(Value::Num(3))),
    (ZERO, Operator::Remainder, ZERO, Intent::Broken),
    (TWELVE, Operator::BitAnd, SIX, Intent::Log(Value::Num(4))),
    (TWELVE, Operator::BitOr, SIX, Intent::Log(Value::Num(14))),
    (TWELVE, Operator::BitXor, SIX, Intent::Log(Value::Num(10))),
    (SIX, Operator::Equals, SIX, Intent::Log(Value::Num(1))),
    (TWELVE, Operator::Equals, SIX, Intent::Log(Value::Num(0))),
    (SIX, Operator::Differs, SIX, Intent::Log(Value::Num(0))),
    (TWELVE, Operator::Differs, SIX, Intent::Log(Value::Num(1))),
    (ONE, Operator::Below, TWO, Intent::Log(Value::Num(1))),
    (TWO, Operator::Below, TWO, Intent::Log(Value::Num(0))),
    (MAX, Operator::Below, ZERO, Intent::Log(Value::Num(0))),
    (ONE, Operator::AtMost, TWO, Intent::Log(Value::Num(1))),
    (TWO, Operator::AtMost, TWO, Intent::Log(Value::Num(1))),
    (TWO, Operator::AtMost, ONE, Intent::Log(Value::Num(0))),
];

static KINDS: [Operation; 16] = [
    (DONE, Operator::Equals, DONE, Intent::Log(Value::Num(1))),
    (DONE, Operator::Equals, BUSY, Intent::Log(Value::Num(0))),
    (DONE, Operator::Differs, BUSY, Intent::Log(Value::Num(1))),
    (
        OWN,
        Operator::Equals,
        ExprNode::Object(QUEUE),
        Intent::Log(Value::Num(1)),
    ),
    (OWN, Operator::Equals, NEAREST, Intent::Log(Value::Num(0))),
    (OWN, Operator::Differs, NEAREST, Intent::Log(Value::Num(1))),
    (ZERO, Operator::Equals, DONE, Intent::Log(Value::Num(0))),
    (ZERO, Operator::Differs, DONE, Intent::Log(Value::Num(1))),
    (
        OWN,
        Operator::Equals,
        ExprNode::Number(3),
        Intent::Log(Value::Num(0)),
    ),
    (DONE, Operator::Differs, OWN, Intent::Log(Value::Num(1))),
    (DONE, Operator::Below, BUSY, Intent::Broken),
    (OWN, Operator::AtMost, OWN, Intent::Broken),
    (DONE, Operator::Add, ONE, Intent::Broken),
    (ONE, Operator::Subtract, OWN, Intent::Broken),
    (TWELVE, Operator::BitAnd, DONE, Intent::Broken),
    (DONE, Operator::Divide, ZERO, Intent::Broken),
];

fn check_operations(
    rt: &impl Abort,
    alloc: Global,
    operations: &[Operation],
) -> Result<(), Memory> {
    let plan = plan_of_operations(alloc, operations)?;
    let mut frame = FRAME;
    for operation in operations {
        assert_eq!(rt; next(&plan, &frame), operation.3);
        if frame.at < 1000 {
            frame.at += 1;
        }
    }
    Ok(())
}

#[test]
fn operations_on_numbers_have_their_results(rt: HostRuntime) -> Result<(), Fail> {
    check_operations(&rt, rt.alloc(), &NUMBERS)?;
    Ok(())
}

#[test]
fn operations_on_other_values_have_their_results(rt: HostRuntime) -> Result<(), Fail> {
    check_operations(&rt, rt.alloc(), &KINDS)?;
    Ok(())
}
