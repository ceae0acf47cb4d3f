use crate::tests::{FRAME, SUCCESS, add, nodes_of, plan_of};
use std::alloc::Global;
use std::test::Fail;
use wdf_base::{
    Act, Change, ExprNode, Frame, Intent, Items, MANY, Memory, Operator, Plan, Statement, Value,
};
use wdf_script::{line_of, next, statement_at, value_of};

/// `2`, then `x`, `1` and `( x + 1 )`, then `x`, `2` and `( x == 2 )`, then `99`.
static COURSE_NODES: [ExprNode; 8] = [
    ExprNode::Number(2),
    ExprNode::Variable(0),
    ExprNode::Number(1),
    ExprNode::Binary {
        operator: Operator::Add,
        left: 1,
        right: 2,
    },
    ExprNode::Variable(0),
    ExprNode::Number(2),
    ExprNode::Binary {
        operator: Operator::Equals,
        left: 4,
        right: 5,
    },
    ExprNode::Number(99),
];

/// After an `on` at line 10: `repeat 2`, `repeat 2`, `let x = ( x + 1 )`, `end`, `if ( x == 2 )`, `log x`,
/// `else`, `log 99`, `end`, `end`, each on its line.
static COURSE: [Statement; 8] = [
    Statement {
        line: 11,
        next: 1,
        act: Act::Repeat {
            count: 0,
            depth: 0,
            past: 8,
        },
    },
    Statement {
        line: 12,
        next: 2,
        act: Act::Repeat {
            count: 0,
            depth: 1,
            past: 4,
        },
    },
    Statement {
        line: 13,
        next: 3,
        act: Act::Let {
            variable: 0,
            value: 3,
        },
    },
    Statement {
        line: 12,
        next: 4,
        act: Act::Again { depth: 1, body: 2 },
    },
    Statement {
        line: 15,
        next: 5,
        act: Act::If {
            test: 6,
            otherwise: 6,
        },
    },
    Statement {
        line: 16,
        next: 7,
        act: Act::Log { value: 1 },
    },
    Statement {
        line: 18,
        next: 7,
        act: Act::Log { value: 7 },
    },
    Statement {
        line: 11,
        next: 8,
        act: Act::Again { depth: 0, body: 1 },
    },
];

/// The lines of the steps in their order. There is one at each `repeat` and one at each end of a body, and
/// none at `else` and at the end of an `if`. The last one is the line of the `on`.
static COURSE_LINES: [u32; 18] = [
    11, 12, 13, 12, 13, 12, 15, 16, 11, 12, 13, 12, 13, 12, 15, 18, 11, 10,
];

/// What a step inside a frame changes.
fn change(frame: &mut Frame, change: Change) {
    match change {
        Change::Assign { variable, value } => {
            if variable < 16 {
                frame.variables[usize::from(variable)] = value;
            }
        }
        Change::Branch => {}
        Change::Count { depth, left } => {
            if depth < 16 {
                frame.counters[usize::from(depth)] = left;
            }
        }
    }
}

/// The frame goes on after the statement at which it is.
fn go_on(plan: &Plan, frame: &mut Frame) {
    if let Intent::Local {
        change: changed,
        next,
    } = next(plan, frame)
    {
        change(frame, changed);
        frame.at = next;
    } else if let Some(statement) = statement_at(plan, frame) {
        frame.at = statement.next;
    }
}

fn course_statements(alloc: Global) -> Result<Items<Statement, MANY>, Memory> {
    let mut statements = Items::new(alloc);
    for statement in &COURSE {
        match add(&mut statements, *statement) {
            Ok(()) => {}
            Err(error) => return Err(error),
        }
    }
    Ok(statements)
}

#[test]
fn a_course_through_loops_and_branches(rt: HostRuntime) -> Result<(), Fail> {
    let nodes = nodes_of(rt.alloc(), &COURSE_NODES)?;
    let plan = plan_of(rt.alloc(), nodes, course_statements(rt.alloc())?)?;
    let mut frame = FRAME;
    for line in COURSE_LINES {
        assert_eq!(rt; line_of(&plan, &frame), line);
        go_on(&plan, &mut frame);
    }
    assert_eq!(rt; next(&plan, &frame), Intent::Return(SUCCESS));
    assert_eq!(rt; frame.variables[0], Value::Num(4));
    Ok(())
}

#[test]
fn a_missing_script_returns_at_once(rt: HostRuntime) -> Result<(), Fail> {
    let plan = plan_of(rt.alloc(), Items::new(rt.alloc()), Items::new(rt.alloc()))?;
    let frame = Frame { script: 1, ..FRAME };
    assert_eq!(rt; next(&plan, &frame), Intent::Return(SUCCESS));
    assert_eq!(rt; line_of(&plan, &frame), 0);
    assert_eq!(rt; value_of(&plan, &frame, 0), None);
    Ok(())
}
