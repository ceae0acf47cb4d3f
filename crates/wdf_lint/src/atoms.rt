//! What a walk knows of expressions.
ghost use Rattle.std.specs.Prelude.{◌≡◌, slice_get, slice_index_or};
ghost use Rattle.wdf_lint.specs.declared.state.Known.TheVariants as known;
ghost use Rattle.wdf_lint.specs.Steps as spec;

use crate::state::{Abstract, Known};
use wdf_base::{ArgNode, ContextWord, ExprNode, Operator, Plan, same_status};

/// The node with number `e`, if there is one.
pub fn node_at(plan: &Plan, e: u32) -> Option<ExprNode>
    ensures { result ≡ slice_get plan.now.exprs e }
{
    if e < plan.expr_len() {
        Some(plan.expr(e))
    } else {
        None
    }
}

/// What is known of a number.
pub fn known_number(n: u64) -> Known
    ensures { result ≡ spec.known_number n }
{
    match n {
        0 => Known::Zero,
        1 => Known::One,
        _ => Known::Unknown,
    }
}

fn variable_known(a: &Abstract, variable: u8) -> Known
    ensures { result ≡ slice_index_or a.now.variables variable known.Zero }
{
    let known = a.variables.get(usize::from(variable));
    known.copied().unwrap_or(Known::Zero)
}

fn known_node(a: &Abstract, node: Option<ExprNode>) -> Known
    ensures { result ≡ spec.known_node a.now node }
{
    match node {
        Some(ExprNode::Number(n)) => known_number(n),
        Some(ExprNode::Variable(v)) => variable_known(a, v),
        Some(ExprNode::Literal(s)) => Known::Stat(s),
        _ => Known::Unknown,
    }
}

/// What is known of an expression's value.
pub fn known_of(plan: &Plan, a: &Abstract, e: u32) -> Known
    ensures { result ≡ spec.known_of plan.now a.now e }
{
    known_node(a, node_at(plan, e))
}

/// Whether two values that are known are one.
fn equal_known(x: Known, y: Known) -> Option<bool>
    ensures { result ≡ spec.equal_known x y }
{
    match (x, y) {
        (Known::Unknown, _) | (_, Known::Unknown) => None,
        (Known::Zero, Known::Zero) | (Known::One, Known::One) => Some(true),
        (Known::Stat(s), Known::Stat(t)) => Some(same_status(s, t)),
        _ => Some(false),
    }
}

fn written(node: Option<ExprNode>) -> Known
    ensures { result ≡ spec.written node }
{
    match node {
        Some(ExprNode::Number(n)) => known_number(n),
        Some(ExprNode::Literal(s)) => Known::Stat(s),
        _ => Known::Unknown,
    }
}

fn known_variable(a: &Abstract, node: Option<ExprNode>) -> Known
    ensures { result ≡ spec.known_variable a.now node }
{
    match node {
        Some(ExprNode::Variable(v)) => variable_known(a, v),
        _ => Known::Unknown,
    }
}

fn opposite(decided: Option<bool>) -> Option<bool>
    ensures { result ≡ spec.opposite decided }
{
    decided.map(|holds| !holds)
}

/// Whether a test holds, where the walk knows it.
pub fn decided(plan: &Plan, a: &Abstract, e: u32) -> Option<bool>
    ensures { result ≡ spec.decided plan.now a.now e }
{
    match node_at(plan, e) {
        Some(
            ExprNode::Binary {
                operator: Operator::Equals,
                left,
                right,
            },
        ) => equal_known(
            known_variable(a, node_at(plan, left)),
            written(node_at(plan, right)),
        ),
        Some(
            ExprNode::Binary {
                operator: Operator::Differs,
                left,
                right,
            },
        ) => opposite(equal_known(
            known_variable(a, node_at(plan, left)),
            written(node_at(plan, right)),
        )),
        _ => None,
    }
}

/// The node of an argument, if it is an expression.
pub fn node_of(plan: &Plan, argument: ArgNode) -> Option<ExprNode>
    ensures { result ≡ spec.node_of plan.now argument }
{
    match argument {
        ArgNode::Expression(e) => node_at(plan, e),
        _ => None,
    }
}

/// Whether an argument is the word `request`.
pub fn is_request_word(node: Option<ExprNode>) -> bool
    ensures { result ≡ spec.is_request_word node }
{
    matches!(node, Some(ExprNode::Context(ContextWord::OwnRequest)))
}

/// Whether an argument is written as the number 0.
pub fn is_zero(node: Option<ExprNode>) -> bool
    ensures { result ≡ spec.is_zero node }
{
    match node {
        Some(ExprNode::Number(n)) => n == 0,
        _ => false,
    }
}

/// The variable that an argument is.
pub fn variable_in(node: Option<ExprNode>) -> Option<u8>
    ensures { result ≡ spec.variable_in node }
{
    match node {
        Some(ExprNode::Variable(v)) => Some(v),
        _ => None,
    }
}
