//! Operators of expressions, on numbers and on values.
ghost use Rattle.std.specs.Prelude.{◌≡◌};
ghost use Rattle.wdf_model.specs.Tables.{flag};
ghost use Rattle.wdf_model.specs.rules.Script as script;

use wdf_base::{Operator, Value};
use wdf_same::same_value;

// A comparison gives 1 or 0.
fn flag(holds: bool) -> u64
    ensures { result ≡ flag holds }
{
    if holds { 1 } else { 0 }
}

// What an operator makes of two numbers, none where the divisor is 0.
fn number_by(operator: Operator, a: u64, b: u64) -> Option<u64>
    ensures { result ≡ script.number_by operator a b }
{
    match operator {
        Operator::Add => Some(a.wrapping_add(b)),
        Operator::Subtract => Some(a.wrapping_sub(b)),
        Operator::Multiply => Some(a.wrapping_mul(b)),
        Operator::Divide => a.checked_div(b),
        Operator::Remainder => a.checked_rem(b),
        Operator::BitAnd => Some(a & b),
        Operator::BitOr => Some(a | b),
        Operator::BitXor => Some(a ^ b),
        Operator::Equals => Some(flag(a == b)),
        Operator::Differs => Some(flag(a != b)),
        Operator::Below => Some(flag(a < b)),
        Operator::AtMost => Some(flag(a <= b)),
    }
}

// The operators that take numbers alone.
fn numbers_by(operator: Operator, a: Value, b: Value) -> Option<Value>
    ensures { result ≡ script.numbers_by operator a b }
{
    match (a, b) {
        (Value::Num(a), Value::Num(b)) => number_by(operator, a, b).map(Value::Num),
        _ => None,
    }
}

// Equality takes any two values, and values of different kinds differ.
fn value_by(operator: Operator, a: Value, b: Value) -> Option<Value>
    ensures { result ≡ script.value_by operator a b }
{
    match operator {
        Operator::Equals => Some(Value::Num(flag(same_value(a, b)))),
        Operator::Differs => Some(Value::Num(flag(!same_value(a, b)))),
        _ => numbers_by(operator, a, b),
    }
}

/// What an operator makes of its operands. It is none where one of them has no value, and where the divisor
/// is 0. It is also none where one isn't a number and the operator is neither `Equals` nor `Differs`.
pub fn operands_by(operator: Operator, left: Option<Value>, right: Option<Value>) -> Option<Value>
    ensures { result ≡ script.operands_by operator left right }
{
    match (left, right) {
        (Some(left), Some(right)) => value_by(operator, left, right),
        _ => None,
    }
}
