//! What an expression is worth in a frame.
ghost use Rattle.std.specs.Prelude.{◌≡◌, slice_index_or};
ghost use Rattle.wdf_base.specs.declared.value.Value.TheVariants.{Num};
ghost use Rattle.wdf_model.specs.rules.Script as script;

use crate::operators::operands_by;
use wdf_base::{ContextWord, ExprNode, Frame, Handle, Plan, Value};

// The request, or the number 0 where there is none.
fn request_value(request: Option<Handle>) -> Value
    ensures { result ≡ script.request_value request }
{
    request.map_or(Value::Num(0), Value::Obj)
}

// A part of the running callback.
fn context_value(frame: &Frame, word: ContextWord) -> Value
    ensures { result ≡ script.context_value frame.now word }
{
    match word {
        ContextWord::OwnObject => Value::Obj(frame.object),
        ContextWord::NearestDevice => Value::Obj(frame.device),
        ContextWord::OwnRequest => request_value(frame.request),
        ContextWord::RequestLength => Value::Num(frame.length),
        ContextWord::RequestCode => Value::Num(frame.code),
        ContextWord::CompletionStatus => Value::Stat(frame.status),
    }
}

// The value of a variable.
fn variable_value(frame: &Frame, variable: u8) -> Value
    ensures { result ≡ slice_index_or frame.now.variables variable (Num 0) }
{
    let value = frame.variables.get(usize::from(variable));
    value.copied().unwrap_or(Value::Num(0))
}

/// The value of expression `e` in a frame. It is none where a divisor is 0 or a value has the wrong kind.
/// It is also none where a node isn't there, or an operand doesn't come before its operator.
pub fn value_of(plan: &Plan, frame: &Frame, e: u32) -> Option<Value>
    ensures { result ≡ script.value_of plan.now frame.now e }
{
    if e >= plan.expr_len() {
        return None;
    }
    match plan.expr(e) {
        ExprNode::Number(number) => Some(Value::Num(number)),
        ExprNode::Variable(variable) => Some(variable_value(frame, variable)),
        ExprNode::Object(handle) => Some(Value::Obj(handle)),
        ExprNode::Literal(status) => Some(Value::Stat(status)),
        ExprNode::Context(word) => Some(context_value(frame, word)),
        ExprNode::Binary {
            operator,
            left,
            right,
        } => {
            if left < e && right < e {
                let left = value_of(plan, frame, left);
                let right = value_of(plan, frame, right);
                operands_by(operator, left, right)
            } else {
                None
            }
        }
    }
}
