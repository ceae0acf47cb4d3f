//! The framework call of a statement, with its arguments evaluated.
ghost use Rattle.std.specs.Prelude.{◌≡◌};
ghost use Rattle.wdf_model.specs.rules.Script as script;

use crate::expressions::value_of;
use wdf_base::{Arg, ArgNode, Call, CallKind, Frame, Plan, Value};

// An argument: an atom, which always has a value, or a class.
fn arg_of(plan: &Plan, frame: &Frame, argument: ArgNode) -> Arg
    ensures { result ≡ script.arg_of plan.now frame.now argument }
{
    match argument {
        ArgNode::NoArgument => Arg::Val(Value::Num(0)),
        ArgNode::Expression(e) => {
            let value = value_of(plan, frame, e);
            Arg::Val(value.unwrap_or(Value::Num(0)))
        }
        ArgNode::OfClass(class) => Arg::Class(class),
    }
}

/// The call of this kind with these arguments.
pub fn call_of(
    plan: &Plan,
    frame: &Frame,
    kind: CallKind,
    a: ArgNode,
    b: ArgNode,
    c: ArgNode,
) -> Call
    ensures { result ≡ script.call_of plan.now frame.now kind a b c }
{
    Call {
        kind,
        count: kind.signature().count(),
        a: arg_of(plan, frame, a),
        b: arg_of(plan, frame, b),
        c: arg_of(plan, frame, c),
    }
}
