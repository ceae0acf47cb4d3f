//! What the arguments of a call are.
ghost use Rattle.std.specs.Prelude.{◌≡◌};
ghost use Rattle.wdf_model.specs.rules.Calls as calls;

use wdf_base::{Arg, Value};

/// The value of an argument; the number 0 for a class.
pub fn value_in(argument: Arg) -> Value
    ensures { result ≡ calls.value_in argument }
{
    match argument {
        Arg::Val(value) => value,
        Arg::Class(_) => Value::Num(0),
    }
}

/// The number of an argument; 0 for what is none.
pub fn number_in(argument: Arg) -> u64
    ensures { result ≡ calls.number_in argument }
{
    match argument {
        Arg::Val(Value::Num(n)) => n,
        _ => 0,
    }
}

/// The number of the class of an argument; 0 for what is none.
pub fn class_in(argument: Arg) -> u16
    ensures { result ≡ calls.class_in argument }
{
    match argument {
        Arg::Class(class) => class,
        Arg::Val(_) => 0,
    }
}
