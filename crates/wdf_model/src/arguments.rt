//! What an argument of a call names.

ghost use Rattle.std.specs.Prelude.{◌≡◌};
ghost use Rattle.wdf_model.specs.State.{object_in};

use wdf_base::{Arg, ObjectId, Value};

/// The object that an argument names; the id 0, which no object has, where it names none.
pub fn object_in(argument: Arg) -> ObjectId
    ensures { result.0 ≡ object_in argument }
{
    match argument {
        Arg::Val(Value::Obj(handle)) => handle.id,
        _ => ObjectId(0),
    }
}
