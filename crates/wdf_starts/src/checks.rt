//! Small tests of places, marks and lives, and of what may be wanting.
ghost use Rattle.std.specs.Prelude.{◌≡◌, Some};
ghost use Rattle.wdf_base.specs.Same as same;
ghost use Rattle.wdf_model.specs.rules.Starts as starts;

use wdf_base::{Callback, Handle, ObjectId, Step, same_callback};
use wdf_same::same_step;

/// Whether there is a step, and it is this one.
pub(crate) fn is_step(found: Option<Step>, step: Step) -> bool
    ensures { result ≡ same.same_option same.same_step found (Some step) }
{
    match found {
        Some(other) => same_step(other, step),
        None => false,
    }
}

/// Whether there is a callback, and it is this one.
pub(crate) fn is_callback(found: Option<Callback>, callback: Callback) -> bool
    ensures { result ≡ same.same_option same.same_callback found (Some callback) }
{
    match found {
        Some(other) => same_callback(other, callback),
        None => false,
    }
}

/// The id of an object, 0 where there is none.
pub fn handle_id(object: Option<Handle>) -> ObjectId
    ensures { result.0 ≡ starts.handle_id object }
{
    match object {
        Some(object) => object.id,
        None => ObjectId(0),
    }
}
