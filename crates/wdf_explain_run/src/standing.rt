//! How an object is at the end of a run.
ghost use Rattle.std.specs.Prelude.{◌≡◌};
ghost use Rattle.wdf_model.specs.parts.Locks.{holder, object_lock};
ghost use Rattle.wdf_explain_run.specs.Endings.{having_at, having_of, standing_in, standing_of};

use wdf_base::{Agent, Arg, Handle, Kind, LockRef, ObjectId, Place, Value};
use wdf_explain::{Having, Standing};
use wdf_parts::Parts;
use wdf_plan_index::IndexedPlan;

/// Who has a request at this place.
fn having_at<A: Agent>(parts: &Parts<A>, plan: &IndexedPlan, place: Place) -> Having
    ensures { result ≡ having_at plan.now parts.now place }
{
    match place {
        Place::Queued(queue) => Having::Queued(parts.handle_in(plan, queue)),
        Place::Returning(queue) => Having::Returning(parts.handle_in(plan, queue)),
        Place::Closing(status) => Having::Closing(status),
        Place::Owned => Having::Driver,
        Place::Sent(target) => Having::Target(parts.handle_in(plan, target)),
        Place::Done => Having::Done,
    }
}

/// The frame that holds the lock of an object.
fn lock_holder<A: Agent>(parts: &Parts<A>, object: ObjectId) -> Option<u32>
    ensures { result ≡ holder parts.now.locks (object_lock object.0) }
{
    parts
        .locks()
        .holder(LockRef::Object(object))
        .map(|frame| frame.0)
}

/// Who has an object.
fn having_of<A: Agent>(parts: &Parts<A>, plan: &IndexedPlan, object: ObjectId, kind: Kind) -> Having
    ensures { result ≡ having_of plan.now parts.now object.0 kind }
{
    match kind {
        Kind::Request | Kind::Made => having_at(parts, plan, parts.requests().place(object)),
        Kind::SpinLock | Kind::WaitLock | Kind::Interrupt => {
            Having::Lock(lock_holder(parts, object))
        }
        _ => Having::Nobody,
    }
}

/// How an object is.
fn standing_in<A: Agent>(parts: &Parts<A>, plan: &IndexedPlan, object: Handle) -> Standing
    ensures { result ≡ standing_in plan.now parts.now object }
{
    let kind = parts.tree().kind(object.id);
    Standing {
        object,
        having: having_of(parts, plan, object.id, kind),
        mark: parts.requests().info(object.id).mark,
        references: parts.tree().references(object.id),
        life: parts.tree().life(object.id),
    }
}

/// How an argument of a call is, where it is an object.
pub(crate) fn standing_of<A: Agent>(
    parts: &Parts<A>,
    plan: &IndexedPlan,
    argument: Arg,
) -> Option<Standing>
    ensures { result ≡ standing_of plan.now parts.now argument }
{
    match argument {
        Arg::Val(Value::Obj(object)) => Some(standing_in(parts, plan, object)),
        _ => None,
    }
}
