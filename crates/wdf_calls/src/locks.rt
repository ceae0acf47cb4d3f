//! Locks: the levels at which they are held.
ghost use Rattle.std.specs.Prelude.{◌≡◌};
ghost use Rattle.wdf_model.specs.rules.Calls as calls;

use crate::answers::{Outcome, does, success};
use wdf_base::{Agent, FrameId, Irql, Kind, LockRef, ObjectId};
use wdf_model::Deed;
use wdf_parts::{Deeds, Parts};
use wdf_plan_index::IndexedPlan;

/// The level of an object's lock, by its kind: DISPATCH_LEVEL for a spin lock, an interrupt's for its
/// own. (KMDF)
fn level_of_kind(plan: &IndexedPlan, o: ObjectId, kind: Kind) -> Irql
    ensures { result.0 ≡ calls.level_of_kind plan.now o.0 kind }
{
    match kind {
        Kind::SpinLock => Irql(2),
        Kind::Interrupt => plan.interrupt_level(o),
        _ => Irql(0),
    }
}

/// The level of an object's lock.
fn lock_level<A: Agent>(plan: &IndexedPlan, parts: &Parts<A>, o: ObjectId) -> Irql
    ensures { result.0 ≡ calls.lock_level plan.now parts.now o.0 }
{
    level_of_kind(plan, o, parts.tree().kind(o))
}

/// A frame has the level of an object's lock while it holds it, and while it spins for it.
pub(crate) fn acquire_outcome<A: Agent>(
    plan: &IndexedPlan,
    parts: &Parts<A>,
    frame: FrameId,
    object: ObjectId,
) -> Outcome
    ensures answer { result.answer ≡ (calls.acquire_outcome frame.0 (calls.lock_level plan.now parts.now object.0)).answer }
    ensures deeds { result.deeds ≡ (calls.acquire_outcome frame.0 (calls.lock_level plan.now parts.now object.0)).deeds }
{
    let level = lock_level(plan, parts, object);
    does(Deed::Raise { frame, level })
}

/// The lock of an object is free, and the frame loses its level.
pub(crate) fn release_outcome<A: Agent>(
    plan: &IndexedPlan,
    parts: &Parts<A>,
    frame: FrameId,
    object: ObjectId,
) -> Outcome
    ensures answer { result.answer ≡ (calls.release_outcome frame.0 object.0 (calls.lock_level plan.now parts.now object.0)).answer }
    ensures deeds { result.deeds ≡ (calls.release_outcome frame.0 object.0 (calls.lock_level plan.now parts.now object.0)).deeds }
{
    let lock = LockRef::Object(object);
    let level = lock_level(plan, parts, object);
    success(Deeds::and_lower(Deed::ReleaseLock { lock }, frame, level))
}
