//! Causes that several lines have.
ghost use Rattle.std.specs.Prelude.{◌≡◌, Some, option_map};
ghost use Rattle.wdf_model.specs.Ids.{frame_id};
ghost use Rattle.wdf_model.specs.parts.Locks.{object_lock};
ghost use Rattle.wdf_base.specs.declared.wait.Cause.TheVariants as cause;
ghost use Rattle.wdf_model.specs.Tables.{least};
ghost use Rattle.wdf_model.specs.State.{handle_in};
ghost use Rattle.wdf_model.specs.rules.Waits as waits;

use crate::least::least_on;
use wdf_base::{Agent, Callback, Cause, FrameId, LockRef, ObjectId};
use wdf_lock::scope_of;
use wdf_parts::Parts;
use wdf_plan_index::IndexedPlan;

/// A frame keeps it, if there is one.
pub fn by_frame(frame: Option<u32>) -> Option<Cause>
    ensures { result ≡ option_map (λ f. cause.ByFrame (frame_id f)) frame }
{
    match frame {
        Some(f) => Some(Cause::ByFrame { frame: FrameId(f) }),
        None => None,
    }
}

/// A request keeps it, if there is one.
pub fn by_request<A: Agent>(
    plan: &IndexedPlan,
    parts: &Parts<A>,
    request: Option<u32>,
) -> Option<Cause>
    ensures { result ≡ option_map (λ r. cause.ByRequest (handle_in plan.now parts.now r)) request }
{
    match request {
        Some(r) => Some(Cause::ByRequest {
            request: parts.handle_in(plan, ObjectId(r)),
        }),
        None => None,
    }
}

/// The frame that holds an object's lock, if one does.
pub fn by_lock<A: Agent>(plan: &IndexedPlan, parts: &Parts<A>, o: ObjectId) -> Option<Cause>
    ensures { result ≡ waits.by_lock plan.now parts.now o.0 }
{
    match parts.locks().holder(LockRef::Object(o)) {
        Some(frame) => Some(Cause::ByLock {
            lock: parts.handle_in(plan, o),
            frame,
        }),
        None => None,
    }
}

/// The least of the frames that run on an object.
pub fn by_frame_on<A: Agent>(parts: &Parts<A>, o: ObjectId) -> Option<Cause>
    ensures { result ≡ waits.by_frame_on parts.now o.0 }
{
    by_frame(least_on(parts, o))
}

/// The frame that holds a lock, where there is a lock and one does.
pub fn least_holder<A: Agent>(parts: &Parts<A>, lock: Option<LockRef>) -> Option<u32>
    ensures { result ≡ least (waits.holders_of parts.now lock) }
{
    match lock {
        Some(lock) => parts.locks().holder(lock).map(|frame| frame.0),
        None => None,
    }
}

/// The frame that holds the lock of an object, if one does.
pub fn least_lock_holder<A: Agent>(parts: &Parts<A>, o: ObjectId) -> Option<u32>
    ensures { result ≡ least (waits.holders_of parts.now (Some (object_lock o.0))) }
{
    least_holder(parts, Some(LockRef::Object(o)))
}

/// Whether the scope lock that a callback needs is held.
pub fn scope_is_held<A: Agent>(
    plan: &IndexedPlan,
    parts: &Parts<A>,
    callback: Callback,
    o: ObjectId,
) -> bool
    ensures { result ≡ waits.scope_is_held plan.now parts.now callback o.0 }
{
    let lock = scope_of(plan.plan(), callback, o, parts.declared_in(plan, o));
    !parts.locks().is_free_if_any(lock)
}
