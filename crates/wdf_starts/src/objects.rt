//! When the cleanup of an object, and its end, may come.
ghost use Rattle.std.specs.Prelude.{◌≡◌};
ghost use Rattle.wdf_model.specs.rules.Starts as starts;

use wdf_base::{Agent, Callback, Kind, ObjectId};
use wdf_parts::Parts;
use wdf_plan_index::IndexedPlan;
use wdf_same::same_kind;

/// Whether no frame runs on an object, holds its lock or waits for it.
pub fn is_unused<A: Agent>(parts: &Parts<A>, o: ObjectId) -> bool
    ensures { result ≡ starts.is_unused parts.now o.0 }
{
    parts.cpus().nobody_on(o) && !parts.is_locked(o) && !parts.is_waited_for(o)
}

/// Whether an object isn't a request under way: an arrived one is completed, a made one isn't sent.
pub fn is_finished<A: Agent>(parts: &Parts<A>, o: ObjectId) -> bool
    ensures { result ≡ starts.is_finished parts.now o.0 }
{
    let kind = parts.tree().kind(o);
    let place = parts.requests().place(o);
    (!same_kind(kind, Kind::Request) || place.is_done())
        && (!same_kind(kind, Kind::Made) || !place.is_sent())
}

/// Whether the cleanup of an object may come. Its deletion is asked, its children are cleaned up, and its
/// turn among its siblings has come. Nothing uses it, it is no request under way, and no request is sent
/// to it. (KMDF; own: the younger sibling first)
pub fn clean_ready<A: Agent>(parts: &Parts<A>, o: ObjectId) -> bool
    ensures { result ≡ starts.clean_ready parts.now o.0 }
{
    parts.tree().may_clean(o) && is_unused(parts, o) && is_finished(parts, o) && parts.nothing_at(o)
}

/// Whether the end of an object may come: its cleanup is done, what is below it is gone, the driver
/// holds no reference to it, and no frame runs on it. (KMDF)
pub fn destroy_ready<A: Agent>(parts: &Parts<A>, o: ObjectId) -> bool
    ensures { result ≡ starts.destroy_ready parts.now o.0 }
{
    parts.tree().may_destroy(o) && parts.cpus().nobody_on(o)
}

/// Whether an object's cleanup or destroy callback doesn't come any more: it isn't declared, or it has
/// started.
pub fn callback_over<A: Agent>(
    plan: &IndexedPlan,
    parts: &Parts<A>,
    callback: Callback,
    o: ObjectId,
) -> bool
    ensures { result ≡ starts.callback_over plan.now parts.now callback o.0 }
{
    !parts.declares_in(plan, callback, o) || parts.tree().started(o, callback)
}
