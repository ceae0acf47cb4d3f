//! When the requests of a device are done.
ghost use Rattle.std.specs.Prelude.{◌≡◌};
ghost use Rattle.std.specs.List.{list_all};
ghost use Rattle.wdf_model.specs.State.{nothing_at};
ghost use Rattle.wdf_model.specs.rules.Starts as starts;

use wdf_base::{Agent, ObjectId};
use wdf_parts::Parts;
use wdf_plan_index::IndexedPlan;

/// Whether all arrived requests of a device are done, and nothing is sent to its targets.
pub fn is_drained<A: Agent>(plan: &IndexedPlan, parts: &Parts<A>, d: ObjectId) -> bool
    ensures { result ≡ starts.is_drained plan.now parts.now d.0 }
{
    !parts.requests().unfinished_at(d) && nothing_at_targets(plan, parts, d)
}

/// Whether nothing is sent to the targets of a device.
fn nothing_at_targets<A: Agent>(plan: &IndexedPlan, parts: &Parts<A>, d: ObjectId) -> bool
    ensures { result ≡ list_all (nothing_at parts.now) (starts.targets_at plan.now d.0) }
{
    plan.targets_of(d).all(|t| parts.nothing_at(t))
}
