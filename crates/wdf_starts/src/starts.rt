//! When a callback may start.
ghost use Rattle.std.specs.Prelude.{◌≡◌};
ghost use Rattle.wdf_model.specs.State.{declared_in};
ghost use Rattle.wdf_model.specs.parts.Locks.{is_free_if_any, lock_of_callback};
ghost use Rattle.wdf_model.specs.rules.Starts as starts;

use crate::ranks::is_ready_for;
use wdf_base::{Agent, Callback, Cpu, Handle, Irql, LockRef, ObjectId};
use wdf_lock::lock_of_callback;
use wdf_parts::Parts;
use wdf_plan_index::IndexedPlan;

/// Whether an object's life fits a callback on it: it is live, but for its cleanup and destroy
/// callbacks.
pub fn life_fits<A: Agent>(parts: &Parts<A>, callback: Callback, o: ObjectId) -> bool
    ensures { result ≡ starts.life_fits parts.now callback o.0 }
{
    match callback {
        Callback::EvtCleanupCallback => parts.tree().life(o).is_asked(),
        Callback::EvtDestroyCallback => parts.tree().life(o).is_cleaned(),
        _ => parts.tree().life(o).is_live(),
    }
}

/// Whether a callback of this level may start on a processor: one of level 0 on an empty one, a higher
/// one where the processor's level is lower. (KMDF)
pub fn level_fits<A: Agent>(parts: &Parts<A>, cpu: Cpu, level: Irql) -> bool
    ensures { result ≡ starts.level_fits parts.now cpu.0 level.0 }
{
    if level.0 == 0 {
        parts.cpus().is_empty(cpu)
    } else {
        parts.cpus().irql(cpu).0 < level.0
    }
}

/// Whether a callback may start on an object, with a request where it is for one: it is declared, the
/// object's life and the processor's level fit, its lock is free, and it is due.
pub fn may_start<A: Agent>(
    plan: &IndexedPlan,
    parts: &Parts<A>,
    cpu: Cpu,
    callback: Callback,
    o: ObjectId,
    request: Option<Handle>,
) -> bool
    ensures { result ≡ starts.may_start plan.now A.meaning parts.now cpu.0 callback o.0 request }
{
    parts.declares_in(plan, callback, o)
        && life_fits(parts, callback, o)
        && level_fits(parts, cpu, plan.callback_irql(callback, o))
        && lock_is_free(plan, parts, callback, o)
        && is_ready_for(plan, parts, cpu, callback, o, request)
}

/// Whether the lock that a callback takes at its start is free, where it takes one.
fn lock_is_free<A: Agent>(
    plan: &IndexedPlan,
    parts: &Parts<A>,
    callback: Callback,
    o: ObjectId,
) -> bool
    ensures { result ≡ is_free_if_any parts.now.locks (lock_of_callback plan.now callback o.0 (declared_in plan.now parts.now o.0)) }
{
    parts
        .locks()
        .is_free_if_any(lock_for(plan, parts, callback, o))
}

/// The lock that a callback takes at its start and gives back at its end, if any.
pub(crate) fn lock_for<A: Agent>(
    plan: &IndexedPlan,
    parts: &Parts<A>,
    callback: Callback,
    o: ObjectId,
) -> Option<LockRef>
    ensures { result ≡ lock_of_callback plan.now callback o.0 (declared_in plan.now parts.now o.0) }
{
    lock_of_callback(plan.plan(), callback, o, parts.declared_in(plan, o))
}
