//! Which parked frames may come back, without a look at each of them. (own)
ghost use Rattle.std.specs.Prelude.{◌≡◌, ◌+◌, ◌<◌, ◌≤◌, ◌^◌, if◌then◌else◌, not, true, count_by, length, slice_get, Some, MatchResult};
ghost use Rattle.wdf_cpu.specs.ParkedFor.{is_for, some_parked_for};
ghost use Rattle.wdf_model.specs.declared.enums.Group.TheVariants as group;
ghost use Rattle.wdf_model.specs.declared.room.TheConstants.{OBJECTS};
ghost use Rattle.wdf_model.specs.parts.Locks.{is_free_lock, object_lock};
ghost use Rattle.wdf_offers.specs.Parked as parked;
ghost use Rattle.wdf_offers.specs.Search as search;

use crate::candidates::{parked_len, unparks};
use wdf_base::{Agent, Cpu, Event, LockRef, ObjectId};
use wdf_parts::Parts;
use wdf_plan_index::IndexedPlan;
use wdf_steps::is_cpu;

/// Whether each parked frame waits for a wait lock that is held. Each of these locks is looked at once.
pub(crate) fn all_blocked<A: Agent>(parts: &Parts<A>) -> bool
    ensures { result ≡ parked.all_blocked parts.now }
{
    let mut at = 0;
    'search: while let Some(o) = parts.cpus().next_parked_for(ObjectId(at)) {
        if o.0 == 0 || parts.locks().is_free_lock(LockRef::Object(o)) {
            return false;
        }
        at = o.0 + 1;
    }
    true
}

/// How many parked frames wait for a wait lock, where it is free; 0 where it is held.
fn freed_by<A: Agent>(parts: &Parts<A>, o: ObjectId) -> u32
    requires { o.0 < OBJECTS }
    ensures { result ≡ (if is_free_lock parts.now.locks (object_lock o.0) then count_by (is_for parts.now.cpus o.0) parts.now.cpus.parked else 0) }
{
    if parts.locks().is_free_lock(LockRef::Object(o)) {
        parts.cpus().count_parked_for(o)
    } else {
        0
    }
}

/// How many parked frames wait for a wait lock that is free. Each of these locks is looked at once.
fn freed_len<A: Agent>(parts: &Parts<A>) -> usize
    ensures { result ≡ count_by (parked.is_freed parts.now) parts.now.cpus.parked }
{
    let _few = parked_len(parts);
    let mut count = 0;
    let mut at = 1;
    'search: while let Some(o) = parts.cpus().next_parked_for(ObjectId(at)) {
        count += freed_by(parts, o) as usize;
        at = o.0 + 1;
    }
    count
}

/// Whether each parked frame waits for a wait lock.
fn all_for_locks<A: Agent>(parts: &Parts<A>) -> bool
    ensures { result ≡ not (some_parked_for parts.now.cpus 0) }
{
    parts.cpus().count_parked_for(ObjectId(0)) == 0
}

/// Whether it is counted by locks how many parked frames may come back to a processor: that is empty, and each of them
/// waits for a wait lock.
pub fn is_counted<A: Agent>(plan: &IndexedPlan, parts: &Parts<A>, cpu: Cpu) -> bool
    ensures { result ≡ parked.is_counted plan.now parts.now cpu.0 }
{
    is_cpu(plan, cpu) && parts.cpus().is_empty(cpu) && all_for_locks(parts)
}

/// How many parked frames may come back to a processor, counted by locks.
pub fn coming_len<A: Agent>(plan: &IndexedPlan, parts: &Parts<A>, cpu: Cpu) -> usize
    requires counted { parked.is_counted plan.now parts.now cpu.0 ≡ true }
    ensures length { result ≡ length (search.offered_from plan.now A.meaning parts.now (group.Unparks cpu.0) 0) }
    ensures small { result ≤ 2 ^ 32 }
{
    let _ = plan;
    let _cpu = cpu;
    let _few = parked_len(parts);
    freed_len(parts)
}

/// The k-th parked frame that comes back to a processor, where all may, or how many places of a list are left after them.
pub fn coming_at<A: Agent>(
    plan: &IndexedPlan,
    parts: &Parts<A>,
    cpu: Cpu,
    k: usize,
) -> Result<Event, usize>
    requires all { length (search.offered_from plan.now A.meaning parts.now (group.Unparks cpu.0) 0) ≡ length parts.now.cpus.parked }
    ensures { MatchResult result (λ event. slice_get (search.offered_from plan.now A.meaning parts.now (group.Unparks cpu.0) 0) k ≡ Some event)
        (λ rest. length (search.offered_from plan.now A.meaning parts.now (group.Unparks cpu.0) 0) + rest ≡ k) }
{
    let _ = plan;
    match unparks(parts, cpu, k) {
        Some(event) => Ok(event),
        None => Err(k - parts.cpus().parked_len()),
    }
}
