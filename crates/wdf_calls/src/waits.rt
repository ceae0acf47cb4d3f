//! The calls that wait: when the wait is over, and what is done then.
ghost use Rattle.std.specs.Prelude.{◌≡◌};
ghost use Rattle.std.specs.List.{list_any};
ghost use Rattle.wdf_model.specs.parts.Locks.{is_free_lock, object_lock};
ghost use Rattle.wdf_model.specs.parts.Queues.{waiting_in};
ghost use Rattle.wdf_model.specs.parts.Requests.{info_of};
ghost use Rattle.wdf_model.specs.rules.Calls as calls;
ghost use Rattle.wdf_model.specs.rules.Deeds.{do_deeds};
ghost use Rattle.wdf_model.specs.rules.Room.{AreDoable};

use wdf_base::{Agent, Call, CallKind, FrameId, LockRef, ObjectId};
use wdf_model::object_in;
use wdf_parts::Parts;
use wdf_plan_index::IndexedPlan;

/// Whether nobody holds the lock of an object.
fn is_lock_free<A: Agent>(parts: &Parts<A>, o: ObjectId) -> bool
    ensures { result ≡ is_free_lock parts.now.locks (object_lock o.0) }
{
    parts.locks().is_free_lock(LockRef::Object(o))
}

/// Whether nothing is held from a queue.
fn nothing_held<A: Agent>(parts: &Parts<A>, q: ObjectId) -> bool
    ensures { result ≡ calls.nothing_held parts.now q.0 }
{
    parts.queues().held_count(q) == 0
}

/// Whether nothing returns from a queue.
fn nothing_returns<A: Agent>(parts: &Parts<A>, q: ObjectId) -> bool
    ensures { result ≡ calls.nothing_returns parts.now q.0 }
{
    !parts.requests().returns_to(q)
}

/// Whether the wait of a call is over; the calls that never wait are met at once. (KMDF)
pub fn is_met<A: Agent>(parts: &Parts<A>, call: &Call) -> bool
    ensures { result ≡ calls.is_met parts.now call.now }
{
    let o = object_in(call.a);
    match call.kind {
        CallKind::WdfSpinLockAcquire => is_lock_free(parts, o),
        CallKind::WdfWaitLockAcquire => is_lock_free(parts, o),
        CallKind::WdfInterruptAcquireLock => is_lock_free(parts, o),
        CallKind::WdfIoQueueStopSynchronously => nothing_held(parts, o),
        CallKind::WdfIoQueueDrainSynchronously => {
            nothing_held(parts, o) && parts.queues().is_empty(o)
        }
        CallKind::WdfIoQueuePurgeSynchronously => {
            nothing_held(parts, o) && nothing_returns(parts, o)
        }
        CallKind::WdfDpcCancel => call.b.is_number(0) || parts.cpus().nobody_on(o),
        CallKind::WdfTimerStop => call.b.is_number(0) || parts.cpus().nobody_on(o),
        CallKind::WdfWorkItemFlush => !parts.work_items().is_work_queued(o)
            && parts.cpus().nobody_on(o),
        CallKind::WdfIoTargetStop => call.b.is_number(2) || parts.nothing_at(o),
        _ => true,
    }
}

/// Whether some waiting request of a queue was the driver's before.
fn some_received<A: Agent>(parts: &Parts<A>, q: ObjectId) -> bool
    ensures { result ≡ list_any (λ r. (info_of parts.now.requests r).received) (waiting_in parts.now.queues q.0) }
{
    let mut next = parts.queues().front(q);
    for _ in 0..parts.queues().len(q) {
        match next {
            Some(r) => {
                if parts.requests().info(r).received {
                    return true;
                }
                next = parts.queues().next_waiting(r);
            }
            None => return false,
        }
    }
    false
}

/// Whether a purge of a queue makes some request return to it: a waiting one that the driver had before.
fn purge_returns<A: Agent>(plan: &IndexedPlan, parts: &Parts<A>, q: ObjectId) -> bool
    ensures { result ≡ calls.purge_returns plan.now parts.now q.0 }
{
    parts.returns_to(plan, q) && some_received(parts, q)
}

/// Whether the wait of a call is over once its first part is done, asked of the state before it. Only a
/// purge may give rise to what its call waits for.
pub fn is_met_then<A: Agent>(plan: &IndexedPlan, parts: &Parts<A>, call: &Call) -> bool
    ensures { result ≡ calls.is_met_then plan.now parts.now call.now }
{
    match call.kind {
        CallKind::WdfIoQueuePurgeSynchronously => {
            is_met(parts, call) && !purge_returns(plan, parts, object_in(call.a))
        }
        _ => is_met(parts, call),
    }
}

/// What comes when the wait of a frame's call is over is done: a lock is taken. (KMDF)
pub fn do_second<A: Agent>(plan: &IndexedPlan, parts: &mut Parts<A>, frame: FrameId, call: &Call)
    requires { AreDoable plan.now (calls.second_deeds frame.0 call.now) parts.old }
    ensures { parts.new ≡ do_deeds plan.now (calls.second_deeds frame.0 call.now) parts.old }
{
    let _ = plan;
    let lock = LockRef::Object(object_in(call.a));
    match call.kind {
        CallKind::WdfSpinLockAcquire
        | CallKind::WdfWaitLockAcquire
        | CallKind::WdfInterruptAcquireLock => parts.take_lock(lock, frame, true),
        _ => {}
    }
}
