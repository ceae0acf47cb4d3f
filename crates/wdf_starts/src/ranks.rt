//! When the callbacks of each rank start.
ghost use Rattle.std.specs.Prelude.{◌≡◌};
ghost use Rattle.wdf_model.specs.rules.Starts as starts;

use crate::checks::{is_callback, is_step};
use crate::lines::isr_due;
use crate::objects::{clean_ready, destroy_ready};
use crate::sequences::{step_of, step_ready};
use wdf_base::{Agent, Callback, Cpu, Handle, ObjectId, Rank, Stage, Step};
use wdf_maps::is_id;
use wdf_parts::Parts;
use wdf_plan_index::IndexedPlan;

/// Whether EvtIoStop is due for a request: it is held from a power-managed queue, EvtIoStop hasn't
/// started for it, and its device is between `queues_down` and `settled`.
fn stop_is_due<A: Agent>(plan: &IndexedPlan, parts: &Parts<A>, q: ObjectId, r: ObjectId) -> bool
    ensures { result ≡ starts.stop_is_due plan.now parts.now q.0 r.0 }
{
    plan.is_managed(q)
        && parts.is_held_from(q, r)
        && !parts.power().stop_was_asked(r)
        && is_step(
            parts.pnp().next_step(parts.tree().device(q)),
            Step::Pass {
                stage: Stage::Settled,
                interrupt: None,
            },
        )
}

/// Whether a queue presents this request, its front one, by this callback. (KMDF)
fn presents<A: Agent>(
    plan: &IndexedPlan,
    parts: &Parts<A>,
    callback: Callback,
    q: ObjectId,
    r: ObjectId,
) -> bool
    ensures { result ≡ starts.presents plan.now parts.now callback q.0 r.0 }
{
    !plan.is_manual_queue(q)
        && parts.queue_delivers(plan, q)
        && parts.queues().is_free(q)
        && is_id(parts.queues().front(q), r)
        && is_callback(plan.handler_for(q, parts.requests().info(r).form), callback)
}

/// Whether a callback of a rank is due on an object for a request. A callback that is for none isn't.
pub fn rank_ready_for<A: Agent>(
    plan: &IndexedPlan,
    parts: &Parts<A>,
    rank: Rank,
    callback: Callback,
    o: ObjectId,
    r: ObjectId,
) -> bool
    ensures { result ≡ starts.rank_ready_for plan.now parts.now rank callback o.0 r.0 }
{
    match rank {
        Rank::Completion => {
            parts.requests().place(r).is_sent_to(o) && parts.targets().routine_due(r).is_some()
        }
        Rank::Cancel => parts.requests().info(r).mark.is_due() && parts.is_held_from(o, r),
        Rank::CanceledOnQueue => parts.requests().place(r).is_returning_to(o),
        Rank::Stop => stop_is_due(plan, parts, o, r),
        Rank::Resume => parts.power().resume_due(r) && parts.is_held_from(o, r),
        Rank::Handler => presents(plan, parts, callback, o, r),
        _ => false,
    }
}

/// Whether a callback of a rank is due on an object, for no request. A callback that is for one isn't.
pub fn rank_ready<A: Agent>(
    plan: &IndexedPlan,
    parts: &Parts<A>,
    rank: Rank,
    cpu: Cpu,
    callback: Callback,
    o: ObjectId,
) -> bool
    ensures { result ≡ starts.rank_ready plan.now A.meaning parts.now rank cpu.0 callback o.0 }
{
    match rank {
        Rank::Isr => isr_due(plan, parts, o),
        Rank::Deferred => is_id(parts.dpcs().dpc_head(cpu), o),
        Rank::Timed => parts.timers().timer_due(o, parts.now()) && parts.cpus().nobody_on(o),
        Rank::QueueState => parts.control().notify_due(o) && parts.queue_delivers(plan, o),
        Rank::Sequence => step_ready(
            parts,
            parts.tree().device(o),
            step_of(plan, parts, callback, o),
        ),
        Rank::Work => parts.work_items().is_work_queued(o) && parts.cpus().nobody_on(o),
        Rank::Cleanup => clean_ready(parts, o) && !parts.tree().started(o, callback),
        Rank::Destroy => destroy_ready(parts, o) && !parts.tree().started(o, callback),
        _ => false,
    }
}

/// Whether a callback is due on an object by its rank, with a request where it is for one.
pub fn is_ready_for<A: Agent>(
    plan: &IndexedPlan,
    parts: &Parts<A>,
    cpu: Cpu,
    callback: Callback,
    o: ObjectId,
    request: Option<Handle>,
) -> bool
    ensures { result ≡ starts.is_ready_for plan.now A.meaning parts.now cpu.0 callback o.0 request }
{
    match request {
        None => rank_ready(plan, parts, callback.row().rank, cpu, callback, o),
        Some(request) => rank_ready_for(plan, parts, callback.row().rank, callback, o, request.id),
    }
}
