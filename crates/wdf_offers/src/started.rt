//! The starts that may come. Each is tested before its event is made; the handles made here are proper, so they need no test.
ghost use Rattle.std.specs.Prelude.{◌≡◌, ◌<◌, ◌^◌, Some, length};
ghost use Rattle.wdf_base.specs.declared.rank.Rank.TheVariants as rank;
ghost use Rattle.wdf_model.specs.rules.Groups as groups;
ghost use Rattle.wdf_model.specs.rules.Steps as steps;
ghost use Rattle.wdf_offers.specs.Search as search;

use crate::candidates::{starts, starts_for};
use wdf_base::{Agent, Callback, Cpu, Event, ObjectId, Rank, Step};
use wdf_parts::Parts;
use wdf_plan_index::IndexedPlan;
use wdf_starts::may_start;
use wdf_steps::is_cpu;

/// Whether a callback may start on an object.
#[tactic(auto, using(crate::proofs::Begins::start_parts))]
fn may_begin<A: Agent>(
    plan: &IndexedPlan,
    parts: &Parts<A>,
    cpu: Cpu,
    callback: Callback,
    o: ObjectId,
) -> bool
    ensures { result ≡ steps.may plan.now A.meaning parts.now (groups.starts plan.now parts.now cpu.0 callback o.0) }
{
    is_cpu(plan, cpu) && may_start(plan, parts, cpu, callback, o, None)
}

/// The start of a callback on an object, if it may come.
fn start_if<A: Agent>(
    plan: &IndexedPlan,
    parts: &Parts<A>,
    cpu: Cpu,
    callback: Callback,
    o: ObjectId,
) -> Option<Event>
    ensures { result ≡ search.if_allowed plan.now A.meaning parts.now (Some (groups.starts plan.now parts.now cpu.0 callback o.0)) }
{
    if may_begin(plan, parts, cpu, callback, o) {
        Some(starts(plan, parts, cpu, callback, o))
    } else {
        None
    }
}

/// Whether a callback may start on an object for a request.
#[tactic(auto, using(crate::proofs::Begins::start_parts_for))]
fn may_begin_for<A: Agent>(
    plan: &IndexedPlan,
    parts: &Parts<A>,
    cpu: Cpu,
    callback: Callback,
    o: ObjectId,
    r: ObjectId,
) -> bool
    ensures { result ≡ steps.may plan.now A.meaning parts.now (groups.starts_for plan.now parts.now cpu.0 callback o.0 r.0) }
{
    is_cpu(plan, cpu)
        && may_start(
            plan,
            parts,
            cpu,
            callback,
            o,
            Some(parts.handle_in(plan, r)),
        )
}

/// The start of a callback on an object for a request, if it may come.
fn start_for_if<A: Agent>(
    plan: &IndexedPlan,
    parts: &Parts<A>,
    cpu: Cpu,
    callback: Callback,
    o: ObjectId,
    r: ObjectId,
) -> Option<Event>
    ensures { result ≡ search.if_allowed plan.now A.meaning parts.now (Some (groups.starts_for plan.now parts.now cpu.0 callback o.0 r.0)) }
{
    if may_begin_for(plan, parts, cpu, callback, o, r) {
        Some(starts_for(plan, parts, cpu, callback, o, r))
    } else {
        None
    }
}

/// The service routine of an interrupt.
fn isr_start<A: Agent>(plan: &IndexedPlan, parts: &Parts<A>, cpu: Cpu, i: ObjectId) -> Option<Event>
    ensures { result ≡ search.if_allowed plan.now A.meaning parts.now (groups.start_at plan.now parts.now cpu.0 rank.Isr i.0) }
{
    if plan.interrupt_of(i).is_some() {
        start_if(plan, parts, cpu, Callback::EvtInterruptIsr, i)
    } else {
        None
    }
}

/// The first DPC of a processor.
fn dpc_start<A: Agent>(
    plan: &IndexedPlan,
    parts: &Parts<A>,
    cpu: Cpu,
    place: usize,
) -> Option<Event>
    ensures { result ≡ search.if_allowed plan.now A.meaning parts.now (groups.start_at plan.now parts.now cpu.0 rank.Deferred place) }
{
    let o = parts.dpcs().dpc_head(cpu)?;
    let callback = parts.tree().kind(o).dpc_function();
    start_if(plan, parts, cpu, callback, o)
}

/// A queued timer, by its place.
fn timer_start<A: Agent>(
    plan: &IndexedPlan,
    parts: &Parts<A>,
    cpu: Cpu,
    place: usize,
) -> Option<Event>
    requires { place < length parts.now.timers.queued }
    ensures { result ≡ search.if_allowed plan.now A.meaning parts.now (groups.start_at plan.now parts.now cpu.0 rank.Timed place) }
{
    let _timers = parts.timers().len();
    let timed = parts.timers().at(place as u32);
    start_if(plan, parts, cpu, Callback::EvtTimerFunc, timed.timer)
}

/// A queue's notification.
fn notification_start<A: Agent>(
    plan: &IndexedPlan,
    parts: &Parts<A>,
    cpu: Cpu,
    q: ObjectId,
) -> Option<Event>
    ensures { result ≡ search.if_allowed plan.now A.meaning parts.now (groups.start_at plan.now parts.now cpu.0 rank.QueueState q.0) }
{
    if plan.queue_of(q).is_some() {
        start_if(plan, parts, cpu, Callback::EvtIoQueueState, q)
    } else {
        None
    }
}

/// The front request of a queue, by its handler.
fn front_start<A: Agent>(
    plan: &IndexedPlan,
    parts: &Parts<A>,
    cpu: Cpu,
    q: ObjectId,
) -> Option<Event>
    ensures { result ≡ search.if_allowed plan.now A.meaning parts.now (groups.start_at plan.now parts.now cpu.0 rank.Handler q.0) }
{
    let r = parts.queues().front(q)?;
    let callback = plan.handler_for(q, parts.requests().info(r).form)?;
    start_for_if(plan, parts, cpu, callback, q, r)
}

/// The start of a step's callback.
fn start_of_step<A: Agent>(
    plan: &IndexedPlan,
    parts: &Parts<A>,
    cpu: Cpu,
    d: ObjectId,
    step: Step,
) -> Option<Event>
    ensures { result ≡ search.if_allowed plan.now A.meaning parts.now (groups.start_of_step plan.now parts.now cpu.0 d.0 step) }
{
    match step {
        Step::Run {
            callback,
            interrupt: None,
        } => start_if(plan, parts, cpu, callback, d),
        Step::Run {
            callback,
            interrupt: Some(interrupt),
        } => start_if(plan, parts, cpu, callback, interrupt.id),
        Step::Pass { .. } => None,
    }
}

/// The next step of a device, where it is a callback.
fn step_start<A: Agent>(
    plan: &IndexedPlan,
    parts: &Parts<A>,
    cpu: Cpu,
    d: ObjectId,
) -> Option<Event>
    ensures { result ≡ search.if_allowed plan.now A.meaning parts.now (groups.start_at plan.now parts.now cpu.0 rank.Sequence d.0) }
{
    start_of_step(plan, parts, cpu, d, parts.pnp().next_step(d)?)
}

/// A queued work item, by its place.
fn work_start<A: Agent>(
    plan: &IndexedPlan,
    parts: &Parts<A>,
    cpu: Cpu,
    place: usize,
) -> Option<Event>
    requires { place < length parts.now.work_items.queued }
    ensures { result ≡ search.if_allowed plan.now A.meaning parts.now (groups.start_at plan.now parts.now cpu.0 rank.Work place) }
{
    let _work_items = parts.work_items().len();
    let o = parts.work_items().at(place as u32);
    start_if(plan, parts, cpu, Callback::EvtWorkItem, o)
}

/// The candidate among the starts of a rank at a place.
pub fn start_offered<A: Agent>(
    plan: &IndexedPlan,
    parts: &Parts<A>,
    cpu: Cpu,
    rank: Rank,
    place: usize,
) -> Option<Event>
    requires within { place < groups.places_of_rank plan.now parts.now rank }
    requires small { place < 2 ^ 32 }
    ensures { result ≡ search.if_allowed plan.now A.meaning parts.now (groups.start_at plan.now parts.now cpu.0 rank place) }
{
    let id = ObjectId(place as u32);
    match rank {
        Rank::Isr => isr_start(plan, parts, cpu, id),
        Rank::Deferred => dpc_start(plan, parts, cpu, place),
        Rank::Timed => timer_start(plan, parts, cpu, place),
        Rank::QueueState => notification_start(plan, parts, cpu, id),
        Rank::Handler => front_start(plan, parts, cpu, id),
        Rank::Sequence => step_start(plan, parts, cpu, id),
        Rank::Work => work_start(plan, parts, cpu, place),
        Rank::Cleanup => start_if(plan, parts, cpu, Callback::EvtCleanupCallback, id),
        Rank::Destroy => start_if(plan, parts, cpu, Callback::EvtDestroyCallback, id),
        Rank::Completion | Rank::Cancel | Rank::CanceledOnQueue | Rank::Stop | Rank::Resume => None,
    }
}
