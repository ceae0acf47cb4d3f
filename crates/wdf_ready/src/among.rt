//! Whether one event is among those that may come, by its own test and without a search for it.
ghost use Rattle.std.specs.Prelude.{◌≡◌, ◌≤◌, ◌^◌, ◌↔◌, IsTrue, length};
ghost use Rattle.wdf_base.specs.declared.rank.Rank.TheVariants as rank;
ghost use Rattle.law_machine_base.specs.OverRuns.{PlacesAgree};
ghost use Rattle.law_machine_once.specs.Owned.{StepsOwned};
ghost use Rattle.law_machine_places.specs.Placed as placed;
ghost use Rattle.law_machine_places.specs.Placed.{IsAmong};
ghost use Rattle.wdf_model.specs.rules.Ready.{allowed};

use wdf_base::{Agent, Callback, Event, Handle, ObjectId, Rank, Step, same_callback};
use wdf_offers::{declared_end, places_for, places_of_rank};
use wdf_parts::Parts;
use wdf_plan_index::IndexedPlan;
use wdf_steps::{is_cpu, may};

/// Whether an id is one of what is declared.
fn is_declared_id(plan: &IndexedPlan, o: ObjectId) -> bool
    ensures { result ≡ placed.is_declared_id plan.now o.0 }
{
    (o.0 as usize) < declared_end(plan)
}

/// Whether it is a declared interrupt.
fn has_interrupt(plan: &IndexedPlan, i: ObjectId) -> bool
    ensures { result ≡ placed.has_interrupt plan.now i.0 }
{
    plan.interrupt_of(i).is_some() && is_declared_id(plan, i)
}

/// Whether it is a declared queue.
fn has_queue(plan: &IndexedPlan, q: ObjectId) -> bool
    ensures { result ≡ placed.has_queue plan.now q.0 }
{
    plan.queue_of(q).is_some() && is_declared_id(plan, q)
}

/// Whether it is a declared target.
fn has_target(plan: &IndexedPlan, t: ObjectId) -> bool
    ensures { result ≡ placed.has_target plan.now t.0 }
{
    plan.target_of(t).is_some() && is_declared_id(plan, t)
}

/// The device of which a callback on an object is a step: that of an interrupt, else the object itself.
fn device_of_step(plan: &IndexedPlan, o: ObjectId) -> ObjectId
    ensures { result.0 ≡ placed.device_of_step plan.now o.0 }
{
    match plan.interrupt_of(o) {
        Some(interrupt) => interrupt.device,
        None => o,
    }
}

/// Whether a step of a device is this callback on this object.
fn is_step_on(d: ObjectId, callback: Callback, o: ObjectId, step: Option<Step>) -> bool
    ensures { result ≡ placed.is_step_on d.0 callback o.0 step }
{
    match step {
        Some(
            Step::Run {
                callback: next,
                interrupt: None,
            },
        ) => same_callback(next, callback) && d.0 == o.0,
        Some(
            Step::Run {
                callback: next,
                interrupt: Some(interrupt),
            },
        ) => same_callback(next, callback) && interrupt.id.0 == o.0,
        _ => false,
    }
}

/// Whether a callback on an object is the next step of its device.
fn is_next_step<A: Agent>(plan: &IndexedPlan, parts: &Parts<A>, c: Callback, o: ObjectId) -> bool
    ensures { result ≡ placed.has_start plan.now parts.now c o.0 rank.Sequence }
{
    let d = device_of_step(plan, o);
    is_declared_id(plan, d) && is_step_on(d, c, o, parts.pnp().next_step(d))
}

/// Whether a start without a request has a place among the candidates, by the rank of its callback.
fn has_start<A: Agent>(
    plan: &IndexedPlan,
    parts: &Parts<A>,
    callback: Callback,
    o: ObjectId,
    rank: Rank,
) -> bool
    ensures { result ≡ placed.has_start plan.now parts.now callback o.0 rank }
{
    match rank {
        Rank::Isr => has_interrupt(plan, o),
        Rank::Deferred => same_callback(callback, parts.tree().kind(o).dpc_function()),
        Rank::Timed | Rank::Work => true,
        Rank::QueueState => has_queue(plan, o),
        Rank::Sequence => is_next_step(plan, parts, callback, o),
        Rank::Cleanup | Rank::Destroy => (o.0 as usize) < places_of_rank(plan, parts, rank),
        _ => false,
    }
}

/// Whether a start for a request has a place among the candidates.
fn has_start_for<A: Agent>(
    plan: &IndexedPlan,
    parts: &Parts<A>,
    o: ObjectId,
    r: ObjectId,
    rank: Rank,
) -> bool
    ensures { result ≡ placed.has_start_for plan.now parts.now o.0 r.0 rank }
{
    match rank {
        Rank::Handler => is_declared_id(plan, o),
        Rank::Completion => has_target(plan, o),
        Rank::Cancel | Rank::CanceledOnQueue | Rank::Stop | Rank::Resume => {
            has_queue(plan, o) && (r.0 as usize) < places_for(plan, parts, rank, o)
        }
        _ => false,
    }
}

/// Whether a start has a place among the candidates.
fn starts_somewhere<A: Agent>(
    plan: &IndexedPlan,
    parts: &Parts<A>,
    callback: Callback,
    object: Handle,
    request: Option<Handle>,
) -> bool
    ensures { result ≡ placed.has_start_if_any plan.now parts.now callback object.id.0 request }
{
    match request {
        Some(r) => has_start_for(plan, parts, object.id, r.id, callback.row().rank),
        None => has_start(plan, parts, callback, object.id, callback.row().rank),
    }
}

/// Whether an event that may come has a place among the candidates.
fn has_place<A: Agent>(plan: &IndexedPlan, parts: &Parts<A>, event: &Event) -> bool
    requires agents { length parts.now.agents ≤ 2 ^ 16 }
    ensures { result ≡ placed.has_place plan.now parts.now event.now }
{
    match event {
        Event::Start {
            callback,
            object,
            request,
            ..
        } => starts_somewhere(plan, parts, *callback, *object, *request),
        Event::Local { cpu, .. }
        | Event::Log { cpu, .. }
        | Event::Spend { cpu, .. }
        | Event::Register { cpu, .. }
        | Event::Did { cpu, .. }
        | Event::Waiting { cpu, .. }
        | Event::Woke { cpu, .. }
        | Event::Park { cpu, .. }
        | Event::Unpark { cpu, .. }
        | Event::End { cpu, .. }
        | Event::Fault { cpu, .. } => is_cpu(plan, *cpu),
        Event::Stage { device, .. } => is_declared_id(plan, device.id),
        Event::Complete { request, .. } => request.id.0 < parts.requests().len(),
        Event::Cleanup { object } | Event::Destroy { object } => object.id.0 < parts.tree().len(),
        Event::Posted { agent, .. } => (*agent as usize) < parts.agent_len(),
        Event::Tick { .. } => false,
    }
}

/// Whether an event is among those that may come, time aside. It looks for no other.
pub fn is_allowed<A: Agent>(plan: &IndexedPlan, parts: &Parts<A>, event: &Event) -> bool
    requires agents { length parts.now.agents ≤ 2 ^ 16 }
    requires agree { PlacesAgree parts.now }
    requires owned { StepsOwned plan.now parts.now }
    ensures { IsTrue result ↔ IsAmong event.now (allowed plan.now A.meaning parts.now) }
{
    may(plan, parts, event) && has_place(plan, parts, event)
}
