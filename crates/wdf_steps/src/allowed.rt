//! What may come: one row for each kind of event.
ghost use Rattle.std.specs.Prelude.{◌≡◌};
ghost use Rattle.wdf_base.specs.declared.event.Event.TheVariants as event;
ghost use Rattle.wdf_model.specs.Tables.{same_id};
ghost use Rattle.wdf_model.specs.parts.Cpus.{top};
ghost use Rattle.wdf_model.specs.rules.Steps as steps;

use crate::own::{own_event, wait_is_over, waits_on};
use wdf_base::{Agent, Callback, Cpu, Event, FrameId, Handle, Place, Status, same_status};
use wdf_parts::Parts;
use wdf_plan_index::IndexedPlan;
use wdf_posts::may_post;
use wdf_same::same_event;
use wdf_starts::{callback_over, clean_ready, destroy_ready, may_pass, may_start};

/// Whether an event is the one of a processor's top frame.
fn is_own_event<A: Agent>(plan: &IndexedPlan, parts: &Parts<A>, cpu: Cpu, event: &Event) -> bool
    ensures { result ≡ steps.is_own_event plan.now A.meaning parts.now cpu event.now }
{
    match own_event(plan, parts, cpu) {
        None => false,
        Some(own) => same_event(&own, event),
    }
}

/// Whether a place is that of a request which the framework will complete with this status.
fn is_closing_with(place: Place, status: Status) -> bool
    ensures { result ≡ steps.is_closing_with place status }
{
    match place {
        Place::Closing(other) => same_status(other, status),
        _ => false,
    }
}

fn is_proper_if_any<A: Agent>(plan: &IndexedPlan, parts: &Parts<A>, handle: Option<Handle>) -> bool
    ensures { result ≡ steps.is_proper_if_any plan.now parts.now handle }
{
    match handle {
        None => true,
        Some(handle) => parts.is_proper(plan, handle),
    }
}

/// Whether it is a processor of the plan.
pub fn is_cpu(plan: &IndexedPlan, cpu: Cpu) -> bool
    ensures { result ≡ steps.is_cpu plan.now cpu }
{
    cpu.0 < plan.plan().cpus()
}

/// Whether a frame is the top one of a processor.
fn is_top<A: Agent>(parts: &Parts<A>, cpu: Cpu, frame: FrameId) -> bool
    ensures { result ≡ same_id (top parts.now.cpus cpu.0) frame.0 }
{
    match parts.cpus().top(cpu) {
        None => false,
        Some(other) => other.0 == frame.0,
    }
}

/// Whether a frame may leave its processor: it waits at PASSIVE_LEVEL. (own)
pub fn may_park<A: Agent>(parts: &Parts<A>, cpu: Cpu, frame: FrameId) -> bool
    ensures { result ≡ steps.may_park parts.now cpu.0 frame.0 }
{
    is_top(parts, cpu, frame)
        && parts.cpus().irql(cpu).0 == 0
        && waits_on(parts, parts.cpus().frame(frame))
}

/// Whether a parked frame may come back to a processor: that is empty, and the wait is over. (own)
pub fn may_unpark<A: Agent>(parts: &Parts<A>, cpu: Cpu, frame: FrameId) -> bool
    ensures { result ≡ steps.may_unpark parts.now cpu.0 frame.0 }
{
    parts.cpus().is_parked(frame)
        && parts.cpus().is_empty(cpu)
        && wait_is_over(parts, parts.cpus().frame(frame))
}

/// Whether an object's cleanup may come.
fn may_clean_up<A: Agent>(plan: &IndexedPlan, parts: &Parts<A>, object: Handle) -> bool
    ensures { result ≡ steps.may plan.now A.meaning parts.now (event.Cleanup object) }
{
    parts.is_proper(plan, object)
        && clean_ready(parts, object.id)
        && callback_over(plan, parts, Callback::EvtCleanupCallback, object.id)
}

/// Whether an object may be destroyed.
fn may_end<A: Agent>(plan: &IndexedPlan, parts: &Parts<A>, object: Handle) -> bool
    ensures { result ≡ steps.may plan.now A.meaning parts.now (event.Destroy object) }
{
    parts.is_proper(plan, object)
        && destroy_ready(parts, object.id)
        && callback_over(plan, parts, Callback::EvtDestroyCallback, object.id)
}

/// Whether a callback may start.
fn may_begin<A: Agent>(
    plan: &IndexedPlan,
    parts: &Parts<A>,
    cpu: Cpu,
    callback: Callback,
    object: Handle,
    request: Option<Handle>,
) -> bool
    ensures { result ≡ steps.may plan.now A.meaning parts.now (event.Start cpu callback object request) }
{
    is_cpu(plan, cpu)
        && parts.is_proper(plan, object)
        && is_proper_if_any(plan, parts, request)
        && may_start(plan, parts, cpu, callback, object.id, request)
}

/// Whether an event may come. Time passes only where nothing else may come, so a tick never does here.
pub fn may<A: Agent>(plan: &IndexedPlan, parts: &Parts<A>, event: &Event) -> bool
    ensures { result ≡ steps.may plan.now A.meaning parts.now event.now }
{
    match event {
        Event::Start {
            cpu,
            callback,
            object,
            request,
        } => may_begin(plan, parts, *cpu, *callback, *object, *request),
        Event::Local { cpu, .. }
        | Event::Log { cpu, .. }
        | Event::Spend { cpu, .. }
        | Event::Register { cpu, .. }
        | Event::Did { cpu, .. }
        | Event::Waiting { cpu, .. }
        | Event::Woke { cpu, .. }
        | Event::End { cpu, .. }
        | Event::Fault { cpu, .. } => is_own_event(plan, parts, *cpu, event),
        Event::Park { cpu, frame } => may_park(parts, *cpu, *frame),
        Event::Unpark { cpu, frame } => is_cpu(plan, *cpu) && may_unpark(parts, *cpu, *frame),
        Event::Stage {
            device,
            stage,
            interrupt,
        } => {
            parts.is_proper(plan, *device) && may_pass(plan, parts, device.id, *stage, *interrupt)
        }
        Event::Complete { request, status } => {
            parts.is_proper(plan, *request)
                && is_closing_with(parts.requests().place(request.id), *status)
        }
        Event::Cleanup { object } => may_clean_up(plan, parts, *object),
        Event::Destroy { object } => may_end(plan, parts, *object),
        Event::Posted {
            agent,
            post,
            answer,
        } => may_post(plan, parts, *agent, post, *answer),
        Event::Tick { .. } => false,
    }
}
