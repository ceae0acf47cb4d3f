//! The candidates of each group, by place.
ghost use Rattle.std.specs.Prelude.{◌≡◌, ◌<◌, ◌≤◌, ◌^◌, length, slice_get, option_map};
ghost use Rattle.wdf_base.specs.declared.rank.Rank.TheVariants as rank;
ghost use Rattle.wdf_model.specs.declared.enums.Group.TheVariants as group;
ghost use Rattle.wdf_model.specs.rules.Groups as groups;
ghost use Rattle.wdf_model.specs.parts.Cpus as cpus;
ghost use Rattle.wdf_model.specs.parts.Targets as targets;

use wdf_base::{Agent, Callback, Cpu, Event, ObjectId, Place, Rank, Step};
use wdf_model::Group;
use wdf_parts::Parts;
use wdf_plan_index::IndexedPlan;

/// The start of a callback on an object.
pub(crate) fn starts<A: Agent>(
    plan: &IndexedPlan,
    parts: &Parts<A>,
    cpu: Cpu,
    callback: Callback,
    o: ObjectId,
) -> Event
    ensures { result ≡ groups.starts plan.now parts.now cpu.0 callback o.0 }
{
    Event::Start {
        cpu,
        callback,
        object: parts.handle_in(plan, o),
        request: None,
    }
}

/// The start of a callback on an object for a request.
pub(crate) fn starts_for<A: Agent>(
    plan: &IndexedPlan,
    parts: &Parts<A>,
    cpu: Cpu,
    callback: Callback,
    o: ObjectId,
    r: ObjectId,
) -> Event
    ensures { result ≡ groups.starts_for plan.now parts.now cpu.0 callback o.0 r.0 }
{
    Event::Start {
        cpu,
        callback,
        object: parts.handle_in(plan, o),
        request: Some(parts.handle_in(plan, r)),
    }
}

/// The callback of a rank for requests, other than the handlers.
pub fn callback_for(rank: Rank) -> Callback
    ensures { result ≡ groups.callback_for rank }
{
    match rank {
        Rank::Cancel => Callback::EvtRequestCancel,
        Rank::CanceledOnQueue => Callback::EvtIoCanceledOnQueue,
        Rank::Stop => Callback::EvtIoStop,
        Rank::Resume => Callback::EvtIoResume,
        _ => Callback::EvtRequestCompletion,
    }
}

/// The completion routine of what is sent to a target, by its place.
fn completion_start<A: Agent>(
    plan: &IndexedPlan,
    parts: &Parts<A>,
    cpu: Cpu,
    t: ObjectId,
    place: usize,
) -> Option<Event>
    requires { place < length (targets.the_target parts.now.targets t.0).sent }
    ensures { result ≡ groups.start_for plan.now parts.now cpu.0 rank.Completion t.0 place }
{
    let _sent = parts.targets().pending(t);
    let sending = parts.targets().sent_at(t, place as u32);
    Some(starts_for(
        plan,
        parts,
        cpu,
        Callback::EvtRequestCompletion,
        t,
        sending.request,
    ))
}

/// The candidate among the starts of a rank for the requests of an object at a place.
pub fn start_for<A: Agent>(
    plan: &IndexedPlan,
    parts: &Parts<A>,
    cpu: Cpu,
    rank: Rank,
    o: ObjectId,
    place: usize,
) -> Option<Event>
    requires within { place < groups.places_for plan.now parts.now rank o.0 }
    requires small { place < 2 ^ 32 }
    ensures { result ≡ groups.start_for plan.now parts.now cpu.0 rank o.0 place }
{
    match rank {
        Rank::Completion => completion_start(plan, parts, cpu, o, place),
        _ => Some(starts_for(
            plan,
            parts,
            cpu,
            callback_for(rank),
            o,
            ObjectId(place as u32),
        )),
    }
}

/// The next step of a device, where it is a stage.
pub fn stage_at<A: Agent>(plan: &IndexedPlan, parts: &Parts<A>, d: ObjectId) -> Option<Event>
    ensures { result ≡ groups.candidate plan.now A.meaning parts.now group.Stages d.0 }
{
    match parts.pnp().next_step(d)? {
        Step::Pass { stage, interrupt } => Some(Event::Stage {
            device: parts.handle_in(plan, d),
            stage,
            interrupt,
        }),
        Step::Run { .. } => None,
    }
}

/// The completion of a request by the framework.
pub fn completion_at<A: Agent>(plan: &IndexedPlan, parts: &Parts<A>, r: ObjectId) -> Option<Event>
    ensures { result ≡ groups.candidate plan.now A.meaning parts.now group.Completions r.0 }
{
    match parts.requests().place(r) {
        Place::Closing(status) => Some(Event::Complete {
            request: parts.handle_in(plan, r),
            status,
        }),
        _ => None,
    }
}

/// The top frame leaves a processor.
pub fn parks<A: Agent>(parts: &Parts<A>, cpu: Cpu) -> Option<Event>
    ensures { result ≡ option_map (groups.parks cpu.0) (cpus.top parts.now.cpus cpu.0) }
{
    let frame = parts.cpus().top(cpu)?;
    Some(Event::Park { cpu, frame })
}

/// A parked frame comes back to a processor, by its place.
pub fn unparks<A: Agent>(parts: &Parts<A>, cpu: Cpu, place: usize) -> Option<Event>
    ensures { result ≡ option_map (groups.unparks cpu.0) (slice_get parts.now.cpus.parked place) }
{
    let frame = parts.cpus().parked_at(place)?;
    Some(Event::Unpark { cpu, frame })
}

/// How many places a group has.
pub fn places_in<A: Agent>(plan: &IndexedPlan, parts: &Parts<A>, group: Group) -> usize
    requires agents { length parts.now.agents ≤ 2 ^ 16 }
    ensures value { result ≡ groups.places_in plan.now parts.now group }
    ensures small { result ≤ 2 ^ 32 }
{
    match group {
        Group::OwnEvent { .. } | Group::Parks { .. } => 1,
        Group::Unparks { .. } => parked_len(parts),
        Group::Starts { rank, .. } => places_of_rank(plan, parts, rank),
        Group::StartsFor { rank, object, .. } => places_for(plan, parts, rank, ObjectId(object)),
        Group::Stages => declared_end(plan),
        Group::Completions => parts.requests().len() as usize,
        Group::Cleanups | Group::Destroys => parts.tree().len() as usize,
        Group::Posts => parts.agent_len(),
    }
}

/// The id after those of what is declared.
pub fn declared_end(plan: &IndexedPlan) -> usize
    ensures value { result ≡ groups.declared_end plan.now }
    ensures small { result ≤ 2 ^ 32 }
{
    let _declared = plan.declared_len();
    plan.declared_end()
}

/// How many frames are parked.
pub(crate) fn parked_len<A: Agent>(parts: &Parts<A>) -> usize
    ensures value { result ≡ length parts.now.cpus.parked }
    ensures small { result ≤ 2 ^ 32 }
{
    let _live = parts.cpus().live_len();
    parts.cpus().parked_len()
}

/// How many places the starts of a rank have; a callback that nothing declares has none.
pub fn places_of_rank<A: Agent>(plan: &IndexedPlan, parts: &Parts<A>, rank: Rank) -> usize
    ensures value { result ≡ groups.places_of_rank plan.now parts.now rank }
    ensures small { result ≤ 2 ^ 32 }
{
    match rank {
        Rank::Deferred => 1,
        Rank::Timed => parts.timers().len() as usize,
        Rank::Work => parts.work_items().len() as usize,
        Rank::Cleanup => places_if(plan.declares_cleanup_callback(), parts.tree().len()),
        Rank::Destroy => places_if(plan.declares_destroy_callback(), parts.tree().len()),
        _ => declared_end(plan),
    }
}

/// So many places, where something declares the callback.
fn places_if(declared: bool, places: u32) -> usize
    ensures value { result ≡ groups.places_if declared places }
    ensures small { result ≤ 2 ^ 32 }
{
    if declared { places as usize } else { 0 }
}

/// How many places the starts of a rank for the requests of an object have.
pub fn places_for<A: Agent>(plan: &IndexedPlan, parts: &Parts<A>, rank: Rank, o: ObjectId) -> usize
    ensures value { result ≡ groups.places_for plan.now parts.now rank o.0 }
    ensures small { result ≤ 2 ^ 32 }
{
    match rank {
        Rank::Completion => parts.targets().pending(o) as usize,
        _ => {
            if plan.declares(callback_for(rank), o) {
                parts.requests().len() as usize
            } else {
                0
            }
        }
    }
}
