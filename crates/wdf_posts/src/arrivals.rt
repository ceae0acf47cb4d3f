//! Requests that arrive. (KMDF, but for what is marked own)
ghost use Rattle.std.specs.Prelude.{◌≡◌, ◌+◌, ◌<◌, ◌^◌, ◌∷◌, []};
ghost use Rattle.wdf_model.specs.Tables.{entry};
ghost use Rattle.wdf_model.specs.declared.deed.Deed.TheVariants as Deed;
ghost use Rattle.wdf_model.specs.rules.Deeds.{do_deeds};
ghost use Rattle.wdf_model.specs.rules.Posts as posts;
ghost use Rattle.wdf_model.specs.rules.Room.{AreDoable};

use wdf_base::{Agent, Handle, Mark, ObjectId, Place, RequestForm, RequestInfo, Status};
use wdf_parts::Parts;
use wdf_plan_index::IndexedPlan;

/// The number of the name that a request which arrives prints as: `req`.
const REQUEST_NAME: u32 = 1;

fn is_data(form: RequestForm) -> bool
    ensures { result ≡ posts.is_data form }
{
    match form {
        RequestForm::Read | RequestForm::Write => true,
        RequestForm::Control => false,
    }
}

/// The place of a request that arrives for a queue. It is completed at once in three cases, and else it
/// waits. (KMDF)
/// - The queue doesn't accept.
/// - It is a read or a write of no length, and the queue takes none of no length.
/// - The queue isn't manual and has no handler for it.
fn place_in_queue<A: Agent>(
    plan: &IndexedPlan,
    parts: &Parts<A>,
    form: RequestForm,
    length: u64,
    q: ObjectId,
) -> Place
    ensures { result ≡ posts.place_in_queue plan.now parts.now form length q.0 }
{
    if !parts.control().accepts(q) {
        Place::Closing(Status::InvalidDeviceState)
    } else if is_data(form) && length == 0 && !plan.takes_empty(q) {
        Place::Closing(Status::Success)
    } else if !(plan.is_manual_queue(q) || plan.has_handler(q, form)) {
        Place::Closing(Status::InvalidDeviceRequest)
    } else {
        Place::Queued(q)
    }
}

/// The place of a request that arrives at a device; one that no queue is for is completed at once.
/// (KMDF)
fn arrival_place<A: Agent>(
    plan: &IndexedPlan,
    parts: &Parts<A>,
    form: RequestForm,
    length: u64,
    device: ObjectId,
) -> Place
    ensures { result ≡ posts.arrival_place plan.now parts.now form length device.0 }
{
    match plan.queue_for(device, form) {
        Some(q) => place_in_queue(plan, parts, form, length, q),
        None => Place::Closing(Status::InvalidDeviceRequest),
    }
}

/// What is kept of a request that arrives: arrivals are numbered for each agent from 1.
fn arrival_info<A: Agent>(
    parts: &Parts<A>,
    agent: u16,
    form: RequestForm,
    length: u64,
    code: u64,
    device: ObjectId,
) -> RequestInfo
    requires { entry 0 parts.now.arrivals agent + 1 < 2 ^ 32 }
    ensures { result ≡ posts.arrival_info parts.now agent form length code device.0 }
{
    RequestInfo {
        device,
        form,
        length,
        code,
        origin: None,
        agent,
        arrival: parts.arrivals(agent) + 1,
        mark: Mark::Unmarked,
        cancelled: false,
        received: false,
    }
}

/// The request that an arrival makes; a device that isn't live takes none.
pub(crate) fn arrival_answer<A: Agent>(parts: &Parts<A>, device: ObjectId) -> Option<Handle>
    ensures { result ≡ posts.arrival_answer parts.now device.0 }
{
    if parts.is_live(device) {
        Some(Handle {
            id: parts.tree().next_id(),
            name: REQUEST_NAME,
        })
    } else {
        None
    }
}

/// A request of an agent arrives at a live device.
fn arrive<A: Agent>(
    plan: &IndexedPlan,
    parts: &mut Parts<A>,
    agent: u16,
    form: RequestForm,
    length: u64,
    code: u64,
    device: ObjectId,
)
    requires number { entry 0 parts.old.arrivals agent + 1 < 2 ^ 32 }
    requires doable { AreDoable plan.now (Deed.CountArrival agent ∷ Deed.Arrive device (posts.arrival_info parts.old agent form length code device.0) (posts.arrival_place plan.now parts.old form length device.0) ∷ []) parts.old }
    ensures { parts.new ≡ do_deeds plan.now (Deed.CountArrival agent ∷ Deed.Arrive device (posts.arrival_info parts.old agent form length code device.0) (posts.arrival_place plan.now parts.old form length device.0) ∷ []) parts.old }
{
    let info = arrival_info(parts, agent, form, length, code, device);
    let place = arrival_place(plan, parts, form, length, device);
    parts.count_arrival(agent);
    parts.arrive(device, info, place);
}

/// What an arrival does is done: it is counted, and a live device has a request more.
pub(crate) fn arrival<A: Agent>(
    plan: &IndexedPlan,
    parts: &mut Parts<A>,
    agent: u16,
    form: RequestForm,
    length: u64,
    code: u64,
    device: ObjectId,
)
    requires number { entry 0 parts.old.arrivals agent + 1 < 2 ^ 32 }
    requires doable { AreDoable plan.now (posts.arrival_deeds plan.now parts.old agent form length code device.0) parts.old }
    ensures { parts.new ≡ do_deeds plan.now (posts.arrival_deeds plan.now parts.old agent form length code device.0) parts.old }
{
    if parts.is_live(device) {
        arrive(plan, parts, agent, form, length, code, device);
    } else {
        parts.count_arrival(agent);
    }
}
