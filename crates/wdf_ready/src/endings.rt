//! What is open in a state, and what waits for time.
ghost use Rattle.std.specs.Prelude.{◌≡◌, ◌&&◌, is_some, length, nat_lt, option_and_then, slice_get};
ghost use Rattle.std.specs.List.{list_any};
ghost use Rattle.wdf_model.specs.Plans as plans;
ghost use Rattle.wdf_model.specs.parts.Pnp as pnp;
ghost use Rattle.wdf_model.specs.rules.Posts as posts;
ghost use Rattle.wdf_model.specs.rules.Ready as ready;

use wdf_base::{Agent, ObjectId, Post};
use wdf_offers::declared_end;
use wdf_parts::Parts;
use wdf_plan_index::IndexedPlan;
use wdf_posts::due_of;

/// The agent that is the Plug and Play manager. (own)
const PNP_MANAGER: u16 = 0;

/// Whether something waits for time: a frame that spends, a timer for a later tick, or an agent with a
/// later post. (own)
pub fn waits_for_time<A: Agent>(parts: &Parts<A>) -> bool
    ensures { result ≡ ready.waits_for_time A.meaning parts.now }
{
    let now = parts.now();
    parts.cpus().any_spends(now) || parts.timers().any_later_timer(now) || any_posts_later(parts)
}

/// Whether something is open: one of these. (own)
/// - A frame.
/// - An arrived request that isn't done, or a made one that is sent.
/// - A device with steps left.
/// - An object whose deletion hasn't come to its end.
/// - A queued DPC or work item, or a timer whose tick is reached.
/// - What the Plug and Play manager asks now of a device with a sequence under way.
pub fn is_open<A: Agent>(plan: &IndexedPlan, parts: &Parts<A>) -> bool
    ensures { result ≡ ready.is_open plan.now A.meaning parts.now }
{
    parts.cpus().live_len() > 0
        || any_open_request(parts)
        || any_open_device(plan, parts)
        || any_leaving(parts)
        || any_open_work(parts)
        || any_open_post(parts)
}

/// Whether there is an agent with this number, and it has a later post.
fn posts_later<A: Agent>(parts: &Parts<A>, agent: usize) -> bool
    ensures { result ≡ is_some (option_and_then A.meaning.next (slice_get parts.now.agents agent)) }
{
    match parts.agent(agent) {
        Some(agent) => agent.next_time().is_some(),
        None => false,
    }
}

/// Whether an agent has a later post.
fn any_posts_later<A: Agent>(parts: &Parts<A>) -> bool
    ensures { result ≡ list_any (λ a. is_some (A.meaning.next a)) parts.now.agents }
{
    for agent in 0..parts.agent_len() {
        if posts_later(parts, agent) {
            return true;
        }
    }
    false
}

/// Whether a request keeps the run from its end.
#[tactic(auto, using(crate::proofs::AnyOf::some_open_requests))]
fn any_open_request<A: Agent>(parts: &Parts<A>) -> bool
    ensures { result ≡ nat_lt 0 (length (ready.open_requests parts.now)) }
{
    parts.requests().some_open()
}

/// Whether an id is of a device with steps left.
fn is_open_device<A: Agent>(plan: &IndexedPlan, parts: &Parts<A>, d: ObjectId) -> bool
    ensures { result ≡ (is_some (plans.device_of plan.now d.0) && nat_lt 0 (length (pnp.steps_left parts.now.pnp d.0))) }
{
    plan.device_of(d).is_some() && parts.pnp().steps_left(d) > 0
}

/// Whether a device has steps left.
fn any_open_device<A: Agent>(plan: &IndexedPlan, parts: &Parts<A>) -> bool
    ensures { result ≡ nat_lt 0 (length (ready.open_devices plan.now parts.now)) }
{
    for id in 0..declared_end(plan) {
        if is_open_device(plan, parts, ObjectId(id as u32)) {
            return true;
        }
    }
    false
}

/// Whether some deletion hasn't come to its end.
#[tactic(auto, using(crate::proofs::AnyOf::some_filtered))]
fn any_leaving<A: Agent>(parts: &Parts<A>) -> bool
    ensures { result ≡ nat_lt 0 (length (ready.open_objects parts.now)) }
{
    parts.tree().some_leaving()
}

/// Whether a DPC or a work item is queued, or a timer's tick is reached.
fn any_open_work<A: Agent>(parts: &Parts<A>) -> bool
    ensures { result ≡ nat_lt 0 (length (ready.open_work parts.now)) }
{
    for id in 0..parts.tree().len() {
        if parts.is_open_work(ObjectId(id)) {
            return true;
        }
    }
    false
}

/// Whether what the Plug and Play manager asks now is for a device with a sequence under way.
fn any_open_post<A: Agent>(parts: &Parts<A>) -> bool
    ensures { result ≡ ready.is_open_post parts.now (posts.due_of A.meaning parts.now 0) }
{
    match due_of(parts, PNP_MANAGER) {
        Some(Post::Ask { device, .. }) => parts.pnp().busy(device.id),
        _ => false,
    }
}
