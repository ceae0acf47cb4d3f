//! Whether the form of a post fits its agent, and its names are the plan's.
ghost use Rattle.std.specs.Prelude.{◌≡◌, option_map};
ghost use Rattle.wdf_model.specs.rules.Posts as posts;

use crate::planned::{action_fits, is_handle};
use wdf_base::{Agent, Handle, Kind, ObjectId, Post};
use wdf_parts::Parts;
use wdf_plan_index::IndexedPlan;

/// The most requests that arrive in one run. (own)
const ARRIVALS: u32 = 4_096;

/// The agent that is the Plug and Play manager. (own)
const PNP_MANAGER: u16 = 0;

/// Whether a request may arrive at a device.
fn may_arrive<A: Agent>(plan: &IndexedPlan, parts: &Parts<A>, device: Handle) -> bool
    ensures { result ≡ posts.may_arrive plan.now parts.now device }
{
    is_handle(plan, Kind::Device, device) && parts.requests().arrived() < ARRIVALS
}

/// Whether an agent's target may be done with a request: it is sent there, and the target isn't done
/// with it. An agent that is no target's never may. (own)
fn may_finish<A: Agent>(
    plan: &IndexedPlan,
    parts: &Parts<A>,
    target: Option<ObjectId>,
    request: Handle,
) -> bool
    ensures { result ≡ posts.may_finish plan.now parts.now (option_map (λ t. t.0) target) request }
{
    match target {
        Some(target) => {
            parts.is_proper(plan, request)
                && parts.requests().place(request.id).is_sent_to(target)
                && parts.targets().is_undone(request.id)
        }
        None => false,
    }
}

/// Whether the form of a post fits its agent, and its names are the plan's. (own)
/// - Any agent posts requests, while fewer than 4,096 have arrived.
/// - Any agent posts cancels of its own.
/// - The Plug and Play manager asks while the device has no step left and no callback of a step runs.
/// - A device acts on what is its own.
/// - A target may be done with a request that is sent to it and that it isn't done with yet.
pub fn post_fits<A: Agent>(plan: &IndexedPlan, parts: &Parts<A>, agent: u16, post: &Post) -> bool
    ensures { result ≡ posts.post_fits plan.now parts.now agent post.now }
{
    match *post {
        Post::Read { device, .. } | Post::Write { device, .. } | Post::Control { device, .. } => {
            may_arrive(plan, parts, device)
        }
        Post::Cancel { .. } => true,
        Post::Ask { device, .. } => {
            agent == PNP_MANAGER
                && is_handle(plan, Kind::Device, device)
                && !parts.pnp().busy(device.id)
        }
        Post::Act { action } => action_fits(plan, plan.device_of_agent(agent), action),
        Post::Done { request, .. } => {
            may_finish(plan, parts, plan.target_of_agent(agent), request)
        }
    }
}
