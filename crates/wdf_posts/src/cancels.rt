//! Cancels of requests that arrived. (KMDF, but for what is marked own)
ghost use Rattle.std.specs.Prelude.{◌≡◌, ◌∷◌, ◌||◌, [], option_map};
ghost use Rattle.wdf_base.specs.Places.{is_closing, is_done};
ghost use Rattle.wdf_model.specs.parts.Requests as definition;
ghost use Rattle.wdf_model.specs.rules.Deeds.{do_deeds};
ghost use Rattle.wdf_model.specs.rules.Posts as posts;
ghost use Rattle.wdf_model.specs.rules.Room.{AreDoable};

use wdf_base::{Agent, ObjectId, Place};
use wdf_model::Deed;
use wdf_parts::Parts;
use wdf_plan_index::IndexedPlan;
use wdf_request::Requests;

/// Whether a request is completed, or about to be.
fn is_past_reach(place: Place) -> bool
    ensures { result ≡ (is_done place || is_closing place) }
{
    matches!(place, Place::Done | Place::Closing(_))
}

/// A request, where a cancel reaches it: it isn't completed, nor about to be.
fn in_reach<A: Agent>(parts: &Parts<A>, r: ObjectId) -> Option<ObjectId>
    ensures { option_map (λ o. o.0) result ≡ posts.in_reach parts.now r.0 }
{
    if is_past_reach(parts.requests().place(r)) {
        None
    } else {
        Some(r)
    }
}

/// The request of an agent's arrival with a number, if that made one.
fn arrival_of(requests: &Requests, agent: u16, arrival: u64) -> Option<ObjectId>
    ensures { option_map (λ r. r.0) result ≡ definition.arrival_of requests.now agent arrival }
{
    match u32::try_from(arrival) {
        Ok(arrival) => requests.arrival_of(agent, arrival),
        Err(_) => find_arrival(requests, agent, arrival),
    }
}

/// The same, by a look at all requests.
fn find_arrival(requests: &Requests, agent: u16, arrival: u64) -> Option<ObjectId>
    ensures { option_map (λ r. r.0) result ≡ definition.arrival_of requests.now agent arrival }
{
    for id in 0..requests.len() {
        if is_arrival(requests, agent, arrival, ObjectId(id)) {
            return Some(ObjectId(id));
        }
    }
    None
}

/// Whether a request is that of an agent's arrival with a number, from 1.
fn is_arrival(requests: &Requests, agent: u16, arrival: u64, r: ObjectId) -> bool
    ensures { result ≡ definition.is_arrival requests.now agent arrival r.0 }
{
    let info = requests.info(r);
    arrival > 0 && info.agent == agent && u64::from(info.arrival) == arrival
}

/// The request that a cancel reaches: that of the agent's arrival with this number. (own)
pub(crate) fn cancel_reaches<A: Agent>(
    parts: &Parts<A>,
    agent: u16,
    arrival: u64,
) -> Option<ObjectId>
    ensures { option_map (λ r. r.0) result ≡ posts.cancel_reaches parts.now agent arrival }
{
    match arrival_of(parts.requests(), agent, arrival) {
        Some(r) => in_reach(parts, r),
        None => None,
    }
}

/// What the cancel of a request does: one that waits is cancelled in its queue, of another only the mark
/// changes. (KMDF)
fn cancel_at(place: Place, r: ObjectId) -> Deed
    ensures { result ∷ [] ≡ posts.cancel_at place r.0 }
{
    match place {
        Place::Queued(q) => Deed::Withdraw {
            queue: q,
            request: r,
        },
        _ => Deed::CancelRequest { request: r },
    }
}

/// What the cancel of a request does is done, if it reaches one.
pub(crate) fn cancel<A: Agent>(plan: &IndexedPlan, parts: &mut Parts<A>, reached: Option<ObjectId>)
    requires { AreDoable plan.now (posts.cancel_deeds parts.old (option_map (λ r. r.0) reached)) parts.old }
    ensures { parts.new ≡ do_deeds plan.now (posts.cancel_deeds parts.old (option_map (λ r. r.0) reached)) parts.old }
{
    if let Some(r) = reached {
        let deed = cancel_at(parts.requests().place(r), r);
        parts.do_deed(plan, &deed);
    }
}
