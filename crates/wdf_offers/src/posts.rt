//! The posts that may come. Each agent is asked whether its own may, and no event is made of those that are passed over.
ghost use Rattle.std.specs.Prelude.{◌≡◌, ◌+◌, ◌≤◌, ◌^◌, Some, is_some, length, slice_get, MatchResult};
ghost use Rattle.wdf_base.specs.declared.event.Event.{Event};
ghost use Rattle.wdf_model.specs.declared.enums.Group.TheVariants as group;
ghost use Rattle.wdf_offers.specs.Search as search;

use wdf_base::{Agent, Event};
use wdf_parts::Parts;
use wdf_plan_index::IndexedPlan;
use wdf_posts::{due_of, post_answer, post_fits};

/// What an agent posts now, if it may come. It is what the agent has due, with the right answer, so it only has to fit.
pub fn post_offered<A: Agent>(plan: &IndexedPlan, parts: &Parts<A>, agent: u16) -> Option<Event>
    ensures { result ≡ search.offered plan.now A.meaning parts.now group.Posts agent }
{
    let post = due_of(parts, agent)?;
    if !post_fits(plan, parts, agent, &post) {
        return None;
    }
    Some(Event::Posted {
        agent,
        post,
        answer: post_answer(plan, parts, agent, &post),
    })
}

/// Whether what an agent posts now may come. Its event isn't made for that.
fn may_come<A: Agent>(plan: &IndexedPlan, parts: &Parts<A>, agent: u16) -> bool
    ensures { result ≡ is_some (search.offered plan.now A.meaning parts.now group.Posts agent) }
{
    match due_of(parts, agent) {
        Some(post) => post_fits(plan, parts, agent, &post),
        None => false,
    }
}

/// How many posts may come.
pub fn posts_len<A: Agent>(plan: &IndexedPlan, parts: &Parts<A>) -> usize
    requires agents { length parts.now.agents ≤ 2 ^ 16 }
    ensures length { result ≡ length (search.offered_from plan.now A.meaning parts.now group.Posts 0) }
    ensures small { result ≤ 2 ^ 32 }
{
    let mut count = 0;
    for agent in 0..parts.agent_len() {
        if may_come(plan, parts, agent as u16) {
            count += 1;
        }
    }
    count
}

/// The agent of the k-th of these posts, or how many places of a list are left after them.
fn poster_at<A: Agent>(plan: &IndexedPlan, parts: &Parts<A>, k: usize) -> Result<u16, usize>
    requires agents { length parts.now.agents ≤ 2 ^ 16 }
    ensures { MatchResult result (λ agent. (event : Event) × (slice_get (search.offered_from plan.now A.meaning parts.now group.Posts 0) k ≡ Some event) × (search.offered plan.now A.meaning parts.now group.Posts agent ≡ Some event))
        (λ rest. length (search.offered_from plan.now A.meaning parts.now group.Posts 0) + rest ≡ k) }
{
    let mut left = k;
    for agent in 0..parts.agent_len() {
        if may_come(plan, parts, agent as u16) {
            if left == 0 {
                return Ok(agent as u16);
            }
            left -= 1;
        }
    }
    Err(left)
}

/// The k-th of these posts, or how many places of a list are left after them.
pub fn posts_at<A: Agent>(plan: &IndexedPlan, parts: &Parts<A>, k: usize) -> Result<Event, usize>
    requires agents { length parts.now.agents ≤ 2 ^ 16 }
    ensures { MatchResult result (λ event. slice_get (search.offered_from plan.now A.meaning parts.now group.Posts 0) k ≡ Some event)
        (λ rest. length (search.offered_from plan.now A.meaning parts.now group.Posts 0) + rest ≡ k) }
{
    match poster_at(plan, parts, k) {
        Ok(agent) => match post_offered(plan, parts, agent) {
            Some(event) => Ok(event),
            None => Err(0),
        },
        Err(rest) => Err(rest),
    }
}
