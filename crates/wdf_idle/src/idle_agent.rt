ghost use Rattle.std.specs.Prelude.{◌≡◌, ◌+◌, ◌∷◌, drop, length, map, IfOk};
ghost use Rattle.std.specs.List.{range_with_len};
ghost use Rattle.wdf_idle.specs.Agents.{idle_meaning};
ghost use Rattle.wdf_idle.specs.declared.idle_agent.IdleAgent.TheVariants as agent;

use crate::idle_policy::IdlePolicy;
use std::alloc::Global;
use wdf_base::{Agent, Event, Memory, Plan, Post};
use wdf_dev::{AnyAgent, agents};

/// An agent of a run in which idle devices sleep.
#[derive(Drop)]
pub enum IdleAgent {
    /// The idle policy, in the place of the Plug and Play manager.
    Policy(IdlePolicy),
    /// An app, a device or a target.
    Usual(AnyAgent),
}

impl Agent for IdleAgent {
    ghost use Rattle.wdf_idle.specs.Agents.{idle_meaning};

    ghost meaning = { idle_meaning };

    fn feed(&mut self, event: &Event) {
        match self {
            IdleAgent::Policy(policy) => policy.feed(event),
            IdleAgent::Usual(agent) => agent.feed(event),
        }
    }

    fn due(&self) -> Option<Post> {
        match self {
            IdleAgent::Policy(policy) => policy.due(),
            IdleAgent::Usual(agent) => agent.due(),
        }
    }

    fn next_time(&self) -> Option<u64> {
        match self {
            IdleAgent::Policy(policy) => policy.next_time(),
            IdleAgent::Usual(agent) => agent.next_time(),
        }
    }

    fn value(&self, what: u32) -> u64 {
        match self {
            IdleAgent::Policy(_) => 0,
            IdleAgent::Usual(agent) => agent.value(what),
        }
    }
}

/// The policy in the place of the first of some agents.
fn with_policy(
    alloc: Global,
    policy: IdlePolicy,
    agents: Vec<AnyAgent>,
) -> Result<Vec<IdleAgent>, Memory>
    ensures { IfOk result (λ all. all.items ≡ agent.Policy policy ∷ map agent.Usual (drop 1 agents.items)) }
{
    let mut all = Vec::new(alloc);
    all.push(IdleAgent::Policy(policy))?;
    let mut first = true;
    for agent in agents {
        if first {
            first = false;
        } else {
            all.push(IdleAgent::Usual(agent))?;
        }
    }
    Ok(all)
}

/// The agents of a plan's run in which idle devices sleep, by number: the policy, then the apps, the
/// devices and the targets. On [`Memory`] nothing is made.
pub fn idle_agents(alloc: Global, plan: &Plan) -> Result<Vec<IdleAgent>, Memory>
    ensures { IfOk result (λ all. all.items ≡ map (idle_meaning.begin plan.now) (range_with_len 0 (1 + length plan.now.agents))) }
{
    let policy = IdlePolicy::make(alloc, plan)?;
    let usual = agents(alloc, plan)?;
    with_policy(alloc, policy, usual)
}
