//! Agents that note when they are asked what they have due or what they show.
ghost use Rattle.std.specs.Prelude.{◌≡◌, ◌+◌, IfOk, length, map};
ghost use Rattle.std.specs.List.{range_with_len};
ghost use Rattle.wdf_base.specs.Resolved.{IsResolved};
ghost use Rattle.wdf_dev.specs.Agents.{agent_meaning};
ghost use Rattle.wdf_dev.specs.declared.any.AnyAgent.{AnyAgent};

use std::alloc::Global;
use std::marker::Model;
use std::sync::atomic::{AtomicU64, Ordering};
use wdf_base::{Agent, Event, Memory, Plan, Post};
use wdf_core::Core;
use wdf_dev::{AnyAgent, agents};
use wdf_gen::generate;
use wdf_plan::resolve;

/// One of the program's agents. It counts each question of what it has due or shows where its maker can look. To the machine
/// it is that agent.
#[derive(Drop)]
pub struct AskedAgent<'a> {
    agent: AnyAgent,
    asked: &'a AtomicU64,
}

impl<'a> Model for AskedAgent<'a> {
    ghost Value = { AnyAgent };

    ghost view = { λ a. a.agent };
}

impl Agent for AskedAgent<'_> {
    ghost use Rattle.wdf_dev.specs.Agents.{agent_meaning};

    ghost meaning = { agent_meaning };

    fn feed(&mut self, event: &Event) {
        self.agent.feed(event);
    }

    fn due(&self) -> Option<Post> {
        self.asked.fetch_add(1, Ordering::SeqCst);
        self.agent.due()
    }

    fn next_time(&self) -> Option<u64> {
        self.agent.next_time()
    }

    fn value(&self, what: u32) -> u64 {
        self.asked.fetch_add(1, Ordering::SeqCst);
        self.agent.value(what)
    }
}

/// The same agents, counting what they are asked.
fn asked_all<'a>(
    alloc: Global,
    agents: Vec<AnyAgent>,
    asked: &'a AtomicU64,
) -> Result<Vec<AskedAgent<'a>>, Memory>
    ensures { IfOk result (λ all. all.items ≡ agents.items) }
{
    let mut all = Vec::new(alloc);
    for agent in agents {
        match all.push(AskedAgent { agent, asked }) {
            Ok(()) => {}
            Err(_) => return Err(Memory),
        }
    }
    Ok(all)
}

/// The agents of a plan's run, counting what they are asked.
fn asked_agents<'a>(
    alloc: Global,
    plan: &Plan,
    asked: &'a AtomicU64,
) -> Result<Vec<AskedAgent<'a>>, Memory>
    ensures { IfOk result (λ all. all.items ≡ map (agent_meaning.begin plan.now) (range_with_len 0 (1 + length plan.now.agents))) }
{
    let agents = agents(alloc, plan)?;
    asked_all(alloc, agents, asked)
}

/// The plan of the scenario that a number generates.
fn plan_of_number(alloc: Global, number: u64) -> Result<Plan, Memory>
    ensures { IfOk result (λ plan. IsResolved plan) }
{
    let scene = generate(alloc, number)?;
    match resolve(alloc, &scene) {
        Ok(plan) => Ok(plan),
        Err(_) => Err(Memory),
    }
}

/// The opening of the run of the scenario that a number generates, with agents that count what they are asked.
pub fn generated_opening<'a>(
    alloc: Global,
    number: u64,
    asked: &'a AtomicU64,
) -> Result<Core<AskedAgent<'a>>, Memory> {
    let plan = plan_of_number(alloc, number)?;
    let agents = asked_agents(alloc, &plan, asked)?;
    Core::make(alloc, plan, agents)
}
