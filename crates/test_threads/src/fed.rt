//! Agents that note when they hear of an event.
ghost use Rattle.std.specs.Prelude.{◌≡◌, ◌≢◌, ◌+◌, IfOk, IfSome, length, map};
ghost use Rattle.std.specs.List.{range_with_len};
ghost use Rattle.wdf_base.specs.Resolved.{IsResolved};
ghost use Rattle.wdf_base.specs.declared.event.Ending.TheVariants as ending;
ghost use Rattle.wdf_dev.specs.Agents.{agent_meaning};
ghost use Rattle.wdf_dev.specs.declared.any.AnyAgent.{AnyAgent};

use std::alloc::Global;
use std::marker::Model;
use std::sync::atomic::{AtomicU64, Ordering};
use std::thread::Threads;
use wdf_base::{Agent, Ending, Event, Memory, Plan, Post};
use wdf_core::Core;
use wdf_dev::{AnyAgent, agents};
use wdf_io::MemSource;
use wdf_top::read_plan;
use wdf_turn::Gate;
use wdf_workers::run_threads;

/// One of the program's agents. It counts each event that it hears of where its maker can look. To the machine it is that agent.
#[derive(Drop)]
pub struct CountedAgent<'a> {
    agent: AnyAgent,
    heard: &'a AtomicU64,
}

impl<'a> Model for CountedAgent<'a> {
    ghost Value = { AnyAgent };

    ghost view = { λ a. a.agent };
}

impl Agent for CountedAgent<'_> {
    ghost use Rattle.wdf_dev.specs.Agents.{agent_meaning};

    ghost meaning = { agent_meaning };

    fn feed(&mut self, event: &Event) {
        self.heard.fetch_add(1, Ordering::SeqCst);
        self.agent.feed(event);
    }

    fn due(&self) -> Option<Post> {
        self.agent.due()
    }

    fn next_time(&self) -> Option<u64> {
        self.agent.next_time()
    }

    fn value(&self, what: u32) -> u64 {
        self.agent.value(what)
    }
}

/// The same agents, counting what they hear.
fn counted<'a>(
    alloc: Global,
    agents: Vec<AnyAgent>,
    heard: &'a AtomicU64,
) -> Result<Vec<CountedAgent<'a>>, Memory>
    ensures { IfOk result (λ all. all.items ≡ agents.items) }
{
    let mut all = Vec::new(alloc);
    for agent in agents {
        match all.push(CountedAgent { agent, heard }) {
            Ok(()) => {}
            Err(_) => return Err(Memory),
        }
    }
    Ok(all)
}

/// The agents of a plan's run, counting what they hear.
fn counted_agents<'a>(
    alloc: Global,
    plan: &Plan,
    heard: &'a AtomicU64,
) -> Result<Vec<CountedAgent<'a>>, Memory>
    ensures { IfOk result (λ all. all.items ≡ map (agent_meaning.begin plan.now) (range_with_len 0 (1 + length plan.now.agents))) }
{
    let agents = agents(alloc, plan)?;
    counted(alloc, agents, heard)
}

/// The plan of a scenario, if it has one and there is memory for it.
pub fn plan_of(alloc: Global, scenario: &[u8]) -> Option<Plan>
    ensures { IfSome result (λ plan. IsResolved plan) }
{
    let input = match Vec::from_slice(alloc, scenario) {
        Ok(input) => input,
        Err(_) => return None,
    };
    let mut source = MemSource::new(input, Vec::new(alloc), 4096);
    match read_plan(alloc, &mut source) {
        Ok(plan) => Some(plan),
        Err(_) => None,
    }
}

/// The opening of a plan's run, with agents that count what they hear.
pub fn counted_opening<'a>(
    alloc: Global,
    plan: Plan,
    heard: &'a AtomicU64,
) -> Result<Core<CountedAgent<'a>>, Memory>
    requires { IsResolved plan }
{
    let counted = counted_agents(alloc, &plan, heard)?;
    Core::make(alloc, plan, counted)
}

/// How a run by threads ends.
pub fn ending_by_threads<R: Threads + Sync, G: Gate + Sync>(
    rt: &R,
    alloc: Global,
    core: Core<CountedAgent>,
    gate: &G,
) -> Result<Ending, Memory>
    ensures { IfOk result (λ e. e ≢ ending.Running) }
{
    let core = run_threads(rt, alloc, core, gate)?;
    Ok(core.ending())
}
