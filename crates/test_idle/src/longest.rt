//! A timeout above the longest is the longest.
use crate::plans::plan_of;
use std::alloc::Global;
use std::test::Fail;
use wdf_base::{Agent, Ask, Event, Memory, Plan, Post};
use wdf_idle::{IdleAgent, idle_agents};

/// A device with a timeout of 2,000,000 ticks.
const PATIENT: &str = "\
cpus 1\n\
limit 100\n\
objects 16\n\
device D working\n\
register IDLE_TIMEOUT 2000000\n\
end\n\
";

/// Whether the agent puts a device to sleep.
fn is_sleep_due(agent: &IdleAgent) -> bool {
    matches!(
        agent.due(),
        Some(Post::Ask {
            ask: Ask::Sleep,
            ..
        })
    )
}

/// Whether it does so after this tick.
fn sleeps_after(agent: &mut IdleAgent, time: u64) -> bool {
    agent.feed(&Event::Tick { time });
    is_sleep_due(agent)
}

/// Whether the first of some agents puts a device to sleep at 1,000,000 and not before.
fn first_sleeps(agents: &mut [IdleAgent]) -> bool {
    match agents.first_mut() {
        Some(policy) => {
            policy.next_time() == Some(1_000_000)
                && !sleeps_after(policy, 999_999)
                && sleeps_after(policy, 1_000_000)
        }
        None => false,
    }
}

/// The same of the agents of a plan.
fn sleeps_with(alloc: Global, plan: Plan) -> Result<bool, Memory> {
    match idle_agents(alloc, &plan) {
        Ok(mut agents) => Ok(first_sleeps(agents.as_mut_slice())),
        Err(memory) => Err(memory),
    }
}

#[test]
fn the_longest_timeout_is_a_million(rt: HostRuntime) -> Result<(), Fail> {
    let plan = plan_of(rt.alloc(), PATIENT).ok_or("no plan")?;
    assert!(rt; sleeps_with(rt.alloc(), plan)?);
    Ok(())
}
