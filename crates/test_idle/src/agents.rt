//! The agents of a plan, fed the events of a run.
use std::alloc::Global;
use test_worked_texts::Worked;
use wdf_base::{Agent, Event, Memory, Plan};
use wdf_idle::{IdleAgent, idle_agents};
use wdf_trace::read_line;

/// Whether an agent's next post is before this tick.
fn posts_before(agent: &IdleAgent, time: u64) -> bool {
    match agent.next_time() {
        Some(next) => next < time,
        None => false,
    }
}

/// Whether an agent has a post before this tick that isn't due yet.
fn is_passed_over(all: &[IdleAgent], time: u64) -> bool {
    for agent in all {
        if posts_before(agent, time) {
            return true;
        }
    }
    false
}

/// Whether what is posted is what its agent has due, and no tick is later than an agent's next one.
fn is_so(all: &[IdleAgent], event: &Event) -> bool {
    match event {
        Event::Posted { agent, post, .. } => match all.get(usize::from(*agent)) {
            Some(poster) => poster.due() == Some(*post),
            None => false,
        },
        Event::Tick { time } => !is_passed_over(all, *time),
        _ => true,
    }
}

/// Whether the event of a line is so. It is told to all agents.
fn is_line(all: &mut [IdleAgent], plan: &Plan, line: &[u8]) -> bool {
    match read_line(plan, line) {
        Some((_, event)) => {
            let so = is_so(all, &event);
            for agent in all {
                agent.feed(&event);
            }
            so
        }
        None => false,
    }
}

/// Whether all events of a run are so.
fn are_lines(all: &mut [IdleAgent], plan: &Plan, run: &Worked) -> bool {
    for line in run.trace.lines().take(run.events) {
        if !is_line(all, plan, line.as_bytes()) {
            return false;
        }
    }
    true
}

/// Whether the agents of a plan have each post of a run due where it is posted, and none before that.
pub fn post(alloc: Global, plan: &Plan, run: &Worked) -> Result<bool, Memory> {
    match idle_agents(alloc, plan) {
        Ok(mut all) => Ok(are_lines(all.as_mut_slice(), plan, run)),
        Err(memory) => Err(memory),
    }
}
