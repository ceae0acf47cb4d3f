//! The agents of a plan, fed the events of a run.
use std::alloc::Global;
use test_worked_texts::Worked;
use wdf_base::{Access, Agent, Event, Memory, Plan};
use wdf_dev::{AnyAgent, agents};
use wdf_trace::read_line;

/// The greatest of what the agents show; one that hasn't the register or the line shows 0.
fn shown(all: &[AnyAgent], what: u32) -> u64 {
    let mut greatest = 0;
    for agent in all {
        greatest = agent.value(what).max(greatest);
    }
    greatest
}

/// Whether an agent's next post is before this tick.
fn posts_before(agent: &AnyAgent, time: u64) -> bool {
    match agent.next_time() {
        Some(next) => next < time,
        None => false,
    }
}

/// Whether an agent has a post before this tick that isn't due yet.
fn is_passed_over(all: &[AnyAgent], time: u64) -> bool {
    for agent in all {
        if posts_before(agent, time) {
            return true;
        }
    }
    false
}

/// Whether what is posted is what its agent has due, what is read is what a device's register holds, and no
/// tick is later than an agent's next one.
fn is_so(all: &[AnyAgent], event: &Event) -> bool {
    match event {
        Event::Posted { agent, post, .. } => match all.get(usize::from(*agent)) {
            Some(poster) => poster.due() == Some(*post),
            None => false,
        },
        Event::Register {
            access: Access::Read,
            register,
            value,
            ..
        } => shown(all, *register) == *value,
        Event::Tick { time } => !is_passed_over(all, *time),
        _ => true,
    }
}

/// Whether the event of a line is so. It is told to all agents.
fn is_line(all: &mut [AnyAgent], plan: &Plan, line: &[u8]) -> bool {
    match read_line(plan, line) {
        Some((_, event)) => {
            let so = is_so(all, &event);
            for agent in all {
                agent.feed(&event);
            }
            so
        }
        None => false,
    }
}

/// The number of the first line of a run whose event isn't so.
fn first_line(all: &mut [AnyAgent], plan: &Plan, run: &Worked) -> Option<usize> {
    for (number, line) in (1..=run.events).zip(run.trace.lines()) {
        if !is_line(all, plan, line.as_bytes()) {
            return Some(number);
        }
    }
    None
}

/// The same with the agents of the plan.
pub fn first_wrong(alloc: Global, plan: &Plan, run: &Worked) -> Result<Option<usize>, Memory> {
    match agents(alloc, plan) {
        Ok(mut all) => Ok(first_line(all.as_mut_slice(), plan, run)),
        Err(memory) => Err(memory),
    }
}
