//! The worked runs, with their plans and their events.
use std::alloc::Global;
use test_worked_texts::{Worked, power, processors, requests};
use wdf_base::{Event, Memory, Plan};
use wdf_parse::{TEXT_LIMIT, parse};
use wdf_plan::resolve;
use wdf_trace::read_line;

/// A worked run's plan and events.
#[derive(Drop)]
pub struct Trial {
    pub plan: Plan,
    pub events: Vec<Event>,
}

/// The worked runs of requests.
pub fn of_requests() -> &'static [Worked] {
    requests::RUNS.as_slice()
}

/// The worked runs of processors.
pub fn of_processors() -> &'static [Worked] {
    processors::RUNS.as_slice()
}

/// The worked runs of power.
pub fn of_power() -> &'static [Worked] {
    power::RUNS.as_slice()
}

/// The plan of a text that has one.
fn plan_of(alloc: Global, text: &str) -> Option<Plan> {
    if text.len() > TEXT_LIMIT {
        return None;
    }
    match parse(alloc, text.as_bytes()) {
        Ok(scene) => resolve(alloc, &scene).ok(),
        Err(_) => None,
    }
}

/// The events of a worked run, as many as its lines say.
fn events_of(alloc: Global, plan: &Plan, run: &Worked) -> Result<Vec<Event>, Memory> {
    let mut events = Vec::new(alloc);
    for line in run.trace.lines().take(run.events) {
        if let Some((_, event)) = read_line(plan, line.as_bytes()) {
            events.push(event)?;
        }
    }
    Ok(events)
}

/// The worked run of this name.
fn named(runs: &'static [Worked], name: &str) -> Option<&'static Worked> {
    runs.iter().find(|run| run.name == name)
}

/// The plan and the events of the worked run of this name, if there is one and its text has a plan.
pub fn trial_of(
    alloc: Global,
    runs: &'static [Worked],
    name: &str,
) -> Result<Option<Trial>, Memory> {
    let Some(run) = named(runs, name) else {
        return Ok(None);
    };
    let Some(plan) = plan_of(alloc, run.scenario) else {
        return Ok(None);
    };
    let events = events_of(alloc, &plan, run)?;
    Ok(Some(Trial { plan, events }))
}
