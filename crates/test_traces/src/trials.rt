//! Each worked run is tried.
use crate::worked::plan_of;
use crate::{agents, lines};
use std::alloc::Global;
use std::test::Fail;
use test_worked_texts::{Worked, power, processors, requests, serial, targets};
use wdf_base::{Memory, Plan};

/// What is tried with a run.
#[derive(Clone, Copy)]
enum Tried {
    /// Its lines are read and written.
    Lines,
    /// Its events are told to the agents.
    Agents,
}

/// A run's name, and the number of the first line that isn't as due: 0 where its scenario has no plan.
type Wrong = Option<(&'static str, usize)>;

/// The number of the first line that isn't as due, in a plan that is made for it.
fn wrong_in(
    alloc: Global,
    plan: Plan,
    run: &Worked,
    tried: Tried,
) -> Result<Option<usize>, Memory> {
    match tried {
        Tried::Lines => Ok(lines::first_wrong(&plan, run)),
        Tried::Agents => agents::first_wrong(alloc, &plan, run),
    }
}

/// The same of a run.
fn wrong_of(alloc: Global, run: &Worked, tried: Tried) -> Result<Option<usize>, Memory> {
    match plan_of(alloc, run.scenario) {
        Some(plan) => wrong_in(alloc, plan, run, tried),
        None => Ok(Some(0)),
    }
}

/// The first that isn't as due in some runs.
fn first_wrong(alloc: Global, runs: &'static [Worked], tried: Tried) -> Result<Wrong, Memory> {
    for run in runs {
        match wrong_of(alloc, run, tried) {
            Ok(Some(number)) => return Ok(Some((run.name, number))),
            Ok(None) => {}
            Err(memory) => return Err(memory),
        }
    }
    Ok(None)
}

#[test]
fn runs_are_as_worked(rt: HostRuntime) -> Result<(), Fail> {
    for tried in [Tried::Lines, Tried::Agents] {
        for runs in [
            power::RUNS.as_slice(),
            processors::RUNS.as_slice(),
            requests::RUNS.as_slice(),
            serial::RUNS.as_slice(),
            targets::RUNS.as_slice(),
        ] {
            assert_eq!(rt; first_wrong(rt.alloc(), runs, tried)?, None);
        }
    }
    Ok(())
}
