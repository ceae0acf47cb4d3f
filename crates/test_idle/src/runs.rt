//! Each worked run is tried.
use crate::agents;
use crate::plans::{name_alike, plan_of};
use crate::traces::finds;
use std::alloc::Global;
use std::test::Fail;
use test_worked_texts::{Worked, idle};
use wdf_base::{Memory, Plan};

/// What is tried with a run.
#[derive(Clone, Copy)]
enum Tried {
    /// Its events are told to the agents.
    Agents,
    /// The checker finds nothing in it.
    Checker,
}

/// Whether a run is as worked, with a plan that is made for it.
fn is_so_with(alloc: Global, plan: Plan, run: &Worked, tried: Tried) -> Result<bool, Memory> {
    match tried {
        Tried::Agents => agents::post(alloc, &plan, run),
        Tried::Checker => finds(alloc, &plan, (run.trace, run.events), "", None),
    }
}

/// The same with a plan of two devices with a timeout.
fn is_so_alike(alloc: Global, mut plan: Plan, run: &Worked, tried: Tried) -> Result<bool, Memory> {
    name_alike(&mut plan);
    is_so_with(alloc, plan, run, tried)
}

/// Whether a run is as worked.
fn is_so(alloc: Global, run: &Worked, tried: Tried) -> Result<bool, Memory> {
    match plan_of(alloc, run.scenario) {
        Some(plan) => is_so_with(alloc, plan, run, tried),
        None => Ok(false),
    }
}

/// Whether a run with two devices is.
fn is_so_of_two(alloc: Global, run: &Worked, tried: Tried) -> Result<bool, Memory> {
    match plan_of(alloc, run.scenario) {
        Some(plan) => is_so_alike(alloc, plan, run, tried),
        None => Ok(false),
    }
}

/// The name of the first run that isn't as worked.
fn first_wrong(alloc: Global, tried: Tried) -> Result<Option<&'static str>, Memory> {
    for run in idle::RUNS.as_slice() {
        match is_so(alloc, run, tried) {
            Ok(true) => {}
            Ok(false) => return Ok(Some(run.name)),
            Err(memory) => return Err(memory),
        }
    }
    Ok(None)
}

/// The name of the first run with two devices that isn't.
fn first_wrong_of_two(alloc: Global, tried: Tried) -> Result<Option<&'static str>, Memory> {
    for run in idle::WITH_TWO.as_slice() {
        match is_so_of_two(alloc, run, tried) {
            Ok(true) => {}
            Ok(false) => return Ok(Some(run.name)),
            Err(memory) => return Err(memory),
        }
    }
    Ok(None)
}

#[test]
fn agents_post_what_is_worked(rt: HostRuntime) -> Result<(), Fail> {
    assert_eq!(rt; first_wrong(rt.alloc(), Tried::Agents)?, None);
    assert_eq!(rt; first_wrong_of_two(rt.alloc(), Tried::Agents)?, None);
    Ok(())
}

#[test]
fn runs_keep_the_law(rt: HostRuntime) -> Result<(), Fail> {
    assert_eq!(rt; first_wrong(rt.alloc(), Tried::Checker)?, None);
    assert_eq!(rt; first_wrong_of_two(rt.alloc(), Tried::Checker)?, None);
    Ok(())
}
