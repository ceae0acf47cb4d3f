//! What the checker finds in the worked runs.
use crate::checked::{Given, finds};
use std::alloc::Global;
use std::test::Fail;
use test_worked_texts::{Worked, power, processors, requests, serial, targets};
use wdf_base::Memory;

/// The name of the first of these runs that hasn't a plan, or in whose events the checker finds something.
fn first_broken(alloc: Global, runs: &'static [Worked]) -> Result<Option<&'static str>, Memory> {
    for run in runs {
        match finds(alloc, run, Given::All, None) {
            Ok(true) => {}
            Ok(false) => return Ok(Some(run.name)),
            Err(memory) => return Err(memory),
        }
    }
    Ok(None)
}

#[test]
fn runs_keep_the_laws(rt: HostRuntime) -> Result<(), Fail> {
    for runs in [
        power::RUNS.as_slice(),
        processors::RUNS.as_slice(),
        requests::RUNS.as_slice(),
        serial::RUNS.as_slice(),
        targets::RUNS.as_slice(),
    ] {
        assert_eq!(rt; first_broken(rt.alloc(), runs)?, None);
    }
    Ok(())
}

/// The run with this name.
fn named(runs: &'static [Worked], name: &str) -> Option<&'static Worked> {
    for run in runs {
        if run.name == name {
            return Some(run);
        }
    }
    None
}

/// The third event of a run completes its request. Once more after the first three, it breaks the first law, at the
/// fourth place.
#[test]
fn a_second_completion_is_found(rt: HostRuntime) -> Result<(), Fail> {
    let run = named(&requests::RUNS, "one_read").ok_or("no run")?;
    assert!(rt; finds(rt.alloc(), run, Given::ThirdTwice, Some((1, 4)))?);
    Ok(())
}
