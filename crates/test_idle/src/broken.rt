//! Lists that were broken by hand: the first event of each that breaks the law on idle runs.
use crate::plans::plan_of;
use crate::traces::finds;
use std::alloc::Global;
use std::test::Fail;
use test_worked_texts::{Worked, idle};
use wdf_base::{Memory, Plan};

/// The first lines of a worked run, and other lines behind them.
struct Broken {
    /// What is wrong.
    name: &'static str,
    /// The name of the run. In both its device goes to sleep after 2 ticks.
    run: &'static str,
    /// How many lines of it stay.
    stays: usize,
    /// The other lines.
    more: &'static str,
    /// The number of the line that breaks the law.
    place: usize,
}

static BROKEN: [Broken; 7] = [
    Broken {
        name: "a sleep a tick early",
        run: "sleeps_when_unused",
        stays: 0,
        more: "1 clock tick 1\n2 pnp sleep D.2\n",
        place: 2,
    },
    Broken {
        name: "a tick at which an idle device is past its timeout",
        run: "sleeps_when_unused",
        stays: 0,
        more: "1 clock tick 1\n2 clock tick 2\n3 clock tick 3\n",
        place: 3,
    },
    Broken {
        name: "a tick at which a device is asleep with a pending request",
        run: "sleeps_when_unused",
        stays: 16,
        more: "17 clock tick 6\n",
        place: 17,
    },
    Broken {
        name: "a sleep with a pending request",
        run: "sleeps_when_unused",
        stays: 0,
        more: "1 A read D.2 16 -> req.4\n2 clock tick 1\n3 clock tick 2\n4 pnp sleep D.2\n",
        place: 4,
    },
    Broken {
        name: "a wake without a pending request",
        run: "sleeps_when_unused",
        stays: 13,
        more: "14 pnp wake D.2\n",
        place: 14,
    },
    Broken {
        name: "a sleep at the end of a hold",
        run: "hold_by_device",
        stays: 7,
        more: "8 pnp sleep D.2\n",
        place: 8,
    },
    Broken {
        name: "a sleep in a hold that the device put",
        run: "hold_by_device",
        stays: 0,
        more: "1 D.2 set IDLE_HOLD 1\n2 clock tick 1\n3 clock tick 2\n4 pnp sleep D.2\n",
        place: 4,
    },
];

/// The worked run with this name.
fn named(name: &str) -> Option<&'static Worked> {
    for run in idle::RUNS.as_slice() {
        if run.name == name {
            return Some(run);
        }
    }
    None
}

/// Whether a list is found broken there, with a plan that is made for it.
fn is_found_with(alloc: Global, plan: Plan, run: &Worked, broken: &Broken) -> Result<bool, Memory> {
    finds(
        alloc,
        &plan,
        (run.trace, broken.stays),
        broken.more,
        Some(broken.place),
    )
}

/// Whether a list is found broken there.
fn is_found_in(alloc: Global, run: &Worked, broken: &Broken) -> Result<bool, Memory> {
    match plan_of(alloc, run.scenario) {
        Some(plan) => is_found_with(alloc, plan, run, broken),
        None => Ok(false),
    }
}

fn is_found(alloc: Global, broken: &Broken) -> Result<bool, Memory> {
    match named(broken.run) {
        Some(run) => is_found_in(alloc, run, broken),
        None => Ok(false),
    }
}

/// What is wrong in the first list that isn't found broken there.
fn first_unfound(alloc: Global) -> Result<Option<&'static str>, Memory> {
    for broken in BROKEN.as_slice() {
        match is_found(alloc, broken) {
            Ok(true) => {}
            Ok(false) => return Ok(Some(broken.name)),
            Err(memory) => return Err(memory),
        }
    }
    Ok(None)
}

#[test]
fn broken_lists_are_found(rt: HostRuntime) -> Result<(), Fail> {
    assert_eq!(rt; first_unfound(rt.alloc())?, None);
    Ok(())
}
