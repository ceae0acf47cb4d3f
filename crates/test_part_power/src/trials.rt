//! Each part is tried on its plan.
use crate::plans::{Parts, WITH_CLASSES, WITH_INTERRUPTS, WITH_QUEUES, WITH_TARGETS, plan};
use crate::{declared, pnp, power, targets};
use std::alloc::Global;
use std::test::Fail;
use wdf_base::{Memory, Plan};

/// The name of a case, and the place of what isn't as due in it.
pub type Wrong = Option<(&'static str, usize)>;

/// What is tried.
#[derive(Clone, Copy)]
enum Tried {
    Queues,
    Interrupts,
    OfTargets,
    Classes,
    Power,
    Pnp,
    Targets,
}

/// What the plan declares on which this is tried.
fn parts_of(tried: Tried) -> &'static Parts {
    match tried {
        Tried::Queues | Tried::Power => &WITH_QUEUES,
        Tried::Interrupts | Tried::Pnp => &WITH_INTERRUPTS,
        Tried::OfTargets | Tried::Targets => &WITH_TARGETS,
        Tried::Classes => &WITH_CLASSES,
    }
}

/// What is wrong in the cases of a part.
fn wrong(alloc: Global, plan: &Plan, tried: Tried) -> Result<Wrong, Memory> {
    match tried {
        Tried::Queues => Ok(declared::wrong_of_queues(plan)),
        Tried::Interrupts => Ok(declared::wrong_of_interrupts(plan)),
        Tried::OfTargets => Ok(declared::wrong_of_targets(plan)),
        Tried::Classes => Ok(declared::wrong_of_classes(plan)),
        Tried::Power => power::wrong(alloc, plan),
        Tried::Pnp => pnp::wrong(alloc, plan),
        Tried::Targets => targets::wrong(alloc, plan),
    }
}

/// The same on a plan that is made for it.
fn wrong_on(alloc: Global, plan: Plan, tried: Tried) -> Result<Wrong, Memory> {
    wrong(alloc, &plan, tried)
}

#[test]
fn parts_are_as_their_cases_say(rt: HostRuntime) -> Result<(), Fail> {
    for tried in [
        Tried::Queues,
        Tried::Interrupts,
        Tried::OfTargets,
        Tried::Classes,
        Tried::Power,
        Tried::Pnp,
        Tried::Targets,
    ] {
        let plan = plan(rt.alloc(), parts_of(tried))?;
        assert_eq!(rt; wrong_on(rt.alloc(), plan, tried)?, None);
    }
    Ok(())
}
