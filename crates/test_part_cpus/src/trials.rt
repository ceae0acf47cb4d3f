//! Each part is tried on a plan with two processors.
use crate::{dpcs, interrupts, locks, processors, timers, work_items};
use std::alloc::Global;
use std::test::Fail;
use test_plans::PlanBuilder;
use wdf_base::{Memory, Plan};

/// The name of a case, and the place of what isn't as due in it.
pub type Wrong = Option<(&'static str, usize)>;

/// A part on which acts are tried.
pub trait Part: Drop {
    /// What happens to the part, and what is read of it, with the answer that is due.
    type Act: Copy;

    /// Does an act; whether it may come, and the answer is the due one.
    fn does(&mut self, act: Self::Act) -> bool;
}

/// The place of the first act that isn't as due.
fn first_wrong<P: Part>(part: &mut P, acts: &[P::Act]) -> Option<usize> {
    for (place, act) in acts.iter().enumerate() {
        if !part.does(*act) {
            return Some(place);
        }
    }
    None
}

/// The same in what is made for it.
pub fn wrong_in<P: Part>(mut part: P, acts: &[P::Act]) -> Option<usize> {
    first_wrong(&mut part, acts)
}

/// What is tried.
#[derive(Clone, Copy)]
enum Tried {
    Processors,
    Locks,
    Interrupts,
    Dpcs,
    WorkItems,
    Timers,
}

/// What is wrong in the cases of a part.
fn wrong(alloc: Global, plan: &Plan, tried: Tried) -> Result<Wrong, Memory> {
    match tried {
        Tried::Processors => processors::wrong(alloc, plan),
        Tried::Locks => locks::wrong(alloc, plan),
        Tried::Interrupts => interrupts::wrong(alloc, plan),
        Tried::Dpcs => dpcs::wrong(alloc, plan),
        Tried::WorkItems => work_items::wrong(alloc, plan),
        Tried::Timers => timers::wrong(alloc, plan),
    }
}

/// The same on a plan that is made for it.
fn wrong_on(alloc: Global, plan: Plan, tried: Tried) -> Result<Wrong, Memory> {
    wrong(alloc, &plan, tried)
}

#[test]
fn parts_are_as_their_cases_say(rt: HostRuntime) -> Result<(), Fail> {
    for tried in [
        Tried::Processors,
        Tried::Locks,
        Tried::Interrupts,
        Tried::Dpcs,
        Tried::WorkItems,
        Tried::Timers,
    ] {
        let plan = PlanBuilder::new(rt.alloc(), 2, 99, 9).finish();
        assert_eq!(rt; wrong_on(rt.alloc(), plan, tried)?, None);
    }
    Ok(())
}
