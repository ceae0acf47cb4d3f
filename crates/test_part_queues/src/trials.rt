//! Each part is tried on the plan with three queues.
use crate::plans::plan;
use crate::{control, queues, requests};
use std::alloc::Global;
use std::test::Fail;
use wdf_base::{Memory, Plan};

/// The name of a case, and the place of what isn't as due in it.
pub type Wrong = Option<(&'static str, usize)>;

/// What is tried.
#[derive(Clone, Copy)]
enum Tried {
    Control,
    Queues,
    Requests,
}

/// What is wrong in the cases of a part.
fn wrong(alloc: Global, plan: &Plan, tried: Tried) -> Result<Wrong, Memory> {
    match tried {
        Tried::Control => control::wrong(alloc, plan),
        Tried::Queues => queues::wrong(alloc, plan),
        Tried::Requests => requests::wrong(alloc, plan),
    }
}

/// The same on a plan that is made for it.
fn wrong_on(alloc: Global, plan: Plan, tried: Tried) -> Result<Wrong, Memory> {
    wrong(alloc, &plan, tried)
}

#[test]
fn parts_are_as_their_cases_say(rt: HostRuntime) -> Result<(), Fail> {
    for tried in [Tried::Control, Tried::Queues, Tried::Requests] {
        let plan = plan(rt.alloc())?;
        assert_eq!(rt; wrong_on(rt.alloc(), plan, tried)?, None);
    }
    Ok(())
}
