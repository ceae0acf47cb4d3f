//! The opening of the run of a text's plan.
ghost use Rattle.std.specs.Prelude.{IfSome};
ghost use Rattle.wdf_base.specs.Resolved.{IsResolved};

use std::alloc::Global;
use wdf_base::Plan;
use wdf_core::Core;
use wdf_dev::{AnyAgent, agents};
use wdf_parse::{TEXT_LIMIT, parse};
use wdf_plan::resolve;

/// The plan of a text that has one.
pub fn plan_of(alloc: Global, text: &str) -> Option<Plan>
    ensures { IfSome result (λ plan. IsResolved plan) }
{
    if text.len() > TEXT_LIMIT {
        return None;
    }
    let scene = match parse(alloc, text.as_bytes()) {
        Ok(scene) => scene,
        Err(_) => return None,
    };
    match resolve(alloc, &scene) {
        Ok(plan) => Some(plan),
        Err(_) => None,
    }
}

/// The opening of a plan's run, with the program's agents.
pub fn opening_of(alloc: Global, plan: Plan) -> Option<Core<AnyAgent>>
    requires { IsResolved plan }
{
    match agents(alloc, &plan) {
        Ok(agents) => Core::make(alloc, plan, agents).ok(),
        Err(_) => None,
    }
}
