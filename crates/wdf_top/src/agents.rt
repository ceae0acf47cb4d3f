//! The agents of a run: a type for each choice of them.
ghost use Rattle.std.specs.Prelude.{◌≡◌, IfOk};
ghost use Rattle.wdf_model.specs.State.{opening_agents};

use std::alloc::Global;
use wdf_base::{Agent, Memory, Plan};
use wdf_dev::{AnyAgent, agents};
use wdf_idle::{IdleAgent, idle_agents};
use wdf_stack::{StackAgent, stack_agents};

/// Agents that a run may have: all of them are of one type, which says how they begin.
pub trait RunAgent: Agent {
    /// The agents of a plan's run by number, as they are at its opening.
    ///
    /// # Errors
    ///
    /// [`Memory`] where memory for them was refused.
    fn of_plan(alloc: Global, plan: &Plan) -> Result<Vec<Self>, Memory>
        ensures { IfOk result (λ all. all.items ≡ opening_agents plan.now Self.meaning) };
}

impl RunAgent for AnyAgent {
    fn of_plan(alloc: Global, plan: &Plan) -> Result<Vec<Self>, Memory> {
        agents(alloc, plan)
    }
}

impl RunAgent for IdleAgent {
    fn of_plan(alloc: Global, plan: &Plan) -> Result<Vec<Self>, Memory> {
        idle_agents(alloc, plan)
    }
}

impl RunAgent for StackAgent {
    fn of_plan(alloc: Global, plan: &Plan) -> Result<Vec<Self>, Memory> {
        stack_agents(alloc, plan)
    }
}
