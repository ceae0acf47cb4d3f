ghost use Rattle.std.specs.Prelude.{◌≡◌, [], IfOk, OnOk};
ghost use Rattle.wdf_base.specs.Resolved.{IsResolved};
ghost use Rattle.wdf_plan.specs.Plans.{plan_of};
ghost use Rattle.wdf_scene.specs.Naming.{HasProperNames};
ghost use Rattle.wdf_scene.specs.Written.{IsScene};

use std::alloc::Global;
use wdf_base::{Memory, Plan};
use wdf_core::Core;
use wdf_dev::{AnyAgent, agents};
use wdf_plan::resolve;
use wdf_scene::Scene;

/// The plan of a scene. Where the scene has one, the only error is out of memory.
fn plan_of_scene(alloc: Global, scene: &Scene) -> Result<Plan, Memory>
    requires scene { IsScene scene.now }
    requires names { HasProperNames scene.now }
    ensures plan { IfOk result (λ plan. plan ≡ plan_of scene.now) }
    ensures resolved { IfOk result IsResolved }
{
    match resolve(alloc, scene) {
        Ok(plan) => Ok(plan),
        Err(_) => Err(Memory),
    }
}

/// The most events of a run of a scene's plan.
///
/// # Errors
///
/// [`Memory`] where memory was refused, or where the scene has no plan.
pub fn limit_of(alloc: Global, scene: &Scene) -> Result<u32, Memory>
    requires scene { IsScene scene.now }
    requires names { HasProperNames scene.now }
    ensures { IfOk result (λ limit. limit ≡ (plan_of scene.now).limit) }
{
    let plan = plan_of_scene(alloc, scene)?;
    Ok(plan.limit())
}

/// The opening of the run of a scene's plan, with its agents.
///
/// # Errors
///
/// [`Memory`] where memory was refused, or where the scene has no plan.
pub fn opened(alloc: Global, scene: &Scene) -> Result<Core<AnyAgent>, Memory>
    requires scene { IsScene scene.now }
    requires names { HasProperNames scene.now }
    ensures plan { IfOk result (λ core. core.plan ≡ plan_of scene.now) }
    ensures journal { IfOk result (λ core. core.journal ≡ []) }
{
    let plan = plan_of_scene(alloc, scene)?;
    let agents = agents(alloc, &plan)?;
    Core::make(alloc, plan, agents)
}

/// A core is at the opening of its plan's run once more.
///
/// # Errors
///
/// [`Memory`] where memory for the agents was refused; the core is as it was then.
pub(crate) fn reopen(alloc: Global, core: &mut Core<AnyAgent>) -> Result<(), Memory>
    ensures plan { core.new.plan ≡ core.old.plan }
    ensures journal { OnOk result (core.new.journal ≡ []) }
{
    let agents = agents(alloc, core.plan())?;
    core.begin_again(agents);
    Ok(())
}
