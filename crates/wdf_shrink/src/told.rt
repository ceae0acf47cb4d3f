//! Runs by picks, and how they end.
ghost use Rattle.std.specs.Prelude.{◌≡◌, ◌<◌, IfOk, IsTrue};
ghost use Rattle.wdf_dev.specs.Agents.{agent_meaning};
ghost use Rattle.wdf_model.specs.rules.Ready.{IsPickedRun};
ghost use Rattle.wdf_plan.specs.Plans.{plan_of};
ghost use Rattle.wdf_scene.specs.Naming.{HasProperNames};
ghost use Rattle.wdf_scene.specs.Written.{IsScene};
ghost use Rattle.wdf_shrink.specs.Stories.{IsStory, IsToldOf, ends_as};

use std::alloc::Global;
use wdf_base::Memory;
use wdf_core::Core;
use wdf_dev::AnyAgent;
use wdf_run::run_order;
use wdf_scene::Scene;
use wdf_tries::{Case, kind_of, opened};
use wdf_writing::Text;

/// How a run ends.
#[derive(Drop)]
pub struct Told {
    /// The kind, as its text.
    pub kind: Text,
    /// How many events it has.
    pub events: u64,
}

/// The run that picks make of a scene's plan, at its end.
fn run_of_picks(alloc: Global, scene: &Scene, picks: &[u64]) -> Result<Core<AnyAgent>, Memory>
    requires scene { IsScene scene.now }
    requires names { HasProperNames scene.now }
    ensures plan { IfOk result (λ core. core.plan ≡ plan_of scene.now) }
    ensures picked { IfOk result (λ core. IsPickedRun (plan_of scene.now) agent_meaning picks.now core.journal) }
{
    let mut core = opened(alloc, scene)?;
    run_order(&mut core, picks);
    Ok(core)
}

/// How the run of a case on a core ends, which these picks have made.
fn told_of_core(
    alloc: Global,
    case: &Case,
    core: &Core<AnyAgent>,
    picks: &[u64],
) -> Result<Told, Memory>
    requires plan { core.now.plan ≡ plan_of case.now.scene }
    requires picked { IsPickedRun (plan_of case.now.scene) agent_meaning picks.now core.now.journal }
    ensures { IfOk result (IsToldOf case.now picks.now) }
{
    let _picks = picks;
    let kind = kind_of(alloc, core, case.expectations.as_slice())?;
    Ok(Told {
        kind,
        events: core.journal_len() as u64,
    })
}

/// How the run ends that picks make of a case.
pub(crate) fn told_of(alloc: Global, case: &Case, picks: &[u64]) -> Result<Told, Memory>
    requires scene { IsScene case.now.scene }
    requires names { HasProperNames case.now.scene }
    ensures { IfOk result (IsToldOf case.now picks.now) }
{
    let core = run_of_picks(alloc, &case.scene, picks)?;
    told_of_core(alloc, case, &core, picks)
}

/// Whether what is told of a run is the kind of the goal, with no more events.
fn ends_as(told: &Told, goal: &Told) -> bool
    ensures { result ≡ ends_as told.now goal.now }
{
    told.kind.is(goal.kind.bytes()) && told.events <= goal.events
}

/// Whether the run that picks make ends in the kind of the goal, with no more events.
pub(crate) fn is_story(
    alloc: Global,
    case: &Case,
    goal: &Told,
    picks: &[u64],
) -> Result<bool, Memory>
    requires scene { IsScene case.now.scene }
    requires names { HasProperNames case.now.scene }
    ensures { IfOk result (λ yes. IsTrue yes → IsStory case.now goal.now.kind goal.now.events picks.now) }
{
    let told = told_of(alloc, case, picks)?;
    Ok(ends_as(&told, goal))
}
