ghost use Rattle.std.specs.Prelude.{◌≡◌, ◌<◌, ◌^◌, IfOk, OnOk};
ghost use Rattle.wdf_dev.specs.Agents.{agent_meaning};
ghost use Rattle.wdf_model.specs.rules.Ready.{IsPickedRun};
ghost use Rattle.wdf_plan.specs.Plans.{plan_of};
ghost use Rattle.wdf_scene.specs.Naming.{HasProperNames};
ghost use Rattle.wdf_scene.specs.Written.{IsScene};
ghost use Rattle.wdf_run.specs.Seeds.{seed_words};
ghost use Rattle.wdf_tries.specs.Tries.{IsTryBy, IsTryOf};

use crate::kind::kind_of;
use crate::moving::scene_for;
use crate::opening::{opened, reopen};
use crate::tried::Case;
use std::alloc::Global;
use wdf_base::Memory;
use wdf_core::Core;
use wdf_dev::AnyAgent;
use wdf_expect::Expectation;
use wdf_run::run_seed;
use wdf_table::Row;

/// Makes the run that the words of a seed pick, to its end, in a core that begins anew for it.
fn run_again(alloc: Global, core: &mut Core<AnyAgent>, seed: u64) -> Result<(), Memory>
    ensures plan { core.new.plan ≡ core.old.plan }
    ensures picked { OnOk result (IsPickedRun core.old.plan agent_meaning (seed_words seed core.old.plan.limit) core.new.journal) }
{
    reopen(alloc, core)?;
    run_seed(core, seed);
    Ok(())
}

/// The row of a run that the words of a seed have picked, by what is expected of it.
fn row_of_run(
    alloc: Global,
    core: &Core<AnyAgent>,
    expectations: &[Expectation],
    seed: u64,
) -> Result<Row, Memory>
    requires { IsPickedRun core.now.plan agent_meaning (seed_words seed core.now.plan.limit) core.now.journal }
    ensures row { IfOk result (IsTryBy core.now.plan expectations.now seed) }
    ensures few { IfOk result (λ row. row.events < 2 ^ 32) }
{
    let kind = kind_of(alloc, core, expectations)?;
    let _limit = core.plan().limit();
    Ok(Row {
        kind,
        count: 1,
        seed,
        events: core.journal_len() as u64,
    })
}

/// The try of a seed by the plan of a core, which begins anew for it.
fn try_again(
    alloc: Global,
    core: &mut Core<AnyAgent>,
    expectations: &[Expectation],
    seed: u64,
) -> Result<Row, Memory>
    ensures plan { core.new.plan ≡ core.old.plan }
    ensures row { IfOk result (IsTryBy core.old.plan expectations.now seed) }
    ensures few { IfOk result (λ row. row.events < 2 ^ 32) }
    ensures one { IfOk result (λ row. row.count ≡ 1) }
{
    run_again(alloc, core, seed)?;
    row_of_run(alloc, core, expectations, seed)
}

/// The try of a seed: the kind of its run, and how many events that has. Where nothing is moved the run is made in the
/// given core of the case's plan, which begins anew for it; else in one of the moved scene's plan.
///
/// # Errors
///
/// [`Memory`] where memory was refused, or where the scene has no plan.
pub fn try_seed(
    alloc: Global,
    case: &Case,
    core: &mut Core<AnyAgent>,
    seed: u64,
) -> Result<Row, Memory>
    requires scene { IsScene case.now.scene }
    requires names { HasProperNames case.now.scene }
    requires plan { core.old.plan ≡ plan_of case.now.scene }
    ensures plan { core.new.plan ≡ core.old.plan }
    ensures row { IfOk result (IsTryOf case.now seed) }
    ensures few { IfOk result (λ row. row.events < 2 ^ 32) }
    ensures one { IfOk result (λ row. row.count ≡ 1) }
{
    let expectations = case.expectations.as_slice();
    if case.jitter == 0 {
        return try_again(alloc, core, expectations, seed);
    }
    let scene = scene_for(alloc, case, seed)?;
    let mut moved = opened(alloc, &scene)?;
    try_again(alloc, &mut moved, expectations, seed)
}
