//! Runs of a plan by picks, with any agents.
ghost use Rattle.std.specs.Prelude.{◌≡◌, [], IfOk};
ghost use Rattle.wdf_base.specs.Resolved.{IsResolved};
ghost use Rattle.wdf_io.specs.Outside.{EndsRefused};
ghost use Rattle.wdf_model.specs.rules.Ready.{IsPickedRun};
ghost use Rattle.wdf_run.specs.Seeds.{seed_words};
ghost use Rattle.wdf_top.specs.Answers.{By, picks_of};
ghost use Rattle.wdf_output.specs.Said.{sinking};
ghost use Rattle.wdf_top.specs.Top.{TellsPlan};

use crate::agents::RunAgent;
use std::alloc::Global;
use wdf_base::{Memory, Plan};
use wdf_core::Core;
use wdf_io::Sink;
use wdf_output::{Refusal, tell, write_run};
use wdf_run::{run_order, run_seed};

/// What picks the events of a run.
#[derive(Clone, Copy)]
pub enum Picks {
    /// The picks of the scenario's `order` block.
    Listed,
    /// The words of a seed.
    Seeded(u64),
}

/// Runs a plan with agents of this type, and writes the trace, or the line `out of memory`.
pub fn tell_run<A: RunAgent, K: Sink>(alloc: Global, plan: Plan, picks: Picks, sink: &mut K) -> u8
    requires { IsResolved plan }
    ensures told { TellsPlan plan A.meaning (By picks)
        (sinking (K.written sink.old) (K.written sink.new) (K.faults sink.old) (K.faults sink.new))
        result }
    ensures not_again { result ≡ 13 → EndsRefused K.refused K.faults sink.old sink.new }
{
    match run_plan::<A>(alloc, plan, picks) {
        Ok(core) => write_run(&core, sink),
        Err(memory) => tell(sink, Refusal::from(memory)),
    }
}

/// The run that the picks make of a plan, from its opening to its end. All memory is taken before the
/// first step.
fn run_plan<A: RunAgent>(alloc: Global, plan: Plan, picks: Picks) -> Result<Core<A>, Memory>
    requires { IsResolved plan }
    ensures plan { IfOk result (λ core. core.plan ≡ plan) }
    ensures picked { IfOk result (λ core. IsPickedRun plan A.meaning (picks_of picks plan) core.journal) }
{
    match picks {
        Picks::Listed => run_listed(alloc, plan),
        Picks::Seeded(seed) => run_seeded(alloc, plan, seed),
    }
}

/// The run that the plan's own picks make.
fn run_listed<A: RunAgent>(alloc: Global, plan: Plan) -> Result<Core<A>, Memory>
    requires { IsResolved plan }
    ensures plan { IfOk result (λ core. core.plan ≡ plan) }
    ensures picked { IfOk result (λ core. IsPickedRun plan A.meaning plan.picks core.journal) }
{
    let picks = Vec::from_slice(alloc, plan.picks())?;
    let mut core = opening(alloc, plan)?;
    run_order(&mut core, &picks);
    Ok(core)
}

/// The run that the words of a seed make.
///
/// # Errors
///
/// [`Memory`] where memory for the agents or for the run was refused. The plan is dropped then.
pub fn run_seeded<A: RunAgent>(alloc: Global, plan: Plan, seed: u64) -> Result<Core<A>, Memory>
    requires { IsResolved plan }
    ensures plan { IfOk result (λ core. core.plan ≡ plan) }
    ensures picked { IfOk result (λ core. IsPickedRun plan A.meaning (seed_words seed plan.limit) core.journal) }
{
    let mut core = opening(alloc, plan)?;
    run_seed(&mut core, seed);
    Ok(core)
}

/// The opening of a plan, with agents of this type.
///
/// # Errors
///
/// [`Memory`] where memory for the agents or for the run was refused. The plan is dropped then.
pub fn opening<A: RunAgent>(alloc: Global, plan: Plan) -> Result<Core<A>, Memory>
    requires { IsResolved plan }
    ensures plan { IfOk result (λ core. core.plan ≡ plan) }
    ensures journal { IfOk result (λ core. core.journal ≡ []) }
{
    let agents = A::of_plan(alloc, &plan)?;
    Core::make(alloc, plan, agents)
}
