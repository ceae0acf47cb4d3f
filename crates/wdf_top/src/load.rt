//! The form `load N`: the summary of a generated scenario's run.
ghost use Rattle.std.specs.Prelude.{◌≡◌, IfOk};
ghost use Rattle.wdf_dev.specs.Agents.{agent_meaning};
ghost use Rattle.wdf_gen.specs.Generated.{generated};
ghost use Rattle.wdf_io.specs.Outside.{EndsRefused};
ghost use Rattle.wdf_model.specs.rules.Ready.{IsPickedRun};
ghost use Rattle.wdf_plan.specs.Plans.{plan_of};
ghost use Rattle.wdf_run.specs.Seeds.{seed_words};
ghost use Rattle.wdf_output.specs.Said.{sinking};
ghost use Rattle.wdf_top.specs.Top.{TellsSummary};

use crate::run::run_seeded;
use std::alloc::Global;
use wdf_base::{Memory, Plan};
use wdf_core::Core;
use wdf_dev::AnyAgent;
use wdf_gen::generate;
use wdf_io::Sink;
use wdf_output::{Refusal, say, status_of, tell};
use wdf_plan::resolve;
use wdf_summary::summary;

/// Runs the scenario that a number generates by the words of the same number, and writes the summary of the
/// run, or the line `out of memory`.
pub fn tell_summary<K: Sink>(alloc: Global, number: u64, sink: &mut K) -> u8
    ensures told { TellsSummary number
        (sinking (K.written sink.old) (K.written sink.new) (K.faults sink.old) (K.faults sink.new))
        result }
    ensures not_again { result ≡ 13 → EndsRefused K.refused K.faults sink.old sink.new }
{
    match run_generated(alloc, number) {
        Ok(core) => say(sink, summary(&core).bytes(), status_of(core.ending())),
        Err(memory) => tell(sink, Refusal::from(memory)),
    }
}

/// The run of a generated scenario by the words of its number.
fn run_generated(alloc: Global, number: u64) -> Result<Core<AnyAgent>, Memory>
    ensures plan { IfOk result (λ core. core.plan ≡ plan_of (generated number)) }
    ensures picked { IfOk result (λ core. IsPickedRun (plan_of (generated number)) agent_meaning (seed_words number (plan_of (generated number)).limit) core.journal) }
{
    let plan = plan_of_number(alloc, number)?;
    run_seeded::<AnyAgent>(alloc, plan, number)
}

/// The plan of the scenario that a number generates. Each such scenario has one, so the only error is out of memory.
fn plan_of_number(alloc: Global, number: u64) -> Result<Plan, Memory>
    ensures { IfOk result (λ plan. plan ≡ plan_of (generated number)) }
{
    let scene = generate(alloc, number)?;
    match resolve(alloc, &scene) {
        Ok(plan) => Ok(plan),
        Err(_) => Err(Memory),
    }
}
