//! A run by processors as threads.
ghost use Rattle.std.specs.Prelude.{◌≡◌, ◌≢◌, IfOk};
ghost use mathlib.Core.List.{IsPrefix};
ghost use Rattle.wdf_base.specs.declared.event.Ending.TheVariants as ending;
ghost use Rattle.wdf_model.specs.rules.Ready.{IsRunOf, ending_of};

use crate::state::RunState;
use std::alloc::Global;
use std::thread::Threads;
use wdf_base::{Agent, Memory, Plan};
use wdf_core::Core;
use wdf_crew::{Shift, share};
use wdf_run::run_order;
use wdf_turn::Gate;

/// How many turns each worker has for each event that the run may have.
const TURNS_AN_EVENT: u32 = 4;

/// Goes on from the journal until no event may follow. There is one worker for each processor, one for the framework
/// and the clock, and one for all agents. What they leave is done here, always by the first event that may follow.
///
/// The clauses say this: the plan is kept, the journal begins with the given one, each of its events could follow those
/// before it, and the run has ended. No clause says that a worker has a thread, passes the gate, takes a turn or goes on
/// after its first wait: a body that does all here keeps them too. That is to be seen in the code, and tests show it.
///
/// # Errors
///
/// [`Memory`], with the core dropped, where memory for the seats or for the turnstile was refused. Nothing has run then.
pub fn run_threads<R: Threads + Sync, A: Agent + Send, G: Gate + Sync>(
    rt: &R,
    alloc: Global,
    core: Core<A>,
    gate: &G,
) -> Result<Core<A>, Memory>
    ensures plan { IfOk result (λ after. after.plan ≡ core.plan) }
    ensures journal { IfOk result (λ after. IsPrefix core.journal after.journal) }
    // Each of its events could follow those before it.
    ensures run { IfOk result (λ after. IsRunOf core.plan A.meaning after.journal) }
    ensures ended { IfOk result (λ after. ending_of core.plan A.meaning after.journal ≢ ending.Running) }
{
    let shift = shift_of(core.plan());
    let core = Box::new(alloc, core)?;
    let state = share(rt, alloc, RunState { core }, shift, gate)?;
    Ok(finish(state))
}

/// The shift of the workers of a plan's run.
pub fn shift_of(plan: &Plan) -> Shift {
    Shift {
        processors: plan.cpus(),
        turns: plan.limit().saturating_mul(TURNS_AN_EVENT),
    }
}

/// Takes the first event that may follow, until none may.
pub fn finish<A: Agent>(state: RunState<A>) -> Core<A>
    ensures plan { result.plan ≡ state.core.value.plan }
    ensures journal { IsPrefix state.core.value.journal result.journal }
    ensures run { IsRunOf state.core.value.plan A.meaning result.journal }
    ensures ended { ending_of state.core.value.plan A.meaning result.journal ≢ ending.Running }
{
    let mut core = Box::into_inner(state.core);
    run_order(&mut core, &[]);
    let _events = core.journal_len();
    core
}
