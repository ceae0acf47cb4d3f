//! Runs of the machine to their ends: those that picks make, and those of the words of a seed, by one loop.
#![tactic(auto)]

mod picks;

ghost use Rattle.std.specs.Prelude.{◌≡◌, ◌<◌, ◌%◌, ◌++◌, ◌∷◌, [], ℕ, IsFalse, IsTrue, List, Some, length, slice_get, slice_index};
ghost use Rattle.wdf_base.specs.declared.event.Event.{Event};
ghost use Rattle.wdf_model.specs.Runs.{Picked};
ghost use Rattle.wdf_model.specs.rules.Ready.{ready};
ghost use Rattle.wdf_run.specs.Seeds.{seed_words};

use crate::picks::{Listed, Picks, Seeded};
use wdf_base::Agent;
use wdf_core::Core;

/// Goes on from the journal by the picks, until no event may follow. A missing pick is 0. It takes
/// no memory.
pub fn run_order<A: Agent>(core: &mut Core<A>, picks: &[u64])
    ensures plan { core.new.plan ≡ core.old.plan }
    ensures picked { Picked (ready core.old.plan A.meaning) picks.now core.old.journal core.new.journal }
{
    run_by(core, &mut Listed::new(picks));
}

/// Goes on from the journal by the words of `SplitMix64::seed_from_u64(seed)`, first to last, until no
/// event may follow. A run has no more events than its limit, so no later word picks one. It takes no
/// memory.
pub fn run_seed<A: Agent>(core: &mut Core<A>, seed: u64)
    ensures plan { core.new.plan ≡ core.old.plan }
    ensures picked { Picked (ready core.old.plan A.meaning) (seed_words seed core.old.plan.limit) core.old.journal core.new.journal }
{
    run_by(core, &mut Seeded::new(seed));
}

/// Goes on from the journal by the picks of a source, one a turn, until no event may follow.
fn run_by<A: Agent, P: Picks>(core: &mut Core<A>, source: &mut P)
    ensures plan { core.new.plan ≡ core.old.plan }
    // It is the run that each list picks which has the source's pick for each turn that a run may have.
    ensures picked { (picks : List ℕ) → ((turn : ℕ) → turn < core.old.plan.limit → slice_index picks turn ≡ P.pick source.old turn)
        → Picked (ready core.old.plan A.meaning) picks core.old.journal core.new.journal }
{
    'turns: loop {
        if !go_by(core, source.next_pick()) {
            return;
        }
    }
}

/// Goes on by the event that a pick names among those that may follow, and answers true; false, and nothing changes,
/// where none may. How many may follow is counted only where the pick isn't 0.
fn go_by<A: Agent>(core: &mut Core<A>, pick: u64) -> bool
    ensures plan { core.new.plan ≡ core.old.plan }
    ensures taken { IsTrue result → (event : Event) × (slice_get (ready core.old.plan A.meaning core.old.journal) (pick % length (ready core.old.plan A.meaning core.old.journal)) ≡ Some event)
        × (core.new.journal ≡ core.old.journal ++ event ∷ []) }
    ensures room { IsTrue result → length core.old.journal < core.old.plan.limit }
    ensures over { IsFalse result → (ready core.old.plan A.meaning core.old.journal ≡ []) × (core.new.journal ≡ core.old.journal) }
{
    if pick == 0 {
        return core.apply_first();
    }
    core.apply_pick(pick)
}
