ghost use Rattle.std.specs.Prelude.{◌≡◌, ◌+◌, ◌-◌, ◌*◌, ◌/◌, ◌<◌, ◌≤◌, ◌^◌, ℕ, IfOk};
ghost use Rattle.std.specs.Thread.{IsSync};
ghost use Rattle.wdf_tries.specs.declared.tried.Case.{Case};
ghost use Rattle.wdf_scene.specs.Naming.{HasProperNames};
ghost use Rattle.wdf_scene.specs.Written.{IsScene};
ghost use Rattle.wdf_table.specs.Tables.{all_seeds};
ghost use Rattle.wdf_tries.specs.Tries.{IsHuntOf};

use std::alloc::Global;
use std::thread::{Threads, join};
use wdf_base::Memory;
use wdf_tries::{Case, Hunted, hunt_range};

/// A range with fewer seeds than this isn't halved.
const FEW: u32 = 64;

/// What two ranges come to that follow one another.
pub(crate) fn both(first: Hunted, second: Hunted) -> Result<Hunted, Memory>
    requires seeds { all_seeds first.tally + all_seeds second.tally < 2 ^ 64 }
    requires events { first.events + second.events < 2 ^ 64 }
    ensures hunt { (tried : Case) (from m n : ℕ) → IsHuntOf tried from m first → IsHuntOf tried (from + m) n second → IfOk result (IsHuntOf tried from (m + n)) }
    ensures seeds { IfOk result (λ hunted. all_seeds hunted.tally ≡ all_seeds first.tally + all_seeds second.tally) }
    ensures events { IfOk result (λ hunted. hunted.events ≡ first.events + second.events) }
{
    let mut tally = first.tally;
    tally.merge(second.tally)?;
    Ok(Hunted {
        tally,
        events: first.events + second.events,
    })
}

/// The tries of so many seeds, from this one on, halved so often among threads.
///
/// # Errors
///
/// [`Memory`] where memory was refused, or where the scene has no plan.
pub fn hunt_threads<R: Threads + Sync>(
    rt: &R,
    alloc: Global,
    case: &Case,
    from: u64,
    count: u32,
    halvings: u32,
) -> Result<Hunted, Memory>
    requires scene { IsScene case.now.scene }
    requires names { HasProperNames case.now.scene }
    requires fits { from + count ≤ 2 ^ 64 }
    ensures hunt { IfOk result (IsHuntOf case.now from count) }
    ensures seeds { IfOk result (λ hunted. all_seeds hunted.tally ≡ count) }
    ensures events { IfOk result (λ hunted. hunted.events ≤ count * 2 ^ 32) }
{
    if halvings == 0 || count < FEW {
        return hunt_range(alloc, case, from, count);
    }
    let half = count / 2;
    let rest = count - half;
    let middle = from + u64::from(half);
    let (first, second) = join(
        rt,
        || -> Result<Hunted, Memory>
            requires { IsSync R.row × IsScene case.now.scene × HasProperNames case.now.scene × (from + half ≤ 2 ^ 64) × (0 < halvings) }
            ensures { IfOk result (λ hunted. IsHuntOf case.entry.now from half hunted × (all_seeds hunted.tally ≡ half) × (hunted.events ≤ half * 2 ^ 32)) }
        { hunt_threads(rt, alloc, case, from, half, halvings - 1) },
        || -> Result<Hunted, Memory>
            requires { IsSync R.row × IsScene case.now.scene × HasProperNames case.now.scene × (middle + rest ≤ 2 ^ 64) × (0 < halvings) }
            ensures { IfOk result (λ hunted. IsHuntOf case.entry.now middle rest hunted × (all_seeds hunted.tally ≡ rest) × (hunted.events ≤ rest * 2 ^ 32)) }
        { hunt_threads(rt, alloc, case, middle, rest, halvings - 1) },
    );
    both(first?, second?)
}
