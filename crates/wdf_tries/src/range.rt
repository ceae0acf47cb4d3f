ghost use Rattle.std.specs.Prelude.{◌≡◌, ◌+◌, ◌*◌, ◌<◌, ◌≤◌, ◌^◌, IfOk};
ghost use Rattle.wdf_scene.specs.Naming.{HasProperNames};
ghost use Rattle.wdf_scene.specs.Written.{IsScene};
ghost use Rattle.wdf_table.specs.Tables.{all_seeds};
ghost use Rattle.wdf_tries.specs.Tries.{IsHuntOf};

use crate::opening::opened;
use crate::seed::try_seed;
use crate::tried::Case;
use std::alloc::Global;
use wdf_base::Memory;
use wdf_table::Tally;

/// What the tries of some seeds come to.
#[derive(Drop)]
pub struct Hunted {
    /// The rows of the kinds that came.
    pub tally: Tally,
    /// How many events the runs have together.
    pub events: u64,
}

/// The tries of so many seeds, from this one on. They share a core, which begins anew for each.
///
/// # Errors
///
/// [`Memory`] where memory was refused, or where the scene has no plan.
pub fn hunt_range(alloc: Global, case: &Case, from: u64, count: u32) -> Result<Hunted, Memory>
    requires scene { IsScene case.now.scene }
    requires names { HasProperNames case.now.scene }
    requires fits { from + count ≤ 2 ^ 64 }
    ensures hunt { IfOk result (IsHuntOf case.now from count) }
    ensures seeds { IfOk result (λ hunted. all_seeds hunted.tally ≡ count) }
    ensures events { IfOk result (λ hunted. hunted.events ≤ count * 2 ^ 32) }
{
    let mut core = opened(alloc, &case.scene)?;
    let mut tally = Tally::new(alloc);
    let mut events = 0;
    for k in 0..count {
        let row = try_seed(alloc, case, &mut core, from + u64::from(k))?;
        events += row.events;
        tally.add(row)?;
    }
    Ok(Hunted { tally, events })
}
