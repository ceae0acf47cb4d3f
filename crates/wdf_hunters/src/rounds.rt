//! A range in rounds, and who is told between them how far it is.
ghost use Rattle.std.specs.Prelude.{◌≡◌, ◌+◌, ◌*◌, ◌≤◌, ◌^◌, IfOk};
ghost use Rattle.wdf_scene.specs.Naming.{HasProperNames};
ghost use Rattle.wdf_scene.specs.Written.{IsScene};
ghost use Rattle.wdf_table.specs.Tables.{all_seeds};
ghost use Rattle.wdf_tries.specs.Tries.{IsHuntOf};

use crate::halves::{both, hunt_threads};
use std::alloc::Global;
use std::thread::Threads;
use wdf_base::Memory;
use wdf_tries::{Case, Hunted, hunt_range};

/// Who is told how far a hunt is.
pub trait Progress {
    /// How many seeds are to be tried before the next word; at least one is.
    fn round(&mut self) -> u32;

    /// So many of so many seeds were tried, and so many kinds came.
    fn tell(&mut self, done: u32, count: u32, kinds: usize);
}

/// The tries of so many seeds, from this one on, in rounds, each halved so often among threads. After each round it is told
/// how far they are.
///
/// # Errors
///
/// [`Memory`] where memory was refused, or where the scene has no plan.
pub fn hunt_rounds<R: Threads + Sync, P: Progress>(
    rt: &R,
    alloc: Global,
    case: &Case,
    from: u64,
    count: u32,
    halvings: u32,
    progress: &mut P,
) -> Result<Hunted, Memory>
    requires scene { IsScene case.now.scene }
    requires names { HasProperNames case.now.scene }
    requires fits { from + count ≤ 2 ^ 64 }
    ensures hunt { IfOk result (IsHuntOf case.now from count) }
    ensures seeds { IfOk result (λ hunted. all_seeds hunted.tally ≡ count) }
    ensures events { IfOk result (λ hunted. hunted.events ≤ count * 2 ^ 32) }
{
    let mut hunted = hunt_range(alloc, case, from, 0)?;
    let mut done = 0;
    for _round in 0..count {
        let seeds = progress.round().max(1).min(count - done);
        if seeds == 0 {
            return Ok(hunted);
        }
        let more = hunt_threads(rt, alloc, case, from + u64::from(done), seeds, halvings)?;
        hunted = both(hunted, more)?;
        done += seeds;
        progress.tell(done, count, hunted.tally.rows().len());
    }
    Ok(hunted)
}
