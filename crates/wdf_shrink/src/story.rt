//! The story of a seed.
ghost use Rattle.std.specs.Prelude.{◌≡◌, ◌<◌, ◌^◌, All, IfOk, OnOk, take};
ghost use Rattle.wdf_scene.specs.Naming.{HasProperNames};
ghost use Rattle.wdf_scene.specs.Written.{IsScene};
ghost use Rattle.wdf_shrink.specs.Stories.{IsStory, IsStoryOfSeed};

use crate::places::places_of;
use crate::search::{clear_blocks, cut_tail, lower_picks, take};
use crate::told::{Told, told_of};
use std::alloc::Global;
use wdf_base::Memory;
use wdf_tries::{Case, limit_of, words_of_seed};

/// Picks without the zeros at their end, since a missing pick is 0.
fn without_zeros(alloc: Global, picks: &[u64]) -> Result<Vec<u64>, Memory> {
    let count = match picks.iter().rposition(|pick| *pick != 0) {
        Some(last) => last + 1,
        None => 0,
    };
    let front = Vec::from_slice(alloc, &picks[..count])?;
    Ok(front)
}

/// The same picks. Each of them fits 64 bits.
fn copied(alloc: Global, picks: &[u64]) -> Result<Vec<u64>, Memory>
    ensures same { IfOk result (λ copy. copy.items ≡ picks.now) }
    ensures short { IfOk result (λ copy. All (λ pick. pick < 2 ^ 64) copy.items) }
{
    let mut copy = Vec::new(alloc);
    for pick in picks {
        copy.push(*pick)?;
    }
    Ok(copy)
}

/// The first of some picks, one for each event of a run. No later pick picks anything.
fn first_picks(alloc: Global, picks: &[u64], events: u64) -> Result<Vec<u64>, Memory>
    ensures first { IfOk result (λ first. first.items ≡ take events picks.now) }
    ensures short { IfOk result (λ first. All (λ pick. pick < 2 ^ 64) first.items) }
{
    let count = picks.len().min(events as usize);
    copied(alloc, &picks[..count])
}

/// Makes picks plainer whose run ends as the goal says.
fn shrink(alloc: Global, case: &Case, goal: &Told, best: &mut Vec<u64>) -> Result<(), Memory>
    requires scene { IsScene case.now.scene }
    requires names { HasProperNames case.now.scene }
    requires story { IsStory case.now goal.now.kind goal.now.events best.old.items }
    ensures { OnOk result (IsStory case.now goal.now.kind goal.now.events best.new.items) }
{
    let places = places_of(alloc, &case.scene, best.as_slice())?;
    take(alloc, case, goal, best, places)?;
    cut_tail(alloc, case, goal, best)?;
    clear_blocks(alloc, case, goal, best)?;
    lower_picks(alloc, case, goal, best)?;
    let shorter = without_zeros(alloc, best.as_slice())?;
    take(alloc, case, goal, best, shorter)?;
    Ok(())
}

/// The picks of a plain run that ends in the kind of the seed's run, and has no more events.
///
/// # Errors
///
/// [`Memory`] where memory was refused, or where the scene has no plan.
pub fn story_of_seed(alloc: Global, case: &Case, seed: u64) -> Result<Vec<u64>, Memory>
    requires scene { IsScene case.now.scene }
    requires names { HasProperNames case.now.scene }
    ensures { IfOk result (λ picks. IsStoryOfSeed case.now seed picks.items) }
{
    let limit = limit_of(alloc, &case.scene)?;
    let mut picks = words_of_seed(alloc, seed, u64::from(limit))?;
    let goal = told_of(alloc, case, picks.as_slice())?;
    shrink(alloc, case, &goal, &mut picks)?;
    let told = told_of(alloc, case, picks.as_slice())?;
    first_picks(alloc, picks.as_slice(), told.events)
}
