//! The search for plainer picks. Each step tries picks, and takes them where their run ends as the goal says.
ghost use Rattle.std.specs.Prelude.{OnOk};
ghost use Rattle.wdf_scene.specs.Naming.{HasProperNames};
ghost use Rattle.wdf_scene.specs.Written.{IsScene};
ghost use Rattle.wdf_shrink.specs.Stories.{IsStory};

use crate::told::{Told, is_story};
use std::alloc::Global;
use wdf_base::Memory;
use wdf_tries::Case;

/// How many steps each part of the search has.
const STEPS: u32 = 500;

/// Takes these picks where their run ends as the goal says, and answers whether it does.
pub(crate) fn take(
    alloc: Global,
    case: &Case,
    goal: &Told,
    best: &mut Vec<u64>,
    picks: Vec<u64>,
) -> Result<bool, Memory>
    requires scene { IsScene case.now.scene }
    requires names { HasProperNames case.now.scene }
    requires story { IsStory case.now goal.now.kind goal.now.events best.old.items }
    ensures { OnOk result (IsStory case.now goal.now.kind goal.now.events best.new.items) }
{
    let is_taken = is_story(alloc, case, goal, picks.as_slice())?;
    if is_taken {
        *best = picks;
    }
    Ok(is_taken)
}

/// Picks without their last ones, so many.
fn without_last(alloc: Global, picks: &[u64], count: usize) -> Result<Vec<u64>, Memory> {
    let kept = picks.len().saturating_sub(count);
    let front = Vec::from_slice(alloc, &picks[..kept])?;
    Ok(front)
}

/// Cuts the tail, as much of it at a time as goes.
pub(crate) fn cut_tail(
    alloc: Global,
    case: &Case,
    goal: &Told,
    best: &mut Vec<u64>,
) -> Result<(), Memory>
    requires scene { IsScene case.now.scene }
    requires names { HasProperNames case.now.scene }
    requires story { IsStory case.now goal.now.kind goal.now.events best.old.items }
    ensures { OnOk result (IsStory case.now goal.now.kind goal.now.events best.new.items) }
{
    let mut count = best.len();
    for _step in 0..STEPS {
        if count == 0 || best.is_empty() {
            return Ok(());
        }
        let shorter = without_last(alloc, best.as_slice(), count)?;
        if !take(alloc, case, goal, best, shorter)? {
            count /= 2;
        }
    }
    Ok(())
}

/// Whether a pick of a block isn't 0.
fn is_set(picks: &[u64], from: usize, size: usize) -> bool {
    match picks.get(from..) {
        Some(rest) => rest.iter().take(size).any(|pick| *pick != 0),
        None => false,
    }
}

/// Picks with a block of them set to 0.
fn without_block(
    alloc: Global,
    picks: &[u64],
    from: usize,
    size: usize,
) -> Result<Vec<u64>, Memory> {
    let mut cleared = Vec::new(alloc);
    for (at, pick) in picks.iter().enumerate() {
        let is_in_block = at >= from && at - from < size;
        cleared.push(if is_in_block { 0 } else { *pick })?;
    }
    Ok(cleared)
}

/// Sets a block of picks to 0, where that goes.
fn clear_block(
    alloc: Global,
    case: &Case,
    goal: &Told,
    best: &mut Vec<u64>,
    from: usize,
    size: usize,
) -> Result<(), Memory>
    requires scene { IsScene case.now.scene }
    requires names { HasProperNames case.now.scene }
    requires story { IsStory case.now goal.now.kind goal.now.events best.old.items }
    ensures { OnOk result (IsStory case.now goal.now.kind goal.now.events best.new.items) }
{
    if is_set(best.as_slice(), from, size) {
        let plainer = without_block(alloc, best.as_slice(), from, size)?;
        take(alloc, case, goal, best, plainer)?;
    }
    Ok(())
}

/// Sets blocks of picks to 0, halves first, then quarters, down to single picks.
pub(crate) fn clear_blocks(
    alloc: Global,
    case: &Case,
    goal: &Told,
    best: &mut Vec<u64>,
) -> Result<(), Memory>
    requires scene { IsScene case.now.scene }
    requires names { HasProperNames case.now.scene }
    requires story { IsStory case.now goal.now.kind goal.now.events best.old.items }
    ensures { OnOk result (IsStory case.now goal.now.kind goal.now.events best.new.items) }
{
    let mut size = best.len() / 2;
    let mut from = 0;
    for _step in 0..STEPS {
        if from >= best.len() {
            size /= 2;
            from = 0;
        }
        if size == 0 {
            return Ok(());
        }
        clear_block(alloc, case, goal, best, from, size)?;
        from = from.saturating_add(size);
    }
    Ok(())
}

/// Picks with one of them halved.
fn with_half(alloc: Global, picks: &[u64], place: usize) -> Result<Vec<u64>, Memory> {
    let mut lower = Vec::new(alloc);
    for (at, pick) in picks.iter().enumerate() {
        lower.push(if at == place { *pick / 2 } else { *pick })?;
    }
    Ok(lower)
}

/// Halves single picks, each as often as goes.
pub(crate) fn lower_picks(
    alloc: Global,
    case: &Case,
    goal: &Told,
    best: &mut Vec<u64>,
) -> Result<(), Memory>
    requires scene { IsScene case.now.scene }
    requires names { HasProperNames case.now.scene }
    requires story { IsStory case.now goal.now.kind goal.now.events best.old.items }
    ensures { OnOk result (IsStory case.now goal.now.kind goal.now.events best.new.items) }
{
    let mut at = 0;
    for _step in 0..STEPS {
        if at >= best.len() {
            return Ok(());
        }
        let lower = with_half(alloc, best.as_slice(), at)?;
        if !is_set(best.as_slice(), at, 1) || !take(alloc, case, goal, best, lower)? {
            at += 1;
        }
    }
    Ok(())
}
