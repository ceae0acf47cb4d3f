//! How many events may come of each block of groups, kept from event to event. What may have changed is counted anew when it is
//! asked for.
ghost use Rattle.std.specs.Prelude.{◌≡◌, ◌+◌, ◌*◌, ◌<◌, ◌≤◌, ◌^◌, false, IfOk, length, slice_get, Some, MatchResult};
ghost use Rattle.wdf_ready.specs.Blocks as blocks;
ghost use Rattle.wdf_ready.specs.Blocks.{all_of};
ghost use Rattle.wdf_ready.specs.Counts.{IsCountedTo, IsKept, Unknown, has_stale, stale_after};
ghost use Rattle.wdf_ready.specs.declared.blocks.Block.{Block};
ghost use Rattle.wdf_offers.specs.Leaving.{IsSettled};
ghost use Rattle.wdf_offers.specs.Search as search;
ghost use Rattle.wdf_ready.specs.declared.stale.Stale.TheVariants as kinds;

use crate::across::{block_at, block_len};
use crate::alike::{offer_alike, step_between};
use crate::blocks::{Block, Blocks};
use crate::stale::Stale;
use std::alloc::Global;
use std::marker::Model;
use wdf_base::{Agent, Event, Memory};
use wdf_parts::Parts;
use wdf_plan_index::IndexedPlan;

/// How many events may come of each of some blocks, and of which groups that may have changed since it was counted.
#[derive(Drop)]
pub struct KeptCounts {
    each: Vec<usize>,
    stale: Stale,
}

impl Model for KeptCounts {
    ghost use Rattle.wdf_ready.specs.Counts.{Counts};

    ghost Value = { Counts };

    ghost view = { λ c. record { each = c.each.items; stale = c.stale } };
}

impl KeptCounts {
    /// Counts for so many blocks, of which nothing is known.
    ///
    /// # Errors
    ///
    /// [`Memory`] where room for them was refused.
    pub fn make(alloc: Global, blocks: usize) -> Result<KeptCounts, Memory>
        ensures { IfOk result (Unknown blocks) }
    {
        let each = vec![in alloc; 0; blocks]?;
        Ok(KeptCounts {
            each,
            stale: Stale::Everything,
        })
    }

    /// Nothing is known from here on.
    pub fn forget_all(&mut self)
        ensures { self.new ≡ record self.old { stale = kinds.Everything } }
    {
        self.stale = Stale::Everything;
    }

    /// After an event: what it may touch isn't known any more.
    pub fn forget_touched(&mut self, event: &Event)
        ensures { self.new ≡ record self.old { stale = stale_after self.old.stale event.now } }
    {
        self.stale = self.stale.after(event);
    }

    /// How many events may come of all these groups. Of a block that may have changed they are counted anew, and the count
    /// is kept.
    pub fn count<A: Agent>(&mut self, plan: &IndexedPlan, parts: &Parts<A>, all: &Blocks) -> usize
        requires agents { length parts.now.agents ≤ 2 ^ 16 }
        requires settled { IsSettled plan.now parts.now }
        requires few { length (all_of all.now) < 2 ^ 20 }
        requires kept { IsKept plan.now A.meaning parts.now all.now self.old }
        ensures length { result ≡ length (search.events_of plan.now A.meaning parts.now (all_of all.now)) }
        ensures small { result < 2 ^ 60 }
        ensures kept { IsKept plan.now A.meaning parts.now all.now self.new }
    {
        let sum = count_each(plan, parts, all, self.stale, &mut self.each);
        self.stale = Stale::Nothing;
        sum
    }

    /// The same, and nothing changes.
    pub fn len<A: Agent>(&self, plan: &IndexedPlan, parts: &Parts<A>, all: &Blocks) -> usize
        requires agents { length parts.now.agents ≤ 2 ^ 16 }
        requires settled { IsSettled plan.now parts.now }
        requires few { length (all_of all.now) < 2 ^ 20 }
        requires kept { IsKept plan.now A.meaning parts.now all.now self.now }
        ensures length { result ≡ length (search.events_of plan.now A.meaning parts.now (all_of all.now)) }
        ensures small { result < 2 ^ 60 }
    {
        let mut sum = 0;
        for at in 0..all.len() {
            sum += len_of(plan, parts, all, all.at(at), self.stale, self.each[at]);
        }
        sum
    }

    /// The k-th of these events; `None` exactly where there are fewer. Only the block that has it is searched, and those
    /// that may have changed before it.
    pub fn at<A: Agent>(
        &self,
        plan: &IndexedPlan,
        parts: &Parts<A>,
        all: &Blocks,
        k: usize,
    ) -> Option<Event>
        requires agents { length parts.now.agents ≤ 2 ^ 16 }
        requires settled { IsSettled plan.now parts.now }
        requires kept { IsKept plan.now A.meaning parts.now all.now self.now }
        ensures { result ≡ slice_get (search.events_of plan.now A.meaning parts.now (all_of all.now)) k }
    {
        let mut left = k;
        for at in 0..all.len() {
            match event_of(
                plan,
                parts,
                all,
                all.at(at),
                self.stale,
                self.each[at],
                left,
            ) {
                Ok(event) => return Some(event),
                Err(rest) => left = rest,
            }
        }
        None
    }
}

/// How many events may come of a block, of which so many were counted.
fn len_of<A: Agent>(
    plan: &IndexedPlan,
    parts: &Parts<A>,
    all: &Blocks,
    block: Block,
    stale: Stale,
    counted: usize,
) -> usize
    requires agents { length parts.now.agents ≤ 2 ^ 16 }
    requires settled { IsSettled plan.now parts.now }
    requires few { length (blocks.groups_in all.now.objects block) < 2 ^ 20 }
    requires known { has_stale stale block ≡ false → counted ≡ blocks.block_len plan.now A.meaning parts.now all.now.objects block }
    requires small { counted ≤ length (blocks.groups_in all.now.objects block) * 2 ^ 32 }
    ensures length { result ≡ blocks.block_len plan.now A.meaning parts.now all.now.objects block }
    ensures small { result ≤ length (blocks.groups_in all.now.objects block) * 2 ^ 32 }
{
    if stale.has_block(block) {
        block_len(plan, parts, all, block)
    } else {
        counted
    }
}

/// The k-th of the events that may come of a block, of which so many were counted; or how many places of a list are left
/// after them.
fn event_of<A: Agent>(
    plan: &IndexedPlan,
    parts: &Parts<A>,
    all: &Blocks,
    block: Block,
    stale: Stale,
    counted: usize,
    k: usize,
) -> Result<Event, usize>
    requires agents { length parts.now.agents ≤ 2 ^ 16 }
    requires settled { IsSettled plan.now parts.now }
    requires known { has_stale stale block ≡ false → counted ≡ blocks.block_len plan.now A.meaning parts.now all.now.objects block }
    ensures { MatchResult result (λ event. slice_get (blocks.events_in plan.now A.meaning parts.now all.now.objects block) k ≡ Some event)
        (λ rest. length (blocks.events_in plan.now A.meaning parts.now all.now.objects block) + rest ≡ k) }
{
    if k >= counted && !stale.has_block(block) {
        return Err(k - counted);
    }
    block_at(plan, parts, all, block, k)
}

/// How many events may come of the block at a place, where the blocks before it are counted. A block that may have changed
/// isn't searched where it offers as many as the one that is `step` places before it.
fn count_at<A: Agent>(
    plan: &IndexedPlan,
    parts: &Parts<A>,
    all: &Blocks,
    each: &[usize],
    stale: Stale,
    step: usize,
    at: usize,
) -> usize
    requires agents { length parts.now.agents ≤ 2 ^ 16 }
    requires settled { IsSettled plan.now parts.now }
    requires few { length (all_of all.now) < 2 ^ 20 }
    requires within { at < length all.now.blocks }
    requires step { 0 < step }
    requires counted { IsCountedTo plan.now A.meaning parts.now all.now stale each.now at }
    ensures { (b : Block) → slice_get all.now.blocks at ≡ Some b
        → (result ≡ blocks.block_len plan.now A.meaning parts.now all.now.objects b) × (result ≤ length (blocks.groups_in all.now.objects b) * 2 ^ 32) }
{
    let block = all.at(at);
    if !stale.has_block(block) {
        return each[at];
    }
    if at >= step && offer_alike(plan, parts, all, all.at(at - step), block) {
        return each[at - step];
    }
    block_len(plan, parts, all, block)
}

/// How many events may come of all these groups, and in `each` of each block. `stale` are those that are counted anew.
fn count_each<A: Agent>(
    plan: &IndexedPlan,
    parts: &Parts<A>,
    all: &Blocks,
    stale: Stale,
    each: &mut Vec<usize>,
) -> usize
    requires agents { length parts.now.agents ≤ 2 ^ 16 }
    requires settled { IsSettled plan.now parts.now }
    requires few { length (all_of all.now) < 2 ^ 20 }
    requires kept { IsKept plan.now A.meaning parts.now all.now (record { each = each.old.items; stale = stale }) }
    ensures length { result ≡ length (search.events_of plan.now A.meaning parts.now (all_of all.now)) }
    ensures small { result < 2 ^ 60 }
    ensures each { IsKept plan.now A.meaning parts.now all.now (record { each = each.new.items; stale = kinds.Nothing }) }
{
    let mut sum = 0;
    let step = step_between(plan, all.len());
    for at in 0..all.len() {
        let count = count_at(plan, parts, all, each.as_slice(), stale, step, at);
        each[at] = count;
        sum += count;
    }
    sum
}
