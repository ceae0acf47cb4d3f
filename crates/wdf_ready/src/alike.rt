//! Blocks that offer as many events as the same block of the processor before, since both processors are empty. (own)
ghost use Rattle.std.specs.Prelude.{◌≡◌, ◌<◌, true, IsTrue, length};
ghost use Rattle.wdf_ready.specs.Blocks as blocks;
ghost use Rattle.wdf_ready.specs.Alike.{AreAlike, is_shared};
ghost use Rattle.wdf_offers.specs.Search as search;

use crate::blocks::{Block, Blocks};
use wdf_base::{Agent, Cpu, Rank};
use wdf_model::Group;
use wdf_parts::Parts;
use wdf_plan_index::IndexedPlan;
use wdf_steps::is_cpu;

/// How many blocks are of no processor: stages, completions, cleanups, destructions and posts.
const OF_NO_PROCESSOR: usize = 5;

/// How far a block is from the same block of the next processor, of so many blocks. With one processor it is past them all.
pub(crate) fn step_between(plan: &IndexedPlan, blocks: usize) -> usize
    ensures { 0 < result }
{
    let step = match usize::from(plan.plan().cpus()) {
        0 | 1 => blocks,
        cpus => blocks.saturating_sub(OF_NO_PROCESSOR) / cpus,
    };
    step.max(1)
}

/// Whether the callbacks of a rank may start on any empty processor: it isn't that of DPCs, of which each processor has a
/// list, nor that of a sequence's steps.
fn is_shared(rank: Rank) -> bool
    ensures { result ≡ is_shared rank }
{
    !matches!(rank, Rank::Deferred | Rank::Sequence)
}

/// Whether two ranks are one.
#[tactic(auto, using(crate::proofs::EmptyCpus::same_rank))]
fn same_rank(one: Rank, other: Rank) -> bool
    ensures { IsTrue result → one ≡ other }
{
    one.number() == other.number()
}

/// Whether two ranks are one, and shared.
fn share_rank(one: Rank, other: Rank) -> bool
    ensures same { IsTrue result → one ≡ other }
    ensures shared { IsTrue result → is_shared one ≡ true }
{
    is_shared(one) && same_rank(one, other)
}

/// Whether both are empty processors of the plan.
fn are_alike<A: Agent>(plan: &IndexedPlan, parts: &Parts<A>, one: Cpu, other: Cpu) -> bool
    ensures { IsTrue result → AreAlike plan.now parts.now one.0 other.0 }
{
    parts.cpus().is_empty(one)
        && parts.cpus().is_empty(other)
        && is_cpu(plan, one)
        && is_cpu(plan, other)
}

/// Whether two groups are the starts of one rank on two empty processors, so that they offer as many events.
fn starts_alike<A: Agent>(plan: &IndexedPlan, parts: &Parts<A>, one: Group, other: Group) -> bool
    ensures { IsTrue result → search.offered_len plan.now A.meaning parts.now one ≡ search.offered_len plan.now A.meaning parts.now other }
{
    match (one, other) {
        (Group::Starts { cpu: a, rank: r }, Group::Starts { cpu: b, rank: s }) => {
            share_rank(r, s) && are_alike(plan, parts, Cpu(a), Cpu(b))
        }
        _ => false,
    }
}

/// Whether two blocks are the starts of one rank on two empty processors, so that they offer as many events.
pub(crate) fn offer_alike<A: Agent>(
    plan: &IndexedPlan,
    parts: &Parts<A>,
    all: &Blocks,
    one: Block,
    other: Block,
) -> bool
    ensures { IsTrue result → (length (blocks.groups_in all.now.objects one) ≡ length (blocks.groups_in all.now.objects other))
        × (blocks.block_len plan.now A.meaning parts.now all.now.objects one ≡ blocks.block_len plan.now A.meaning parts.now all.now.objects other) }
{
    let _ = all;
    match (one, other) {
        (Block::One(group), Block::One(same)) => starts_alike(plan, parts, group, same),
        (Block::ForEach { cpu: a, rank: r }, Block::ForEach { cpu: b, rank: s }) => {
            same_rank(r, s) && are_alike(plan, parts, Cpu(a), Cpu(b))
        }
        _ => false,
    }
}
