//! The first event of a side. All events that a group has are of one side, so the others are passed over without a search.
ghost use Rattle.std.specs.Prelude.{◌≡◌, ◌≤◌, ◌^◌, find, length};
ghost use Rattle.wdf_offers.specs.Leaving.{IsSettled};
ghost use Rattle.wdf_offers.specs.Search as search;
ghost use Rattle.wdf_ready.specs.Sides.{is_of as is_event_of, same_side as is_same_side, side_of, side_of_block, side_of_group};
ghost use Rattle.wdf_ready.specs.Blocks.{all_of, events_in};

use crate::across::block_at;
use crate::actor::actor_of;
use crate::blocks::{Block, Blocks};
use wdf_base::{Actor, Agent, Event};
use wdf_model::Group;
use wdf_parts::Parts;
use wdf_plan_index::IndexedPlan;

/// Whose events they are.
#[derive(Clone, Copy, Debug)]
pub enum Side {
    /// A processor's.
    Processor(u8),
    /// The framework's and the clock's.
    Framework,
    /// Those of all agents.
    Agents,
}

/// The side of an actor.
fn of_actor(actor: Actor) -> Side
    ensures { result ≡ side_of actor }
{
    match actor {
        Actor::Cpu(cpu) => Side::Processor(cpu),
        Actor::Framework | Actor::Clock => Side::Framework,
        Actor::Agent(_) => Side::Agents,
    }
}

/// The side of all events that a group has.
fn of_group(group: Group) -> Side
    ensures { result ≡ side_of_group group }
{
    match group {
        Group::OwnEvent { cpu }
        | Group::Parks { cpu }
        | Group::Unparks { cpu }
        | Group::Starts { cpu, .. }
        | Group::StartsFor { cpu, .. } => Side::Processor(cpu),
        Group::Stages | Group::Completions | Group::Cleanups | Group::Destroys => Side::Framework,
        Group::Posts => Side::Agents,
    }
}

/// Whether two sides are one.
fn same_side(one: Side, other: Side) -> bool
    ensures { result ≡ is_same_side one other }
{
    match (one, other) {
        (Side::Processor(a), Side::Processor(b)) => a == b,
        (Side::Framework, Side::Framework) | (Side::Agents, Side::Agents) => true,
        _ => false,
    }
}

/// Whether an event is of a side.
pub fn is_of(side: Side, event: &Event) -> bool
    ensures { result ≡ is_event_of side event.now }
{
    same_side(of_actor(actor_of(event)), side)
}

/// The side of all events that a block has.
fn of_block(block: Block) -> Side
    ensures { result ≡ side_of_block block }
{
    match block {
        Block::One(group) => of_group(group),
        Block::ForEach { cpu, .. } => Side::Processor(cpu),
    }
}

/// The first event of a side among those that may come of a block, if the block has such.
fn first_in<A: Agent>(
    plan: &IndexedPlan,
    parts: &Parts<A>,
    all: &Blocks,
    block: Block,
    side: Side,
) -> Option<Event>
    requires agents { length parts.now.agents ≤ 2 ^ 16 }
    requires settled { IsSettled plan.now parts.now }
    ensures { result ≡ find (is_event_of side) (events_in plan.now A.meaning parts.now all.now.objects block) }
{
    if same_side(of_block(block), side) {
        block_at(plan, parts, all, block, 0).ok()
    } else {
        None
    }
}

/// The first event of a side among those that may come of all these groups; `None` exactly where there is none.
pub fn first_of<A: Agent>(
    plan: &IndexedPlan,
    parts: &Parts<A>,
    all: &Blocks,
    side: Side,
) -> Option<Event>
    requires agents { length parts.now.agents ≤ 2 ^ 16 }
    requires settled { IsSettled plan.now parts.now }
    ensures { result ≡ find (is_event_of side) (search.events_of plan.now A.meaning parts.now (all_of all.now)) }
{
    for at in 0..all.len() {
        if let Some(event) = first_in(plan, parts, all, all.at(at), side) {
            return Some(event);
        }
    }
    None
}
