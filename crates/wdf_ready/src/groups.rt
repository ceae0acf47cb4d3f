//! The groups of candidates of a run in blocks, in the order in which candidates come. (own)
ghost use Rattle.std.specs.Prelude.{◌≡◌, ◌∷◌, ◌++◌, [], IfOk, OnOk, filter};
ghost use Rattle.std.specs.List.{flat_map, range_with_len};
ghost use Rattle.wdf_model.specs.declared.enums.Group.TheVariants as group;
ghost use Rattle.wdf_model.specs.rules.Groups as groups;
ghost use Rattle.wdf_offers.specs.Search as search;
ghost use Rattle.wdf_ready.specs.Blocks as blocks;
ghost use Rattle.wdf_ready.specs.Blocks.{all_of};

use crate::blocks::{Block, Blocks, Objects};
use std::alloc::Global;
use std::mem;
use wdf_base::{Callback, Memory, ObjectId, Rank};
use wdf_model::Group;
use wdf_offers::callback_for;
use wdf_plan_index::IndexedPlan;

/// The ranks of callbacks, in the order of their starts. (own)
const RANKS: [Rank; 14] = [
    Rank::Isr,
    Rank::Deferred,
    Rank::Timed,
    Rank::Completion,
    Rank::Cancel,
    Rank::CanceledOnQueue,
    Rank::Stop,
    Rank::Resume,
    Rank::QueueState,
    Rank::Handler,
    Rank::Sequence,
    Rank::Work,
    Rank::Cleanup,
    Rank::Destroy,
];

/// The groups of candidates of a plan's run that can have places, in blocks, in the order in which candidates come. A block
/// without groups is left out.
pub fn blocks_of(alloc: Global, plan: &IndexedPlan) -> Result<Blocks, Memory>
    ensures groups { IfOk result (λ made. all_of made ≡ filter (search.has_places plan.now) (groups.groups plan.now)) }
{
    let objects = objects_of(alloc, plan)?;
    match all_blocks(alloc, plan, &objects) {
        Ok(blocks) => Ok(Blocks::new(blocks, objects)),
        Err(memory) => {
            mem::drop(objects);
            Err(memory)
        }
    }
}

/// Whether something declares a callback that may start by the group of a rank.
fn can_start(plan: &IndexedPlan, rank: Rank) -> bool
    ensures { result ≡ search.can_start plan.now rank }
{
    plan.plan()
        .scripts
        .as_slice()
        .iter()
        .any(|script| starts_by(rank, script.callback))
}

/// Whether a callback may start by the group of a rank: it is of that rank. A step of a sequence is any that is for no request.
fn starts_by(rank: Rank, callback: Callback) -> bool
    ensures { result ≡ search.starts_by rank callback }
{
    let own = callback.row().rank;
    match rank {
        Rank::Sequence => !own.carries_request(),
        _ => own.number() == rank.number(),
    }
}

/// Whether an object declares a rank's callback for requests. The group of completion routines is kept for each target.
fn can_start_for(plan: &IndexedPlan, rank: Rank, object: ObjectId) -> bool
    ensures { result ≡ search.can_start_for plan.now rank object.0 }
{
    match rank {
        Rank::Completion => can_start(plan, rank),
        _ => plan.declares(callback_for(rank), object),
    }
}

/// Whether a rank for requests has a group for an object, and the group can have places.
fn is_startable(plan: &IndexedPlan, rank: Rank, object: ObjectId) -> bool
    ensures { result ≡ blocks.is_startable plan.now rank object.0 }
{
    let has_group = match rank {
        Rank::Completion => plan.target_of(object).is_some(),
        _ => plan.queue_of(object).is_some(),
    };
    has_group && can_start_for(plan, rank, object)
}

/// The objects for which a rank has groups that can have places, by rising id.
fn startable(alloc: Global, plan: &IndexedPlan, rank: Rank) -> Result<Vec<u32>, Memory>
    ensures { IfOk result (λ ids. ids.items ≡ blocks.startable plan.now rank) }
{
    let mut ids = Vec::new(alloc);
    for k in 0..plan.declared_len() {
        if is_startable(plan, rank, ObjectId(k + 1)) {
            ids.push(k + 1)?;
        }
    }
    Ok(ids)
}

/// Those of each rank for requests.
fn objects_of(alloc: Global, plan: &IndexedPlan) -> Result<Objects, Memory>
    ensures { IfOk result (λ objects. objects ≡ blocks.lists_of plan.now) }
{
    let targets = startable(alloc, plan, Rank::Completion)?;
    let cancels = startable(alloc, plan, Rank::Cancel)?;
    let returns = startable(alloc, plan, Rank::CanceledOnQueue)?;
    let stops = startable(alloc, plan, Rank::Stop)?;
    let resumes = startable(alloc, plan, Rank::Resume)?;
    Ok(Objects {
        targets,
        cancels,
        returns,
        stops,
        resumes,
    })
}

/// How many blocks a plan has at most: seventeen on each processor, and five more. Room for so many is asked for once; with
/// less the list would grow.
fn room_for_blocks(plan: &IndexedPlan) -> usize {
    17 * usize::from(plan.plan().cpus()) + 5
}

/// The blocks of a plan's run.
fn all_blocks(alloc: Global, plan: &IndexedPlan, objects: &Objects) -> Result<Vec<Block>, Memory>
    requires objects { objects.now ≡ blocks.lists_of plan.now }
    ensures groups { IfOk result (λ made. blocks.joined objects.now made.items ≡ filter (search.has_places plan.now) (groups.groups plan.now)) }
{
    let mut made = Vec::with_capacity(alloc, room_for_blocks(plan))?;
    push_processors(&mut made, plan, objects)?;
    made.push(Block::One(Group::Stages))?;
    made.push(Block::One(Group::Completions))?;
    made.push(Block::One(Group::Cleanups))?;
    made.push(Block::One(Group::Destroys))?;
    made.push(Block::One(Group::Posts))?;
    Ok(made)
}

/// Pushes the blocks of each processor.
fn push_processors(
    made: &mut Vec<Block>,
    plan: &IndexedPlan,
    objects: &Objects,
) -> Result<(), Memory>
    requires objects { objects.now ≡ blocks.lists_of plan.now }
    ensures { OnOk result (blocks.joined objects.now made.new.items ≡ blocks.joined objects.now made.old.items ++ filter (search.has_places plan.now) (flat_map (groups.groups_of_cpu plan.now) (range_with_len 0 plan.now.cpus))) }
{
    for cpu in 0..plan.plan().cpus() {
        push_processor(made, plan, objects, cpu)?;
    }
    Ok(())
}

/// Pushes the blocks of a processor: its top frame's event, its leaving, those that come back, and the
/// starts by rank.
fn push_processor(
    made: &mut Vec<Block>,
    plan: &IndexedPlan,
    objects: &Objects,
    cpu: u8,
) -> Result<(), Memory>
    requires objects { objects.now ≡ blocks.lists_of plan.now }
    ensures { OnOk result (blocks.joined objects.now made.new.items ≡ blocks.joined objects.now made.old.items ++ filter (search.has_places plan.now) (groups.groups_of_cpu plan.now cpu)) }
{
    made.push(Block::One(Group::OwnEvent { cpu }))?;
    made.push(Block::One(Group::Parks { cpu }))?;
    made.push(Block::One(Group::Unparks { cpu }))?;
    push_ranks(made, plan, objects, cpu)
}

/// Pushes the starts on a processor, by rank.
fn push_ranks(
    made: &mut Vec<Block>,
    plan: &IndexedPlan,
    objects: &Objects,
    cpu: u8,
) -> Result<(), Memory>
    requires objects { objects.now ≡ blocks.lists_of plan.now }
    ensures { OnOk result (blocks.joined objects.now made.new.items ≡ blocks.joined objects.now made.old.items ++ filter (search.has_places plan.now) (flat_map (groups.groups_of_rank plan.now cpu) groups.RANKS)) }
{
    for rank in &RANKS {
        push_rank(made, plan, objects, cpu, *rank)?;
    }
    Ok(())
}

/// Pushes the starts of a rank on a processor.
fn push_rank(
    made: &mut Vec<Block>,
    plan: &IndexedPlan,
    objects: &Objects,
    cpu: u8,
    rank: Rank,
) -> Result<(), Memory>
    requires objects { objects.now ≡ blocks.lists_of plan.now }
    ensures { OnOk result (blocks.joined objects.now made.new.items ≡ blocks.joined objects.now made.old.items ++ filter (search.has_places plan.now) (groups.groups_of_rank plan.now cpu rank)) }
{
    match rank {
        Rank::Completion | Rank::Cancel | Rank::CanceledOnQueue | Rank::Stop | Rank::Resume => {
            push_for_each(made, objects, cpu, rank)
        }
        _ => push_starts(made, plan, objects, cpu, rank),
    }
}

/// Pushes the starts of a rank for the requests of each of its objects, if it has any.
fn push_for_each(
    made: &mut Vec<Block>,
    objects: &Objects,
    cpu: u8,
    rank: Rank,
) -> Result<(), Memory>
    ensures { OnOk result (blocks.joined objects.now made.new.items ≡ blocks.joined objects.now made.old.items ++ groups.groups_for cpu rank (blocks.objects_of objects.now rank)) }
{
    if !objects.of(rank).is_empty() {
        made.push(Block::ForEach { cpu, rank })?;
    }
    Ok(())
}

/// Pushes the starts of a rank that has one group on a processor, if something declares such a callback.
fn push_starts(
    made: &mut Vec<Block>,
    plan: &IndexedPlan,
    objects: &Objects,
    cpu: u8,
    rank: Rank,
) -> Result<(), Memory>
    ensures { OnOk result (blocks.joined objects.now made.new.items ≡ blocks.joined objects.now made.old.items ++ filter (search.has_places plan.now) (group.Starts cpu rank ∷ [])) }
{
    let _ = objects;
    if can_start(plan, rank) {
        made.push(Block::One(Group::Starts { cpu, rank }))?;
    }
    Ok(())
}
