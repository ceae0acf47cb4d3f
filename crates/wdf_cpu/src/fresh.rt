//! The lists and the counts of the processors, as they are made: empty. They are made in pieces: a refusal lets go what was
//! made before it, and each such way is proved.
ghost use Rattle.std.specs.Prelude.{◌≡◌, [], IfOk, replicate};
ghost use Rattle.wdf_cpu.specs.Fresh.{AreFresh, CountNothing};

use crate::levels::Levels;
use crate::stack::Stack;
use crate::untils::Untils;
use std::alloc::Global;
use wdf_base::Memory;
use wdf_maps::Rising;
use wdf_model::FRAMES;
use wdf_tally::Tally;

/// The lists by processor and by frame.
#[derive(Drop)]
pub(crate) struct FreshLists {
    pub(crate) stacks: Vec<Stack>,
    pub(crate) parked: Rising<u32>,
    pub(crate) levels: Levels,
    pub(crate) live: Vec<bool>,
    pub(crate) peaks: Vec<u8>,
    pub(crate) untils: Untils,
}

impl FreshLists {
    /// It takes room for each frame of a run on so many processors.
    pub(crate) fn make(alloc: Global, cpus: u8) -> Result<FreshLists, Memory>
        ensures { IfOk result (AreFresh cpus) }
    {
        Ok(FreshLists {
            live: Vec::with_capacity(alloc, FRAMES as usize)?,
            peaks: Vec::with_capacity(alloc, FRAMES as usize)?,
            untils: Untils::make(alloc)?,
            parked: Rising::make(alloc, FRAMES)?,
            levels: Levels::make(alloc)?,
            stacks: empty_stacks(alloc, cpus)?,
        })
    }
}

/// The counts by object.
#[derive(Drop)]
pub(crate) struct FreshTallies {
    pub(crate) on: Tally,
    pub(crate) waits: Tally,
    pub(crate) parked_for: Tally,
}

impl FreshTallies {
    /// It takes room for each object of a run.
    pub(crate) fn make(alloc: Global) -> Result<FreshTallies, Memory>
        ensures { IfOk result CountNothing }
    {
        Ok(FreshTallies {
            on: Tally::make(alloc)?,
            waits: Tally::make(alloc)?,
            parked_for: Tally::make(alloc)?,
        })
    }
}

/// The stacks of processors that are empty.
fn empty_stacks(alloc: Global, cpus: u8) -> Result<Vec<Stack>, Memory>
    ensures { IfOk result (λ stacks. stacks.items ≡ replicate cpus []) }
{
    let mut stacks = Vec::with_capacity(alloc, usize::from(cpus))?;
    for _cpu in 0..cpus {
        match Stack::make(alloc) {
            Ok(stack) => stacks.push_reserved(stack),
            Err(memory) => return Err(memory),
        }
    }
    Ok(stacks)
}
