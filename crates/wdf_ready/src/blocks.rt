//! Groups of candidates in blocks. The groups of one processor and one rank for requests follow one another, one for each
//! object: they are one block, which is left as a whole where nothing may come of it. (own)
ghost use Rattle.std.specs.Prelude.{◌≡◌, ◌<◌, Some, length, slice_get};
ghost use Rattle.std.specs.List.Sorted.{IsNonDecreasing};
ghost use Rattle.wdf_ready.specs.Blocks as blocks;

use std::marker::Model;
use std::mem;
use wdf_base::Rank;
use wdf_model::Group;

/// Groups that follow one another.
#[derive(Clone, Copy)]
pub enum Block {
    /// One group.
    One(Group),
    /// The starts of a rank on a processor for requests: a group for each object of the rank.
    ForEach { cpu: u8, rank: Rank },
}

/// For which objects the groups of each rank for requests are, by rising id, whatever the processor. That the ids rise is an
/// invariant.
pub struct Objects {
    pub(crate) targets: Vec<u32>,
    pub(crate) cancels: Vec<u32>,
    pub(crate) returns: Vec<u32>,
    pub(crate) stops: Vec<u32>,
    pub(crate) resumes: Vec<u32>,
}

impl Drop for Objects {
    /// Lets go of each list by a call, so that all are let go by one call wherever they are owned.
    fn drop(self) {
        let Objects {
            targets,
            cancels,
            returns,
            stops,
            resumes,
        } = self;
        mem::drop(targets);
        mem::drop(cancels);
        mem::drop(returns);
        mem::drop(stops);
        mem::drop(resumes);
    }
}

impl Model for Objects {
    ghost use Rattle.wdf_ready.specs.Blocks.{ObjectLists};

    ghost Value = { ObjectLists };

    ghost view = { λ o. record {
      targets = o.targets.items;
      cancels = o.cancels.items;
      returns = o.returns.items;
      stops = o.stops.items;
      resumes = o.resumes.items;
    } };

    ghost use Rattle.wdf_ready.specs.InObjects.{AreRising};

    ghost invariant = { AreRising };
}

impl Objects {
    /// Those of a rank.
    pub(crate) fn of(&self, rank: Rank) -> &[u32]
        ensures ids { result.now ≡ blocks.objects_of self.now rank }
        ensures rising { IsNonDecreasing result.now }
    {
        match rank {
            Rank::Completion => self.targets.as_slice(),
            Rank::Cancel => self.cancels.as_slice(),
            Rank::CanceledOnQueue => self.returns.as_slice(),
            Rank::Stop => self.stops.as_slice(),
            Rank::Resume => self.resumes.as_slice(),
            _ => &[],
        }
    }
}

/// The groups of candidates of a plan's run that can have places, in blocks, in the order in which candidates come.
pub struct Blocks {
    blocks: Vec<Block>,
    objects: Objects,
}

impl Drop for Blocks {
    /// Lets go of the blocks and of the objects by a call each.
    fn drop(self) {
        let Blocks { blocks, objects } = self;
        mem::drop(blocks);
        mem::drop(objects);
    }
}

impl Model for Blocks {
    ghost use Rattle.wdf_ready.specs.Blocks.{Grouping};

    ghost Value = { Grouping };

    ghost view = { λ b. record { blocks = b.blocks.items; objects = b.objects } };
}

impl Blocks {
    /// These blocks, of these objects.
    pub(crate) fn new(blocks: Vec<Block>, objects: Objects) -> Blocks
        ensures { result ≡ record { blocks = blocks.items; objects = objects } }
    {
        Blocks { blocks, objects }
    }

    /// How many blocks there are.
    pub fn len(&self) -> usize
        ensures { result ≡ length self.now.blocks }
    {
        self.blocks.len()
    }

    /// The block at a place.
    pub(crate) fn at(&self, at: usize) -> Block
        requires { at < length self.now.blocks }
        ensures { slice_get self.now.blocks at ≡ Some result }
    {
        self.blocks[at]
    }

    /// The objects of a rank.
    pub(crate) fn objects_of(&self, rank: Rank) -> &[u32]
        ensures ids { result.now ≡ blocks.objects_of self.now.objects rank }
        ensures rising { IsNonDecreasing result.now }
    {
        self.objects.of(rank)
    }
}
