//! What is kept of requests, as it is made: of none.
ghost use Rattle.std.specs.Prelude.{IfOk};
ghost use Rattle.wdf_request.specs.Fresh.{AreEmpty, HaveNone};

use std::alloc::Global;
use wdf_base::Memory;
use wdf_maps::Counts;
use wdf_model::OBJECTS;
use wdf_sets::{IdSet, four_sets};
use wdf_tally::Tally;

/// Counts of no request. They are made apart from the sets: a refusal lets go what was made before it, and each such way is
/// proved.
#[derive(Drop)]
pub(crate) struct FreshCounts {
    pub(crate) returning: Tally,
    pub(crate) sent: Counts,
    pub(crate) unfinished: Counts,
    pub(crate) due_held: Tally,
}

impl FreshCounts {
    /// It takes room for each queue, target and device.
    pub(crate) fn make(alloc: Global) -> Result<FreshCounts, Memory>
        ensures { IfOk result HaveNone }
    {
        Ok(FreshCounts {
            returning: Tally::make(alloc)?,
            sent: Counts::make(alloc)?,
            unfinished: Counts::make(alloc)?,
            due_held: Tally::make(alloc)?,
        })
    }
}

/// Sets of no request.
#[derive(Drop)]
pub(crate) struct FreshSets {
    pub(crate) closing: IdSet,
    pub(crate) due: IdSet,
    pub(crate) sendings: IdSet,
    pub(crate) returns: IdSet,
}

impl FreshSets {
    /// It takes room for each request.
    pub(crate) fn make(alloc: Global) -> Result<FreshSets, Memory>
        ensures { IfOk result AreEmpty }
    {
        let (closing, due, sendings, returns) = four_sets(alloc, OBJECTS)?;
        Ok(FreshSets {
            closing,
            due,
            sendings,
            returns,
        })
    }
}
