ghost use Rattle.std.specs.Prelude.{◌≡◌, ◌<◌, [], IfOk};
ghost use Rattle.wdf_model.specs.Tables.{entry, put};

use std::alloc::Global;
use std::marker::Model;
use wdf_base::{Memory, ObjectId};
use wdf_maps::{entry_at, put_at};
use wdf_model::OBJECTS;

/// The due tick of each timer, by its id; 0 of an id of which none was written.
///
/// Contracts see the list of the ticks, as far as ids came. No call but [`DueTicks::make`] takes memory.
#[derive(Drop)]
pub(crate) struct DueTicks {
    ticks: Vec<u64>,
}

impl Model for DueTicks {
    ghost use Rattle.std.specs.Prelude.{ℕ, List, ◌≤◌, vec_capacity};
    ghost use Rattle.wdf_model.specs.declared.room.TheConstants.{OBJECTS};

    ghost Value = { List ℕ };

    ghost view = { λ d. d.ticks.items };

    ghost invariant = { λ d. OBJECTS ≤ vec_capacity d.ticks };
}

impl DueTicks {
    /// No tick is written. It takes room for those of all objects. On [`Memory`] nothing is made.
    pub(crate) fn make(alloc: Global) -> Result<DueTicks, Memory>
        ensures { IfOk result (λ made. made ≡ []) }
    {
        Ok(DueTicks {
            ticks: Vec::with_capacity(alloc, OBJECTS as usize)?,
        })
    }

    /// As at the opening.
    pub(crate) fn clear(&mut self)
        ensures { self.new ≡ [] }
    {
        self.ticks.clear();
    }

    /// The due tick of a timer.
    pub(crate) fn of(&self, id: ObjectId) -> u64
        ensures { result ≡ entry 0 self.now id.0 }
    {
        entry_at(&self.ticks, 0, id.0)
    }

    /// Writes the due tick of a timer.
    pub(crate) fn put(&mut self, id: ObjectId, tick: u64)
        requires { id.0 < OBJECTS }
        ensures { self.new ≡ put 0 self.old id.0 tick }
    {
        put_at(&mut self.ticks, 0, id.0, tick);
    }
}
