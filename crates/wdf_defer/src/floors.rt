ghost use Rattle.std.specs.Prelude.{◌≡◌, ◌<◌, ◌/◌, [], IfOk};
ghost use Rattle.wdf_model.specs.Tables.{put};
ghost use Rattle.wdf_defer.specs.Floors.{NEVER, floor_of};

use std::alloc::Global;
use std::marker::Model;
use wdf_base::{Memory, ObjectId};
use wdf_maps::{entry_at, put_at};
use wdf_model::OBJECTS;

/// How many ids have one floor.
pub(crate) const BLOCK: u32 = 64;

/// What reads as the floor where none was written: a tick that no clock comes past.
pub(crate) const NEVER: u64 = u64::MAX;

/// For each 64 ids a floor: a tick before which none of their timers is due.
///
/// Contracts see the list of the floors, as far as ids came. No call but [`Floors::make`] takes memory.
#[derive(Drop)]
pub(crate) struct Floors {
    ticks: Vec<u64>,
}

impl Model for Floors {
    ghost use Rattle.std.specs.Prelude.{ℕ, List, ◌/◌, ◌<◌, vec_capacity};
    ghost use Rattle.wdf_model.specs.declared.room.TheConstants.{OBJECTS};

    ghost Value = { List ℕ };

    ghost view = { λ f. f.ticks.items };

    ghost invariant = { λ f. OBJECTS / 64 < vec_capacity f.ticks };
}

impl Floors {
    /// No floor is written. It takes room for those of all objects. On [`Memory`] nothing is made.
    pub(crate) fn make(alloc: Global) -> Result<Floors, Memory>
        ensures { IfOk result (λ made. made ≡ []) }
    {
        Ok(Floors {
            ticks: Vec::with_capacity(alloc, (OBJECTS / BLOCK + 1) as usize)?,
        })
    }

    /// As at the opening.
    pub(crate) fn clear(&mut self)
        ensures { self.new ≡ [] }
    {
        self.ticks.clear();
    }

    /// The floor of an id.
    pub(crate) fn of(&self, id: ObjectId) -> u64
        ensures { result ≡ floor_of self.now id.0 }
    {
        entry_at(&self.ticks, NEVER, id.0 / BLOCK)
    }

    /// Writes the floor of an id, and so that of all ids which have it.
    pub(crate) fn put(&mut self, id: ObjectId, tick: u64)
        requires { id.0 < OBJECTS }
        ensures { self.new ≡ put NEVER self.old (id.0 / 64) tick }
    {
        put_at(&mut self.ticks, NEVER, id.0 / BLOCK, tick);
    }
}
