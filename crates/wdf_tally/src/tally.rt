ghost use Rattle.std.specs.Prelude.{◌≡◌, ◌+◌, ◌<◌, ◌≤◌, ◌^◌, [], IfOk, MatchOption, length};
ghost use Rattle.wdf_model.specs.Tables.{entry};
ghost use Rattle.wdf_model.specs.declared.room.TheConstants.{OBJECTS};
ghost use Rattle.wdf_maps.specs.Counts.{count_at, moved_count};
ghost use Rattle.wdf_sets.specs.Nexts.{IsNext, NoneFrom};
ghost use Rattle.wdf_tally.specs.Counted.{is_counted, noted};

use std::alloc::Global;
use std::marker::Model;
use wdf_base::{Memory, ObjectId};
use wdf_maps::{Counts, object_at};
use wdf_model::OBJECTS;
use wdf_sets::IdSet;

/// How many there are of each id, and of which ids there are some. Ids that no object can have aren't counted.
///
/// Contracts see the list of the counts, as far as ids came. No call but [`Tally::make`] takes memory.
#[derive(Drop)]
pub struct Tally {
    counts: Counts,
    /// The ids of which there are some.
    some: IdSet,
}

impl Model for Tally {
    ghost use Rattle.std.specs.Prelude.{ℕ, List};

    ghost Value = { List ℕ };

    ghost use Rattle.wdf_tally.specs.Counted.{IsTallied};

    ghost view = { λ t. t.counts };

    ghost invariant = { IsTallied };
}

/// Writes whether there are some of an id, if there is one.
fn note(some: &mut IdSet, counts: &Counts, id: Option<ObjectId>)
    requires { OBJECTS ≤ length some.old }
    ensures noted { some.new ≡ noted counts.now some.old id }
    ensures size { length some.new ≡ length some.old }
{
    let Some(id) = id else { return };
    if id.0 < OBJECTS {
        some.put(id.0, counts.of(id) > 0);
    }
}

impl Tally {
    /// Nothing is counted. It takes room for each id that an object may have. On [`Memory`] nothing is made.
    pub fn make(alloc: Global) -> Result<Tally, Memory>
        ensures { IfOk result (λ made. made ≡ []) }
    {
        Ok(Tally {
            counts: Counts::make(alloc)?,
            some: IdSet::make(alloc, OBJECTS)?,
        })
    }

    /// Nothing is counted any more.
    pub fn clear(&mut self)
        ensures { self.new ≡ [] }
    {
        self.counts.clear();
        self.some.clear();
    }

    /// How many there are of an id.
    pub fn of(&self, id: ObjectId) -> u32
        ensures { result ≡ entry 0 self.now id.0 }
    {
        self.counts.of(id)
    }

    /// The first id from one on of which there are some.
    pub fn next(&self, from: ObjectId) -> Option<ObjectId>
        ensures { MatchOption result (NoneFrom (is_counted self.now) from.0 OBJECTS) (λ id. IsNext (is_counted self.now) from.0 OBJECTS id.0) }
    {
        object_at(self.some.next(from.0, OBJECTS))
    }

    /// One that was of an id is of another; each id may be none.
    pub fn moves(&mut self, from: Option<ObjectId>, to: Option<ObjectId>)
        requires { count_at self.old to + 1 < 2 ^ 32 }
        ensures { self.new ≡ moved_count self.old from to }
    {
        self.counts.moves(from, to);
        note(&mut self.some, &self.counts, to);
        note(&mut self.some, &self.counts, from);
    }
}
