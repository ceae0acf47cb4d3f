ghost use Rattle.std.specs.Prelude.{◌≡◌, ◌+◌, ◌-◌, ◌<◌, ◌^◌, [], IfOk};
ghost use Rattle.wdf_model.specs.Tables.{entry};
ghost use Rattle.wdf_maps.specs.Counts.{changed_at, count_at, moved_count};

use crate::{entry_at, put_at};
use std::alloc::Global;
use std::marker::Model;
use wdf_base::{Memory, ObjectId};
use wdf_model::OBJECTS;

/// How many there are of each id. Ids that no object can have aren't counted.
///
/// Contracts see the list of the counts, as far as ids came. No call but [`Counts::make`] takes memory.
#[derive(Drop)]
pub struct Counts {
    counts: Vec<u32>,
}

impl Model for Counts {
    ghost use Rattle.std.specs.Prelude.{ℕ, List, ◌≤◌, vec_capacity};
    ghost use Rattle.wdf_model.specs.declared.room.TheConstants.{OBJECTS};

    ghost Value = { List ℕ };

    ghost view = { λ c. c.counts.items };

    ghost invariant = { λ c. OBJECTS ≤ vec_capacity c.counts };
}

impl Counts {
    /// Nothing is counted. It takes room for each id that an object may have. On [`Memory`] nothing is made.
    pub fn make(alloc: Global) -> Result<Counts, Memory>
        ensures { IfOk result (λ made. made ≡ []) }
    {
        Ok(Counts {
            counts: Vec::with_capacity(alloc, OBJECTS as usize)?,
        })
    }

    /// Nothing is counted any more.
    pub fn clear(&mut self)
        ensures { self.new ≡ [] }
    {
        self.counts.clear();
    }

    /// How many there are of an id.
    pub fn of(&self, id: ObjectId) -> u32
        ensures { result ≡ entry 0 self.now id.0 }
    {
        entry_at(&self.counts, 0, id.0)
    }

    /// One more of an id, if there is one.
    fn more(&mut self, id: Option<ObjectId>)
        requires { count_at self.old id + 1 < 2 ^ 32 }
        ensures { self.new ≡ changed_at self.old (λ n. n + 1) id }
    {
        let Some(id) = id else { return };
        if id.0 < OBJECTS {
            let count = self.of(id) + 1;
            put_at(&mut self.counts, 0, id.0, count);
        }
    }

    /// One less of an id, if there is one.
    fn less(&mut self, id: Option<ObjectId>)
        ensures { self.new ≡ changed_at self.old (λ n. n - 1) id }
    {
        let Some(id) = id else { return };
        if id.0 < OBJECTS {
            let count = self.of(id).saturating_sub(1);
            put_at(&mut self.counts, 0, id.0, count);
        }
    }

    /// One that was of an id is of another; each id may be none.
    pub fn moves(&mut self, from: Option<ObjectId>, to: Option<ObjectId>)
        requires { count_at self.old to + 1 < 2 ^ 32 }
        ensures { self.new ≡ moved_count self.old from to }
    {
        self.more(to);
        self.less(from);
    }
}
