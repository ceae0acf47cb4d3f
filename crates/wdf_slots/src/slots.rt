ghost use Rattle.std.specs.Prelude.{◌≡◌, ◌<◌, ◌≤◌, ◌++◌, ◌∷◌, [], length, IfOk};
ghost use Rattle.std.specs.Borrow.{sem};
ghost use Rattle.wdf_model.specs.Tables.{entry, put};

use crate::by_id::ById;
use slab::Slab;
use std::alloc::Global;
use std::marker::Model;
use wdf_base::Memory;
use wdf_maps::{entry_at, put_at};

/// Entries by id. An id that has no slot has the blank entry, so beside 4 bytes for each id that came the memory that is
/// touched is that of the most slots that were taken at a time. No call but [`Slots::make`] takes memory.
///
/// Contracts see the list of the entries, as far as ids came, with the blank one for each id that has no slot.
#[derive(Drop)]
pub struct Slots<T: ById> {
    /// One more than the key of the slot of each id; 0 for an id that has none.
    slot_of: Vec<u32>,
    slots: Slab<T>,
    /// What an id without a slot says.
    blank: T,
}

impl<T: ById> Model for Slots<T> {
    ghost use Rattle.std.specs.Prelude.{List};

    ghost Value = { List T };

    ghost use Rattle.wdf_slots.specs.InSlots.{entries_in, HaveSlots};

    ghost view = { entries_in T.blank };

    ghost invariant = { HaveSlots T.blank T.ROOM };
}

impl<T: ById> Slots<T> {
    ghost use Rattle.wdf_slots.specs.Lends.{lends_entry};

    /// No entry, and room for each id. On [`Memory`], which also answers a slab with room for 2^32 entries, nothing is made.
    pub fn make(alloc: Global) -> Result<Slots<T>, Memory>
        ensures { IfOk result (λ made. made ≡ []) }
    {
        let slot_of = Vec::with_capacity(alloc, T::ROOM as usize)?;
        let slots = Slab::with_capacity(alloc, T::ROOM as usize)?;
        // A slab may have more room than was asked for. One more than each key has to be a number of 32 bits.
        if slots.capacity() > u32::MAX as usize {
            return Err(Memory);
        }
        Ok(Slots {
            slot_of,
            slots,
            blank: T::blank(),
        })
    }

    /// No id has an entry any more, and none came.
    pub fn clear(&mut self)
        ensures { self.new ≡ [] }
    {
        self.slot_of.clear();
        self.slots.clear();
    }

    /// How many ids came, from 0: up to the greatest that was written or removed since [`Slots::make`] or [`Slots::clear`].
    pub fn len(&self) -> u32
        ensures value { result ≡ length self.now }
        ensures few { result ≤ T.ROOM }
    {
        // No more ids came than there are slots, and these are fewer than 2^32: the number of ids is one of 32 bits.
        let _room = self.slots.capacity();
        self.slot_of.len() as u32
    }

    /// The entry of an id; the blank one where it has none.
    pub fn get(&self, id: u32) -> &T
        ensures value { result.now ≡ entry T.blank self.now id }
        ensures few { length self.now ≤ T.ROOM }
    {
        let after = entry_at(&self.slot_of, 0, id);
        if after == 0 {
            return &self.blank;
        }
        match self.slots.get(after as usize - 1) {
            Some(value) => value,
            None => &self.blank,
        }
    }

    /// Writes the entry of an id, with blank ones on the way to it.
    pub fn put(&mut self, id: u32, value: T)
        requires { id < T.ROOM }
        ensures { self.new ≡ put T.blank self.old id value }
    {
        let after = entry_at(&self.slot_of, 0, id);
        if after == 0 {
            let key = self.slots.insert_reserved(value);
            put_at(&mut self.slot_of, 0, id, key as u32 + 1);
        } else {
            self.slots[after as usize - 1] = value;
        }
    }

    /// Writes the entry of the next id.
    pub fn push(&mut self, value: T)
        requires { length self.old < T.ROOM }
        ensures { self.new ≡ self.old ++ value ∷ [] }
    {
        let id = self.len();
        self.put(id, value);
    }

    /// The entry of an id becomes blank, with blank ones on the way to it; where it has a slot, that is given back.
    pub fn remove(&mut self, id: u32)
        requires { id < T.ROOM }
        ensures { self.new ≡ put T.blank self.old id T.blank }
    {
        let after = entry_at(&self.slot_of, 0, id);
        put_at(&mut self.slot_of, 0, id, 0);
        if after != 0 {
            let _value = self.slots.remove(after as usize - 1);
        }
    }

    /// The entry of an id that came, to be changed in its place. Where it has no slot it gets one, with the blank entry.
    pub fn at_mut(&mut self, id: u32) -> &mut T
        requires { id < length self.old }
        ensures* writes_back { sem 𝓛 (lends_entry T.row T.ById self.entry id result) }
        ensures value { result.now ≡ entry T.blank self.old id }
    {
        let after = entry_at(&self.slot_of, 0, id);
        if after == 0 {
            let key = self.slots.insert_reserved(T::blank());
            put_at(&mut self.slot_of, 0, id, key as u32 + 1);
            return &mut self.slots[key];
        }
        &mut self.slots[after as usize - 1]
    }
}
