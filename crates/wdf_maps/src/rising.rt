ghost use Rattle.std.specs.Prelude.{◌≡◌, ◌<◌, ◌≤◌, ◌^◌, IfOk, None, Some, length, slice_get, is_some, [], true};
ghost use Rattle.wdf_maps.specs.Places.{rises, IsPlace, SplitsAt, entry_of, others, with_entry};

use crate::entry::Entry;
use std::alloc::Global;
use std::marker::Model;
use wdf_base::{Memory, ObjectId};

/// Entries by rising id, at most one for each id. Contracts see a record of the entries and of how
/// many there is room for. All calls but [`Rising::make`] take no memory.
#[derive(Drop)]
pub struct Rising<T: Entry> {
    entries: Vec<T>,
    room: u32,
}

impl<T: Entry> Model for Rising<T> {
    ghost use Rattle.wdf_maps.specs.Rising.{Shelf, shelf_in, IsInOrder};

    ghost Value = { Shelf T };

    ghost view = { shelf_in };

    ghost invariant = { IsInOrder T.id };
}

/// Where an id is among the entries, or else where it belongs.
fn place_in<T: Entry>(entries: &[T], id: u32) -> Result<usize, usize>
    requires { rises T.id 0 (2 ^ 32) entries.now ≡ true }
    ensures { IsPlace T.id (2 ^ 32) id entries.now result }
{
    entries.binary_search_by_key(&id, |x| x.id())
}

impl<T: Entry> Rising<T> {
    /// No entry, and room for so many. On [`Memory`] nothing is made.
    pub fn make(alloc: Global, room: u32) -> Result<Rising<T>, Memory>
        ensures room { IfOk result (λ made. made.room ≡ room) }
        ensures entries { IfOk result (λ made. made.entries ≡ []) }
    {
        Ok(Rising {
            entries: Vec::with_capacity(alloc, room as usize)?,
            room,
        })
    }

    /// There is no entry any more.
    pub fn clear(&mut self)
        ensures room { self.new.room ≡ self.old.room }
        ensures entries { self.new.entries ≡ [] }
    {
        self.entries.clear();
    }

    /// How many entries there are, which have room.
    pub fn len(&self) -> u32
        ensures length { result ≡ length self.now.entries }
        ensures within { length self.now.entries ≤ self.now.room }
    {
        self.entries.len() as u32
    }

    /// The k-th entry, from 0.
    pub fn at(&self, k: u32) -> T
        requires { k < length self.now.entries }
        ensures { slice_get self.now.entries k ≡ Some result }
    {
        self.entries[k as usize]
    }

    /// The entries.
    pub fn as_slice(&self) -> &[T]
        ensures { result.now ≡ self.now.entries }
    {
        self.entries.as_slice()
    }

    /// How many entries have a lesser id than this one: they come first.
    pub fn before(&self, id: u32) -> u32
        ensures { SplitsAt T.id id self.now.entries result }
    {
        match place_in(self.entries.as_slice(), id) {
            Ok(at) => at as u32,
            Err(at) => at as u32,
        }
    }

    /// The entry with an id.
    pub fn get(&self, id: ObjectId) -> Option<T>
        ensures { result ≡ entry_of T.id self.now.entries id.0 }
    {
        match place_in(self.entries.as_slice(), id.0) {
            Ok(at) => Some(self.entries[at]),
            Err(_) => None,
        }
    }

    /// Whether there is an entry with a number as its id.
    pub fn has_number(&self, number: u32) -> bool
        ensures { result ≡ is_some (entry_of T.id self.now.entries number) }
    {
        match place_in(self.entries.as_slice(), number) {
            Ok(_) => true,
            Err(_) => false,
        }
    }

    /// Puts an entry in its place, or in place of that with its id, which needs no room. The answer
    /// says whether there was one.
    pub fn put(&mut self, entry: T) -> bool
        requires number { T.id entry < 2 ^ 32 }
        requires room { entry_of T.id self.old.entries (T.id entry) ≡ None → length self.old.entries < self.old.room }
        ensures answer { result ≡ is_some (entry_of T.id self.old.entries (T.id entry)) }
        ensures room { self.new.room ≡ self.old.room }
        ensures entries { self.new.entries ≡ with_entry T.id entry self.old.entries }
    {
        match place_in(self.entries.as_slice(), entry.id()) {
            Ok(at) => {
                self.entries[at] = entry;
                true
            }
            Err(at) => {
                let _ = self.entries.insert(at, entry);
                false
            }
        }
    }

    /// Takes the entry with an id out. The answer says whether there was one.
    pub fn remove(&mut self, id: ObjectId) -> bool
        ensures answer { result ≡ is_some (entry_of T.id self.old.entries id.0) }
        ensures room { self.new.room ≡ self.old.room }
        ensures entries { self.new.entries ≡ others T.id id.0 self.old.entries }
    {
        self.remove_number(id.0)
    }

    /// Takes the entry out that has a number as its id. The answer says whether there was one.
    pub fn remove_number(&mut self, number: u32) -> bool
        ensures answer { result ≡ is_some (entry_of T.id self.old.entries number) }
        ensures room { self.new.room ≡ self.old.room }
        ensures entries { self.new.entries ≡ others T.id number self.old.entries }
    {
        match place_in(self.entries.as_slice(), number) {
            Ok(at) => {
                self.entries.remove(at);
                true
            }
            Err(_) => false,
        }
    }
}
