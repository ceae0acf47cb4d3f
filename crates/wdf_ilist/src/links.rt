ghost use Rattle.std.specs.Prelude.{◌≡◌, ◌<◌, ◌^◌, ◌++◌, ◌∷◌, ◌==◌, [], IfOk, drop, false, is_some, length, map, replicate, slice_set};
ghost use Rattle.wdf_ilist.specs.Family.{AreApart, after_in, first_of, is_on_any, last_of, list_at, list_of, without};

use crate::members::Members;
use crate::rings::{Rings, end_of, item_at, place_of};
use std::alloc::Global;
use std::marker::Model;
use wdf_base::Memory;

/// A family of lists of items. Lists and items have numbers from 0, and an item is on at most one
/// list. Each call but [`Links::make`] takes no memory and constant time; the first use of a list
/// or an item also writes the places before its own, each once.
///
/// Contracts see a record: `lists`, a list of items for each number, and `items`, how many items
/// there are.
#[derive(Drop)]
pub struct Links {
    rings: Rings,
    members: Members,
}

impl Model for Links {
    ghost use Rattle.wdf_ilist.specs.Family.{Family};

    ghost Value = { Family };

    ghost use Rattle.wdf_ilist.specs.Links.{family_in, IsSound};

    ghost view = { family_in };

    ghost invariant = { IsSound };
}

impl Links {
    /// `lists` empty lists, and `items` items on none of them. All memory is taken here, and
    /// it is written only as far as lists and items are used. On [`Memory`] nothing is made.
    pub fn make(alloc: Global, lists: u32, items: u32) -> Result<Links, Memory>
        requires lists { lists < 2 ^ 31 }
        requires items { items < 2 ^ 31 }
        ensures { IfOk result (λ links. links ≡ record { lists = replicate lists []; items = items }) }
    {
        Ok(Links {
            rings: Rings::make(alloc, 2 * lists.max(items))?,
            members: Members::make(alloc, lists, items)?,
        })
    }

    /// All lists are empty again. It takes constant time.
    pub fn clear(&mut self)
        ensures { self.new ≡ record { lists = replicate (length self.old.lists) []; items = self.old.items } }
    {
        self.rings.clear();
        self.members.clear();
    }

    /// How many items a list has: 0 where there is no such list.
    pub fn len(&self, list: u32) -> u32
        ensures { result ≡ length (list_at self.now.lists list) }
    {
        self.members.count(list)
    }

    /// Whether a list has no item.
    pub fn is_empty(&self, list: u32) -> bool
        ensures { result ≡ (length (list_at self.now.lists list) == 0) }
    {
        self.len(list) == 0
    }

    /// The list that an item is on, `None` where it is on none.
    pub fn owner(&self, item: u32) -> Option<u32>
        ensures list { result ≡ list_of item self.now.lists }
        ensures any { is_some result ≡ is_on_any item self.now.lists }
        ensures apart { AreApart self.now }
    {
        self.members.owner(item)
    }

    /// The first item of a list, `None` where it is empty.
    pub fn front(&self, list: u32) -> Option<u32>
        ensures first { result ≡ first_of (list_at self.now.lists list) }
        ensures apart { AreApart self.now }
    {
        if self.members.count(list) == 0 {
            return None;
        }
        item_at(self.rings.next(end_of(list)))
    }

    /// The last item of a list, `None` where it is empty.
    pub fn back(&self, list: u32) -> Option<u32>
        ensures { result ≡ last_of (list_at self.now.lists list) }
    {
        if self.is_empty(list) {
            return None;
        }
        item_at(self.rings.previous(end_of(list)))
    }

    /// The item after this one on its list, `None` where it is the last or on no list.
    pub fn after(&self, item: u32) -> Option<u32>
        ensures { result ≡ after_in item self.now.lists }
    {
        let _list = self.members.owner(item)?;
        item_at(self.rings.next(place_of(item)))
    }

    /// Puts an item at the end of a list.
    pub fn push_back(&mut self, list: u32, item: u32)
        requires known { list < length self.old.lists }
        requires within { item < self.old.items }
        requires free { is_on_any item self.old.lists ≡ false }
        ensures { self.new ≡ record self.old { lists = slice_set self.old.lists list (list_at self.old.lists list ++ item ∷ []) } }
    {
        let rings = &mut self.rings;
        let end = end_of(list);
        let place = place_of(item);
        let last = rings.previous(end);
        rings.join(last, place);
        rings.join(place, end);
        self.members.enter(list, item);
    }

    /// Puts an item at the front of a list.
    pub fn push_front(&mut self, list: u32, item: u32)
        requires known { list < length self.old.lists }
        requires within { item < self.old.items }
        requires free { is_on_any item self.old.lists ≡ false }
        ensures { self.new ≡ record self.old { lists = slice_set self.old.lists list (item ∷ list_at self.old.lists list) } }
    {
        let rings = &mut self.rings;
        let end = end_of(list);
        let place = place_of(item);
        let first = rings.next(end);
        rings.join(end, place);
        rings.join(place, first);
        self.members.enter(list, item);
    }

    /// Takes an item from its list, and gives the number of the list: `None`, and nothing changes,
    /// where it is on none. The order of the others stays.
    pub fn unlink(&mut self, item: u32) -> Option<u32>
        ensures list { result ≡ list_of item self.old.lists }
        ensures any { is_some result ≡ is_on_any item self.old.lists }
        ensures gone { self.new ≡ record self.old { lists = map (without item) self.old.lists } }
    {
        let list = self.members.owner(item)?;
        let place = place_of(item);
        let before = self.rings.previous(place);
        let after = self.rings.next(place);
        self.rings.join(before, after);
        self.members.leave(list, item);
        Some(list)
    }

    /// Takes the first item from a list, `None` where it is empty.
    pub fn pop_front(&mut self, list: u32) -> Option<u32>
        ensures first { result ≡ first_of (list_at self.old.lists list) }
        ensures rest { self.new ≡ record self.old { lists = slice_set self.old.lists list (drop 1 (list_at self.old.lists list)) } }
    {
        let item = self.front(list)?;
        let _list = self.unlink(item);
        Some(item)
    }
}
