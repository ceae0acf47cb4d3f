ghost use Rattle.std.specs.Prelude.{◌≡◌, ◌+◌, ◌*◌, ◌<◌, ◌^◌, IfOk, length, replicate};
ghost use Rattle.wdf_ilist.specs.Places.{end_of as end_of_list, place_of as place_of_item, item_at as item_at_place};
ghost use Rattle.wdf_ilist.specs.Tables.{joined, linked_place, next_of, previous_of};

use crate::table::Table;
use std::alloc::Global;
use wdf_base::Memory;

/// Rings of places, linked both ways. A place that was never linked is a ring of its own.
///
/// A list is a ring: its end, then its items, and the end again. So an item goes in and out with
/// no case on the ends of its list. Ends have the even places and items the odd ones, so that
/// both tables are written only as far as lists and items are used.
#[derive(Drop)]
pub(crate) struct Rings {
    /// The number of the next place and one more, or 0 for the place itself.
    next: Table,
    /// The same of the previous place.
    previous: Table,
}

/// The place of a list's end.
pub(crate) fn end_of(list: u32) -> u32
    requires { 2 * list < 2 ^ 32 }
    ensures { result ≡ end_of_list list }
{
    2 * list
}

/// The place of an item.
pub(crate) fn place_of(item: u32) -> u32
    requires { 2 * item + 1 < 2 ^ 32 }
    ensures { result ≡ place_of_item item }
{
    2 * item + 1
}

/// The item at a place, `None` at an end.
pub(crate) fn item_at(place: u32) -> Option<u32>
    ensures { result ≡ item_at_place place }
{
    if place % 2 == 1 {
        Some(place / 2)
    } else {
        None
    }
}

/// Where the link of a place leads.
fn place_linked(place: u32, link: u32) -> u32
    ensures { result ≡ linked_place place link }
{
    if link == 0 { place } else { link - 1 }
}

impl Rings {
    /// As many places, each a ring of its own.
    pub(crate) fn make(alloc: Global, places: u32) -> Result<Rings, Memory>
        ensures next { IfOk result (λ rings. rings.next ≡ replicate places 0) }
        ensures previous { IfOk result (λ rings. rings.previous ≡ replicate places 0) }
    {
        Ok(Rings {
            next: Table::make(alloc, places)?,
            previous: Table::make(alloc, places)?,
        })
    }

    /// Each place is a ring of its own again.
    pub(crate) fn clear(&mut self)
        ensures next { self.new.next ≡ replicate (length self.old.next) 0 }
        ensures previous { self.new.previous ≡ replicate (length self.old.previous) 0 }
    {
        self.next.clear();
        self.previous.clear();
    }

    /// The place after this one.
    pub(crate) fn next(&self, place: u32) -> u32
        ensures { result ≡ next_of self.now place }
    {
        place_linked(place, self.next.get(place))
    }

    /// The place before this one.
    pub(crate) fn previous(&self, place: u32) -> u32
        ensures { result ≡ previous_of self.now place }
    {
        place_linked(place, self.previous.get(place))
    }

    /// Links one place to another, both ways.
    pub(crate) fn join(&mut self, before: u32, after: u32)
        requires there { before < length self.old.next }
        requires back { after < length self.old.previous }
        requires link_there { after + 1 < 2 ^ 32 }
        requires link_back { before + 1 < 2 ^ 32 }
        ensures { self.new ≡ joined self.old before after }
    {
        self.next.set(before, after + 1);
        self.previous.set(after, before + 1);
    }
}
