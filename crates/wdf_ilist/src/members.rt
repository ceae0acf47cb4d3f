ghost use Rattle.std.specs.Prelude.{◌≡◌, ◌+◌, ◌-◌, ◌==◌, ◌<◌, ◌^◌, IfOk, None, Some, if◌then◌else◌, length, replicate, slice_index};
ghost use Rattle.wdf_ilist.specs.Tables.{entered, left};

use crate::table::Table;
use std::alloc::Global;
use wdf_base::Memory;

/// Which list each item is on, and how many items each list has.
#[derive(Drop)]
pub(crate) struct Members {
    /// The number of an item's list and one more, or 0 for none.
    owners: Table,
    /// How many items a list has.
    counts: Table,
}

impl Members {
    /// As many lists, all empty, and items on none.
    pub(crate) fn make(alloc: Global, lists: u32, items: u32) -> Result<Members, Memory>
        ensures owners { IfOk result (λ members. members.owners ≡ replicate items 0) }
        ensures counts { IfOk result (λ members. members.counts ≡ replicate lists 0) }
    {
        Ok(Members {
            owners: Table::make(alloc, items)?,
            counts: Table::make(alloc, lists)?,
        })
    }

    /// All lists are empty again, and the items on none.
    pub(crate) fn clear(&mut self)
        ensures owners { self.new.owners ≡ replicate (length self.old.owners) 0 }
        ensures counts { self.new.counts ≡ replicate (length self.old.counts) 0 }
    {
        self.owners.clear();
        self.counts.clear();
    }

    /// The list that an item is on.
    pub(crate) fn owner(&self, item: u32) -> Option<u32>
        ensures { result ≡ (let owner = slice_index self.now.owners item in if owner == 0 then None else Some (owner - 1)) }
    {
        let owner = self.owners.get(item);
        if owner == 0 { None } else { Some(owner - 1) }
    }

    /// How many items a list has.
    pub(crate) fn count(&self, list: u32) -> u32
        ensures { result ≡ slice_index self.now.counts list }
    {
        self.counts.get(list)
    }

    /// An item comes onto a list.
    pub(crate) fn enter(&mut self, list: u32, item: u32)
        requires known { list < length self.old.counts }
        requires within { item < length self.old.owners }
        requires number { list + 1 < 2 ^ 32 }
        requires room { slice_index self.old.counts list + 1 < 2 ^ 32 }
        ensures { self.new ≡ entered self.old list item }
    {
        self.owners.set(item, list + 1);
        self.counts.set(list, self.counts.get(list) + 1);
    }

    /// An item leaves its list.
    pub(crate) fn leave(&mut self, list: u32, item: u32)
        requires known { list < length self.old.counts }
        requires within { item < length self.old.owners }
        requires there { 0 < slice_index self.old.counts list }
        ensures { self.new ≡ left self.old list item }
    {
        self.owners.set(item, 0);
        self.counts.set(list, self.counts.get(list) - 1);
    }
}
