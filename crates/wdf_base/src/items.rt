//! Lists that are read by number.
//!
//! # Choices
//!
//! - **How long may a list be?** A list (`Items`) has a ceiling in its type: 2^32, or 65,535 where its numbers have
//!   16 bits (classes, agents). So every reader of a length answers a number that fits, with no condition. A builder
//!   asks that the list with the new item stays below its ceiling, which for the last number is one less than its
//!   type would hold; the limits of a scenario are far below.
ghost use Rattle.std.specs.Prelude.{◌≡◌, ◌+◌, ◌<◌, ◌^◌, ◌++◌, ◌∷◌, [], length, is_ok, Some, ◌==◌, if◌then◌else◌, slice_get};
ghost use Rattle.std.specs.Borrow.{sem};

use crate::memory::Memory;
use std::alloc::Global;
use std::marker::Model;

/// The ceiling of a list whose items have numbers of 32 bits.
pub const MANY: u64 = 0x1_0000_0000;

/// The ceiling of a list whose items have numbers of 16 bits, from 0 or from 1.
pub const FEW: u64 = 0xffff;

/// A list whose items are read by their numbers, from 0. It has fewer than `CEILING` items, and
/// fewer than 2^32.
#[derive(Drop)]
pub struct Items<T, const CEILING: u64> {
    items: Vec<T>,
}

impl<T, const CEILING: u64> Model for Items<T, CEILING> {
    ghost use Rattle.std.specs.Prelude.{List, length, ◌<◌, ◌^◌};

    ghost Value = { List T };

    ghost view = { λ s. s.items.items };

    ghost invariant = { λ s. (length s.items.items < 2 ^ 32) × (length s.items.items < CEILING) };
}

impl<T, const CEILING: u64> Items<T, CEILING> {
    ghost use Rattle.wdf_base.specs.Items.{lends_item};

    /// The list with no item.
    pub fn new(alloc: Global) -> Items<T, CEILING>
        requires { 0 < CEILING }
        ensures { result ≡ [] }
    {
        Items {
            items: Vec::new(alloc),
        }
    }

    /// How many items there are.
    pub fn len(&self) -> u32
        ensures value { result ≡ length self.now }
        ensures small { result < CEILING }
    {
        self.items.len() as u32
    }

    /// Whether there is no item.
    pub fn is_empty(&self) -> bool
        ensures { result ≡ (length self.now == 0) }
    {
        self.items.is_empty()
    }

    /// The items.
    pub fn as_slice(&self) -> &[T]
        ensures value { result.now ≡ self.now }
        ensures small { length result.now < CEILING }
        ensures fits { length result.now < 2 ^ 32 }
    {
        self.items.as_slice()
    }

    /// The item with number `k`.
    pub fn get(&self, k: u32) -> T
    where
        T: Copy,
        requires { k < length self.now }
        ensures { slice_get self.now k ≡ Some result }
    {
        self.items[k as usize]
    }

    /// The item with number `k`, to be read.
    pub fn item(&self, k: u32) -> &T
        requires { k < length self.now }
        ensures { slice_get self.now k ≡ Some result.now }
    {
        &self.items[k as usize]
    }

    /// The item with number `k`, to be written.
    pub fn item_mut(&mut self, k: u32) -> &mut T
        requires { k < length self.old }
        ensures* writes_back { sem 𝓛 (lends_item T.row CEILING.row self.entry k result) }
        ensures value { slice_get self.old k ≡ Some result.now }
    {
        &mut self.items[k as usize]
    }
}

impl<T: Drop, const CEILING: u64> Items<T, CEILING> {
    /// Adds an item at the end. Where it is out of memory the list stays as it was, and the item is dropped.
    pub fn push(&mut self, item: T) -> Result<(), Memory>
        requires number { length self.old + 1 < 2 ^ 32 }
        requires room { length self.old + 1 < CEILING }
        ensures { self.new ≡ (if is_ok result then self.old ++ item ∷ [] else self.old) }
    {
        self.items.push(item)?;
        Ok(())
    }
}
