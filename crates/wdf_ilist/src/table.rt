ghost use Rattle.std.specs.Prelude.{◌≡◌, ◌<◌, IfOk, length, replicate, slice_index, slice_set};

use std::alloc::Global;
use std::marker::Model;
use wdf_base::Memory;

/// A table of numbers by place, all 0 at first. Its memory is taken at once, and written only as
/// far as places are used.
#[derive(Drop)]
pub(crate) struct Table {
    numbers: Vec<u32>,
    places: usize,
}

impl Model for Table {
    ghost use Rattle.std.specs.Prelude.{ℕ, List, ◌≤◌, length, vec_capacity};

    ghost Value = { List ℕ };

    ghost use Rattle.wdf_ilist.specs.Padded.{padded};

    ghost view = { λ t. padded t.numbers.items t.places };

    ghost invariant = { λ t. (length t.numbers.items ≤ t.places) × (t.places ≤ vec_capacity t.numbers) };
}

impl Table {
    /// A table of zeros. On [`Memory`] nothing is made.
    pub(crate) fn make(alloc: Global, places: u32) -> Result<Table, Memory>
        ensures { IfOk result (λ table. table ≡ replicate places 0) }
    {
        Ok(Table {
            numbers: Vec::with_capacity(alloc, places as usize)?,
            places: places as usize,
        })
    }

    /// All numbers are 0 again.
    pub(crate) fn clear(&mut self)
        ensures { self.new ≡ replicate (length self.old) 0 }
    {
        self.numbers.clear();
    }

    /// The number at a place, 0 past the last place.
    pub(crate) fn get(&self, place: u32) -> u32
        ensures { result ≡ slice_index self.now place }
    {
        self.numbers.get(place as usize).copied().unwrap_or(0)
    }

    /// Writes the number at a place.
    pub(crate) fn set(&mut self, place: u32, number: u32)
        requires { place < length self.old }
        ensures { self.new ≡ slice_set self.old place number }
    {
        while self.numbers.len() <= place as usize {
            self.numbers.push_reserved(0);
        }
        self.numbers[place as usize] = number;
    }
}
