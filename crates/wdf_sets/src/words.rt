ghost use Rattle.std.specs.Prelude.{◌≡◌, ◌<◌, ◌≤◌, ℕ, IfOk, length, replicate, slice_index, slice_set};

use std::alloc::Global;
use std::marker::Model;
use wdf_base::Memory;

/// Words by number, all 0 at first. Their memory is taken at once, and written only as far as words are used.
#[derive(Drop)]
pub(crate) struct Words {
    written: Vec<u64>,
    places: usize,
}

impl Model for Words {
    ghost use Rattle.std.specs.Prelude.{ℕ, List, ◌<◌, ◌≤◌, ◌^◌, length, vec_capacity};
    ghost use Rattle.wdf_ilist.specs.Padded.{padded};

    ghost Value = { List ℕ };

    ghost view = { λ w. padded w.written.items w.places };

    ghost invariant = { λ w. (length w.written.items ≤ w.places) × (w.places ≤ vec_capacity w.written) × (w.places < 2 ^ 32) };
}

impl Words {
    /// As many words of zeros. On [`Memory`] nothing is made.
    pub(crate) fn make(alloc: Global, places: u32) -> Result<Words, Memory>
        ensures { IfOk result (λ words. words ≡ replicate places 0) }
    {
        Ok(Words {
            written: Vec::with_capacity(alloc, places as usize)?,
            places: places as usize,
        })
    }

    /// The word with a number, 0 past the last one.
    pub(crate) fn get(&self, word: u32) -> u64
        ensures { result ≡ slice_index self.now word }
    {
        self.written.get(word as usize).copied().unwrap_or(0)
    }

    /// A number from which on all words are 0.
    pub(crate) fn used(&self) -> u32
        ensures none { (k : ℕ) → result ≤ k → slice_index self.now k ≡ 0 }
        ensures within { result ≤ length self.now }
    {
        self.written.len() as u32
    }

    /// Writes the word with a number.
    #[tactic(auto, using(wdf_ilist::proofs::Zeros::padded_more, wdf_ilist::proofs::Zeros::padded_set))]
    pub(crate) fn set(&mut self, word: u32, new: u64)
        requires { word < length self.old }
        ensures { self.new ≡ slice_set self.old word new }
    {
        while self.written.len() <= word as usize {
            self.written.push_reserved(0);
        }
        self.written[word as usize] = new;
    }

    /// All words are 0 again.
    pub(crate) fn clear(&mut self)
        ensures { self.new ≡ replicate (length self.old) 0 }
    {
        self.written.clear();
    }
}
