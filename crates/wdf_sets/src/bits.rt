ghost use Rattle.std.specs.Prelude.{◌≡◌, ◌+◌, ◌*◌, ◌/◌, ◌%◌, ◌<◌, ◌≤◌, ◌^◌, IfOk, MatchOption, Some, count_ones, false, length, replicate, slice_get, slice_set};
ghost use Rattle.wdf_sets.specs.Members.{is_in, members, rank};
ghost use Rattle.wdf_sets.specs.Nexts.{IsNext, NoneFrom};
ghost use Rattle.wdf_sets.specs.Parts.{HasMember, number_of};
ghost use Rattle.wdf_sets.specs.Words.{Writes};

use crate::words::Words;
use std::alloc::Global;
use std::marker::Model;
use wdf_base::Memory;

/// How many ids have their bits in one word.
pub(crate) const WORD: u32 = 64;

/// A part of a set that has the member which is looked for.
#[derive(Drop)]
pub(crate) struct Part {
    /// The first id of the part.
    pub(crate) start: u32,
    /// How many members of the part are before the one that is looked for.
    pub(crate) skipped: u32,
}

/// Bits by id, in words.
#[derive(Drop)]
pub(crate) struct Bits {
    words: Words,
}

/// A word with the bit at a place written.
fn with_bit(word: u64, place: u32, on: bool) -> u64
    requires { place < 64 }
    ensures { Writes word result place on }
{
    if on {
        word | 1 << place
    } else {
        word & !(1 << place)
    }
}

/// How many bits of a word are one.
fn ones(word: u64) -> u32
    ensures value { result ≡ count_ones (word % 2 ^ 64) }
    ensures small { result ≤ 64 }
{
    word.count_ones()
}

impl Model for Bits {
    ghost use Rattle.std.specs.Prelude.{Bool, List};
    ghost use Rattle.wdf_sets.specs.Words.{bits_of};

    ghost Value = { List Bool };

    ghost view = { λ b. bits_of b.words };
}

impl Bits {
    /// The bits of as many words, all false. On [`Memory`] nothing is made.
    pub(crate) fn make(alloc: Global, words: u32) -> Result<Bits, Memory>
        ensures { IfOk result (λ bits. bits ≡ replicate (64 * words) false) }
    {
        Ok(Bits {
            words: Words::make(alloc, words)?,
        })
    }

    /// All bits are false again.
    pub(crate) fn clear(&mut self)
        ensures { self.new ≡ replicate (length self.old) false }
    {
        self.words.clear();
    }

    /// The bit of an id, false past the last one.
    pub(crate) fn get(&self, id: u32) -> bool
        ensures { result ≡ is_in id self.now }
    {
        (self.words.get(id / WORD) >> (id % WORD)) & 1 == 1
    }

    /// Writes the bit of an id.
    pub(crate) fn set(&mut self, id: u32, on: bool)
        requires { id < length self.old }
        ensures { self.new ≡ slice_set self.old id on }
    {
        let word = self.words.get(id / WORD);
        self.words.set(id / WORD, with_bit(word, id % WORD, on));
    }

    /// How many bits of the word that begins with an id are true.
    pub(crate) fn count_word(&self, start: u32) -> u32
        requires begins { start % 64 ≡ 0 }
        requires within { start < length self.now }
        ensures count { result + rank start self.now ≡ rank (start + 64) self.now }
        ensures small { result ≤ 64 }
    {
        ones(self.words.get(start / WORD))
    }

    /// How many bits of `width` ids from `start` on, which are less than a word, are true.
    pub(crate) fn count_part(&self, start: u32, width: u32) -> u32
        requires word { start % 64 + width < 64 }
        requires within { start < length self.now }
        ensures { result + rank start self.now ≡ rank (start + width) self.now }
    {
        let word = self.words.get(start / WORD) >> (start % WORD);
        ones(word & ((1 << width) - 1))
    }

    /// The first id from one on in its word that has a true bit.
    pub(crate) fn first_in_word(&self, id: u32) -> Option<u32>
        ensures { MatchOption result (NoneFrom (λ x. is_in x self.now) id (64 * (id / 64) + 64)) (λ found. IsNext (λ x. is_in x self.now) id (64 * (id / 64) + 64) found) }
    {
        let word = self.words.get(id / WORD) >> (id % WORD);
        if word == 0 {
            None
        } else {
            Some(id + word.trailing_zeros())
        }
    }

    /// The first id from one on that has a true bit. This passes over whole words.
    pub(crate) fn first_from(&self, id: u32) -> Option<u32>
        requires few { length self.now ≤ 2 ^ 31 }
        ensures { MatchOption result (NoneFrom (λ x. is_in x self.now) id (length self.now)) (λ found. IsNext (λ x. is_in x self.now) id (length self.now) found) }
    {
        if let Some(found) = self.first_in_word(id) {
            return Some(found);
        }
        'search: for word in id / WORD + 1..self.words.used() {
            if let Some(found) = self.first_in_word(WORD * word) {
                return Some(found);
            }
        }
        None
    }

    /// The member that is looked for, in a word that has it.
    pub(crate) fn member_in(&self, word: Part) -> u32
        requires few { length self.now ≤ 2 ^ 31 }
        requires word { HasMember self.now word 64 }
        ensures { slice_get (members self.now) (number_of self.now word) ≡ Some result }
    {
        let mut start = word.start;
        let mut skipped = word.skipped;
        let mut size = WORD;
        while size > 1 {
            let half = size / 2;
            let count = self.count_part(start, half);
            if count <= skipped {
                skipped -= count;
                start += half;
                size -= half;
            } else {
                size = half;
            }
        }
        start
    }
}
