ghost use Rattle.std.specs.Prelude.{◌≡◌, ◌+◌, ◌*◌, ◌/◌, ◌<◌, ◌≤◌, ◌^◌, IfOk, MatchOption, false, length, replicate, slice_get, slice_set};
ghost use Rattle.std.specs.Int.{div_ceil};
ghost use Rattle.wdf_sets.specs.Counted.{has_some};
ghost use Rattle.wdf_sets.specs.Members.{is_in, members, rank};
ghost use Rattle.wdf_sets.specs.Nexts.{IsNext, NoneFrom};
ghost use Rattle.wdf_sets.specs.Parts.{HasMember, number_of};

use crate::bits::{Bits, Part, WORD};
use std::alloc::Global;
use std::marker::Model;
use std::mem;
use wdf_base::Memory;

/// How many ids are counted together.
const BLOCK: u32 = 512;

/// How many words a block has.
const BLOCK_WORDS: u32 = 8;

/// The bound is rounded up to a multiple of this: one word notes for so many ids which words have a member.
const ROUND: u32 = 4096;

/// No set has room for so many ids.
const TOO_MANY: usize = 0x8000_0000;

/// A set of ids below a bound. No call looks at each id: the members of each 512 ids are counted, and it is
/// noted which words of 64 ids have some.
///
/// Contracts see a list of bits, one for each id from 0.
pub struct IdSet {
    bits: Bits,
    /// Which words of the bits have a member.
    words: Bits,
    /// How many members each block has.
    counts: Vec<u32>,
    /// How many members there are.
    len: u32,
}

impl Drop for IdSet {
    /// Lets go of each vector by a call, so that a set is let go by one call wherever one is owned.
    fn drop(self) {
        let IdSet {
            bits,
            words,
            counts,
            len: _,
        } = self;
        mem::drop(bits);
        mem::drop(words);
        mem::drop(counts);
    }
}

impl Model for IdSet {
    ghost use Rattle.std.specs.Prelude.{Bool, List};

    ghost Value = { List Bool };

    ghost use Rattle.wdf_sets.specs.Counted.{IsInOrder};

    ghost view = { λ s. s.bits };

    ghost invariant = { IsInOrder };
}

/// Nothing is counted in any block any more.
fn zero_counts(counts: &mut Vec<u32>)
    ensures { counts.new.items ≡ replicate (length counts.old.items) 0 }
{
    counts.as_mut_slice().fill(0);
}

/// Notes whether a word has a member.
fn note_word(bits: &Bits, word: u32, words: &mut Bits)
    requires there { word < length words.old }
    requires small { 64 * word < 2 ^ 32 }
    ensures { words.new ≡ slice_set words.old word (has_some word bits.now) }
{
    let some = bits.first_in_word(WORD * word).is_some();
    if words.get(word) != some {
        words.set(word, some);
    }
}

impl IdSet {
    /// The empty set of ids below a bound, which is rounded up to a multiple of 4,096. All memory is
    /// taken here, and it is written only as far as ids are used. On [`Memory`] nothing is made.
    pub fn make(alloc: Global, bound: u32) -> Result<IdSet, Memory>
        requires { bound < 2 ^ 31 }
        ensures { IfOk result (λ set. set ≡ replicate (4096 * div_ceil bound 4096) false) }
    {
        let rounds = bound.div_ceil(ROUND);
        Ok(IdSet {
            bits: Bits::make(alloc, ROUND / WORD * rounds)?,
            words: Bits::make(alloc, rounds)?,
            counts: vec![in alloc; 0; (ROUND / BLOCK * rounds) as usize]?,
            len: 0,
        })
    }

    /// The empty set of the ids of a table with so many entries. No set has room for 2^31 ids: where a table has as many,
    /// which no scenario's plan comes near, it is refused as [`Memory`].
    pub fn for_table(alloc: Global, entries: usize) -> Result<IdSet, Memory>
        ensures { IfOk result (λ set. set ≡ replicate (4096 * div_ceil entries 4096) false) }
    {
        if entries >= TOO_MANY {
            return Err(Memory);
        }
        IdSet::make(alloc, entries as u32)
    }

    /// The set has no member any more.
    pub fn clear(&mut self)
        ensures { self.new ≡ replicate (length self.old) false }
    {
        self.bits.clear();
        self.words.clear();
        zero_counts(&mut self.counts);
        self.len = 0;
    }

    /// How many members there are.
    pub fn len(&self) -> u32
        ensures { result ≡ length (members self.now) }
    {
        self.len
    }

    /// Whether an id is a member: none is from the bound on.
    pub fn contains(&self, id: u32) -> bool
        ensures { result ≡ is_in id self.now }
    {
        self.bits.get(id)
    }

    /// Makes an id a member, or takes it out.
    pub fn put(&mut self, id: u32, on: bool)
        requires { id < length self.old }
        ensures { self.new ≡ slice_set self.old id on }
    {
        if self.bits.get(id) == on {
            return;
        }
        self.bits.set(id, on);
        note_word(&self.bits, id / WORD, &mut self.words);
        let count = &mut self.counts[(id / BLOCK) as usize];
        if on {
            *count += 1;
            self.len += 1;
        } else {
            *count -= 1;
            self.len -= 1;
        }
    }

    /// How many members are below an id.
    pub fn before(&self, id: u32) -> u32
        ensures { result ≡ rank id self.now }
    {
        if (id / BLOCK) as usize >= self.counts.len() {
            return self.len;
        }
        let below = self.before_block(id / BLOCK) + self.before_word(id);
        below + self.bits.count_part(id - id % WORD, id % WORD)
    }

    /// How many members are below a block.
    fn before_block(&self, block: u32) -> u32
        requires { 512 * block ≤ length self.now }
        ensures { result ≡ rank (512 * block) self.now }
    {
        let mut below = 0;
        for counted in 0..block {
            below += self.counts[counted as usize];
        }
        below
    }

    /// How many members of an id's block are below its word.
    fn before_word(&self, id: u32) -> u32
        requires { id < length self.now }
        ensures { result + rank (512 * (id / 512)) self.now ≡ rank (64 * (id / 64)) self.now }
    {
        let mut below = 0;
        for word in id / BLOCK * BLOCK_WORDS..id / WORD {
            below += self.bits.count_word(WORD * word);
        }
        below
    }

    /// The k-th member, by rising id from 0; `None` exactly where there are fewer.
    pub fn at(&self, k: u32) -> Option<u32>
        ensures { result ≡ slice_get (members self.now) k }
    {
        if self.len <= k {
            return None;
        }
        if k == 0 {
            return self.from(0);
        }
        let word = self.word_of(self.block_of(k));
        Some(self.bits.member_in(word))
    }

    /// The first member from an id on, `None` where there is none.
    pub fn from(&self, id: u32) -> Option<u32>
        ensures { result ≡ slice_get (members self.now) (rank id self.now) }
    {
        if self.len == 0 {
            return None;
        }
        match self.bits.first_in_word(id) {
            Some(found) => Some(found),
            None => {
                let word = self.words.first_from(id / WORD + 1)?;
                self.bits.first_in_word(WORD * word)
            }
        }
    }

    /// The first member from an id on that is below an end, `None` where there is none.
    pub fn next(&self, from: u32, end: u32) -> Option<u32>
        ensures { MatchOption result (NoneFrom (λ id. is_in id self.now) from end) (λ found. IsNext (λ id. is_in id self.now) from end found) }
    {
        match self.from(from) {
            Some(found) => { if found < end { Some(found) } else { None } }
            None => None,
        }
    }

    /// The block of the member that has as many before it.
    fn block_of(&self, k: u32) -> Part
        requires { k < rank (length self.now) self.now }
        ensures number { number_of self.now result ≡ k }
        ensures block { HasMember self.now result 512 }
        ensures few { length self.now ≤ 2 ^ 31 }
    {
        let mut block = 0;
        let mut skipped = k;
        while self.counts[block as usize] <= skipped {
            skipped -= self.counts[block as usize];
            block += 1;
        }
        Part {
            start: BLOCK * block,
            skipped,
        }
    }

    /// The word of the member that is looked for, in a block that has it.
    fn word_of(&self, block: Part) -> Part
        requires block { HasMember self.now block 512 }
        ensures same { number_of self.now result ≡ number_of self.now block }
        ensures word { HasMember self.now result 64 }
    {
        let mut start = block.start;
        let mut skipped = block.skipped;
        loop {
            let count = self.bits.count_word(start);
            if skipped < count {
                return Part { start, skipped };
            }
            skipped -= count;
            start = WORD * self.words.first_in_word(start / WORD + 1).unwrap();
        }
    }
}
