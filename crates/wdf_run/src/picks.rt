//! Where the picks of a run come from.
ghost use Rattle.std.specs.Prelude.{◌≡◌, ◌+◌, ℕ, suc, slice_index};

use rand_core::{Rng, SeedableRng};
use rand_xoshiro::SplitMix64;

/// A source of picks, one a turn.
pub trait Picks {
    // The pick of each turn from now on.
    ghost pick: { Self → ℕ → ℕ };

    /// The pick of this turn.
    fn next_pick(&mut self) -> u64
        ensures value { result ≡ pick self.old 0 }
        ensures later { (turn : ℕ) → pick self.new turn ≡ pick self.old (suc turn) };
}

/// The picks of a list, and 0 after its last.
#[derive(Drop)]
pub struct Listed<'a> {
    picks: &'a [u64],
    turn: usize,
}

impl<'a> Listed<'a> {
    /// The picks of a list, from its first.
    pub fn new(picks: &'a [u64]) -> Listed<'a>
        ensures list { result.picks.now ≡ picks.now }
        ensures first { result.turn ≡ 0 }
    {
        Listed { picks, turn: 0 }
    }
}

impl<'a> Picks for Listed<'a> {
    ghost pick = { λ s turn. slice_index s.picks.now (s.turn + turn) };

    fn next_pick(&mut self) -> u64 {
        match self.picks.get(self.turn) {
            Some(pick) => {
                self.turn += 1;
                *pick
            }
            None => 0,
        }
    }
}

/// The words of a seed.
#[derive(Drop)]
pub struct Seeded {
    words: SplitMix64,
}

impl Seeded {
    /// The words of a seed, from its first.
    pub fn new(seed: u64) -> Seeded
        ensures { result.words ≡ seed }
    {
        Seeded {
            words: SplitMix64::seed_from_u64(seed),
        }
    }
}

impl Picks for Seeded {
    ghost use Rattle.rand_core.specs.Steps.{stream_of};
    ghost use Rattle.rand_xoshiro.specs.SplitMix64.{splitmix_steps};
    ghost use Rattle.wdf_run.specs.Seeds.{word_after};

    ghost pick = { λ s turn. word_after (stream_of splitmix_steps s.words) turn };

    fn next_pick(&mut self) -> u64 {
        self.words.next_u64()
    }
}
