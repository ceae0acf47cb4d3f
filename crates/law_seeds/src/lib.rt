//! The words of a seed are the same for a run and for the generated scenario.
#![tactic(auto)]

ghost use Rattle.std.specs.Prelude.{◌≡◌, ℕ};
ghost use Rattle.rand_core.specs.Steps.{stream_of};
ghost use Rattle.rand_xoshiro.specs.SplitMix64.{splitmix_steps};
ghost use Rattle.wdf_gen.specs.Generated.{words};
ghost use Rattle.wdf_run.specs.Seeds.{seed_words};

/// The first words of a number by which `gen N` makes a scenario are those by which `seed N` and `load N` pick, however many are
/// taken. The scenario takes 2,900.
pub fn words_of_seeds_are_one()
    ensures { (n count : ℕ) → words count (stream_of splitmix_steps n) ≡ seed_words n count }
{}
