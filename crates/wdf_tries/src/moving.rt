//! The scene that a seed runs.
ghost use Rattle.std.specs.Prelude.{◌≡◌, ◌+◌, IfOk, length};
ghost use Rattle.wdf_run.specs.Seeds.{seed_words};
ghost use Rattle.wdf_scene.specs.Naming.{HasProperNames};
ghost use Rattle.wdf_scene.specs.Written.{IsScene};
ghost use Rattle.wdf_tries.specs.Tries.{moved_case, scene_for};

use crate::opening::limit_of;
use crate::tried::Case;
use rand_core::{Rng, SeedableRng};
use rand_xoshiro::SplitMix64;
use std::alloc::Global;
use wdf_base::Memory;
use wdf_jitter::moved_scene;
use wdf_scene::Scene;

/// The first words of a seed, so many.
///
/// # Errors
///
/// [`Memory`] where memory was refused.
pub fn words_of_seed(alloc: Global, seed: u64, count: u64) -> Result<Vec<u64>, Memory>
    ensures words { IfOk result (λ words. words.items ≡ seed_words seed count) }
    ensures length { IfOk result (λ words. length words.items ≡ count) }
{
    let mut words = Vec::new(alloc);
    let mut stream = SplitMix64::seed_from_u64(seed);
    for _turn in 0..count {
        words.push(stream.next_u64())?;
    }
    Ok(words)
}

/// The scene that a seed of a case runs.
///
/// # Errors
///
/// [`Memory`] where memory was refused, or where the scene has no plan.
pub(crate) fn scene_for(alloc: Global, case: &Case, seed: u64) -> Result<Scene, Memory>
    requires scene { IsScene case.now.scene }
    requires names { HasProperNames case.now.scene }
    ensures moved { IfOk result (λ scene. scene ≡ scene_for case.now seed) }
    ensures scene { IfOk result IsScene }
    ensures names { IfOk result HasProperNames }
{
    let limit = limit_of(alloc, &case.scene)?;
    let count = u64::from(limit) + u64::from(case.scene.line_len());
    let words = words_of_seed(alloc, seed, count)?;
    let (_, moving) = words.as_slice().split_at(limit as usize);
    moved_scene(alloc, case.jitter, moving, &case.scene)
}

/// The case of the scene that a seed of a case runs: nothing of it is moved any more.
///
/// # Errors
///
/// [`Memory`] where memory was refused, or where the scene has no plan.
pub fn moved_case(alloc: Global, case: Case, seed: u64) -> Result<Case, Memory>
    requires scene { IsScene case.scene }
    requires names { HasProperNames case.scene }
    ensures moved { IfOk result (λ moved. moved ≡ moved_case case seed) }
    ensures scene { IfOk result (λ moved. IsScene moved.scene) }
    ensures names { IfOk result (λ moved. HasProperNames moved.scene) }
{
    let scene = scene_for(alloc, &case, seed)?;
    Ok(Case {
        scene,
        expectations: case.expectations,
        jitter: 0,
    })
}
