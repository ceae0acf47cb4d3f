//! A scene whose `at` lines are moved has a plan where the scene has one: the scene's but for the ticks of posts.
#![tactic(auto)]

ghost use Rattle.std.specs.Prelude.{◌≡◌, ℕ, List};
ghost use Rattle.wdf_scene.specs.declared.scene.Scene.{Scene};
ghost use Rattle.wdf_refusals.specs.First.{first_refusal};
ghost use Rattle.wdf_plan.specs.Plans.{plan_of};
ghost use Rattle.wdf_jitter.specs.Moved.{moved_scene};
ghost use Rattle.law_moved.specs.Ticks.{without_ticks};

/// A moved scene is refused as the scene is: in the same line for the same reason, or not at all. So each seed of a hunt with
/// `jitter` has a plan where the scenario has one.
pub fn moved_scenes_are_refused_alike()
    ensures { (most : ℕ) (words : List ℕ) (scene : Scene) → first_refusal (moved_scene most words scene) ≡ first_refusal scene }
{}

/// The plan of a moved scene has the scene's limit of events, so a seed's words that move lines come after those that pick.
pub fn moved_scenes_have_the_same_limit()
    ensures { (most : ℕ) (words : List ℕ) (scene : Scene) → (plan_of (moved_scene most words scene)).limit ≡ (plan_of scene).limit }
{}

/// And it is the scene's plan but for the ticks of its posts.
pub fn moved_scenes_have_the_same_plan()
    ensures { (most : ℕ) (words : List ℕ) (scene : Scene) → without_ticks (plan_of (moved_scene most words scene)) ≡ without_ticks (plan_of scene) }
{}
