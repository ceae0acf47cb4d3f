//! What `kmdfhunt shrink` writes is a scenario, and `order` of it makes the story's run.
//!
//! # Choices
//!
//! - **Of which scenes is it said?** Of each that can be written: of a text's scene, and of one whose `at` lines are moved.
//! - **What of two runs is the same?** Their events but for the numbers in `step` and `fault`, and their ending. The text of a story
//!   has no comments and no empty lines, so its lines have other numbers.
//! - **How is it shown?** The scenario without its `order` block has the same plan but for picks (`law_order`). With its lines
//!   numbered anew it has the same plan but for these numbers, and the same runs (`law_canonical`, `law_bare`). A new block of at
//!   most 200,000 picks changes neither.
#![tactic(auto)]

ghost use Rattle.std.specs.Prelude.{◌≡◌, ◌<◌, ◌≤◌, ◌^◌, ℕ, All, List, None, length};
ghost use Rattle.wdf_base.specs.declared.event.Event.{Event};
ghost use Rattle.wdf_scene.specs.declared.scene.Scene.{Scene};
ghost use Rattle.wdf_parse.specs.StandsFor.{StandsFor};
ghost use Rattle.wdf_refusals.specs.First.{first_refusal};
ghost use Rattle.wdf_plan.specs.Plans.{plan_of};
ghost use Rattle.wdf_model.specs.rules.Ready.{IsPickedRun};
ghost use Rattle.wdf_dev.specs.Agents.{agent_meaning};
ghost use Rattle.wdf_jitter.specs.Moved.{moved_scene};
ghost use Rattle.wdf_tries.specs.declared.tried.Case.{Case};
ghost use Rattle.wdf_tries.specs.Tries.{moved_case, scene_for};
ghost use Rattle.wdf_shrink.specs.Stories.{IsStoryOfSeed};
ghost use Rattle.wdf_shrink.specs.Texts.{story_text};
ghost use Rattle.law_story.specs.Seeds.{TellsSeed};
ghost use Rattle.law_story.specs.Spelled.{IsSpelled};
ghost use Rattle.law_story.specs.Stories.{IsOrdered, IsScenarioOf};

/// The scene of a text can be written.
pub fn scenes_of_texts_are_spelled()
    ensures { (text : List ℕ) (scene : Scene) → StandsFor text scene → IsSpelled scene }
{}

/// So can a scene whose `at` lines are moved.
pub fn moved_scenes_are_spelled()
    ensures { (most : ℕ) (words : List ℕ) (scene : Scene) → IsSpelled scene → IsSpelled (moved_scene most words scene) }
{}

/// The text of a story is a scenario that has a plan where the scene has one: the scene's but for line numbers and picks, which are
/// the story's. And its runs are the scene's by the same picks, but for line numbers.
pub fn story_texts_are_scenarios()
    ensures { (scene : Scene) → IsSpelled scene → first_refusal scene ≡ None → (picks : List ℕ) → All (λ pick. pick < 2 ^ 64) picks → length picks ≤ 200000
        → IsScenarioOf scene picks (story_text scene picks) }
{}

/// So `order` of such a text makes the run that its picks make of the scene's plan, but for line numbers, and it ends alike.
pub fn scenarios_are_ordered()
    ensures { (scene : Scene) (picks text : List ℕ) → IsScenarioOf scene picks text → (run : List Event) → IsPickedRun (plan_of scene) agent_meaning picks run
        → IsOrdered (plan_of scene) run text }
{}

/// The text of the story of a seed, of a case whose scene can be written and has a plan: `order` of it makes a run of the kind of the
/// seed's, but for line numbers, with no more events. With `jitter` it is the story of the moved scene.
pub fn stories_of_seeds_are_ordered()
    ensures { (tried : Case) → IsSpelled tried.scene → first_refusal tried.scene ≡ None → (seed : ℕ) (picks : List ℕ) → IsStoryOfSeed (moved_case tried seed) seed picks
        → TellsSeed tried seed (story_text (scene_for tried seed) picks) }
{}
