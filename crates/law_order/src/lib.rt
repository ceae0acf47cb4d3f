//! The `order` block of a scenario, which has the picks, says nothing else: a scene without its block is refused as the scene is,
//! and has the same plan but for picks.
//!
//! # Choices
//!
//! - **How is it shown?** The lines after the block are at other places without it. What is read of a line there is what is
//!   read of it in the scene, where each place that it names is the new one. No such place is in a plan.
//! - **Where does the block stand?** Between any two lines that are in no block.
#![tactic(auto)]

ghost use Rattle.std.specs.Prelude.{◌≡◌, ◌≤◌, [], length, None};
ghost use Rattle.wdf_scene.specs.declared.scene.Scene.{Scene};
ghost use Rattle.wdf_scene.specs.Written.{IsScene};
ghost use Rattle.wdf_refusals.specs.First.{first_refusal};
ghost use Rattle.wdf_plan.specs.Plans.{plan_of};
ghost use Rattle.law_order.specs.Order.{IsWithoutOrder};

/// Where no line of a scene is refused, none is of the scene without its `order` block.
pub fn scenes_without_order_are_accepted()
    ensures { (scene bare : Scene) → IsScene scene → IsWithoutOrder scene bare → first_refusal scene ≡ None → first_refusal bare ≡ None }
{}

/// And the other way round, where the scene has at most 200,000 picks.
pub fn scenes_with_few_picks_are_accepted()
    ensures { (scene bare : Scene) → IsScene scene → IsWithoutOrder scene bare → first_refusal bare ≡ None → length (plan_of scene).picks ≤ 200000 → first_refusal scene ≡ None }
{}

/// And their plans are the same but for picks.
pub fn plans_without_order_are_the_same()
    ensures { (scene bare : Scene) → IsScene scene → IsWithoutOrder scene bare → record (plan_of scene) { picks = [] } ≡ record (plan_of bare) { picks = [] } }
{}
