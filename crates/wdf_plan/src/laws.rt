//! What holds of each plan, and of each callback's statements. The functions do nothing: their contracts are the laws.
ghost use Rattle.std.specs.Prelude.{◌≡◌, ℕ, Some, None, slice_get};
ghost use Rattle.wdf_base.specs.declared.call.Callback.{Callback};
ghost use Rattle.wdf_base.specs.Resolved.{IsResolved};
ghost use Rattle.wdf_scene.specs.declared.line.NumberedLine.{NumberedLine};
ghost use Rattle.wdf_scene.specs.declared.line.SceneLine.TheVariants as line;
ghost use Rattle.wdf_scene.specs.declared.scene.Scene.{Scene};
ghost use Rattle.wdf_scene.specs.Naming.{HasProperNames};
ghost use Rattle.wdf_scene.specs.Written.{IsScene};
ghost use Rattle.wdf_refusals.specs.First.{first_refusal};
ghost use Rattle.wdf_plan.specs.Flow.{HasTree};
ghost use Rattle.wdf_plan.specs.Plans.{plan_of};

/// The plan of a scene that stands for a text and declares names of the language, and in which nothing is
/// refused, is all that a resolved plan is. Its numbers are in their ranges and stand for what their places need.
pub fn plans_are_resolved()
    ensures { (scene : Scene) → IsScene scene → HasProperNames scene → first_refusal scene ≡ None → IsResolved (plan_of scene) }
{}

/// In a scene that stands for a text, the lines after each line with `on` spell a tree of statements, up to the
/// `end` of the callback. The callback's statements are those of that tree.
pub fn statements_are_of_trees()
    ensures { (scene : Scene) → IsScene scene → (k : ℕ) (l : NumberedLine) (c : Callback) → slice_get scene.lines k ≡ Some l → l.form ≡ line.On c → HasTree scene k }
{}
