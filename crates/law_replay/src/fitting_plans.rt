//! The numbers of the plan of a text fit their types.
ghost use Rattle.std.specs.Prelude.{ℕ, ◌≤◌, List, length};
ghost use Rattle.wdf_scene.specs.declared.scene.Scene.{Scene};
ghost use Rattle.wdf_parse.specs.StandsFor.{StandsFor};
ghost use Rattle.wdf_plan.specs.Plans.{plan_of};
ghost use Rattle.law_lines.specs.Fitting.{HasFittingNumbers};

/// The plan of the scene that stands for a text of at most 1,048,576 bytes has numbers that fit 64 bits and lines that fit
/// 32 bits.
pub fn plans_of_texts_fit()
    ensures { (text : List ℕ) (scene : Scene) → length text ≤ 1048576 → StandsFor text scene → HasFittingNumbers (plan_of scene) }
{}
