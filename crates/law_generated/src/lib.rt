//! Laws of each generated scenario: it is the scene of its printed text, and has a plan. The functions do nothing: their
//! contracts are the laws.
#![tactic(auto)]

ghost use Rattle.std.specs.Prelude.{◌≡◌, ℕ, None};
ghost use Rattle.wdf_base.specs.Resolved.{IsResolved};
ghost use Rattle.wdf_scene.specs.Naming.{HasProperNames};
ghost use Rattle.wdf_scene.specs.Written.{IsScene};
ghost use Rattle.wdf_parse.specs.Printing.{printed};
ghost use Rattle.wdf_parse.specs.StandsFor.{StandsFor};
ghost use Rattle.wdf_refusals.specs.First.{first_refusal};
ghost use Rattle.wdf_plan.specs.Plans.{plan_of};
ghost use Rattle.wdf_gen.specs.Generated.{generated};

/// The scene that a number gives stands for its printed text, with its line numbers. So it has lines of
/// the language, and declares names of the language.
pub fn generated_scenes_have_texts()
    ensures stands { (n : ℕ) → StandsFor (printed (generated n)) (generated n) }
    ensures lines { (n : ℕ) → IsScene (generated n) }
    ensures names { (n : ℕ) → HasProperNames (generated n) }
{}

/// The scene that a number gives has a plan: no line of it is refused. So `resolve` answers that plan, or
/// is out of memory, and the plan is all that a resolved plan is.
pub fn generated_scenes_have_plans()
    ensures accepted { (n : ℕ) → first_refusal (generated n) ≡ None }
    ensures resolved { (n : ℕ) → IsResolved (plan_of (generated n)) }
{}
