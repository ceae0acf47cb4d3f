//! A canonical text is its own canonical form, and has a plan where the text has one of whose scene it is, with the same runs
//! but for line numbers.
//!
//! # Choices
//!
//! - **What of two runs is the same but for line numbers?** Their events, but for the numbers in `step` and `fault`, and their
//!   ending. A device acts in the order of its line numbers. In both texts they rise from line to line, so the order is the same.
#![tactic(auto)]

ghost use Rattle.std.specs.Prelude.{◌≡◌, ℕ, List, None};
ghost use Rattle.wdf_scene.specs.declared.scene.Scene.{Scene};
ghost use Rattle.wdf_parse.specs.Canonical.{canonical_text};
ghost use Rattle.wdf_parse.specs.StandsFor.{StandsFor, without_numbers};
ghost use Rattle.wdf_refusals.specs.First.{first_refusal};
ghost use Rattle.wdf_plan.specs.Plans.{plan_of};
ghost use Rattle.law_canonical.specs.Canonical.{HasPlanToo, HasRunsToo, IsCanonical};
ghost use Rattle.law_bare.specs.Lines.{without_lines};

/// The canonical text of a scene is its own canonical form: a scene stands for it, the same but for line numbers, and it is the
/// canonical text of that scene.
pub fn canonical_texts_are_canonical()
    ensures { (input : List ℕ) (scene : Scene) (stands : StandsFor input scene) → IsCanonical (canonical_text scene.version stands.ws) scene }
{}

/// Of two scenes that are the same but for line numbers both have a plan or none has: where no line of one is refused, none of
/// the other is.
pub fn refusals_see_no_numbers()
    ensures { (a b : Scene) → without_numbers a ≡ without_numbers b → first_refusal a ≡ None → first_refusal b ≡ None }
{}

/// And their plans are the same but for line numbers.
pub fn plans_see_no_numbers()
    ensures { (a b : Scene) → without_numbers a ≡ without_numbers b → without_lines (plan_of a) ≡ without_lines (plan_of b) }
{}

/// So the canonical text of a scene that has a plan has a plan, which is the same but for line numbers.
pub fn canonical_texts_have_plans()
    ensures { (input : List ℕ) (scene : Scene) (stands : StandsFor input scene) → first_refusal scene ≡ None → HasPlanToo (canonical_text scene.version stands.ws) scene }
{}

/// And its plan has the same picks and the same runs, with the agents of `wdf_dev`, but for line numbers: so the run that `order`
/// makes of the canonical text has the same events but for the numbers in `step` and `fault`, and ends alike.
pub fn canonical_texts_have_the_same_runs()
    ensures { (input : List ℕ) (scene : Scene) (stands : StandsFor input scene) → first_refusal scene ≡ None → HasRunsToo (canonical_text scene.version stands.ws) scene }
{}
