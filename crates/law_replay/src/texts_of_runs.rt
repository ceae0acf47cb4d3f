//! The traces that `replay` accepts are exactly the texts of runs that have ended.
ghost use Rattle.std.specs.Prelude.{◌≡◌, ◌≢◌, ◌↔◌, ◌≤◌, ℕ, List, None, length};
ghost use Rattle.wdf_base.specs.Meaning.{Meaning};
ghost use Rattle.wdf_base.specs.Resolved.{IsResolved};
ghost use Rattle.wdf_base.specs.declared.plan.Plan.{Plan};
ghost use Rattle.wdf_base.specs.declared.event.Event.{Event};
ghost use Rattle.wdf_base.specs.declared.event.Ending.TheVariants.{Running};
ghost use Rattle.wdf_scene.specs.declared.scene.Scene.{Scene};
ghost use Rattle.wdf_parse.specs.StandsFor.{StandsFor};
ghost use Rattle.wdf_refusals.specs.First.{first_refusal};
ghost use Rattle.wdf_plan.specs.Plans.{plan_of};
ghost use Rattle.wdf_model.specs.rules.Ready.{IsRunOf, ending_of};
ghost use Rattle.wdf_dev.specs.Agents.{agent_meaning};
ghost use Rattle.wdf_run_text.specs.Texts.{text_of, HasEventsOf};
ghost use Rattle.wdf_replay.specs.Verdicts.{IsWhole};
ghost use Rattle.law_lines.specs.Agents.{HasFittingAgents};
ghost use Rattle.law_lines.specs.Fitting.{HasFittingNumbers};

/// For a resolved plan and agents whose numbers fit, a trace is one of those that `replay` accepts, with this run, exactly
/// where the run has ended and the trace is its text.
pub fn texts_of_runs_are_whole<A>()
    ensures { (plan : Plan) (m : Meaning A) (run : List Event) (trace : List ℕ) → IsResolved plan → HasFittingNumbers plan → HasFittingAgents plan m
        → IsWhole plan m trace run ↔ (IsRunOf plan m run × (ending_of plan m run ≢ Running) × (trace ≡ text_of plan m run)) }
{}

/// Each event of a run of a text's plan, with the agents of `wdf_dev`, is an event of the plan.
pub fn runs_of_texts_are_of_plan()
    ensures { (text : List ℕ) (scene : Scene) (run : List Event) → length text ≤ 1048576 → StandsFor text scene → first_refusal scene ≡ None
        → IsRunOf (plan_of scene) agent_meaning run → HasEventsOf (plan_of scene) run }
{}

/// For a text's plan and the agents of `wdf_dev`, a trace is one of those that `replay` accepts, with this run, exactly where
/// the run has ended and the trace is its text.
pub fn traces_of_texts_are_whole()
    ensures { (text : List ℕ) (scene : Scene) (run : List Event) (trace : List ℕ) → length text ≤ 1048576 → StandsFor text scene → first_refusal scene ≡ None
        → IsWhole (plan_of scene) agent_meaning trace run
        ↔ (IsRunOf (plan_of scene) agent_meaning run × (ending_of (plan_of scene) agent_meaning run ≢ Running) × (trace ≡ text_of (plan_of scene) agent_meaning run)) }
{}
