//! What holds of each text that has a plan, and of each trace. The functions do nothing: their contracts are the laws.
ghost use Rattle.std.specs.Prelude.{◌≡◌, ◌≢◌, ℕ, List};
ghost use Rattle.wdf_base.specs.Meaning.{Meaning};
ghost use Rattle.wdf_base.specs.declared.plan.Plan.{Plan};
ghost use Rattle.wdf_base.specs.declared.event.Event.{Event};
ghost use Rattle.wdf_base.specs.declared.event.Ending.TheVariants as ending;
ghost use Rattle.wdf_base.specs.Resolved.{IsResolved};
ghost use Rattle.wdf_model.specs.rules.Ready.{ending_of, IsPickedRun, IsRunOf};
ghost use Rattle.wdf_output.specs.Endings.{status_of};
ghost use Rattle.wdf_run_text.specs.Texts.{text_of};
ghost use Rattle.wdf_top.specs.Answers.{By, HasPlan, IsTraceOf, Picking};
ghost use Rattle.wdf_top.specs.declared.run.Picks.{Picks};

/// Each plan that a text has is resolved. So by `one_event_a_line` of `wdf_trace` no two of its events share a line.
pub fn plans_of_texts_are_resolved()
    ensures { (input : List ℕ) (plan : Plan) → HasPlan input plan → IsResolved plan }
{}

/// A trace is the text of a run of the written machine, from the opening to where nothing may follow.
pub fn traces_are_of_runs<A>()
    ensures { (plan : Plan) (m : Meaning A) (by : Picking) (text : List ℕ) (status : ℕ) → IsTraceOf plan m by text status
        → (run : List Event) × IsRunOf plan m run × (ending_of plan m run ≢ ending.Running)
        × (text ≡ text_of plan m run) }
{}

/// A plan, its agents and its picks have at most one trace, with one status.
pub fn one_trace_a_plan<A>()
    ensures runs { (plan : Plan) (m : Meaning A) (picks : List ℕ) (run another : List Event) → IsPickedRun plan m picks run → IsPickedRun plan m picks another
        → (text_of plan m run ≡ text_of plan m another) × (status_of (ending_of plan m run) ≡ status_of (ending_of plan m another)) }
    ensures traces { (plan : Plan) (m : Meaning A) (picks : Picks) (text other : List ℕ) (status another : ℕ) → IsTraceOf plan m (By picks) text status → IsTraceOf plan m (By picks) other another
        → (text ≡ other) × (status ≡ another) }
{}
