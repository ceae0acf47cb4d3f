//! Laws on the texts of runs, as `wdf_replay` checks them.
ghost use Rattle.std.specs.Prelude.{◌≡◌, ◌≢◌, ◌↔◌, ◌++◌, ℕ, List};
ghost use Rattle.wdf_base.specs.Meaning.{Meaning};
ghost use Rattle.wdf_base.specs.Resolved.{IsResolved};
ghost use Rattle.wdf_base.specs.declared.plan.Plan.{Plan};
ghost use Rattle.wdf_base.specs.declared.event.Event.{Event};
ghost use Rattle.wdf_base.specs.declared.event.Ending.TheVariants.{Running};
ghost use Rattle.wdf_model.specs.rules.Ready.{IsRunOf, ending_of};
ghost use Rattle.wdf_run_text.specs.Lines.{trace_lines};
ghost use Rattle.wdf_run_text.specs.Texts.{text_of, event_lines, end_lines, HasEventsOf};
ghost use Rattle.wdf_replay.specs.Verdicts.{IsWhole};

/// For a resolved plan and a run that has ended: a trace is the text of the run exactly where its lines are those of the run.
pub fn lines_of_texts<A>()
    ensures { (plan : Plan) (m : Meaning A) (run : List Event) (trace : List ℕ) → IsResolved plan → ending_of plan m run ≢ Running
        → (trace ≡ text_of plan m run) ↔ (trace_lines trace ≡ event_lines plan 1 run ++ end_lines plan m run) }
{}

/// For a resolved plan: the text of a run that has ended, and whose events are of the plan, is one that `replay` accepts.
pub fn texts_are_whole<A>()
    ensures { (plan : Plan) (m : Meaning A) (run : List Event) (trace : List ℕ) → IsResolved plan → IsRunOf plan m run → ending_of plan m run ≢ Running
        → HasEventsOf plan run → trace ≡ text_of plan m run → IsWhole plan m trace run }
{}
