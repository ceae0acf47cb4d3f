//! The nine laws of a trace, which every run of a resolved plan keeps.
#![tactic(auto)]

ghost use Rattle.std.specs.Prelude.{List};
ghost use Rattle.wdf_base.specs.Meaning.{Meaning};
ghost use Rattle.wdf_base.specs.Resolved.{IsResolved};
ghost use Rattle.wdf_base.specs.declared.plan.Plan.{Plan};
ghost use Rattle.wdf_base.specs.declared.event.Event.{Event};
ghost use Rattle.wdf_model.specs.rules.Ready.{IsRunOf};
ghost use Rattle.law_trace_all.specs.Kept.{KeepsLaws};

/// Every run of a resolved plan, with any agents, keeps the nine laws of a trace at each place.
pub fn runs_keep_laws<A>()
    ensures { (plan : Plan) (m : Meaning A) (run : List Event) → IsResolved plan → IsRunOf plan m run → KeepsLaws plan run }
{}
