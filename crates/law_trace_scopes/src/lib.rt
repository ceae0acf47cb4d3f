//! Law 2 of a trace, on scope locks, which every run of a resolved plan keeps, whatever the agents are.
#![tactic(auto)]

ghost use Rattle.std.specs.Prelude.{◌≡◌, ℕ, true, List, Some, slice_get, take};
ghost use Rattle.wdf_base.specs.Meaning.{Meaning};
ghost use Rattle.wdf_base.specs.Resolved.{IsResolved};
ghost use Rattle.wdf_base.specs.declared.plan.Plan.{Plan};
ghost use Rattle.wdf_base.specs.declared.event.Event.{Event};
ghost use Rattle.wdf_laws.specs.Frames.{frames_after};
ghost use Rattle.wdf_laws.specs.Laws.{law_2};
ghost use Rattle.wdf_model.specs.rules.Ready.{IsRunOf};

/// In every run of a resolved plan, each event keeps the second law: callbacks under one scope lock come one after the
/// other.
#[tactic(auto, using(crate::proofs::Scopes::law_2_at_each))]
pub fn runs_begin_one_by_one<A>()
    ensures { (plan : Plan) (m : Meaning A) (run : List Event) (k : ℕ) (e : Event) → IsResolved plan → IsRunOf plan m run
        → slice_get run k ≡ Some e → law_2 plan run (frames_after (take k run)) e ≡ true }
{}
