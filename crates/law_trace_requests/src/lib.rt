//! The laws 7 and 8 of a trace, on cancel callbacks and on the order of presentations. Every run of the written machine
//! keeps them, whatever the plan and the agents are.
#![tactic(auto)]

ghost use Rattle.std.specs.Prelude.{◌≡◌, ℕ, true, List, Some, slice_get, take};
ghost use Rattle.wdf_base.specs.Meaning.{Meaning};
ghost use Rattle.wdf_base.specs.declared.plan.Plan.{Plan};
ghost use Rattle.wdf_base.specs.declared.event.Event.{Event};
ghost use Rattle.wdf_model.specs.rules.Ready.{IsRunOf};
ghost use Rattle.wdf_laws.specs.Laws.{law_7, law_8};

/// In every run, EvtRequestCancel begins once for a request, and only for one that is marked and whose cancel was posted.
#[tactic(auto, using(crate::proofs::CancelsOverRuns::law_7_at_each))]
pub fn runs_cancel_once<A>()
    ensures { (plan : Plan) (m : Meaning A) (run : List Event) (k : ℕ) (e : Event) → IsRunOf plan m run
        → slice_get run k ≡ Some e → law_7 (take k run) e ≡ true }
{}

/// In every run, a queue presents from its head. Of two requests that wait, one that entered at the head comes before one
/// that entered at the tail. Of two at the head the later one comes first, and of two at the tail the earlier one.
#[tactic(auto, using(crate::proofs::Turns::law_8_at_each))]
pub fn runs_present_in_turn<A>()
    ensures { (plan : Plan) (m : Meaning A) (run : List Event) (k : ℕ) (e : Event) → IsRunOf plan m run
        → slice_get run k ≡ Some e → law_8 (take k run) e ≡ true }
{}
