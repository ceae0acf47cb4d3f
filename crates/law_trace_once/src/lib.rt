//! What every run does once, whatever the plan and the agents are: parts of the laws 1, 3 and 9 of a trace.
#![tactic(auto)]

ghost use Rattle.std.specs.Prelude.{◌≡◌, ℕ, true, false, List, Option, Some, slice_get, take};
ghost use Rattle.wdf_base.specs.Meaning.{Meaning};
ghost use Rattle.wdf_base.specs.declared.plan.Plan.{Plan};
ghost use Rattle.wdf_base.specs.Same.{same_callback};
ghost use Rattle.wdf_base.specs.declared.ids.Cpu.{Cpu};
ghost use Rattle.wdf_base.specs.declared.ids.Handle.{Handle};
ghost use Rattle.wdf_base.specs.declared.call.Callback.{Callback};
ghost use Rattle.wdf_base.specs.declared.call.Callback.TheVariants as callback;
ghost use Rattle.wdf_base.specs.declared.event.Event.{Event};
ghost use Rattle.wdf_base.specs.declared.event.Event.TheVariants as event;
ghost use Rattle.wdf_laws.specs.declared.sign.Sign.TheVariants as sign;
ghost use Rattle.wdf_laws.specs.Words.{ever, times};
ghost use Rattle.wdf_model.specs.rules.Ready.{IsRunOf};
ghost use Rattle.wdf_laws.specs.Events.{completed};
ghost use Rattle.wdf_laws.specs.Laws.{completes_once};

/// In every run, an event that completes a request comes after the request's arrival, and no completion of that request
/// comes before it.
#[tactic(auto, using(crate::proofs::Completions::completes_at_each))]
pub fn runs_complete_once<A>()
    ensures { (plan : Plan) (m : Meaning A) (run : List Event) (k : ℕ) (e : Event) → IsRunOf plan m run
        → slice_get run k ≡ Some e → completes_once (take k run) (completed e) ≡ true }
{}

/// In every run, an object is cleaned up at most once.
#[tactic(auto, using(crate::proofs::Ends::cleaned_once))]
pub fn runs_clean_up_once<A>()
    ensures { (plan : Plan) (m : Meaning A) (run : List Event) (k : ℕ) (o : Handle) → IsRunOf plan m run
        → slice_get run k ≡ Some (event.Cleanup o) → ever (sign.Cleaned o.id.0) (take k run) ≡ false }
{}

/// In every run, an object ends at most once.
#[tactic(auto, using(crate::proofs::Ends::ends_once))]
pub fn runs_end_once<A>()
    ensures { (plan : Plan) (m : Meaning A) (run : List Event) (k : ℕ) (o : Handle) → IsRunOf plan m run
        → slice_get run k ≡ Some (event.Destroy o) → ever (sign.Destroyed o.id.0) (take k run) ≡ false }
{}

/// In every run, no callback but the destroy callback begins on an object after the object's cleanup.
#[tactic(auto, using(crate::proofs::Ends::begins_early))]
pub fn runs_begin_before_cleanup<A>()
    ensures { (plan : Plan) (m : Meaning A) (run : List Event) (k : ℕ) (cpu : Cpu) (c : Callback) (o : Handle) (r : Option Handle) → IsRunOf plan m run
        → slice_get run k ≡ Some (event.Start cpu c o r) → same_callback c callback.EvtDestroyCallback ≡ false
        → ever (sign.Cleaned o.id.0) (take k run) ≡ false }
{}

/// In every run, an object ends after its cleanup.
#[tactic(auto, using(crate::proofs::Cleanups::ends_after_cleanup))]
pub fn runs_end_after_cleanup<A>()
    ensures { (plan : Plan) (m : Meaning A) (run : List Event) (k : ℕ) (o : Handle) → IsRunOf plan m run
        → slice_get run k ≡ Some (event.Destroy o) → ever (sign.Cleaned o.id.0) (take k run) ≡ true }
{}

/// In every run, an object ends after as many references to it were given back as were taken.
#[tactic(auto, using(crate::proofs::References::ends_balanced))]
pub fn runs_end_without_references<A>()
    ensures { (plan : Plan) (m : Meaning A) (run : List Event) (k : ℕ) (o : Handle) → IsRunOf plan m run
        → slice_get run k ≡ Some (event.Destroy o)
        → times (sign.Dereferenced o.id.0) (take k run) ≡ times (sign.Referenced o.id.0) (take k run) }
{}
