//! Laws over all runs of the machine: what is counted, and what is kept twice, agrees.
#![tactic(auto)]

ghost use Rattle.std.specs.Prelude.{◌≡◌, ℕ, List, take};
ghost use Rattle.wdf_base.specs.Meaning.{Meaning};
ghost use Rattle.wdf_base.specs.declared.plan.Plan.{Plan};
ghost use Rattle.wdf_base.specs.declared.event.Event.{Event};
ghost use Rattle.wdf_base.specs.declared.call.Call.{Call};
ghost use Rattle.wdf_model.specs.rules.Deeds.{do_deeds};
ghost use Rattle.wdf_model.specs.rules.Calls.{is_met, is_met_then, outcome};
ghost use Rattle.wdf_model.specs.rules.Ready.{IsRunOf, state_after};
ghost use Rattle.law_machine_base.specs.OverRuns.{DeclaredAgree, FramesAgree};
ghost use Rattle.law_machine_base.specs.Agreement.{held_agrees, holdings_agree, steps_agree, unsettled_agrees};
ghost use Rattle.law_machine_counts.specs.AtPlaces.{AtEachPlace};

/// At each place of every run, each queue's count of held requests is the number of those that are held from it.
#[tactic(auto, using(crate::proofs::HeldOverRuns::held_agrees_at_each))]
pub fn held_agrees<A>()
    ensures { AtEachPlace {A = A} held_agrees }
{}

/// At each place of every run, each request's holding names the power-managed queue from which the driver holds
/// it, and 0 where there is none.
#[tactic(auto, using(crate::proofs::HeldOverRuns::holdings_agree_at_each))]
pub fn holdings_agree<A>()
    ensures { AtEachPlace {A = A} holdings_agree }
{}

/// At each place of every run, the requests that are held from a device's power-managed queues and aren't acknowledged
/// are among those that power takes for unsettled there, and as many.
#[tactic(auto, using(crate::proofs::Unsettled::unsettled_agrees_at_each))]
pub fn unsettled_agrees<A>()
    ensures { AtEachPlace {A = A} unsettled_agrees }
{}

/// At each place of every run, a device's step is noted as running exactly where the frame of a step's callback of that
/// device is there, and there is at most one.
#[tactic(auto, using(crate::proofs::StepsOverRuns::steps_agree_at_each))]
pub fn steps_agree<A>()
    ensures { AtEachPlace {A = A} steps_agree }
{}

/// At each place of every run, an object of a kind that only the scenario declares is a declared one, of that kind.
#[tactic(auto, using(crate::proofs::DeclaredOverRuns::declared_agree_at_each))]
pub fn declared_agree<A>()
    ensures { (plan : Plan) (m : Meaning A) (run : List Event) → IsRunOf plan m run → (n : ℕ) → DeclaredAgree plan (state_after plan m (take n run)) }
{}

/// At each place of every run, each frame is there once, on a processor or parked. Its number isn't above
/// that of the events. Its object was made, and it knows the nearest device of that.
#[tactic(auto, using(crate::proofs::StepsOverRuns::frames_agree_at_each))]
pub fn frames_agree<A>()
    ensures { (plan : Plan) (m : Meaning A) (run : List Event) → IsRunOf plan m run → (n : ℕ) → FramesAgree (state_after plan m (take n run)) }
{}

/// After every run, whether a call's condition is met once its first part is done is what the test on the state at hand
/// says.
#[tactic(auto, using(crate::proofs::WaitsOverRuns::waits_as_tested))]
pub fn waits_as_tested<A>()
    ensures { (plan : Plan) (m : Meaning A) (run : List Event) (cpu f : ℕ) (c : Call) → IsRunOf plan m run
        → is_met (do_deeds plan (outcome plan (state_after plan m run) cpu f c).deeds (state_after plan m run)) c ≡ is_met_then plan (state_after plan m run) c }
{}
