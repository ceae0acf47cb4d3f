//! The laws 1, 3 and 9 of a trace, on parents and children. Every run of the written machine keeps them, whatever the plan
//! and the agents are, since events say what the parents and the classes of the tree are.
#![tactic(auto)]

ghost use Rattle.std.specs.Prelude.{◌≡◌, ℕ, true, List, Some, slice_get, take};
ghost use Rattle.wdf_base.specs.Meaning.{Meaning};
ghost use Rattle.wdf_base.specs.declared.plan.Plan.{Plan};
ghost use Rattle.wdf_base.specs.declared.event.Event.{Event};
ghost use Rattle.wdf_model.specs.rules.Ready.{IsRunOf, state_after};
ghost use Rattle.wdf_laws.specs.Laws.{law_1, law_3, law_9};
ghost use Rattle.law_trace_families.specs.Family.{ClassesAgree, FamilyAgrees};

/// At each place of every run, what the plan and the events before say of an object's parent is what the tree has,
/// where the object is there. They say nothing of an object before it is made.
#[tactic(auto, using(crate::proofs::Families::family_agrees_at_each))]
pub fn runs_tell_parents<A>()
    ensures { (plan : Plan) (m : Meaning A) (run : List Event) → IsRunOf plan m run → (n : ℕ) → FamilyAgrees plan (take n run) (state_after plan m (take n run)) }
{}

/// At each place of every run, what the events before say of an object's class is what the tree has, where the object
/// is there.
#[tactic(auto, using(crate::proofs::Families::classes_agree_at_each))]
pub fn runs_tell_classes<A>()
    ensures { (plan : Plan) (m : Meaning A) (run : List Event) → IsRunOf plan m run → (n : ℕ) → ClassesAgree plan (take n run) (state_after plan m (take n run)) }
{}

/// In every run, each event keeps the first law: a request is completed once, after it arrived, and a device ends after the
/// completion of each request that arrived for it.
#[tactic(auto, using(crate::proofs::Drained::law_1_at_each))]
pub fn runs_end_after_requests<A>()
    ensures { (plan : Plan) (m : Meaning A) (run : List Event) (k : ℕ) (e : Event) → IsRunOf plan m run → slice_get run k ≡ Some e → law_1 (take k run) e ≡ true }
{}

/// In every run, each event keeps the third law: after the cleanup of an object nothing begins on it or below it but its
/// destroy callback.
#[tactic(auto, using(crate::proofs::Orders::law_3_at_each))]
pub fn runs_begin_nothing_below<A>()
    ensures { (plan : Plan) (m : Meaning A) (run : List Event) (k : ℕ) (e : Event) → IsRunOf plan m run → slice_get run k ≡ Some e → law_3 plan run (take k run) e ≡ true }
{}

/// In every run, each event keeps the ninth law: an object ends once, after its cleanup, its children and its references.
#[tactic(auto, using(crate::proofs::Orders::law_9_at_each))]
pub fn runs_end_after_children<A>()
    ensures { (plan : Plan) (m : Meaning A) (run : List Event) (k : ℕ) (e : Event) → IsRunOf plan m run → slice_get run k ≡ Some e → law_9 plan run (take k run) e ≡ true }
{}
