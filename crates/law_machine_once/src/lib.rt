//! Laws over all runs of the machine: nothing is ready twice, what is queued is queued once, a device's next step is one of
//! its own, and the events are counted and limited.
#![tactic(auto)]

ghost use Rattle.std.specs.Prelude.{◌≡◌, ◌≤◌, ℕ, List, Some, length, slice_get, take};
ghost use Rattle.wdf_base.specs.Meaning.{Meaning};
ghost use Rattle.wdf_base.specs.declared.plan.Plan.{Plan};
ghost use Rattle.wdf_base.specs.declared.event.Event.{Event};
ghost use Rattle.wdf_model.specs.rules.Ready.{IsRunOf, ready, state_after};
ghost use Rattle.law_machine_once.specs.Owned.{QueuedOnce, StepsOwned};

/// At each place of every run, a work item is queued at most once, and so is a timer.
#[tactic(auto, using(crate::proofs::Deferred::queued_once_at_each))]
pub fn queued_once<A>()
    ensures { (plan : Plan) (m : Meaning A) (run : List Event) → IsRunOf plan m run → (n : ℕ) → QueuedOnce (state_after plan m (take n run)) }
{}

/// At each place of every run, the next step of a device is one of its own. It is a callback of the device or of one
/// of its interrupts, with the rank of steps, or a stage. A stage has an interrupt exactly where it is passed for one.
#[tactic(auto, using(crate::proofs::Steps::steps_owned_at_each))]
pub fn steps_owned<A>()
    ensures { (plan : Plan) (m : Meaning A) (run : List Event) → IsRunOf plan m run → (n : ℕ) → StepsOwned plan (state_after plan m (take n run)) }
{}

/// Nothing is ready twice: an event that may follow a run is at one place of what may follow.
#[tactic(auto, using(crate::proofs::ReadyOnce::nothing_twice))]
pub fn ready_once<A>()
    ensures { (plan : Plan) (m : Meaning A) (run : List Event) (i j : ℕ) (e : Event) → IsRunOf plan m run
        → slice_get (ready plan m run) i ≡ Some e → slice_get (ready plan m run) j ≡ Some e → i ≡ j }
{}

/// After every run, the state's number of events is that of the run's events.
#[tactic(auto, using(crate::proofs::Numbers::number_is))]
pub fn events_are_counted<A>()
    ensures { (plan : Plan) (m : Meaning A) (run : List Event) → IsRunOf plan m run → (state_after plan m run).number ≡ length run }
{}

/// A run has no more events than the plan's limit.
#[tactic(auto, using(crate::proofs::Numbers::within_limit_of))]
pub fn runs_are_limited<A>()
    ensures { (plan : Plan) (m : Meaning A) (run : List Event) → IsRunOf plan m run → length run ≤ plan.limit }
{}
