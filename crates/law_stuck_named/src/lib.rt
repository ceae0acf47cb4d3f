//! Laws over all runs on how they end: lines of a stuck run's wait list name a cause. Each does that is about a frame,
//! a request in a queue or on its way out of one, a device, or queued work. What the laws of `law_stuck_named_if` ask of
//! queues, of queued work and of steps is so at each place of every run of a resolved plan. Each law is about a resolved plan.
#![tactic(auto)]

ghost use Rattle.std.specs.Prelude.{◌≡◌, ℕ, true, List, Option, Some, is_some, slice_get, take};
ghost use Rattle.wdf_base.specs.Meaning.{Meaning};
ghost use Rattle.wdf_base.specs.Resolved.{IsResolved};
ghost use Rattle.wdf_base.specs.declared.plan.Plan.{Plan};
ghost use Rattle.wdf_base.specs.declared.event.Event.{Event};
ghost use Rattle.wdf_base.specs.declared.event.Ending.TheVariants as ending;
ghost use Rattle.wdf_base.specs.declared.event.Step.{Step};
ghost use Rattle.wdf_base.specs.declared.ids.Handle.{Handle};
ghost use Rattle.wdf_base.specs.declared.wait.Cause.{Cause};
ghost use Rattle.wdf_base.specs.declared.wait.OpenThing.{OpenThing};
ghost use Rattle.wdf_base.specs.declared.wait.OpenThing.TheVariants as thing;
ghost use Rattle.wdf_model.specs.rules.Ready.{IsRunOf, ending_of, state_after};
ghost use Rattle.wdf_model.specs.rules.Waits.{wait_list};
ghost use Rattle.law_stuck_named.specs.Closing.{WaitsForOthers, is_kept_back};
ghost use Rattle.law_stuck_named.specs.Owners.{DpcsRun, QueuesLive, StepsMayRun, WorkMayRun};

/// At each place of every run of a resolved plan, a queue in which a request waits, or to which one returns, is live.
pub fn queues_of_requests_are_live<A>()
    ensures { (plan : Plan) (m : Meaning A) (run : List Event) → IsResolved plan → IsRunOf plan m run → (n : ℕ) → QueuesLive (state_after plan m (take n run)) }
{}

/// The line of a request in a queue always names a cause: a request never waits in a queue that could present it.
pub fn waiting_requests_name_a_cause<A>()
    ensures { (plan : Plan) (m : Meaning A) (run : List Event) → IsResolved plan → IsRunOf plan m run → ending_of plan m run ≡ ending.Stuck → (k : ℕ) (r q : Handle) (x : Option Cause)
        → slice_get (wait_list plan m run) k ≡ Some (record { thing = thing.Queued r q; cause = x }) → is_some x ≡ true }
{}

/// The line of a request that returns from a queue always names a cause.
pub fn cancelled_requests_name_a_cause<A>()
    ensures { (plan : Plan) (m : Meaning A) (run : List Event) → IsResolved plan → IsRunOf plan m run → ending_of plan m run ≡ ending.Stuck → (k : ℕ) (r q : Handle) (x : Option Cause)
        → slice_get (wait_list plan m run) k ≡ Some (record { thing = thing.Returning r q; cause = x }) → is_some x ≡ true }
{}

/// At each place of every run of a resolved plan, a work item that is queued is live and has its EvtWorkItem, and a timer
/// that is queued is live and has its EvtTimerFunc.
pub fn queued_work_may_run<A>()
    ensures { (plan : Plan) (m : Meaning A) (run : List Event) → IsResolved plan → IsRunOf plan m run → (n : ℕ) → WorkMayRun plan (state_after plan m (take n run)) }
{}

/// At each place of every run of a resolved plan, a device that has a step left is live. Its next step, where that is a
/// callback, is that of the device or of an interrupt of it, which is live and declares it.
pub fn steps_of_devices_may_run<A>()
    ensures { (plan : Plan) (m : Meaning A) (run : List Event) → IsResolved plan → IsRunOf plan m run → (n : ℕ) → StepsMayRun plan (state_after plan m (take n run)) }
{}

/// At each place of every run of a resolved plan, an object whose DPC is queued is live and has the function: a DPC object
/// its EvtDpcFunc, an interrupt its EvtInterruptDpc.
pub fn queued_dpcs_may_run<A>()
    ensures { (plan : Plan) (m : Meaning A) (run : List Event) → IsResolved plan → IsRunOf plan m run → (n : ℕ) → DpcsRun plan (state_after plan m (take n run)) }
{}

/// The line of a queued DPC, of a queued work item, or of a timer whose tick is reached, always names a cause.
pub fn queued_work_names_a_cause<A>()
    ensures { (plan : Plan) (m : Meaning A) (run : List Event) → IsResolved plan → IsRunOf plan m run → ending_of plan m run ≡ ending.Stuck → (k : ℕ) (o : Handle) (x : Option Cause)
        → slice_get (wait_list plan m run) k ≡ Some (record { thing = thing.Deferred o; cause = x }) → is_some x ≡ true }
{}

/// The line of a device whose sequence is under way always names a cause: whatever its next step is, and while the callback
/// of a step runs.
pub fn devices_name_a_cause<A>()
    ensures { (plan : Plan) (m : Meaning A) (run : List Event) → IsResolved plan → IsRunOf plan m run → ending_of plan m run ≡ ending.Stuck → (k : ℕ) (d : Handle) (s : Step) (x : Option Cause)
        → slice_get (wait_list plan m run) k ≡ Some (record { thing = thing.Sequence d s; cause = x }) → is_some x ≡ true }
{}

/// In a run that ends stuck, a sequence of Plug and Play under way waits for one of three things. It waits for a
/// request that isn't about to be completed, for the frame of a callback, or for processors that are taken. It never
/// waits for a stage, a completion, a cleanup or a destruction that the framework could take.
pub fn sequences_never_wait_for_the_framework<A>()
    ensures { (plan : Plan) (m : Meaning A) (run : List Event) → IsResolved plan → IsRunOf plan m run → ending_of plan m run ≡ ending.Stuck → (k : ℕ) (d : Handle) (s : Step) (x : Option Cause)
        → slice_get (wait_list plan m run) k ≡ Some (record { thing = thing.Sequence d s; cause = x }) → WaitsForOthers plan (state_after plan m run) d s x }
{}

/// In a run that ends stuck, each line that is about a frame, a request in a queue or on its way out of one, a device, or
/// queued work, names a cause.
pub fn lines_name_a_cause<A>()
    ensures { (plan : Plan) (m : Meaning A) (run : List Event) → IsResolved plan → IsRunOf plan m run → ending_of plan m run ≡ ending.Stuck → (k : ℕ) (t : OpenThing) (x : Option Cause)
        → slice_get (wait_list plan m run) k ≡ Some (record { thing = t; cause = x }) → is_kept_back t ≡ true → is_some x ≡ true }
{}
