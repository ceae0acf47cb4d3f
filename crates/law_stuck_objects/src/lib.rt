//! Laws over all runs on how they end: the line of an object that is being deleted always names a cause, and so does each
//! line of a stuck run's wait list that has causes. `cpus` means that the processors spin. Each law is about a resolved plan, but for
//! `taken_processors_spin` and `objects_find_no_processor`.
//!
//! # Choices
//!
//! - **What does `cpus` say?** That each processor which could take the start is taken: it has a frame, or one of as
//!   high a level. A DPC can start on its own processor alone, and at `quiet` one such processor does. That each such
//!   frame spins, or is under one that does, is no part of the test: `taken_processors_spin` of `law_stuck_objects`
//!   proves it of a stuck run.
#![tactic(auto)]

ghost use Rattle.std.specs.Prelude.{◌≡◌, ◌<◌, ℕ, true, false, List, Option, Some, is_some, slice_get, take};
ghost use Rattle.wdf_base.specs.Meaning.{Meaning};
ghost use Rattle.wdf_base.specs.Resolved.{IsResolved};
ghost use Rattle.wdf_base.specs.declared.plan.Plan.{Plan};
ghost use Rattle.wdf_base.specs.declared.event.Event.{Event};
ghost use Rattle.wdf_base.specs.declared.event.Ending.TheVariants as ending;
ghost use Rattle.wdf_base.specs.declared.event.Step.{Step};
ghost use Rattle.wdf_base.specs.declared.ids.Handle.{Handle};
ghost use Rattle.wdf_base.specs.declared.wait.Cause.{Cause};
ghost use Rattle.wdf_base.specs.declared.wait.Cause.TheVariants as cause;
ghost use Rattle.wdf_base.specs.declared.wait.OpenThing.{OpenThing};
ghost use Rattle.wdf_base.specs.declared.wait.OpenThing.TheVariants as thing;
ghost use Rattle.wdf_model.specs.parts.Pnp.{follows_queues_up, is_running_step};
ghost use Rattle.wdf_model.specs.rules.Ready.{IsRunOf, ending_of, state_after};
ghost use Rattle.wdf_model.specs.rules.Waits.{wait_list};
ghost use Rattle.law_stuck_causes.specs.Caused.{has_no_cause};
ghost use Rattle.law_stuck_causes.specs.Causes.{is_taken};
ghost use Rattle.law_stuck_objects.specs.Deleted.{ArrivedEnd, SentToTargets, finds_no_cpu};
ghost use Rattle.law_stuck_objects.specs.Spinning.{Spins, is_waiting_step};

/// At each place of every run of a resolved plan, a request that is sent is at a target of the plan, and that is live. So
/// nothing is at a target whose deletion was asked.
pub fn targets_of_requests_are_live<A>()
    ensures { (plan : Plan) (m : Meaning A) (run : List Event) → IsResolved plan → IsRunOf plan m run → (n : ℕ) → SentToTargets plan (state_after plan m (take n run)) }
{}

/// At each place of every run of a resolved plan, a request that arrived and isn't live any more is done: the framework
/// deletes no request of an app that isn't completed.
pub fn deleted_requests_are_done<A>()
    ensures { (plan : Plan) (m : Meaning A) (run : List Event) → IsResolved plan → IsRunOf plan m run → (n : ℕ) → ArrivedEnd (state_after plan m (take n run)) }
{}

/// The line of an object that is being deleted always names a cause, whatever the object is: the framework never waits to
/// clean it up, or to destroy it, for nothing.
pub fn deleted_objects_name_a_cause<A>()
    ensures { (plan : Plan) (m : Meaning A) (run : List Event) → IsResolved plan → IsRunOf plan m run → ending_of plan m run ≡ ending.Stuck → (k : ℕ) (o : Handle) (x : Option Cause)
        → slice_get (wait_list plan m run) k ≡ Some (record { thing = thing.Leaving o; cause = x }) → is_some x ≡ true }
{}

/// In a run that ends stuck, each line of the wait list whose row names causes has one. These are all lines but those
/// of requests that the driver owns or has sent, and that of the Plug and Play manager.
pub fn each_line_names_a_cause<A>()
    ensures { (plan : Plan) (m : Meaning A) (run : List Event) → IsResolved plan → IsRunOf plan m run → ending_of plan m run ≡ ending.Stuck → (k : ℕ) (t : OpenThing) (x : Option Cause)
        → slice_get (wait_list plan m run) k ≡ Some (record { thing = t; cause = x }) → has_no_cause t ≡ false → is_some x ≡ true }
{}

/// In a run that ends stuck, a processor that can't take a start of some level spins. Its top frame waits on it for a
/// spin lock or for an interrupt's lock, at a level above 0. So where a line names `cpus`, the processors that could
/// take the start have a frame that spins, or that is under such a frame.
pub fn taken_processors_spin<A>()
    ensures { (plan : Plan) (m : Meaning A) (run : List Event) → IsRunOf plan m run → ending_of plan m run ≡ ending.Stuck → (level cpu : ℕ) → cpu < plan.cpus
        → is_taken (state_after plan m run) level cpu ≡ true → Spins (state_after plan m run) cpu }
{}

/// Where the line of an object that is being deleted names `cpus`, one of two cases is so. Its cleanup callback or its
/// destroy callback is the next to come for it, and each processor has a frame. Or it is a request with which its
/// target is done, and no processor can take the completion routine.
pub fn objects_find_no_processor<A>()
    ensures { (plan : Plan) (m : Meaning A) (run : List Event) → IsRunOf plan m run → ending_of plan m run ≡ ending.Stuck → (k : ℕ) (o : Handle)
        → slice_get (wait_list plan m run) k ≡ Some (record { thing = thing.Leaving o; cause = Some cause.NoCpu }) → finds_no_cpu plan (state_after plan m run) o.id.0 ≡ true }
{}

/// In a stuck run of a resolved plan, a device's next step is a callback or one of `settled`, `disabled`, `quiet` and
/// `removed`. So it is where the step doesn't come after `queues_up`, and no callback of a step of the device runs. No
/// other stage is waited for there.
pub fn devices_wait_at_steps<A>()
    ensures { (plan : Plan) (m : Meaning A) (run : List Event) → IsResolved plan → IsRunOf plan m run → ending_of plan m run ≡ ending.Stuck → (k : ℕ) (d : Handle) (s : Step) (x : Option Cause)
        → slice_get (wait_list plan m run) k ≡ Some (record { thing = thing.Sequence d s; cause = x })
        → is_running_step (state_after plan m run).pnp d.id.0 ≡ false → follows_queues_up (state_after plan m run).pnp d.id.0 ≡ false → is_waiting_step s ≡ true }
{}
