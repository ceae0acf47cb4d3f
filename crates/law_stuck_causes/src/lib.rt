//! Laws over all runs on how they end: what a stuck run's wait list says of it, and what a finished run has left.
//!
//! # Choices
//!
//! - **What is a true cause?** A test of the state for each form of line, in the words of the machine, with no search
//!   in it: the definitions in `crates/law_stuck_causes/specs/Causes.antt`. A law says that each line passes it. A
//!   cause that some form can't have passes no test.
//! - **When must a line name a cause?** Where what it is about could start once each cause of its row is gone. A law
//!   that a line names one has as premises only what keeps a start back and is no cause: that the object is live and
//!   has the callback. Where an invariant gives such a premise, the law is stated without it.
//! - **Where may a law ask more of the state?** Only where the laws that it is built on don't say it. So they don't
//!   say that a parked frame waits in a call, that what is queued is live and has its callback, or that no request is
//!   at an object that is being deleted. Each such condition is a premise of its law, in its own words. The laws of
//!   `law_stuck_named` are without those on queues, on queued work and on steps, and the laws of `law_stuck_objects`
//!   are without those on objects that are being deleted. They prove them of every run of a resolved plan.
#![tactic(auto)]

ghost use Rattle.std.specs.Prelude.{◌≡◌, ◌<◌, ℕ, true, false, List, Option, None, Some, is_some, slice_get};
ghost use Rattle.wdf_base.specs.Meaning.{Meaning};
ghost use Rattle.wdf_base.specs.declared.plan.Plan.{Plan};
ghost use Rattle.wdf_base.specs.declared.event.Event.{Event};
ghost use Rattle.wdf_base.specs.declared.event.Ending.TheVariants as ending;
ghost use Rattle.wdf_base.specs.declared.call.Callback.{Callback};
ghost use Rattle.wdf_base.specs.declared.call.Callback.TheVariants as callback;
ghost use Rattle.wdf_base.specs.declared.event.Step.{Step};
ghost use Rattle.wdf_base.specs.declared.ids.FrameId.{FrameId};
ghost use Rattle.wdf_base.specs.declared.ids.Handle.{Handle};
ghost use Rattle.wdf_base.specs.declared.wait.Cause.{Cause};
ghost use Rattle.wdf_base.specs.declared.wait.OpenThing.{OpenThing};
ghost use Rattle.wdf_base.specs.declared.wait.OpenThing.TheVariants as thing;
ghost use Rattle.wdf_base.specs.Lives.{is_cleaned, is_live};
ghost use Rattle.wdf_model.specs.Tables.{contains};
ghost use Rattle.wdf_model.specs.parts.Cpus.{frame_of, stack_of, top};
ghost use Rattle.wdf_model.specs.parts.Pnp.{follows_queues_up, is_running_step};
ghost use Rattle.wdf_model.specs.parts.Tree.{life_of};
ghost use Rattle.wdf_model.specs.parts.Deferred.Dpcs.{is_dpc_queued};
ghost use Rattle.wdf_model.specs.parts.Deferred.WorkItems.{is_work_queued};
ghost use Rattle.wdf_model.specs.State.{declares_in, nothing_at};
ghost use Rattle.wdf_model.specs.rules.Ready.{IsRunOf, ending_of, state_after};
ghost use Rattle.wdf_model.specs.rules.Starts.{is_finished};
ghost use Rattle.wdf_model.specs.rules.Steps.{waits_on};
ghost use Rattle.wdf_model.specs.rules.Waits.{wait_list};
ghost use Rattle.law_stuck_causes.specs.Open.{open_things, things_of};
ghost use Rattle.law_stuck_causes.specs.Caused.{has_no_cause, is_stage};
ghost use Rattle.law_stuck_causes.specs.Causes.{keeps_deferred, keeps_frame, keeps_object, keeps_queued, keeps_returning, keeps_step};
ghost use Rattle.law_stuck_causes.specs.Left.{NothingLeft};

/// The wait list of a stuck run has a line for each open thing, once, in the order of `open_things`, and for nothing else.
/// The open things are each frame that is there, each open request, each device with steps left, and each object whose
/// deletion hasn't come to its end. All queued work is open too, and the Plug and Play manager where it waits. So no
/// request of a stuck run is only about to be completed.
#[tactic(auto, using(crate::proofs::Listed::listed))]
pub fn every_open_thing_has_its_line<A>()
    ensures { (plan : Plan) (m : Meaning A) (run : List Event) → IsRunOf plan m run → ending_of plan m run ≡ ending.Stuck
        → things_of (wait_list plan m run) ≡ open_things plan m (state_after plan m run) }
{}

/// A finished run has nothing left that is open. No frame is left, no request that arrived and isn't done, none at a
/// target, and no deletion that hasn't come to its end. No step of a device is left, no queued work, and no post that
/// waits for a device.
#[tactic(auto, using(crate::proofs::Finished::finished))]
pub fn finished_runs_have_nothing_left<A>()
    ensures { (plan : Plan) (m : Meaning A) (run : List Event) → IsRunOf plan m run → ending_of plan m run ≡ ending.Finished
        → NothingLeft plan m (state_after plan m run) }
{}

/// What the line of a frame names is so.
/// - The frame that it names is above it on its processor, or runs on the object whose callbacks its call waits for.
/// - The frame after `lock` holds the lock that its call acquires.
/// - The request is held from the queue that its call waits for, waits in it or returns from it, or is at the target.
/// - The work item is queued.
/// - `cpus` says that the frame is parked, its wait is over, and each processor has a frame.
pub fn frames_causes_hold<A>()
    ensures { (plan : Plan) (m : Meaning A) (run : List Event) → IsRunOf plan m run → ending_of plan m run ≡ ending.Stuck → (k : ℕ) (f : FrameId) (c : Callback) (o : Handle) (x : Cause)
        → slice_get (wait_list plan m run) k ≡ Some (record { thing = thing.Waiting f c o; cause = Some x }) → keeps_frame plan (state_after plan m run) f.0 x ≡ true }
{}

/// What the line of a request in a queue names is so. `stopped`: the queue's mode delivers nothing. `unpowered`: it is
/// power-managed and its device has its queues down. `manual`: it is. `behind`: the named request is before this one in
/// the queue. `full`: the driver holds as many of its requests as it may. `scope`: a frame holds the lock that the queue's
/// callbacks need. `cpus`: no processor can take them.
pub fn queued_requests_causes_hold<A>()
    ensures { (plan : Plan) (m : Meaning A) (run : List Event) → IsRunOf plan m run → ending_of plan m run ≡ ending.Stuck → (k : ℕ) (r q : Handle) (x : Cause)
        → slice_get (wait_list plan m run) k ≡ Some (record { thing = thing.Queued r q; cause = Some x }) → keeps_queued plan (state_after plan m run) q.id.0 r.id.0 x ≡ true }
{}

/// What the line of a request that returns from a queue names is so: a frame holds the lock that EvtIoCanceledOnQueue
/// needs, or no processor can take it.
pub fn returning_requests_causes_hold<A>()
    ensures { (plan : Plan) (m : Meaning A) (run : List Event) → IsRunOf plan m run → ending_of plan m run ≡ ending.Stuck → (k : ℕ) (r q : Handle) (x : Cause)
        → slice_get (wait_list plan m run) k ≡ Some (record { thing = thing.Returning r q; cause = Some x }) → keeps_returning plan (state_after plan m run) q.id.0 x ≡ true }
{}

/// What the line of a device names is so. Of a running step the frame runs its callback. Of the next one:
/// - The request isn't acknowledged, isn't done or is at one of the device's targets, as the stage waits for it.
/// - The frame holds the lock that the step needs, or runs what it waits for.
/// - No processor is left for the callback. For `quiet`, a processor with a DPC of the device can't take it.
pub fn devices_causes_hold<A>()
    ensures { (plan : Plan) (m : Meaning A) (run : List Event) → IsRunOf plan m run → ending_of plan m run ≡ ending.Stuck → (k : ℕ) (d : Handle) (s : Step) (x : Cause)
        → slice_get (wait_list plan m run) k ≡ Some (record { thing = thing.Sequence d s; cause = Some x }) → keeps_step plan (state_after plan m run) d.id.0 s x ≡ true }
{}

/// What the line of an object that is being deleted names is so.
/// - As many references are held as it says, and the object is cleaned up.
/// - The child, or the younger sibling, must go first.
/// - The frame runs on the object, holds its lock or waits for it. Where it is cleaned up, the frame runs on it.
/// - No processor is left for its callback, or for the routine of a request that its target is done with.
/// - The object is at the target, which isn't done with it.
pub fn objects_causes_hold<A>()
    ensures { (plan : Plan) (m : Meaning A) (run : List Event) → IsRunOf plan m run → ending_of plan m run ≡ ending.Stuck → (k : ℕ) (o : Handle) (x : Cause)
        → slice_get (wait_list plan m run) k ≡ Some (record { thing = thing.Leaving o; cause = Some x }) → keeps_object plan (state_after plan m run) o.id.0 x ≡ true }
{}

/// What the line of a queued DPC, timer or work item names is so.
/// - For a DPC, a frame holds the lock that it needs, or that the first DPC of its processor needs. Or its processor
///   can't take it.
/// - For a timer or work item, a frame holds the lock that it needs, the frame runs on it, or no processor can take it.
pub fn works_causes_hold<A>()
    ensures { (plan : Plan) (m : Meaning A) (run : List Event) → IsRunOf plan m run → ending_of plan m run ≡ ending.Stuck → (k : ℕ) (o : Handle) (x : Cause)
        → slice_get (wait_list plan m run) k ≡ Some (record { thing = thing.Deferred o; cause = Some x }) → keeps_deferred plan (state_after plan m run) o.id.0 x ≡ true }
{}

/// The line of an object that is cleaned up and not yet gone always names a cause: the framework never waits to destroy it
/// for nothing.
pub fn cleaned_objects_name_a_cause<A>()
    ensures { (plan : Plan) (m : Meaning A) (run : List Event) → IsRunOf plan m run → ending_of plan m run ≡ ending.Stuck → (k : ℕ) (o : Handle) (x : Option Cause)
        → slice_get (wait_list plan m run) k ≡ Some (record { thing = thing.Leaving o; cause = x }) → is_cleaned (life_of (state_after plan m run).tree o.id.0) ≡ true → is_some x ≡ true }
{}

/// The line of an object whose deletion was asked always names a cause, where it is no request under way and no request
/// is at it. The framework never waits to clean it up for nothing.
pub fn asked_objects_name_a_cause<A>()
    ensures { (plan : Plan) (m : Meaning A) (run : List Event) → IsRunOf plan m run → ending_of plan m run ≡ ending.Stuck → (k : ℕ) (o : Handle) (x : Option Cause)
        → slice_get (wait_list plan m run) k ≡ Some (record { thing = thing.Leaving o; cause = x }) → is_finished (state_after plan m run) o.id.0 ≡ true → nothing_at (state_after plan m run) o.id.0 ≡ true → is_some x ≡ true }
{}

/// The line of a device whose next step is a stage other than `quiet` always names a cause, where the step doesn't come
/// after `queues_up` and no callback of a step of the device runs. Its sequence never waits for a stage that the framework
/// could take.
pub fn stages_name_a_cause<A>()
    ensures { (plan : Plan) (m : Meaning A) (run : List Event) → IsRunOf plan m run → ending_of plan m run ≡ ending.Stuck → (k : ℕ) (d : Handle) (s : Step) (x : Option Cause)
        → slice_get (wait_list plan m run) k ≡ Some (record { thing = thing.Sequence d s; cause = x }) → is_stage s ≡ true → is_running_step (state_after plan m run).pnp d.id.0 ≡ false → follows_queues_up (state_after plan m run).pnp d.id.0 ≡ false → is_some x ≡ true }
{}

/// In a stuck run the top frame of each processor waits in a call whose condition isn't met. None could go on, and none
/// spends time.
#[tactic(auto, using(crate::proofs::Tops::top_frames_wait))]
pub fn top_frames_wait<A>()
    ensures { (plan : Plan) (m : Meaning A) (run : List Event) → IsRunOf plan m run → ending_of plan m run ≡ ending.Stuck → (cpu f : ℕ) → cpu < plan.cpus
        → top (state_after plan m run).cpus cpu ≡ Some f → waits_on (state_after plan m run) (frame_of (state_after plan m run).cpus f).pending ≡ true }
{}

/// The line of a frame on a processor always names a cause. By `frames_causes_hold` that is a frame above it, the lock
/// that it acquires and who holds it, or the request, the frame or the work item for which its call waits.
pub fn running_frames_name_a_cause<A>()
    ensures { (plan : Plan) (m : Meaning A) (run : List Event) → IsRunOf plan m run → ending_of plan m run ≡ ending.Stuck → (k : ℕ) (f : FrameId) (c : Callback) (o : Handle) (x : Option Cause)
        → slice_get (wait_list plan m run) k ≡ Some (record { thing = thing.Waiting f c o; cause = x })
        → (cpu : ℕ) → cpu < plan.cpus → contains f.0 (stack_of (state_after plan m run).cpus cpu) ≡ true → is_some x ≡ true }
{}

/// The line of a parked frame that waits in a call always names a cause: what its call waits for, or that no processor is
/// empty.
pub fn parked_frames_name_a_cause<A>()
    ensures { (plan : Plan) (m : Meaning A) (run : List Event) → IsRunOf plan m run → ending_of plan m run ≡ ending.Stuck → (k : ℕ) (f : FrameId) (c : Callback) (o : Handle) (x : Option Cause)
        → slice_get (wait_list plan m run) k ≡ Some (record { thing = thing.Waiting f c o; cause = x })
        → contains f.0 (state_after plan m run).cpus.parked ≡ true → is_some (frame_of (state_after plan m run).cpus f.0).pending ≡ true → is_some x ≡ true }
{}

/// The line of a queued work item always names a cause, where it is live and has its callback: the framework never keeps it
/// back for nothing.
pub fn work_items_name_a_cause<A>()
    ensures { (plan : Plan) (m : Meaning A) (run : List Event) → IsRunOf plan m run → ending_of plan m run ≡ ending.Stuck → (k : ℕ) (o : Handle) (x : Option Cause)
        → slice_get (wait_list plan m run) k ≡ Some (record { thing = thing.Deferred o; cause = x })
        → is_dpc_queued (state_after plan m run).dpcs o.id.0 ≡ false → is_work_queued (state_after plan m run).work_items o.id.0 ≡ true
        → is_live (life_of (state_after plan m run).tree o.id.0) ≡ true → declares_in plan (state_after plan m run) callback.EvtWorkItem o.id.0 ≡ true → is_some x ≡ true }
{}

/// The line of a timer whose tick is reached always names a cause, where it is live and has its callback.
pub fn timers_name_a_cause<A>()
    ensures { (plan : Plan) (m : Meaning A) (run : List Event) → IsRunOf plan m run → ending_of plan m run ≡ ending.Stuck → (k : ℕ) (o : Handle) (x : Option Cause)
        → slice_get (wait_list plan m run) k ≡ Some (record { thing = thing.Deferred o; cause = x })
        → is_dpc_queued (state_after plan m run).dpcs o.id.0 ≡ false → is_work_queued (state_after plan m run).work_items o.id.0 ≡ false
        → is_live (life_of (state_after plan m run).tree o.id.0) ≡ true → declares_in plan (state_after plan m run) callback.EvtTimerFunc o.id.0 ≡ true → is_some x ≡ true }
{}

/// The line of a request that the driver owns or has sent, and that of the Plug and Play manager, names no cause.
#[tactic(auto, using(crate::proofs::Told::line_without))]
pub fn other_lines_name_no_cause<A>()
    ensures { (plan : Plan) (m : Meaning A) (run : List Event) → IsRunOf plan m run → ending_of plan m run ≡ ending.Stuck → (k : ℕ) (t : OpenThing) (x : Option Cause)
        → slice_get (wait_list plan m run) k ≡ Some (record { thing = t; cause = x }) → has_no_cause t ≡ true → x ≡ None }
{}
