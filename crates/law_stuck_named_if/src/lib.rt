//! Laws over all runs on how they end: a line names a cause, where what the line is about may start. It is the line of
//! a frame, of a request in a queue or on its way out of one, of a device or of queued work. Each law is about a resolved plan, but for
//! `parked_frames_wait` and `queued_work_items_name_a_cause`.
#![tactic(auto)]

ghost use Rattle.std.specs.Prelude.{◌≡◌, ℕ, true, false, List, Option, Some, is_some, slice_get, take};
ghost use Rattle.wdf_base.specs.Meaning.{Meaning};
ghost use Rattle.wdf_base.specs.Resolved.{IsResolved};
ghost use Rattle.wdf_base.specs.declared.plan.Plan.{Plan};
ghost use Rattle.wdf_base.specs.declared.call.Callback.{Callback};
ghost use Rattle.wdf_base.specs.declared.call.Callback.TheVariants as callback;
ghost use Rattle.wdf_base.specs.declared.event.Event.{Event};
ghost use Rattle.wdf_base.specs.declared.event.Ending.TheVariants as ending;
ghost use Rattle.wdf_base.specs.declared.event.Stage.TheVariants as stage;
ghost use Rattle.wdf_base.specs.declared.event.Step.TheVariants as step;
ghost use Rattle.wdf_base.specs.declared.ids.FrameId.{FrameId};
ghost use Rattle.wdf_base.specs.declared.ids.Handle.{Handle};
ghost use Rattle.wdf_base.specs.declared.wait.Cause.{Cause};
ghost use Rattle.wdf_base.specs.declared.wait.OpenThing.TheVariants as thing;
ghost use Rattle.wdf_model.specs.Tables.{contains};
ghost use Rattle.wdf_model.specs.parts.Cpus.{frame_of};
ghost use Rattle.wdf_model.specs.parts.Pnp.{follows_queues_up, is_running_step};
ghost use Rattle.wdf_model.specs.parts.Deferred.Dpcs.{is_dpc_queued};
ghost use Rattle.wdf_model.specs.parts.Deferred.WorkItems.{is_work_queued};
ghost use Rattle.wdf_model.specs.State.{declares_in};
ghost use Rattle.wdf_model.specs.rules.Ready.{IsRunOf, ending_of, state_after};
ghost use Rattle.wdf_model.specs.rules.Waits.{wait_list};
ghost use Rattle.law_stuck_named_if.specs.Named.{DpcsMayRun};
ghost use Rattle.law_stuck_named_if.specs.Starts.{is_live_queue, step_may_run};

/// At each place of every run, each frame that is parked waits in a call.
pub fn parked_frames_wait<A>()
    ensures { (plan : Plan) (m : Meaning A) (run : List Event) → IsRunOf plan m run → (n f : ℕ)
        → contains f (state_after plan m (take n run)).cpus.parked ≡ true → is_some (frame_of (state_after plan m (take n run)).cpus f).pending ≡ true }
{}

/// The line of a frame always names a cause, on a processor or parked: a callback of a stuck run never waits for nothing.
pub fn frames_name_a_cause<A>()
    ensures { (plan : Plan) (m : Meaning A) (run : List Event) → IsResolved plan → IsRunOf plan m run → ending_of plan m run ≡ ending.Stuck → (k : ℕ) (f : FrameId) (c : Callback) (o : Handle) (x : Option Cause)
        → slice_get (wait_list plan m run) k ≡ Some (record { thing = thing.Waiting f c o; cause = x }) → is_some x ≡ true }
{}

/// The line of a request in a queue always names a cause, where the queue is live: a request never waits in a
/// queue that could present it.
pub fn queued_requests_name_a_cause<A>()
    ensures { (plan : Plan) (m : Meaning A) (run : List Event) → IsResolved plan → IsRunOf plan m run → ending_of plan m run ≡ ending.Stuck → (k : ℕ) (r q : Handle) (x : Option Cause)
        → slice_get (wait_list plan m run) k ≡ Some (record { thing = thing.Queued r q; cause = x }) → is_live_queue (state_after plan m run) q.id.0 ≡ true → is_some x ≡ true }
{}

/// The line of a request that returns from a queue always names a cause, where the queue is live.
pub fn returning_requests_name_a_cause<A>()
    ensures { (plan : Plan) (m : Meaning A) (run : List Event) → IsResolved plan → IsRunOf plan m run → ending_of plan m run ≡ ending.Stuck → (k : ℕ) (r q : Handle) (x : Option Cause)
        → slice_get (wait_list plan m run) k ≡ Some (record { thing = thing.Returning r q; cause = x }) → is_live_queue (state_after plan m run) q.id.0 ≡ true → is_some x ≡ true }
{}

/// The line of a queued DPC always names a cause, where the first DPC in each processor's list is of a live object that
/// has the function.
pub fn dpcs_name_a_cause<A>()
    ensures { (plan : Plan) (m : Meaning A) (run : List Event) → IsResolved plan → IsRunOf plan m run → ending_of plan m run ≡ ending.Stuck → (k : ℕ) (o : Handle) (x : Option Cause)
        → slice_get (wait_list plan m run) k ≡ Some (record { thing = thing.Deferred o; cause = x }) → is_dpc_queued (state_after plan m run).dpcs o.id.0 ≡ true → DpcsMayRun plan (state_after plan m run) → is_some x ≡ true }
{}

/// The line of a device whose next step is `quiet` always names a cause, where the first DPC in each processor's list is of
/// a live object that has the function. The step doesn't come after `queues_up`, and no callback of a step of the device
/// runs.
pub fn devices_at_quiet_name_a_cause<A>()
    ensures { (plan : Plan) (m : Meaning A) (run : List Event) → IsResolved plan → IsRunOf plan m run → ending_of plan m run ≡ ending.Stuck → (k : ℕ) (d : Handle) (i : Option Handle) (x : Option Cause)
        → slice_get (wait_list plan m run) k ≡ Some (record { thing = thing.Sequence d (step.Pass stage.Quiet i); cause = x })
        → is_running_step (state_after plan m run).pnp d.id.0 ≡ false → follows_queues_up (state_after plan m run).pnp d.id.0 ≡ false → DpcsMayRun plan (state_after plan m run) → is_some x ≡ true }
{}

/// The line of a device whose next step is a callback always names a cause, on three conditions. The callback is that of
/// a live object of the device that has it; the step doesn't come after `queues_up`; and no callback of a step of the
/// device runs.
pub fn devices_at_callbacks_name_a_cause<A>()
    ensures { (plan : Plan) (m : Meaning A) (run : List Event) → IsResolved plan → IsRunOf plan m run → ending_of plan m run ≡ ending.Stuck → (k : ℕ) (d : Handle) (c : Callback) (i : Option Handle) (x : Option Cause)
        → slice_get (wait_list plan m run) k ≡ Some (record { thing = thing.Sequence d (step.Run c i); cause = x })
        → is_running_step (state_after plan m run).pnp d.id.0 ≡ false → follows_queues_up (state_after plan m run).pnp d.id.0 ≡ false → step_may_run plan (state_after plan m run) d.id.0 (step.Run c i) ≡ true → is_some x ≡ true }
{}

/// The line of a queued work item always names a cause, where it has its callback: what is queued is live.
pub fn queued_work_items_name_a_cause<A>()
    ensures { (plan : Plan) (m : Meaning A) (run : List Event) → IsRunOf plan m run → ending_of plan m run ≡ ending.Stuck → (k : ℕ) (o : Handle) (x : Option Cause)
        → slice_get (wait_list plan m run) k ≡ Some (record { thing = thing.Deferred o; cause = x })
        → is_dpc_queued (state_after plan m run).dpcs o.id.0 ≡ false → is_work_queued (state_after plan m run).work_items o.id.0 ≡ true
        → declares_in plan (state_after plan m run) callback.EvtWorkItem o.id.0 ≡ true → is_some x ≡ true }
{}

/// The line of a timer whose tick is reached always names a cause, where it has its callback: what is queued is live.
pub fn due_timers_name_a_cause<A>()
    ensures { (plan : Plan) (m : Meaning A) (run : List Event) → IsResolved plan → IsRunOf plan m run → ending_of plan m run ≡ ending.Stuck → (k : ℕ) (o : Handle) (x : Option Cause)
        → slice_get (wait_list plan m run) k ≡ Some (record { thing = thing.Deferred o; cause = x })
        → is_dpc_queued (state_after plan m run).dpcs o.id.0 ≡ false → is_work_queued (state_after plan m run).work_items o.id.0 ≡ false
        → declares_in plan (state_after plan m run) callback.EvtTimerFunc o.id.0 ≡ true → is_some x ≡ true }
{}
