//! Runs that are stuck while a processor is free, run and told.
ghost use Rattle.wdf_base.specs.declared.event.Ending.TheVariants as ending;
ghost use Rattle.law_machine_worked.specs.Shown.{IsShown};
ghost use Rattle.law_stuck_worked.specs.StuckObjects.{child_with_a_reference_plan, child_with_a_reference_events, child_with_a_reference_waits, deleted_while_it_is_held_plan, deleted_while_it_is_held_events, deleted_while_it_is_held_waits, deleted_while_it_runs_plan, deleted_while_it_runs_events, deleted_while_it_runs_waits, destroyed_never_plan, destroyed_never_events, destroyed_never_waits, queued_while_it_runs_plan, queued_while_it_runs_events, queued_while_it_runs_waits};
ghost use Rattle.law_stuck_worked.specs.StuckRequests.{cannot_return_plan, cannot_return_events, cannot_return_waits, full_and_behind_plan, full_and_behind_events, full_and_behind_waits, stopped_plan, stopped_events, stopped_waits, unpowered_and_manual_plan, unpowered_and_manual_events, unpowered_and_manual_waits};
ghost use Rattle.law_stuck_worked.specs.StuckSequences.{callback_of_a_step_plan, callback_of_a_step_events, callback_of_a_step_waits, disabled_waits_for_a_frame_plan, disabled_waits_for_a_frame_events, disabled_waits_for_a_frame_waits, enable_waits_for_a_frame_plan, enable_waits_for_a_frame_events, enable_waits_for_a_frame_waits, flush_of_what_is_kept_plan, flush_of_what_is_kept_events, flush_of_what_is_kept_waits, flush_of_what_runs_plan, flush_of_what_runs_events, flush_of_what_runs_waits, quiet_waits_for_a_frame_plan, quiet_waits_for_a_frame_events, quiet_waits_for_a_frame_waits, removed_waits_for_a_request_plan, removed_waits_for_a_request_events, removed_waits_for_a_request_waits, resume_never_ends_plan, resume_never_ends_events, resume_never_ends_waits, settled_waits_for_a_frame_plan, settled_waits_for_a_frame_events, settled_waits_for_a_frame_waits};

/// The callback of a device's step waits until a queue is drained, and the queue has no power before that step. The
/// frame names the request, the request `unpowered`, and the device the frame. The Plug and Play manager waits for the
/// device, and its line names no cause.
#[tactic(auto, using(crate::proofs::StuckRuns::callback_of_a_step))]
pub fn callback_of_a_step()
    ensures { IsShown callback_of_a_step_plan callback_of_a_step_events ending.Stuck callback_of_a_step_waits }
{}

/// A purge waits for a request that is to go back, whose callback needs the lock of a scope; who has the scope waits
/// for a lock that the purging frame holds. The lines name `lock`, `request` and, of the request, `scope`.
#[tactic(auto, using(crate::proofs::StuckRuns::cannot_return))]
pub fn cannot_return()
    ensures { IsShown cannot_return_plan cannot_return_events ending.Stuck cannot_return_waits }
{}

/// The deletion of an object was asked, and a reference to its child is never given back: the line of the object names
/// the child, that of the child `references`.
#[tactic(auto, using(crate::proofs::StuckRuns::child_with_a_reference))]
pub fn child_with_a_reference()
    ensures { IsShown child_with_a_reference_plan child_with_a_reference_events ending.Stuck child_with_a_reference_waits }
{}

/// A lock is deleted with its parent while one frame holds it and another waits for it. The parent names its oldest child,
/// that its younger sibling, the lock, and the lock the frame with the lesser number, which waits.
#[tactic(auto, using(crate::proofs::StuckRuns::deleted_while_it_is_held))]
pub fn deleted_while_it_is_held()
    ensures { IsShown deleted_while_it_is_held_plan deleted_while_it_is_held_events ending.Stuck deleted_while_it_is_held_waits }
{}

/// A work item is deleted by its own callback, which then waits for a request in a manual queue. The line of the work
/// item names the frame, that of the frame the request, and that of the request `manual`.
#[tactic(auto, using(crate::proofs::StuckRuns::deleted_while_it_runs))]
pub fn deleted_while_it_runs()
    ensures { IsShown deleted_while_it_runs_plan deleted_while_it_runs_events ending.Stuck deleted_while_it_runs_waits }
{}

/// A destroy callback waits: the object, which is cleaned up, names its frame.
#[tactic(auto, using(crate::proofs::StuckRuns::destroyed_never))]
pub fn destroyed_never()
    ensures { IsShown destroyed_never_plan destroyed_never_events ending.Stuck destroyed_never_waits }
{}

/// A frame holds the lock of a passive interrupt and waits; another one waits for that lock, and the power-down waits for it
/// at `disabled`.
#[tactic(auto, using(crate::proofs::StuckRuns::disabled_waits_for_a_frame))]
pub fn disabled_waits_for_a_frame()
    ensures { IsShown disabled_waits_for_a_frame_plan disabled_waits_for_a_frame_events ending.Stuck disabled_waits_for_a_frame_waits }
{}

/// A frame holds the lock of a passive interrupt from before the device's start: the step EvtInterruptEnable, which needs the
/// lock, names the frame.
#[tactic(auto, using(crate::proofs::StuckRuns::enable_waits_for_a_frame))]
pub fn enable_waits_for_a_frame()
    ensures { IsShown enable_waits_for_a_frame_plan enable_waits_for_a_frame_events ending.Stuck enable_waits_for_a_frame_waits }
{}

/// A flush waits for a work item whose lock is held: the frame names the work item, and that `scope`.
#[tactic(auto, using(crate::proofs::StuckRuns::flush_of_what_is_kept))]
pub fn flush_of_what_is_kept()
    ensures { IsShown flush_of_what_is_kept_plan flush_of_what_is_kept_events ending.Stuck flush_of_what_is_kept_waits }
{}

/// A flush waits for a work item whose callback waits: the frame names the frame that runs on it.
#[tactic(auto, using(crate::proofs::StuckRuns::flush_of_what_runs))]
pub fn flush_of_what_runs()
    ensures { IsShown flush_of_what_runs_plan flush_of_what_runs_events ending.Stuck flush_of_what_runs_waits }
{}

/// A callback keeps the request of a sequential queue: the first that waits names `full`, the next one `behind`.
#[tactic(auto, using(crate::proofs::StuckRuns::full_and_behind))]
pub fn full_and_behind()
    ensures { IsShown full_and_behind_plan full_and_behind_events ending.Stuck full_and_behind_waits }
{}

/// A work item's callback queues it again and then waits: the queued work item names the frame that runs on it.
#[tactic(auto, using(crate::proofs::StuckRuns::queued_while_it_runs))]
pub fn queued_while_it_runs()
    ensures { IsShown queued_while_it_runs_plan queued_while_it_runs_events ending.Stuck queued_while_it_runs_waits }
{}

/// A callback waits with the lock of the device's scope. The first DPC of its processor needs that, and so do a timer and a
/// queue: they name `scope`, and so does the interrupt's DPC after the first. The power-down waits at `quiet` for the frame.
#[tactic(auto, using(crate::proofs::StuckRuns::quiet_waits_for_a_frame))]
pub fn quiet_waits_for_a_frame()
    ensures { IsShown quiet_waits_for_a_frame_plan quiet_waits_for_a_frame_events ending.Stuck quiet_waits_for_a_frame_waits }
{}

/// The driver forgets a request that a queue without power management gave it: the removal waits for that at `removed`.
#[tactic(auto, using(crate::proofs::StuckRuns::removed_waits_for_a_request))]
pub fn removed_waits_for_a_request()
    ensures { IsShown removed_waits_for_a_request_plan removed_waits_for_a_request_events ending.Stuck removed_waits_for_a_request_waits }
{}

/// EvtIoResume waits: the step after `queues_up` names its frame.
#[tactic(auto, using(crate::proofs::StuckRuns::resume_never_ends))]
pub fn resume_never_ends()
    ensures { IsShown resume_never_ends_plan resume_never_ends_events ending.Stuck resume_never_ends_waits }
{}

/// A callback of a power-managed queue has completed its request, and then waits for another one: the power-down waits at
/// `settled` for the frame, and the device's line names it.
#[tactic(auto, using(crate::proofs::StuckRuns::settled_waits_for_a_frame))]
pub fn settled_waits_for_a_frame()
    ensures { IsShown settled_waits_for_a_frame_plan settled_waits_for_a_frame_events ending.Stuck settled_waits_for_a_frame_waits }
{}

/// A queue is stopped and not started again: the request in it names `stopped`.
#[tactic(auto, using(crate::proofs::StuckRuns::stopped))]
pub fn stopped()
    ensures { IsShown stopped_plan stopped_events ending.Stuck stopped_waits }
{}

/// A device that was never started, and a manual queue: one request names `unpowered`, the other `manual`.
#[tactic(auto, using(crate::proofs::StuckRuns::unpowered_and_manual))]
pub fn unpowered_and_manual()
    ensures { IsShown unpowered_and_manual_plan unpowered_and_manual_events ending.Stuck unpowered_and_manual_waits }
{}
