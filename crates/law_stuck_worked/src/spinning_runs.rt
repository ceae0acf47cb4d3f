//! Runs that are stuck while each processor spins for a lock, run and told.
ghost use Rattle.wdf_base.specs.declared.event.Ending.TheVariants as ending;
ghost use Rattle.law_machine_worked.specs.Shown.{IsShown};
ghost use Rattle.law_stuck_worked.specs.SpinningRuns.{interrupted_plan, interrupted_events, interrupted_waits, no_processor_for_a_step_plan, no_processor_for_a_step_events, no_processor_for_a_step_waits, no_processor_for_cleanup_plan, no_processor_for_cleanup_events, no_processor_for_cleanup_waits, no_processor_for_quiet_plan, no_processor_for_quiet_events, no_processor_for_quiet_waits, no_processor_for_resume_plan, no_processor_for_resume_events, no_processor_for_resume_waits, no_processor_for_work_plan, no_processor_for_work_events, no_processor_for_work_waits, target_never_stops_plan, target_never_stops_events, target_never_stops_waits};

/// A timer's callback interrupts a callback of level 0 and then spins: the lower frame names the one above it, and the timer,
/// which is due again, the frame that runs on it.
#[tactic(auto, using(crate::proofs::SpinningRuns::interrupted))]
pub fn interrupted()
    ensures { IsShown interrupted_plan interrupted_events ending.Stuck interrupted_waits }
{}

/// A frame whose wait is over finds no empty processor, nor does the callback of a device's step: both name `cpus`.
#[tactic(auto, using(crate::proofs::SpinningRuns::no_processor_for_a_step))]
pub fn no_processor_for_a_step()
    ensures { IsShown no_processor_for_a_step_plan no_processor_for_a_step_events ending.Stuck no_processor_for_a_step_waits }
{}

/// A cleanup callback, a destroy callback and EvtIoCanceledOnQueue find no processor: the two objects and the request that
/// returns name `cpus`.
#[tactic(auto, using(crate::proofs::SpinningRuns::no_processor_for_cleanup))]
pub fn no_processor_for_cleanup()
    ensures { IsShown no_processor_for_cleanup_plan no_processor_for_cleanup_events ending.Stuck no_processor_for_cleanup_waits }
{}

/// An interrupt's DPC is queued on a processor that spins: it names `cpus`, and so does the power-down, which waits for it at
/// `quiet`.
#[tactic(auto, using(crate::proofs::SpinningRuns::no_processor_for_quiet))]
pub fn no_processor_for_quiet()
    ensures { IsShown no_processor_for_quiet_plan no_processor_for_quiet_events ending.Stuck no_processor_for_quiet_waits }
{}

/// A resume is due after a wake, and no processor can take it: the step after `queues_up` names `cpus`.
#[tactic(auto, using(crate::proofs::SpinningRuns::no_processor_for_resume))]
pub fn no_processor_for_resume()
    ensures { IsShown no_processor_for_resume_plan no_processor_for_resume_events ending.Stuck no_processor_for_resume_waits }
{}

/// A request in a queue, a timer, a DPC and a work item find no processor, nor does the completion routine of a request that
/// the driver made, sent and deleted: all five name `cpus`. The request that was sent names nothing as a request.
#[tactic(auto, using(crate::proofs::SpinningRuns::no_processor_for_work))]
pub fn no_processor_for_work()
    ensures { IsShown no_processor_for_work_plan no_processor_for_work_events ending.Stuck no_processor_for_work_waits }
{}

/// The stop of a target waits for a request with which the target is done, but whose completion routine finds no processor:
/// the frame names the request.
#[tactic(auto, using(crate::proofs::SpinningRuns::target_never_stops))]
pub fn target_never_stops()
    ensures { IsShown target_never_stops_plan target_never_stops_events ending.Stuck target_never_stops_waits }
{}
