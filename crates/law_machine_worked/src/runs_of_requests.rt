//! Requests and queues, run and told.
ghost use Rattle.std.specs.Prelude.{[]};
ghost use Rattle.wdf_base.specs.declared.event.Ending.TheVariants as ending;
ghost use Rattle.wdf_base.specs.declared.event.Fault.TheVariants as fault;
ghost use Rattle.law_machine_worked.specs.Shown.{IsShown};
ghost use Rattle.law_machine_worked.specs.RunsOfRequests.{cancel_comes_first_plan, cancel_comes_first_events, completed_too_early_plan, completed_too_early_events, notified_plan, notified_events, one_read_plan, one_read_events, purged_plan, purged_events, returned_by_cancel_plan, returned_by_cancel_events, unmark_comes_first_plan, unmark_comes_first_events};

/// A cancel comes between the mark and the unmark, so the handler keeps off and `EvtRequestCancel`
/// completes the request.
#[tactic(auto, using(crate::proofs::RunsOfRequests::cancel_comes_first))]
pub fn cancel_comes_first()
    ensures { IsShown cancel_comes_first_plan cancel_comes_first_events ending.Finished [] }
{}

/// The handler completes a request whose `EvtRequestCancel` is due: a fault.
#[tactic(auto, using(crate::proofs::RunsOfRequests::completed_too_early))]
pub fn completed_too_early()
    ensures { IsShown completed_too_early_plan completed_too_early_events (ending.Fault fault.CompleteBeforeCancelCallback) [] }
{}

/// A manual queue that gets its first request has `EvtIoQueueState` called, which retrieves it.
#[tactic(auto, using(crate::proofs::RunsOfRequests::notified))]
pub fn notified()
    ensures { IsShown notified_plan notified_events ending.Finished [] }
{}

/// An app reads once: the handler completes the request, and the framework cleans it up.
#[tactic(auto, using(crate::proofs::RunsOfRequests::one_read))]
pub fn one_read()
    ensures { IsShown one_read_plan one_read_events ending.Finished [] }
{}

/// A purge that waits: what waits in a manual queue goes back through `EvtIoCanceledOnQueue`, and the
/// work item goes on when all of it is completed.
#[tactic(auto, using(crate::proofs::RunsOfRequests::purged))]
pub fn purged()
    ensures { IsShown purged_plan purged_events ending.Finished [] }
{}

/// A requeued request that the app cancels goes back through `EvtIoCanceledOnQueue`.
#[tactic(auto, using(crate::proofs::RunsOfRequests::returned_by_cancel))]
pub fn returned_by_cancel()
    ensures { IsShown returned_by_cancel_plan returned_by_cancel_events ending.Finished [] }
{}

/// The handler takes its mark away before the cancel comes, and completes the request itself.
#[tactic(auto, using(crate::proofs::RunsOfRequests::unmark_comes_first))]
pub fn unmark_comes_first()
    ensures { IsShown unmark_comes_first_plan unmark_comes_first_events ending.Finished [] }
{}
