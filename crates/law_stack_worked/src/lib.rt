//! Worked runs with stacks of devices, for each a law. It says that the events are the run which the written machine makes of
//! its plan with the agents of the word `stack`, that the run ends as the trace says, and why it is stuck, if it is. It also
//! says that each event keeps the laws on stacks. The scenarios and traces are in `tools/stack`. Lists made by hand break
//! each of these laws, at an event that is named.
#![tactic(auto)]

pub mod broken;

ghost use Rattle.std.specs.Prelude.{[]};
ghost use Rattle.wdf_base.specs.declared.event.Ending.TheVariants as ending;
ghost use Rattle.law_stack_worked.specs.LastArrival.{last_arrival_plan, last_arrival_events};
ghost use Rattle.law_stack_worked.specs.Shown.{IsStackRun};
ghost use Rattle.law_stack_worked.specs.StackOrders.{a_query_is_refused_plan, a_query_is_refused_events, sleeps_and_wakes_plan, sleeps_and_wakes_events, starts_from_the_bottom_plan, starts_from_the_bottom_events, the_bottom_fails_to_start_plan, the_bottom_fails_to_start_events, the_lower_device_is_gone_plan, the_lower_device_is_gone_events, the_lower_queue_is_stopped_plan, the_lower_queue_is_stopped_events, the_lower_queue_is_stopped_waits, the_middle_device_is_removed_plan, the_middle_device_is_removed_events};
ghost use Rattle.law_stack_worked.specs.StackRequests.{a_cancel_goes_down_plan, a_cancel_goes_down_events, a_made_request_goes_down_plan, a_made_request_goes_down_events, a_sent_request_is_cancelled_plan, a_sent_request_is_cancelled_events, a_stopped_target_cancels_plan, a_stopped_target_cancels_events, depth_is_reached_plan, depth_is_reached_events, one_target_is_connected_plan, one_target_is_connected_events, status_comes_up_plan, status_comes_up_events};

/// A cancel passes both connectors of a chain of three, and the status comes up.
#[tactic(auto, using(crate::proofs::StackRuns::a_cancel_goes_down))]
pub fn a_cancel_goes_down()
    ensures { IsStackRun a_cancel_goes_down_plan a_cancel_goes_down_events ending.Finished [] }
{}

/// A request that the driver made goes down as a control.
#[tactic(auto, using(crate::proofs::StackRuns::a_made_request_goes_down))]
pub fn a_made_request_goes_down()
    ensures { IsStackRun a_made_request_goes_down_plan a_made_request_goes_down_events ending.Finished [] }
{}

/// A refused query in the middle of a list drops the rest of it. The next line finds the top device gone.
#[tactic(auto, using(crate::proofs::StackRuns::a_query_is_refused))]
pub fn a_query_is_refused()
    ensures { IsStackRun a_query_is_refused_plan a_query_is_refused_events ending.Finished [] }
{}

/// WdfRequestCancelSentRequest before the arrival and after it.
#[tactic(auto, using(crate::proofs::StackRuns::a_sent_request_is_cancelled))]
pub fn a_sent_request_is_cancelled()
    ensures { IsStackRun a_sent_request_is_cancelled_plan a_sent_request_is_cancelled_events ending.Finished [] }
{}

/// WdfIoTargetStop with 0 cancels what was sent, and waits for it.
#[tactic(auto, using(crate::proofs::StackRuns::a_stopped_target_cancels))]
pub fn a_stopped_target_cancels()
    ensures { IsStackRun a_stopped_target_cancels_plan a_stopped_target_cancels_events ending.Finished [] }
{}

/// A target that holds as many as its depth takes no more.
#[tactic(auto, using(crate::proofs::StackRuns::depth_is_reached))]
pub fn depth_is_reached()
    ensures { IsStackRun depth_is_reached_plan depth_is_reached_events ending.Finished [] }
{}

/// Only the first target of a device that names one is connected; the other one keeps its delay and its status.
#[tactic(auto, using(crate::proofs::StackRuns::one_target_is_connected))]
pub fn one_target_is_connected()
    ensures { IsStackRun one_target_is_connected_plan one_target_is_connected_events ending.Finished [] }
{}

/// A sleep goes from the top down and a wake from the bottom up, and a request waits meanwhile.
#[tactic(auto, using(crate::proofs::StackRuns::sleeps_and_wakes))]
pub fn sleeps_and_wakes()
    ensures { IsStackRun sleeps_and_wakes_plan sleeps_and_wakes_events ending.Finished [] }
{}

/// A start goes from the bottom up.
#[tactic(auto, using(crate::proofs::StackRuns::starts_from_the_bottom))]
pub fn starts_from_the_bottom()
    ensures { IsStackRun starts_from_the_bottom_plan starts_from_the_bottom_events ending.Finished [] }
{}

/// The status of the lower device is that of the request above.
#[tactic(auto, using(crate::proofs::StackRuns::status_comes_up))]
pub fn status_comes_up()
    ensures { IsStackRun status_comes_up_plan status_comes_up_events ending.Finished [] }
{}

/// A device that fails to start drops the rest of the list.
#[tactic(auto, using(crate::proofs::StackRuns::the_bottom_fails_to_start))]
pub fn the_bottom_fails_to_start()
    ensures { IsStackRun the_bottom_fails_to_start_plan the_bottom_fails_to_start_events ending.Finished [] }
{}

/// A lower device that was removed takes no arrival.
#[tactic(auto, using(crate::proofs::StackRuns::the_lower_device_is_gone))]
pub fn the_lower_device_is_gone()
    ensures { IsStackRun the_lower_device_is_gone_plan the_lower_device_is_gone_events ending.Finished [] }
{}

/// A request that waits in a stopped lower queue: the stack is stuck.
#[tactic(auto, using(crate::proofs::StackRuns::the_lower_queue_is_stopped))]
pub fn the_lower_queue_is_stopped()
    ensures { IsStackRun the_lower_queue_is_stopped_plan the_lower_queue_is_stopped_events ending.Stuck the_lower_queue_is_stopped_waits }
{}

/// A removal of the middle device removes the whole chain, from the top down.
#[tactic(auto, using(crate::proofs::StackRuns::the_middle_device_is_removed))]
pub fn the_middle_device_is_removed()
    ensures { IsStackRun the_middle_device_is_removed_plan the_middle_device_is_removed_events ending.Finished [] }
{}

/// The last arrival that there is room for comes, and the next request is done with INSUFFICIENT_RESOURCES. The plan is a
/// record: its app has 4,095 lines of requests.
#[tactic(auto, using(crate::proofs::LastRuns::last_arrival_is))]
pub fn last_arrival()
    ensures { IsStackRun last_arrival_plan last_arrival_events ending.Limit [] }
{}
