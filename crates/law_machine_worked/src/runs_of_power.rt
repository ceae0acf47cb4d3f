//! Lives of objects, power and Plug and Play, run and told.
ghost use Rattle.std.specs.Prelude.{[]};
ghost use Rattle.wdf_base.specs.declared.event.Ending.TheVariants as ending;
ghost use Rattle.law_machine_worked.specs.Shown.{IsShown};
ghost use Rattle.law_machine_worked.specs.RunsOfPower.{deleted_timer_plan, deleted_timer_events, failed_start_plan, failed_start_events, leaked_reference_plan, leaked_reference_events, leaked_reference_waits, never_acknowledged_plan, never_acknowledged_events, never_acknowledged_waits, removed_plan, removed_events, sleep_and_wake_plan, sleep_and_wake_events};

/// A timer's callback deletes its own timer, which is cleaned and destroyed with its callbacks.
#[tactic(auto, using(crate::proofs::RunsOfPower::deleted_timer))]
pub fn deleted_timer()
    ensures { IsShown deleted_timer_plan deleted_timer_events ending.Finished [] }
{}

/// `EvtDeviceD0Entry` fails: the device gives its hardware back and is removed.
#[tactic(auto, using(crate::proofs::RunsOfPower::failed_start))]
pub fn failed_start()
    ensures { IsShown failed_start_plan failed_start_events ending.Finished [] }
{}

/// A reference that is never given back keeps a deleted object from its end.
#[tactic(auto, using(crate::proofs::RunsOfPower::leaked_reference))]
pub fn leaked_reference()
    ensures { IsShown leaked_reference_plan leaked_reference_events ending.Stuck leaked_reference_waits }
{}

/// A request that the driver holds and doesn't acknowledge keeps the device from powering down.
#[tactic(auto, using(crate::proofs::RunsOfPower::never_acknowledged))]
pub fn never_acknowledged()
    ensures { IsShown never_acknowledged_plan never_acknowledged_events ending.Stuck never_acknowledged_waits }
{}

/// A removal stops one request and waits for another one's completion routine.
#[tactic(auto, using(crate::proofs::RunsOfPower::removed))]
pub fn removed()
    ensures { IsShown removed_plan removed_events ending.Finished [] }
{}

/// Three ways to answer `EvtIoStop`: keep the request, give it back, complete it.
#[tactic(auto, using(crate::proofs::RunsOfPower::sleep_and_wake))]
pub fn sleep_and_wake()
    ensures { IsShown sleep_and_wake_plan sleep_and_wake_events ending.Finished [] }
{}
