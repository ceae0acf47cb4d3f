//! Processors, locks, interrupts and deferred work, run and told.
ghost use Rattle.std.specs.Prelude.{[]};
ghost use Rattle.wdf_base.specs.declared.event.Ending.TheVariants as ending;
ghost use Rattle.law_machine_worked.specs.Shown.{IsShown};
ghost use Rattle.law_machine_worked.specs.RunsOfProcessors.{blocked_dpc_plan, blocked_dpc_events, blocked_dpc_waits, deadlock_plan, deadlock_events, deadlock_waits, device_scope_plan, device_scope_events, isr_and_dpc_plan, isr_and_dpc_events, passive_interrupt_plan, passive_interrupt_events, periodic_timer_plan, periodic_timer_events};

/// Two frames spin for each other's spin lock, and the run is stuck.
#[tactic(auto, using(crate::proofs::RunsOfProcessors::blocked_dpc))]
pub fn blocked_dpc()
    ensures { IsShown blocked_dpc_plan blocked_dpc_events ending.Stuck blocked_dpc_waits }
{}

/// Two work items take two wait locks in opposite order: the run is stuck, each frame waiting for the
/// other's lock.
#[tactic(auto, using(crate::proofs::RunsOfProcessors::deadlock))]
pub fn deadlock()
    ensures { IsShown deadlock_plan deadlock_events ending.Stuck deadlock_waits }
{}

/// Two queues under the device's scope on two processors: the second handler waits for the first.
#[tactic(auto, using(crate::proofs::RunsOfProcessors::device_scope))]
pub fn device_scope()
    ensures { IsShown device_scope_plan device_scope_events ending.Finished [] }
{}

/// A service routine comes above a frame that holds a spin lock, and queues its DPC once.
#[tactic(auto, using(crate::proofs::RunsOfProcessors::isr_and_dpc))]
pub fn isr_and_dpc()
    ensures { IsShown isr_and_dpc_plan isr_and_dpc_events ending.Finished [] }
{}

/// A passive interrupt: its callbacks run at PASSIVE_LEVEL, one after another under its lock.
#[tactic(auto, using(crate::proofs::RunsOfProcessors::passive_interrupt))]
pub fn passive_interrupt()
    ensures { IsShown passive_interrupt_plan passive_interrupt_events ending.Finished [] }
{}

/// A periodic timer whose callback outlasts its period is stopped by a work item that waits for it.
#[tactic(auto, using(crate::proofs::RunsOfProcessors::periodic_timer))]
pub fn periodic_timer()
    ensures { IsShown periodic_timer_plan periodic_timer_events ending.Finished [] }
{}
