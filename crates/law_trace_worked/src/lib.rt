//! The laws of a trace at work: the worked runs keep them, and lists made by hand break each of them.
#![tactic(auto, unfolding(wdf_laws::specs::Words::ever, wdf_laws::specs::Words::stands, wdf_laws::specs::Words::stood_at, wdf_laws::specs::Words::times, wdf_laws::specs::Frames::frames_after))]

ghost use Rattle.std.specs.Prelude.{◌≡◌, Some, None};
ghost use Rattle.law_trace_worked.specs.Found.{found};
ghost use Rattle.law_trace_worked.specs.Damaged as lists;
ghost use Rattle.law_machine_worked.specs.RunsOfPower as power;
ghost use Rattle.law_machine_worked.specs.RunsOfProcessors as processors;
ghost use Rattle.law_machine_worked.specs.RunsOfRequests as requests;
ghost use Rattle.law_machine_worked.specs.RunsOfSerial as serial;
ghost use Rattle.law_machine_worked.specs.RunsOfTargets as targets;

/// The worked run `deleted_timer` keeps every law.
pub fn deleted_timer_keeps_the_laws()
    ensures { found power.deleted_timer_plan power.deleted_timer_events ≡ None }
{}

/// The worked run `failed_start` keeps every law.
pub fn failed_start_keeps_the_laws()
    ensures { found power.failed_start_plan power.failed_start_events ≡ None }
{}

/// The worked run `leaked_reference` keeps every law.
pub fn leaked_reference_keeps_the_laws()
    ensures { found power.leaked_reference_plan power.leaked_reference_events ≡ None }
{}

/// The worked run `never_acknowledged` keeps every law.
pub fn never_acknowledged_keeps_the_laws()
    ensures { found power.never_acknowledged_plan power.never_acknowledged_events ≡ None }
{}

/// The worked run `removed` keeps every law.
pub fn removed_keeps_the_laws()
    ensures { found power.removed_plan power.removed_events ≡ None }
{}

/// The worked run `sleep_and_wake` keeps every law.
pub fn sleep_and_wake_keeps_the_laws()
    ensures { found power.sleep_and_wake_plan power.sleep_and_wake_events ≡ None }
{}

/// The worked run `blocked_dpc` keeps every law.
pub fn blocked_dpc_keeps_the_laws()
    ensures { found processors.blocked_dpc_plan processors.blocked_dpc_events ≡ None }
{}

/// The worked run `deadlock` keeps every law.
pub fn deadlock_keeps_the_laws()
    ensures { found processors.deadlock_plan processors.deadlock_events ≡ None }
{}

/// The worked run `device_scope` keeps every law.
pub fn device_scope_keeps_the_laws()
    ensures { found processors.device_scope_plan processors.device_scope_events ≡ None }
{}

/// The worked run `isr_and_dpc` keeps every law.
pub fn isr_and_dpc_keeps_the_laws()
    ensures { found processors.isr_and_dpc_plan processors.isr_and_dpc_events ≡ None }
{}

/// The worked run `passive_interrupt` keeps every law.
pub fn passive_interrupt_keeps_the_laws()
    ensures { found processors.passive_interrupt_plan processors.passive_interrupt_events ≡ None }
{}

/// The worked run `periodic_timer` keeps every law.
pub fn periodic_timer_keeps_the_laws()
    ensures { found processors.periodic_timer_plan processors.periodic_timer_events ≡ None }
{}

/// The worked run `cancel_comes_first` keeps every law.
pub fn cancel_comes_first_keeps_the_laws()
    ensures { found requests.cancel_comes_first_plan requests.cancel_comes_first_events ≡ None }
{}

/// The worked run `completed_too_early` keeps every law.
pub fn completed_too_early_keeps_the_laws()
    ensures { found requests.completed_too_early_plan requests.completed_too_early_events ≡ None }
{}

/// The worked run `notified` keeps every law.
pub fn notified_keeps_the_laws()
    ensures { found requests.notified_plan requests.notified_events ≡ None }
{}

/// The worked run `one_read` keeps every law.
pub fn one_read_keeps_the_laws()
    ensures { found requests.one_read_plan requests.one_read_events ≡ None }
{}

/// The worked run `purged` keeps every law.
pub fn purged_keeps_the_laws()
    ensures { found requests.purged_plan requests.purged_events ≡ None }
{}

/// The worked run `returned_by_cancel` keeps every law.
pub fn returned_by_cancel_keeps_the_laws()
    ensures { found requests.returned_by_cancel_plan requests.returned_by_cancel_events ≡ None }
{}

/// The worked run `unmark_comes_first` keeps every law.
pub fn unmark_comes_first_keeps_the_laws()
    ensures { found requests.unmark_comes_first_plan requests.unmark_comes_first_events ≡ None }
{}

/// The worked run `serial_port` keeps every law.
pub fn serial_port_keeps_the_laws()
    ensures { found serial.serial_port_plan serial.serial_port_events ≡ None }
{}

/// The worked run `drained` keeps every law.
pub fn drained_keeps_the_laws()
    ensures { found targets.drained_plan targets.drained_events ≡ None }
{}

/// The worked run `every_statement` keeps every law.
pub fn every_statement_keeps_the_laws()
    ensures { found targets.every_statement_plan targets.every_statement_events ≡ None }
{}

/// The worked run `sent_and_cancelled` keeps every law.
pub fn sent_and_cancelled_keeps_the_laws()
    ensures { found targets.sent_and_cancelled_plan targets.sent_and_cancelled_events ≡ None }
{}

/// The worked run `stopped_while_sent` keeps every law.
pub fn stopped_while_sent_keeps_the_laws()
    ensures { found targets.stopped_while_sent_plan targets.stopped_while_sent_events ≡ None }
{}

/// The worked run `target_stopped` keeps every law.
pub fn target_stopped_keeps_the_laws()
    ensures { found targets.target_stopped_plan targets.target_stopped_events ≡ None }
{}

/// A request is completed twice.
pub fn completed_again()
    ensures { found requests.one_read_plan lists.completed_again ≡ Some (1, 4) }
{}

/// A request is completed that hasn't arrived.
pub fn completed_before_arrival()
    ensures { found requests.one_read_plan lists.completed_before_arrival ≡ Some (1, 1) }
{}

/// A device ends before a request that arrived for it.
pub fn device_ends_before_request()
    ensures { found requests.one_read_plan lists.device_ends_before_request ≡ Some (1, 3) }
{}

/// Two callbacks under the lock of one device, of two queues, run at once.
pub fn two_under_a_lock()
    ensures { found processors.device_scope_plan lists.two_under_a_lock ≡ Some (2, 2) }
{}

/// The second begins after the first has ended.
pub fn one_after_the_other()
    ensures { found processors.device_scope_plan lists.one_after_the_other ≡ None }
{}

/// The first is parked, and hasn't ended.
pub fn parked_under_a_lock()
    ensures { found processors.device_scope_plan lists.parked_under_a_lock ≡ Some (2, 3) }
{}

/// The first is parked, goes on on another processor and ends there.
pub fn ended_elsewhere()
    ensures { found processors.device_scope_plan lists.ended_elsewhere ≡ None }
{}

/// A handler begins on a queue after the queue's cleanup.
pub fn begun_after_cleanup()
    ensures { found requests.one_read_plan lists.begun_after_cleanup ≡ Some (3, 3) }
{}

/// A handler begins on a queue after the cleanup of its device.
pub fn begun_below_cleanup()
    ensures { found requests.one_read_plan lists.begun_below_cleanup ≡ Some (3, 3) }
{}

/// A service routine begins on an interrupt that isn't enabled.
pub fn isr_before_enabled()
    ensures { found processors.isr_and_dpc_plan lists.isr_before_enabled ≡ Some (4, 1) }
{}

/// A service routine begins after the interrupt was disabled.
pub fn isr_after_disabled()
    ensures { found processors.isr_and_dpc_plan lists.isr_after_disabled ≡ Some (4, 3) }
{}

/// The interrupt's DPC may still begin then.
pub fn dpc_after_disabled()
    ensures { found processors.isr_and_dpc_plan lists.dpc_after_disabled ≡ None }
{}

/// A service routine begins while another one of the interrupt runs.
pub fn isr_in_isr()
    ensures { found processors.isr_and_dpc_plan lists.isr_in_isr ≡ Some (4, 3) }
{}

/// A power-managed queue presents after its device's queues went down.
pub fn presented_without_power()
    ensures { found requests.one_read_plan lists.presented_without_power ≡ Some (5, 3) }
{}

/// A power-managed queue presents after its device's EvtDeviceD0Exit began.
pub fn presented_after_exit()
    ensures { found requests.one_read_plan lists.presented_after_exit ≡ Some (5, 3) }
{}

/// It presents once they are up again.
pub fn presented_with_power()
    ensures { found requests.one_read_plan lists.presented_with_power ≡ None }
{}

/// A device is settled while the driver holds a request of a power-managed queue.
pub fn settled_while_held()
    ensures { found requests.one_read_plan lists.settled_while_held ≡ Some (6, 4) }
{}

/// It is settled after the request was acknowledged.
pub fn settled_after_acknowledgement()
    ensures { found requests.one_read_plan lists.settled_after_acknowledgement ≡ None }
{}

/// The acknowledgement came before the queues went down.
pub fn acknowledged_too_early()
    ensures { found requests.one_read_plan lists.acknowledged_too_early ≡ Some (6, 5) }
{}

/// A cancel callback begins for a request that nobody cancelled.
pub fn cancelled_without_cancel()
    ensures { found requests.one_read_plan lists.cancelled_without_cancel ≡ Some (7, 4) }
{}

/// A cancel callback begins for a request that was unmarked.
pub fn cancelled_after_unmark()
    ensures { found requests.one_read_plan lists.cancelled_after_unmark ≡ Some (7, 6) }
{}

/// The second request of a queue is presented before the first.
pub fn presented_out_of_turn()
    ensures { found requests.one_read_plan lists.presented_out_of_turn ≡ Some (8, 4) }
{}

/// A requeued request is presented before one that came after it.
pub fn requeued_first()
    ensures { found requests.one_read_plan lists.requeued_first ≡ None }
{}

/// A request at the tail is presented before a requeued one.
pub fn requeued_last()
    ensures { found requests.one_read_plan lists.requeued_last ≡ Some (8, 6) }
{}

/// An object ends before its cleanup.
pub fn ended_before_cleanup()
    ensures { found requests.one_read_plan lists.ended_before_cleanup ≡ Some (9, 5) }
{}

/// An object ends while the driver has a reference to it.
pub fn ended_with_reference()
    ensures { found requests.one_read_plan lists.ended_with_reference ≡ Some (9, 6) }
{}

/// A queue's device ends before the queue.
pub fn ended_before_child()
    ensures { found requests.one_read_plan lists.ended_before_child ≡ Some (9, 3) }
{}

/// It ends after the queue.
pub fn ended_after_child()
    ensures { found requests.one_read_plan lists.ended_after_child ≡ None }
{}

/// An event breaks two laws: the one with the lesser number is told.
pub fn two_laws_at_one_place()
    ensures { found requests.one_read_plan lists.two_laws_at_one_place ≡ Some (5, 4) }
{}
