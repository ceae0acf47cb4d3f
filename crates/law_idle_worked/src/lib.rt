//! Worked runs in which idle devices sleep, for each a law. It says that the events are the run which the written machine
//! makes of its plan with the agents of the word `idle`, that the run ends as the trace says, and that each of its events
//! keeps the law on idle runs. Lists that break that law, at which event. The scenarios and traces are in `tools/idle`.
#![tactic(auto)]

ghost use Rattle.std.specs.Prelude.{◌≡◌, Some};
ghost use Rattle.wdf_base.specs.declared.event.Ending.TheVariants as ending;
ghost use Rattle.law_idle.specs.First.{first_break};
ghost use Rattle.law_idle_worked.specs.Shown.{IsIdleRun};
ghost use Rattle.law_idle_worked.specs.Broken.{early, late, forgotten, held, unheard, used, unwanted};
ghost use Rattle.law_idle_worked.specs.Longest.{IsLongest};
ghost use Rattle.law_idle_worked.specs.IdleRequests.{sleeps_when_unused_plan, sleeps_when_unused_events, held_awake_plan, held_awake_events, two_timeouts_plan, two_timeouts_events, used_for_a_while_plan, used_for_a_while_events, hold_by_device_plan, hold_by_device_events, hold_by_driver_plan, hold_by_driver_events, arrival_before_sleep_plan, arrival_before_sleep_events, arrival_within_sleep_plan, arrival_within_sleep_events, arrival_after_sleep_plan, arrival_after_sleep_events, cancelled_in_sleep_plan, cancelled_in_sleep_events};
ghost use Rattle.law_idle_worked.specs.IdleSequences.{both_at_one_tick_plan, both_at_one_tick_events, started_plan, started_events, rebalanced_plan, rebalanced_events, refused_stop_plan, refused_stop_events, refused_removal_plan, refused_removal_events, removed_in_sleep_plan, removed_in_sleep_events, surprised_plan, surprised_events};

/// A device that nobody uses goes to sleep, and a request wakes it.
#[tactic(auto, using(crate::proofs::IdleRuns::sleeps_when_unused))]
pub fn sleeps_when_unused()
    ensures { IsIdleRun sleeps_when_unused_plan sleeps_when_unused_events ending.Finished }
{}

/// A device that its driver holds goes to sleep by its timeout after the end of the hold.
#[tactic(auto, using(crate::proofs::IdleRuns::held_awake))]
pub fn held_awake()
    ensures { IsIdleRun held_awake_plan held_awake_events ending.Finished }
{}

/// Two devices with different timeouts.
#[tactic(auto, using(crate::proofs::IdleRuns::two_timeouts))]
pub fn two_timeouts()
    ensures { IsIdleRun two_timeouts_plan two_timeouts_events ending.Finished }
{}

/// Two devices go to sleep at one tick, by their ids, and what the block `pnp` has for that tick comes after them.
#[tactic(auto, using(crate::proofs::IdleRuns::both_at_one_tick))]
pub fn both_at_one_tick()
    ensures { IsIdleRun both_at_one_tick_plan both_at_one_tick_events ending.Finished }
{}

/// A device that is started has its timeout from there on.
#[tactic(auto, using(crate::proofs::IdleRuns::started))]
pub fn started()
    ensures { IsIdleRun started_plan started_events ending.Finished }
{}

/// A request that takes its time: the timeout begins with its completion.
#[tactic(auto, using(crate::proofs::IdleRuns::used_for_a_while))]
pub fn used_for_a_while()
    ensures { IsIdleRun used_for_a_while_plan used_for_a_while_events ending.Finished }
{}

/// What the device itself sets in `IDLE_HOLD` holds it awake.
#[tactic(auto, using(crate::proofs::IdleRuns::hold_by_device))]
pub fn hold_by_device()
    ensures { IsIdleRun hold_by_device_plan hold_by_device_events ending.Finished }
{}

/// So does what the driver puts there, and a hold that is there at the opening.
#[tactic(auto, using(crate::proofs::IdleRuns::hold_by_driver))]
pub fn hold_by_driver()
    ensures { IsIdleRun hold_by_driver_plan hold_by_driver_events ending.Finished }
{}

/// A request arrives at the tick of the sleep, before it: the device stays awake.
#[tactic(auto, using(crate::proofs::IdleRuns::arrival_before_sleep))]
pub fn arrival_before_sleep()
    ensures { IsIdleRun arrival_before_sleep_plan arrival_before_sleep_events ending.Finished }
{}

/// A request arrives while the device is on its way to sleep: it is woken when it is asleep.
#[tactic(auto, using(crate::proofs::IdleRuns::arrival_within_sleep))]
pub fn arrival_within_sleep()
    ensures { IsIdleRun arrival_within_sleep_plan arrival_within_sleep_events ending.Finished }
{}

/// A request arrives when the device has gone to sleep, and wakes it.
#[tactic(auto, using(crate::proofs::IdleRuns::arrival_after_sleep))]
pub fn arrival_after_sleep()
    ensures { IsIdleRun arrival_after_sleep_plan arrival_after_sleep_events ending.Finished }
{}

/// A request that arrives in sleep is cancelled before anybody wakes the device: it stays asleep.
#[tactic(auto, using(crate::proofs::IdleRuns::cancelled_in_sleep))]
pub fn cancelled_in_sleep()
    ensures { IsIdleRun cancelled_in_sleep_plan cancelled_in_sleep_events ending.Finished }
{}

/// A rebalance begins the timeout anew.
#[tactic(auto, using(crate::proofs::IdleRuns::rebalanced))]
pub fn rebalanced()
    ensures { IsIdleRun rebalanced_plan rebalanced_events ending.Finished }
{}

/// A device whose driver refuses to stop it is awake again, and its timeout begins there.
#[tactic(auto, using(crate::proofs::IdleRuns::refused_stop))]
pub fn refused_stop()
    ensures { IsIdleRun refused_stop_plan refused_stop_events ending.Finished }
{}

/// A sleeping device whose driver refuses its removal is asleep, and is woken by a request.
#[tactic(auto, using(crate::proofs::IdleRuns::refused_removal))]
pub fn refused_removal()
    ensures { IsIdleRun refused_removal_plan refused_removal_events ending.Finished }
{}

/// A device is removed while it sleeps; what arrives for it then isn't taken, and wakes nobody.
#[tactic(auto, using(crate::proofs::IdleRuns::removed_in_sleep))]
pub fn removed_in_sleep()
    ensures { IsIdleRun removed_in_sleep_plan removed_in_sleep_events ending.Finished }
{}

/// A device that is surprise-removed is neither put to sleep nor woken.
#[tactic(auto, using(crate::proofs::IdleRuns::surprised))]
pub fn surprised()
    ensures { IsIdleRun surprised_plan surprised_events ending.Finished }
{}

/// A sleep a tick early breaks the law.
#[tactic(auto, using(crate::proofs::Broken::early_breaks))]
pub fn early_breaks()
    ensures { first_break sleeps_when_unused_plan early ≡ Some 2 }
{}

/// So does a tick at which an idle device is past its timeout,
#[tactic(auto, using(crate::proofs::Broken::late_breaks))]
pub fn late_breaks()
    ensures { first_break sleeps_when_unused_plan late ≡ Some 3 }
{}

/// one at which a device is asleep with a pending request,
#[tactic(auto, using(crate::proofs::Broken::forgotten_breaks))]
pub fn forgotten_breaks()
    ensures { first_break sleeps_when_unused_plan forgotten ≡ Some 17 }
{}

/// and a sleep that takes the hold for idle time.
#[tactic(auto, using(crate::proofs::Broken::held_breaks))]
pub fn held_breaks()
    ensures { first_break hold_by_device_plan held ≡ Some 8 }
{}

/// A sleep of a device that is held breaks the law,
#[tactic(auto, using(crate::proofs::Broken::unheard_breaks))]
pub fn unheard_breaks()
    ensures { first_break hold_by_device_plan unheard ≡ Some 4 }
{}

/// one of a device with a pending request,
#[tactic(auto, using(crate::proofs::Broken::used_breaks))]
pub fn used_breaks()
    ensures { first_break sleeps_when_unused_plan used ≡ Some 4 }
{}

/// and a wake for which no request is pending.
#[tactic(auto, using(crate::proofs::Broken::unwanted_breaks))]
pub fn unwanted_breaks()
    ensures { first_break sleeps_when_unused_plan unwanted ≡ Some 14 }
{}

/// A timeout above 1000000 is 1000000.
#[tactic(auto, using(crate::proofs::Longest::longest))]
pub fn timeouts_are_cut()
    ensures { IsLongest }
{}
