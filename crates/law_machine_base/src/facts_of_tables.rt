ghost use Rattle.std.specs.Prelude.{◌≡◌, Bool, map, replicate, Some, None};
ghost use Rattle.wdf_base.specs.declared.ids.Handle.{Handle};
ghost use Rattle.wdf_base.specs.declared.declared.Scope.{Scope};
ghost use Rattle.wdf_base.specs.declared.event.Ask.{Ask};
ghost use Rattle.wdf_base.specs.declared.words.TheConstants.{FAULTS};
ghost use Rattle.wdf_model.specs.declared.enums.Phase.{Phase};
ghost use Rattle.wdf_model.specs.parts.Pnp.{DeviceSteps, steps_for};
ghost use Rattle.law_machine_base.specs.FactsOfSteps.{last_of, passing, stage_reached, was_working, whole_device, whole_steps};
ghost use Rattle.law_machine_base.specs.FactsOfFaults.{MISTAKES, DONE_RIGHT, fault_in_deal};
ghost use Rattle.law_machine_base.specs.FactsOfLocks.{locks_under, locks_expected};

/// Each list of steps ends with the stage to which its post brings the device; a post that changes
/// nothing has none.
#[tactic(auto, using(crate::proofs::FactsOfSteps::steps_end_in_stage))]
pub fn steps_end_in_stage()
    ensures { (p : DeviceSteps) (ever : Bool) (from : Phase) (a : Ask)
        → last_of (steps_for p ever from a) ≡ passing (stage_reached from a) }
{}

/// The steps of each post in each phase, for a device with all callbacks and one interrupt.
#[tactic(auto, using(crate::proofs::FactsOfSteps::steps_of_whole_device))]
pub fn steps_of_whole_device()
    ensures { (i : Handle) (from : Phase) (a : Ask)
        → steps_for (whole_device i) (was_working from) from a ≡ whole_steps i from a }
{}

/// Sixteen small mistakes are the sixteen faults, in their order; the same things done right are none.
#[tactic(auto, using(crate::proofs::FactsOfFaults::each_mistake, crate::proofs::FactsOfFaults::none_done_right))]
pub fn each_fault_once()
    ensures faults { map fault_in_deal MISTAKES ≡ map Some FAULTS }
    ensures none { map fault_in_deal DONE_RIGHT ≡ replicate 16 None }
{}

/// The lock of each callback under each scope, on one device with a queue, an interrupt and four classes.
#[tactic(auto, using(crate::proofs::FactsOfLocks::each_lock))]
pub fn lock_of_each_callback()
    ensures { (s : Scope) → locks_under s ≡ locks_expected s }
{}
