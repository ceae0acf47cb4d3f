//! Parts of the laws 4 and 5 of a trace, on interrupts and on power, that every run of a resolved plan keeps, whatever the
//! agents are. The steps that a device has left agree with its power.
//!
//! # Choices
//!
//! - **How is it said that the steps left agree with power?** By the first step left of two that undo one another.
//!   Where neither is left, by the last of `working`, `sleeping` and `removed` among the steps left, or by the phase
//!   where none of these is. The proof carries a test along the steps left, shown once for each list, and no list of
//!   the steps taken.
#![tactic(auto)]

ghost use Rattle.std.specs.Prelude.{◌≡◌, ◌&&◌, ℕ, true, List, Option, Some, slice_get, take};
ghost use Rattle.wdf_base.specs.Meaning.{Meaning};
ghost use Rattle.wdf_base.specs.Resolved.{IsResolved};
ghost use Rattle.wdf_base.specs.declared.plan.Plan.{Plan};
ghost use Rattle.wdf_base.specs.declared.ids.Cpu.{Cpu};
ghost use Rattle.wdf_base.specs.declared.ids.Handle.{Handle};
ghost use Rattle.wdf_base.specs.declared.declared.InterruptInfo.{InterruptInfo};
ghost use Rattle.wdf_base.specs.declared.call.Callback.TheVariants as callback;
ghost use Rattle.wdf_base.specs.declared.event.Event.{Event};
ghost use Rattle.wdf_base.specs.declared.event.Event.TheVariants as event;
ghost use Rattle.wdf_laws.specs.declared.sign.Sign.TheVariants as sign;
ghost use Rattle.wdf_laws.specs.Words.{stands};
ghost use Rattle.wdf_laws.specs.Events.{presented};
ghost use Rattle.wdf_laws.specs.Laws.{has_power, is_enabled_in_power, is_entered, presented_with_power};
ghost use Rattle.wdf_model.specs.Plans.{interrupt_of, queue_of};
ghost use Rattle.wdf_model.specs.rules.Ready.{IsRunOf, state_after};
ghost use Rattle.law_trace_power.specs.Steps.{StepsAndPowerAgree};

/// At each place of every run of a resolved plan, the steps that a device has left agree with its queues, its hardware
/// and its enabled interrupts.
#[tactic(auto, using(crate::proofs::Runs::steps_agree_at_each))]
pub fn steps_and_power_agree<A>()
    ensures { (plan : Plan) (m : Meaning A) (run : List Event) → IsResolved plan → IsRunOf plan m run → (n : ℕ) → StepsAndPowerAgree plan (state_after plan m (take n run)) }
{}

/// In every run of a resolved plan, a power-managed queue presents a request only while its device has power, as the
/// events before say.
#[tactic(auto, using(crate::proofs::Laws::presents_at_each))]
pub fn runs_present_with_power<A>()
    ensures { (plan : Plan) (m : Meaning A) (run : List Event) (k : ℕ) (e : Event) → IsResolved plan → IsRunOf plan m run
        → slice_get run k ≡ Some e → presented_with_power plan (take k run) (presented e) ≡ true }
{}

/// In every run of a resolved plan, EvtInterruptEnable begins on an interrupt only while its device is entered.
#[tactic(auto, using(crate::proofs::Laws::enables_at_each))]
pub fn runs_enable_when_entered<A>()
    ensures { (plan : Plan) (m : Meaning A) (run : List Event) (k : ℕ) (cpu : Cpu) (o : Handle) (r : Option Handle) (x : InterruptInfo) → IsResolved plan
        → IsRunOf plan m run → slice_get run k ≡ Some (event.Start cpu callback.EvtInterruptEnable o r) → interrupt_of plan o.id.0 ≡ Some x
        → is_entered plan (take k run) x.device.0 ≡ true }
{}

/// In every run of a resolved plan, EvtInterruptDisable begins on an interrupt only after the interrupt was enabled, its
/// device entered then, and not after the device's EvtDeviceD0Exit has begun since.
#[tactic(auto, using(crate::proofs::Laws::disables_at_each))]
pub fn runs_disable_after_enabled<A>()
    ensures { (plan : Plan) (m : Meaning A) (run : List Event) (k : ℕ) (cpu : Cpu) (o : Handle) (r : Option Handle) (x : InterruptInfo) → IsResolved plan
        → IsRunOf plan m run → slice_get run k ≡ Some (event.Start cpu callback.EvtInterruptDisable o r) → interrupt_of plan o.id.0 ≡ Some x
        → is_enabled_in_power plan (take k run) o.id.0 x.device.0 ≡ true }
{}

/// In every run of a resolved plan, EvtIoQueueState begins on a power-managed queue only while its device has power, as
/// the events before say.
#[tactic(auto, using(crate::proofs::Isrs::notifies_at_each))]
pub fn runs_notify_with_power<A>()
    ensures { (plan : Plan) (m : Meaning A) (run : List Event) (k : ℕ) (cpu : Cpu) (o : Handle) (r : Option Handle) → IsResolved plan → IsRunOf plan m run
        → slice_get run k ≡ Some (event.Start cpu callback.EvtIoQueueState o r) → has_power plan (take k run) (queue_of plan o.id.0) ≡ true }
{}

/// In every run of a resolved plan, EvtInterruptIsr begins on an interrupt only after the interrupt was enabled, its
/// device entered then. Since then the interrupt wasn't disabled, and the device's EvtDeviceD0Exit hasn't begun.
#[tactic(auto, using(crate::proofs::Isrs::serves_at_each))]
pub fn runs_serve_when_enabled<A>()
    ensures { (plan : Plan) (m : Meaning A) (run : List Event) (k : ℕ) (cpu : Cpu) (o : Handle) (r : Option Handle) (x : InterruptInfo) → IsResolved plan
        → IsRunOf plan m run → slice_get run k ≡ Some (event.Start cpu callback.EvtInterruptIsr o r) → interrupt_of plan o.id.0 ≡ Some x
        → (is_enabled_in_power plan (take k run) o.id.0 x.device.0 && stands (sign.Enabled o.id.0) (sign.Disabled o.id.0) (take k run)) ≡ true }
{}
