//! Law 4 of a trace, on interrupts, which every run of a resolved plan keeps, whatever the agents are.
#![tactic(auto)]

ghost use Rattle.std.specs.Prelude.{◌≡◌, ℕ, true, List, Option, Some, slice_get, take};
ghost use Rattle.wdf_base.specs.Meaning.{Meaning};
ghost use Rattle.wdf_base.specs.Resolved.{IsResolved};
ghost use Rattle.wdf_base.specs.declared.plan.Plan.{Plan};
ghost use Rattle.wdf_base.specs.declared.ids.Cpu.{Cpu};
ghost use Rattle.wdf_base.specs.declared.ids.Handle.{Handle};
ghost use Rattle.wdf_base.specs.declared.declared.InterruptInfo.{InterruptInfo};
ghost use Rattle.wdf_base.specs.declared.call.Callback.{Callback};
ghost use Rattle.wdf_base.specs.declared.call.Callback.TheVariants as callback;
ghost use Rattle.wdf_base.specs.declared.event.Event.{Event};
ghost use Rattle.wdf_base.specs.declared.event.Event.TheVariants as event;
ghost use Rattle.wdf_laws.specs.Frames.{frames_after};
ghost use Rattle.wdf_laws.specs.Laws.{alone_row, is_enabled_in_power, law_4};
ghost use Rattle.wdf_model.specs.Plans.{interrupt_of};
ghost use Rattle.wdf_model.specs.rules.Ready.{IsRunOf};

/// In every run of a resolved plan, the callbacks of an interrupt that take its lock begin alone. When one begins, none
/// of them has begun and not ended. Where the interrupt is passive, the processor is empty, too.
pub fn runs_serve_alone<A>()
    ensures { (plan : Plan) (m : Meaning A) (run : List Event) (k : ℕ) (cpu : Cpu) (c : Callback) (o : Handle) (r : Option Handle) (x : InterruptInfo) → IsResolved plan
        → IsRunOf plan m run → slice_get run k ≡ Some (event.Start cpu c o r) → interrupt_of plan o.id.0 ≡ Some x
        → alone_row (frames_after (take k run)) c x.level.0 cpu.0 o.id.0 ≡ true }
{}

/// In every run of a resolved plan, EvtInterruptDpc begins on an interrupt only after the interrupt was enabled, its device
/// entered then, and not after the device's EvtDeviceD0Exit has begun since.
#[tactic(auto, using(crate::proofs::Laws::defers_at_each))]
pub fn runs_defer_when_enabled<A>()
    ensures { (plan : Plan) (m : Meaning A) (run : List Event) (k : ℕ) (cpu : Cpu) (o : Handle) (r : Option Handle) (x : InterruptInfo) → IsResolved plan
        → IsRunOf plan m run → slice_get run k ≡ Some (event.Start cpu callback.EvtInterruptDpc o r) → interrupt_of plan o.id.0 ≡ Some x
        → is_enabled_in_power plan (take k run) o.id.0 x.device.0 ≡ true }
{}

/// In every run of a resolved plan, each event keeps the fourth law. EvtInterruptEnable begins only on an entered device, and
/// an interrupt's other callbacks only after it was enabled there. Those with its lock begin alone.
#[tactic(auto, using(crate::proofs::Laws::law_4_at_each))]
pub fn runs_call_interrupts_in_power<A>()
    ensures { (plan : Plan) (m : Meaning A) (run : List Event) (k : ℕ) (e : Event) → IsResolved plan → IsRunOf plan m run
        → slice_get run k ≡ Some e → law_4 plan (take k run) (frames_after (take k run)) e ≡ true }
{}
