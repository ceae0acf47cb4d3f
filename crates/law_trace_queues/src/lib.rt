//! Law 5 of a trace, on power, which every run of a resolved plan keeps, whatever the agents are.
#![tactic(auto)]

ghost use Rattle.std.specs.Prelude.{◌≡◌, ℕ, true, List, Option, Some, slice_get, take};
ghost use Rattle.wdf_base.specs.Meaning.{Meaning};
ghost use Rattle.wdf_base.specs.Resolved.{IsResolved};
ghost use Rattle.wdf_base.specs.declared.plan.Plan.{Plan};
ghost use Rattle.wdf_base.specs.declared.ids.Cpu.{Cpu};
ghost use Rattle.wdf_base.specs.declared.ids.Handle.{Handle};
ghost use Rattle.wdf_base.specs.declared.call.Callback.TheVariants as callback;
ghost use Rattle.wdf_base.specs.declared.event.Event.{Event};
ghost use Rattle.wdf_base.specs.declared.event.Event.TheVariants as event;
ghost use Rattle.wdf_laws.specs.Laws.{has_power, law_5};
ghost use Rattle.wdf_model.specs.Plans.{queue_of};
ghost use Rattle.wdf_model.specs.rules.Ready.{IsRunOf, state_after};
ghost use Rattle.law_trace_queues.specs.Agreement.{RequestsAndPowerAgree};

/// At each place of every run of a resolved plan, a queue to which a request returns has power. While a resume is due for
/// a held request, the queues of its device are up, and the device waits at the step right after `queues_up`.
#[tactic(auto, using(crate::proofs::Laws::agrees_at_each))]
pub fn requests_and_power_agree<A>()
    ensures { (plan : Plan) (m : Meaning A) (run : List Event) → IsResolved plan → IsRunOf plan m run → (n : ℕ) → RequestsAndPowerAgree plan (state_after plan m (take n run)) }
{}

/// In every run of a resolved plan, EvtIoCanceledOnQueue begins on a power-managed queue only while its device has power,
/// as the events before say.
#[tactic(auto, using(crate::proofs::Laws::returns_at_each))]
pub fn runs_return_with_power<A>()
    ensures { (plan : Plan) (m : Meaning A) (run : List Event) (k : ℕ) (cpu : Cpu) (o : Handle) (r : Option Handle) → IsResolved plan → IsRunOf plan m run
        → slice_get run k ≡ Some (event.Start cpu callback.EvtIoCanceledOnQueue o r) → has_power plan (take k run) (queue_of plan o.id.0) ≡ true }
{}

/// In every run of a resolved plan, EvtIoResume begins on a power-managed queue only while its device has power, as the
/// events before say.
#[tactic(auto, using(crate::proofs::Laws::resumes_at_each))]
pub fn runs_resume_with_power<A>()
    ensures { (plan : Plan) (m : Meaning A) (run : List Event) (k : ℕ) (cpu : Cpu) (o : Handle) (r : Option Handle) → IsResolved plan → IsRunOf plan m run
        → slice_get run k ≡ Some (event.Start cpu callback.EvtIoResume o r) → has_power plan (take k run) (queue_of plan o.id.0) ≡ true }
{}

/// In every run of a resolved plan, each event keeps the fifth law: a power-managed queue presents, and its
/// EvtIoCanceledOnQueue, EvtIoResume and EvtIoQueueState begin, only while its device has power.
#[tactic(auto, using(crate::proofs::Laws::law_5_at_each))]
pub fn runs_work_queues_with_power<A>()
    ensures { (plan : Plan) (m : Meaning A) (run : List Event) (k : ℕ) (e : Event) → IsResolved plan → IsRunOf plan m run → slice_get run k ≡ Some e → law_5 plan (take k run) e ≡ true }
{}
