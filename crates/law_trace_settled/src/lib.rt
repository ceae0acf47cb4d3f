//! Law 6 of a trace, on what a device waits for as it loses power. Every run of a resolved plan keeps it, whatever the
//! agents are.
#![tactic(auto)]

ghost use Rattle.std.specs.Prelude.{◌≡◌, ℕ, true, List, Option, Some, slice_get, take};
ghost use Rattle.wdf_base.specs.Meaning.{Meaning};
ghost use Rattle.wdf_base.specs.Resolved.{IsResolved};
ghost use Rattle.wdf_base.specs.declared.plan.Plan.{Plan};
ghost use Rattle.wdf_base.specs.declared.ids.Cpu.{Cpu};
ghost use Rattle.wdf_base.specs.declared.ids.Handle.{Handle};
ghost use Rattle.wdf_base.specs.declared.call.Callback.TheVariants as callback;
ghost use Rattle.wdf_base.specs.declared.event.Event.{Event};
ghost use Rattle.wdf_base.specs.declared.event.Event.TheVariants as event;
ghost use Rattle.wdf_base.specs.declared.event.Stage.TheVariants as stage;
ghost use Rattle.wdf_model.specs.rules.Ready.{IsRunOf};
ghost use Rattle.wdf_laws.specs.Laws.{all_acknowledged, law_6};

/// In every run of a resolved plan, a device passes `settled` only after each request that is held from a power-managed
/// queue of it was acknowledged. What is held is as the events before say, and the acknowledgement came after the last
/// `queues_down` of the device.
#[tactic(auto, using(crate::proofs::Laws::settled_after))]
pub fn runs_settle_after_queues_down<A>()
    ensures { (plan : Plan) (m : Meaning A) (run : List Event) (k : ℕ) (device : Handle) (j : Option Handle) → IsResolved plan → IsRunOf plan m run
        → slice_get run k ≡ Some (event.Stage device stage.Settled j) → all_acknowledged plan (take k run) (Some device.id.0) ≡ true }
{}

/// In every run of a resolved plan, the EvtDeviceD0Exit of a device begins only after each request that is held from a
/// power-managed queue of it was acknowledged. What is held is as the events before say, and the acknowledgement came
/// after the last `queues_down` of the device.
#[tactic(auto, using(crate::proofs::Laws::exit_after))]
pub fn runs_exit_after_queues_down<A>()
    ensures { (plan : Plan) (m : Meaning A) (run : List Event) (k : ℕ) (cpu : Cpu) (o : Handle) (r : Option Handle) → IsResolved plan → IsRunOf plan m run
        → slice_get run k ≡ Some (event.Start cpu callback.EvtDeviceD0Exit o r) → all_acknowledged plan (take k run) (Some o.id.0) ≡ true }
{}

/// In every run of a resolved plan, each event keeps the sixth law: a device loses power only after each held request was
/// acknowledged.
#[tactic(auto, using(crate::proofs::Laws::law_6_at_each))]
pub fn runs_lose_power_acknowledged<A>()
    ensures { (plan : Plan) (m : Meaning A) (run : List Event) (k : ℕ) (e : Event) → IsResolved plan → IsRunOf plan m run
        → slice_get run k ≡ Some e → law_6 plan (take k run) e ≡ true }
{}
