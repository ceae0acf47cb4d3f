//! The events say which requests the driver holds, and a device is settled only after these were acknowledged. So it is in
//! every run of the written machine, whatever the plan and the agents are: the greater part of law 6 of a trace.
#![tactic(auto)]

ghost use Rattle.std.specs.Prelude.{◌≡◌, ◌&&◌, ℕ, true, List, Option, Some, slice_get, take};
ghost use Rattle.wdf_base.specs.Meaning.{Meaning};
ghost use Rattle.wdf_base.specs.declared.plan.Plan.{Plan};
ghost use Rattle.wdf_base.specs.declared.ids.Handle.{Handle};
ghost use Rattle.wdf_base.specs.declared.event.Event.{Event};
ghost use Rattle.wdf_base.specs.declared.event.Event.TheVariants as event;
ghost use Rattle.wdf_base.specs.declared.event.Stage.TheVariants as stage;
ghost use Rattle.wdf_model.specs.Plans.{is_managed, queue_of};
ghost use Rattle.wdf_model.specs.parts.Power.{acknowledged};
ghost use Rattle.wdf_model.specs.State.{is_held_from};
ghost use Rattle.wdf_model.specs.rules.Ready.{IsRunOf, state_after};
ghost use Rattle.wdf_laws.specs.declared.sign.Sign.TheVariants as sign;
ghost use Rattle.wdf_laws.specs.Words.{stands};
ghost use Rattle.wdf_laws.specs.Laws.{is_managed_of};

/// At each place of every run, a taking of a request from a power-managed queue came, with no giving up since, exactly
/// where the driver holds the request from that queue.
#[tactic(auto, using(crate::proofs::HoldingsOverRuns::held_as_told_at_each))]
pub fn held_as_told<A>()
    ensures { (plan : Plan) (m : Meaning A) (run : List Event) (n r q : ℕ) → IsRunOf plan m run → is_managed plan q ≡ true
        → stands (sign.TakingFrom r q) (sign.GivingUp r) (take n run) ≡ is_held_from (state_after plan m (take n run)) q r }
{}

/// In every run, a device passes `settled` only where each request that is held from a power-managed queue of it, as the
/// events before say, is acknowledged in the state.
#[tactic(auto, using(crate::proofs::Settled::settles_acknowledged_at_each))]
pub fn runs_settle_acknowledged<A>()
    ensures { (plan : Plan) (m : Meaning A) (run : List Event) (k : ℕ) (device : Handle) (j : Option Handle) (r q : ℕ) → IsRunOf plan m run
        → slice_get run k ≡ Some (event.Stage device stage.Settled j) → is_managed_of device.id.0 (queue_of plan q) ≡ true
        → stands (sign.TakingFrom r q) (sign.GivingUp r) (take k run) ≡ true → acknowledged (state_after plan m (take k run)).power r ≡ true }
{}

/// In every run, a device passes `settled` only after each request that is held from a power-managed queue of it, as the
/// events before say, was acknowledged. It wasn't given up since, and the device's queues didn't go up since.
#[tactic(auto, using(crate::proofs::AckedAsTold::settles_after_at_each))]
pub fn runs_settle_after_acknowledgements<A>()
    ensures { (plan : Plan) (m : Meaning A) (run : List Event) (k : ℕ) (device : Handle) (j : Option Handle) (r q : ℕ) → IsRunOf plan m run
        → slice_get run k ≡ Some (event.Stage device stage.Settled j) → is_managed_of device.id.0 (queue_of plan q) ≡ true
        → stands (sign.TakingFrom r q) (sign.GivingUp r) (take k run) ≡ true
        → (stands (sign.Acknowledgement r) (sign.GivingUp r) (take k run) && stands (sign.Acknowledgement r) (sign.QueuesUp device.id.0) (take k run)) ≡ true }
{}
