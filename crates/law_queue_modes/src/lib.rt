//! Laws over all runs of the machine: each queue has the mode that the events tell, and what a purge and the
//! closing of a device leave.
#![tactic(auto)]

ghost use Rattle.std.specs.Prelude.{◌≡◌, ℕ, suc, true, List, [], Some, is_some, slice_get, take};
ghost use Rattle.wdf_base.specs.Meaning.{Meaning};
ghost use Rattle.wdf_base.specs.declared.plan.Plan.{Plan};
ghost use Rattle.wdf_base.specs.declared.event.Event.{Event};
ghost use Rattle.wdf_model.specs.declared.enums.Mode.TheVariants.{Purged};
ghost use Rattle.wdf_model.specs.Plans.{device_of_queue, queue_of};
ghost use Rattle.wdf_model.specs.parts.Queues.{waiting_in};
ghost use Rattle.wdf_model.specs.rules.Ready.{IsRunOf, state_after};
ghost use Rattle.law_queue_modes.specs.Modes.{CloseLeaves, ModesAsTold, PurgeLeaves, PurgedAreEmpty, closes, is_purge_of, mode_told};

/// At each place of every run, the mode of a queue is that of the last control call to it, Started before the first. A call
/// that waits gives its mode as it begins to wait. From its device's stage `closed` on a queue is Purged, for good.
#[tactic(auto, using(crate::proofs::Told::modes_at_each))]
pub fn modes_are_told<A>()
    ensures { (plan : Plan) (m : Meaning A) (run : List Event) → IsRunOf plan m run → (n : ℕ) → ModesAsTold plan (take n run) (state_after plan m (take n run)) }
{}

/// At each place of every run, nothing waits in a queue that is Purged, by the state or by what the events tell. So nothing
/// waits in a queue from a purge until a control call gives it another mode, nor ever after its device is closed.
pub fn purged_queues_are_empty<A>()
    ensures state { (plan : Plan) (m : Meaning A) (run : List Event) → IsRunOf plan m run → (n : ℕ) → PurgedAreEmpty plan (state_after plan m (take n run)) }
    ensures told { (plan : Plan) (m : Meaning A) (run : List Event) → IsRunOf plan m run → (n q : ℕ) → is_some (queue_of plan q) ≡ true → mode_told (device_of_queue plan q) q (take n run) ≡ Purged → waiting_in (state_after plan m (take n run)).queues q ≡ [] }
{}

/// In every run, right after a purge nothing waits in its queue. Each request that waited there is cancelled: it returns to
/// the driver if the driver had it before and the queue gives it back, else it is to be completed with CANCELLED. Every other
/// request stays as it is, so also what the driver holds.
pub fn purges_cancel_what_waits<A>()
    ensures { (plan : Plan) (m : Meaning A) (run : List Event) → IsRunOf plan m run → (n q : ℕ) (e : Event) → slice_get run n ≡ Some e → is_purge_of q e ≡ true
        → PurgeLeaves plan q (state_after plan m (take n run)) (state_after plan m (take (suc n) run)) }
{}

/// In every run, right after a device's stage `closed` each request that waited in a queue of the device, or was to return from one
/// to the driver, is to be completed with CANCELLED. Every other request stays as it is, so also what the driver holds.
pub fn closings_cancel_what_waits<A>()
    ensures { (plan : Plan) (m : Meaning A) (run : List Event) → IsRunOf plan m run → (n d : ℕ) (e : Event) → slice_get run n ≡ Some e → closes d e ≡ true
        → CloseLeaves plan d (state_after plan m (take n run)) (state_after plan m (take (suc n) run)) }
{}
