//! The room that a run takes: what each deed asks of the state is there at each place of every run of a resolved plan.
//!
//! # Choices
//!
//! - **What bounds what the parts are asked?** Laws over every run of a resolved plan (`law_machine_room`): at each
//!   place each part has room for the next event, so `apply` asks nothing but a place.
#![tactic(auto)]

ghost use Rattle.std.specs.Prelude.{◌≡◌, ℕ, List, Some, slice_get, take};
ghost use Rattle.wdf_base.specs.Meaning.{Meaning};
ghost use Rattle.wdf_base.specs.Resolved.{IsResolved};
ghost use Rattle.wdf_base.specs.declared.plan.Plan.{Plan};
ghost use Rattle.wdf_base.specs.declared.event.Event.{Event};
ghost use Rattle.wdf_model.specs.rules.Steps.{deeds};
ghost use Rattle.wdf_model.specs.rules.Ready.{IsRunOf, ready, state_after};
ghost use Rattle.wdf_model.specs.rules.Room.{AreDoable};
ghost use Rattle.law_machine_room.specs.Kept.{RoomKept};

/// At each place of every run of a resolved plan, the tables have their sizes, what grows has at most one item for each
/// event, and what is named is there. (own)
pub fn room_is_kept<A>()
    ensures { (plan : Plan) (m : Meaning A) (run : List Event) → IsResolved plan → IsRunOf plan m run → (n : ℕ) → RoomKept plan (state_after plan m (take n run)) }
{}

/// After every run of a resolved plan, the deeds of each event that may follow can be done: what each names is there, and
/// what it makes has room. (own)
#[tactic(auto, using(crate::proofs::RoomLaws::each_event_is_doable))]
pub fn each_event_is_doable<A>()
    ensures { (plan : Plan) (m : Meaning A) (run : List Event) (k : ℕ) (e : Event) → IsResolved plan → IsRunOf plan m run
        → slice_get (ready plan m run) k ≡ Some e → AreDoable plan (deeds plan (state_after plan m run) e) (state_after plan m run) }
{}
