ghost use Rattle.std.specs.Prelude.{◌≡◌, ◌<◌, ℕ, true, List, [], ◌∷◌, ◌++◌, Some, slice_get, take};
ghost use Rattle.wdf_base.specs.Meaning.{Meaning};
ghost use Rattle.wdf_base.specs.declared.plan.Plan.{Plan};
ghost use Rattle.wdf_base.specs.declared.event.Event.{Event};
ghost use Rattle.wdf_base.specs.Places.{is_done};
ghost use Rattle.wdf_model.specs.parts.Tree.{next_id};
ghost use Rattle.wdf_model.specs.parts.Requests.{place_of};
ghost use Rattle.wdf_model.specs.State.{State};
ghost use Rattle.wdf_model.specs.rules.Steps.{deeds, may};
ghost use Rattle.wdf_model.specs.rules.Ready.{IsRunOf, ready, state_after};
ghost use Rattle.law_machine_base.specs.Fits.{all_fit};
ghost use Rattle.law_machine_base.specs.OverRuns.{CompletedOnce, PlacesAgree};

/// The deeds of each event that may come fit where they are done.
#[tactic(auto, using(crate::proofs::FitsOfEvents::event_fits))]
pub fn each_event_fits<A>()
    ensures { (plan : Plan) (m : Meaning A) (S : State A) (e : Event) → may plan m S e ≡ true → all_fit plan (deeds plan S e) S ≡ true }
{}

/// At each place of every run a request is Queued exactly where it waits in that queue, once, and
/// Sent exactly where that target has it, once.
#[tactic(auto, using(crate::proofs::LawsOverRuns::places_agree))]
pub fn places_agree<A>()
    ensures { (plan : Plan) (m : Meaning A) (run : List Event) → IsRunOf plan m run → (n : ℕ) → PlacesAgree (state_after plan m (take n run)) }
{}

/// In every run no request is completed twice, and none before it arrives.
#[tactic(auto, using(crate::proofs::LawsOverRuns::completed_once))]
pub fn completed_once<A>()
    ensures { (plan : Plan) (m : Meaning A) (run : List Event) → IsRunOf plan m run → CompletedOnce run }
{}

/// In every run a request that came and is Done stays Done, whatever event may follow.
#[tactic(auto, using(crate::proofs::LawsOverRuns::done_stays_done))]
pub fn done_stays_done<A>()
    ensures { (plan : Plan) (m : Meaning A) (run : List Event) (k : ℕ) (e : Event) (r : ℕ) → IsRunOf plan m run
        → slice_get (ready plan m run) k ≡ Some e → r < next_id (state_after plan m run).tree
        → is_done (place_of (state_after plan m run).requests r) ≡ true
        → is_done (place_of (state_after plan m (run ++ e ∷ [])).requests r) ≡ true }
{}
