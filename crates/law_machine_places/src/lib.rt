//! A law of the machine: which events that may come are among the candidates, so that one event can be tested without a
//! search for it.
#![tactic(auto)]

ghost use Rattle.std.specs.Prelude.{◌≡◌, ◌↔◌, ◌&&◌, true};
ghost use Rattle.wdf_base.specs.Meaning.{Meaning};
ghost use Rattle.wdf_base.specs.declared.plan.Plan.{Plan};
ghost use Rattle.wdf_base.specs.declared.event.Event.{Event};
ghost use Rattle.wdf_model.specs.State.{State};
ghost use Rattle.law_machine_base.specs.OverRuns.{PlacesAgree};
ghost use Rattle.wdf_model.specs.rules.Ready.{allowed};
ghost use Rattle.wdf_model.specs.rules.Steps.{may};
ghost use Rattle.law_machine_once.specs.Owned.{StepsOwned};
ghost use Rattle.law_machine_places.specs.Placed.{IsAmong, has_place};

/// An event is among those that may come, time aside, exactly where it may come and has a place. The state is one in
/// which requests have their places, and steps are their devices' own, as each state of a run is.
#[tactic(auto, using(crate::proofs::Exactly::exactly))]
pub fn followers_have_places<A>()
    ensures { (plan : Plan) (m : Meaning A) (S : State A) (e : Event) → PlacesAgree S → StepsOwned plan S
        → ((may plan m S e && has_place plan S e) ≡ true) ↔ IsAmong e (allowed plan m S) }
{}
