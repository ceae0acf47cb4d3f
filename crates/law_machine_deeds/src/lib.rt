//! Which events do which deeds: a table with a row a deed, and the law that events do no others.
#![tactic(auto)]

ghost use Rattle.std.specs.Prelude.{◌≡◌, true};
ghost use Rattle.std.specs.List.{list_all};
ghost use Rattle.wdf_base.specs.declared.plan.Plan.{Plan};
ghost use Rattle.wdf_base.specs.declared.event.Event.{Event};
ghost use Rattle.wdf_model.specs.State.{State};
ghost use Rattle.wdf_model.specs.rules.Steps.{deeds};
ghost use Rattle.law_machine_deeds.specs.MayDo.{may_do};

/// In every state of every plan, each deed of an event is one that the table lets the event do.
#[tactic(auto, using(crate::proofs::Walk::event_may))]
pub fn events_do_what_they_may<A>()
    ensures { (plan : Plan) (S : State A) (e : Event) → list_all (may_do e) (deeds plan S e) ≡ true }
{}
