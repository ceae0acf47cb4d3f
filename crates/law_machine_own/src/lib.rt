//! A law of the machine: what a processor would do next may come.
#![tactic(auto)]

ghost use Rattle.std.specs.Prelude.{◌≡◌, ℕ, Some, true};
ghost use Rattle.wdf_base.specs.Meaning.{Meaning};
ghost use Rattle.wdf_base.specs.declared.plan.Plan.{Plan};
ghost use Rattle.wdf_base.specs.declared.event.Event.{Event};
ghost use Rattle.wdf_model.specs.State.{State};
ghost use Rattle.wdf_model.specs.rules.Steps.{may, own_event};

/// The event that the top frame of a processor has of its own may always come.
#[tactic(auto, using(crate::proofs::MayCome::own_may))]
pub fn own_events_may_come<A>()
    ensures { (plan : Plan) (m : Meaning A) (S : State A) (cpu : ℕ) (e : Event) → own_event plan m S cpu ≡ Some e → may plan m S e ≡ true }
{}
