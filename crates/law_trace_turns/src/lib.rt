//! What each event of a run does to the steps of devices: nothing, or it begins or ends the callback of a step, passes a
//! stage, or asks something of one device.
#![tactic(auto)]

ghost use Rattle.std.specs.Prelude.{◌≡◌, ℕ, List, Some, slice_get, take};
ghost use Rattle.wdf_base.specs.Meaning.{Meaning};
ghost use Rattle.wdf_base.specs.Resolved.{IsResolved};
ghost use Rattle.wdf_base.specs.declared.plan.Plan.{Plan};
ghost use Rattle.wdf_base.specs.declared.event.Event.{Event};
ghost use Rattle.wdf_model.specs.rules.Ready.{IsRunOf, state_after};
ghost use Rattle.wdf_model.specs.rules.Steps.{after};
ghost use Rattle.law_trace_turns.specs.Turned.{Turned};

/// At each place of every run of a resolved plan, the event does one of the five to the steps of devices, and says which.
pub fn events_turn_devices<A>()
    ensures { (plan : Plan) (m : Meaning A) (run : List Event) (n : ℕ) (e : Event) → IsResolved plan → IsRunOf plan m run → slice_get run n ≡ Some e
        → Turned (state_after plan m (take n run)) (after plan m (state_after plan m (take n run)) e) e }
{}
