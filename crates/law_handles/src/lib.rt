//! A law over all runs on handles: each that a script knows is of an object that was made, with its name.
#![tactic(auto)]

ghost use Rattle.std.specs.Prelude.{ℕ, List, take};
ghost use Rattle.wdf_base.specs.Meaning.{Meaning};
ghost use Rattle.wdf_base.specs.Resolved.{IsResolved};
ghost use Rattle.wdf_base.specs.declared.plan.Plan.{Plan};
ghost use Rattle.wdf_base.specs.declared.event.Event.{Event};
ghost use Rattle.wdf_model.specs.rules.Ready.{IsRunOf, state_after};
ghost use Rattle.law_handles.specs.Handles.{AllNamed};

/// At each place of every run of a resolved plan, each handle that a frame or a context cell has is of an object that was
/// made. It has the number of that object's name, unless the object is gone. These are the handles of a frame's object, of
/// its device and its request, those in its variables, and those in the call in which it waits.
pub fn known_handles_are_named<A>()
    ensures { (plan : Plan) (m : Meaning A) (run : List Event) → IsResolved plan → IsRunOf plan m run → (n : ℕ) → AllNamed plan (state_after plan m (take n run)) }
{}
