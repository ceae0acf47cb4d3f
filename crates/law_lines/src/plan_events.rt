//! Laws over all runs of the machine: which events are events of the plan, so that a line of a trace gives them.
ghost use Rattle.std.specs.Prelude.{◌≡◌, ◌<◌, ℕ, true, List, Option, Some, length, slice_get};
ghost use Rattle.wdf_base.specs.Meaning.{Meaning};
ghost use Rattle.wdf_base.specs.Resolved.{IsResolved};
ghost use Rattle.wdf_base.specs.declared.plan.Plan.{Plan};
ghost use Rattle.wdf_base.specs.declared.ids.Handle.{Handle};
ghost use Rattle.wdf_base.specs.declared.event.Event.{Event};
ghost use Rattle.wdf_base.specs.declared.event.Event.TheVariants as event;
ghost use Rattle.wdf_base.specs.declared.event.Post.{Post};
ghost use Rattle.wdf_model.specs.State.{State, handle_in};
ghost use Rattle.wdf_model.specs.rules.Ready.{IsRunOf, ready};
ghost use Rattle.wdf_trace.specs.Events.{IsEventOf};
ghost use Rattle.law_lines.specs.Framework.{is_of_framework};
ghost use Rattle.law_lines.specs.PostNumbers.{PostNumbersFit};

/// In every state, the handle of an object has a name of a resolved plan.
pub fn handles_are_named<A>()
    ensures { (plan : Plan) (S : State A) → IsResolved plan → (o : ℕ) → (handle_in plan S o).name < length plan.names }
{}

/// An event of the framework that may follow a run of a resolved plan is an event of the plan. Such an event is the start
/// of a callback, a frame's leaving or coming back, a stage, a completion by the framework, a cleanup, a destruction, or
/// a tick.
pub fn framework_events_are_of_plan<A>()
    ensures { (plan : Plan) (m : Meaning A) (run : List Event) (place : ℕ) (e : Event) → IsResolved plan → IsRunOf plan m run
        → slice_get (ready plan m run) place ≡ Some e → is_of_framework e ≡ true → IsEventOf plan e }
{}

/// A post that may follow a run of a resolved plan is an event of the plan, where its numbers fit 64 bits.
pub fn posts_are_of_plan<A>()
    ensures { (plan : Plan) (m : Meaning A) (run : List Event) (place agent : ℕ) (p : Post) (a : Option Handle) → IsResolved plan → IsRunOf plan m run
        → slice_get (ready plan m run) place ≡ Some (event.Posted agent p a) → PostNumbersFit p → IsEventOf plan (event.Posted agent p a) }
{}
