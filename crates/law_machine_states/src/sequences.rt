//! Laws over all runs of the machine: which steps a device has left, and which requests the driver holds while the
//! device's queues are down.
ghost use Rattle.std.specs.Prelude.{ℕ, List, take};
ghost use Rattle.wdf_base.specs.Meaning.{Meaning};
ghost use Rattle.wdf_base.specs.Resolved.{IsResolved};
ghost use Rattle.wdf_base.specs.declared.plan.Plan.{Plan};
ghost use Rattle.wdf_base.specs.declared.event.Event.{Event};
ghost use Rattle.wdf_model.specs.rules.Ready.{IsRunOf, state_after};
ghost use Rattle.law_machine_states.specs.Courses.{StepsComeFromLists};
ghost use Rattle.law_machine_states.specs.Settled.{NothingUnsettled};

/// At each place of every run of a resolved plan, the steps of a device that are under way are the end of a list that the
/// machine gives. They are the step whose callback runs, if there is one, followed by the steps left. The list is one of
/// those for the device's phase, or the tail after a failure.
pub fn steps_come_from_lists<A>()
    ensures { (plan : Plan) (m : Meaning A) (run : List Event) → IsResolved plan → IsRunOf plan m run → (n : ℕ) → StepsComeFromLists (state_after plan m (take n run)) }
{}

/// At each place of every run of a resolved plan, nothing is unsettled of a device whose queues are down and whose next
/// step isn't `settled`. That is: the driver holds no request from the device's power-managed queues that isn't
/// acknowledged. So it is from `settled` to the next `queues_up`.
pub fn nothing_unsettled<A>()
    ensures { (plan : Plan) (m : Meaning A) (run : List Event) → IsResolved plan → IsRunOf plan m run → (n : ℕ) → NothingUnsettled (state_after plan m (take n run)) }
{}
