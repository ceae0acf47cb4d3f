//! Why a run is stuck, in one law: what each line of its wait list says.
//!
//! # Choices
//!
//! - **What is an earlier cause of a device's step?** Where the step follows `queues_up`, what keeps the resumes comes
//!   before what keeps the step itself. So the place of a frame, or of the processors, in the row depends on the state.
#![tactic(auto)]

ghost use Rattle.std.specs.Prelude.{◌≡◌, List};
ghost use Rattle.wdf_base.specs.Meaning.{Meaning};
ghost use Rattle.wdf_base.specs.Resolved.{IsResolved};
ghost use Rattle.wdf_base.specs.declared.plan.Plan.{Plan};
ghost use Rattle.wdf_base.specs.declared.event.Event.{Event};
ghost use Rattle.wdf_base.specs.declared.event.Ending.TheVariants as ending;
ghost use Rattle.wdf_model.specs.rules.Ready.{IsRunOf, ending_of};
ghost use Rattle.law_stuck_blame.specs.Blame.{IsExplained};

/// A stuck run is explained. Each line of its wait list whose form has causes names one, what it names is so, and no earlier
/// cause of its row is. Where it names `cpus`, each processor that could take the start spins.
pub fn each_line_is_explained<A>()
    ensures { (plan : Plan) (m : Meaning A) (run : List Event) → IsResolved plan → IsRunOf plan m run → ending_of plan m run ≡ ending.Stuck → IsExplained plan m run }
{}
