ghost use Rattle.std.specs.Prelude.{◌≢◌, ℕ};
ghost use Rattle.wdf_base.specs.declared.plan.Plan.{Plan};
ghost use Rattle.wdf_base.specs.declared.event.Ending.TheVariants as ending;
ghost use Rattle.law_machine_base.specs.Course.{IsWorked, ending_at, events_of, run_by};

/// What is computed pick by pick is the run that the picks determine, once it has ended.
pub fn computed_run_is_picked()
    ensures { (plan : Plan) (turns : ℕ) → ending_at (run_by plan turns) ≢ ending.Running
        → IsWorked plan (events_of (run_by plan turns)) (ending_at (run_by plan turns)) }
{}
