//! The laws of clean plans, of every free run: so of every run, whatever the agents are.
ghost use Rattle.std.specs.Prelude.{◌≡◌, ℕ, false, List, Some, slice_get};
ghost use Rattle.wdf_base.specs.Meaning.{Meaning};
ghost use Rattle.wdf_base.specs.Resolved.{IsResolved};
ghost use Rattle.wdf_base.specs.declared.plan.Plan.{Plan};
ghost use Rattle.wdf_base.specs.declared.ids.Cpu.{Cpu};
ghost use Rattle.wdf_base.specs.declared.event.Event.{Event};
ghost use Rattle.wdf_base.specs.declared.event.Event.TheVariants as event;
ghost use Rattle.wdf_base.specs.declared.event.Fault.{Fault};
ghost use Rattle.wdf_base.specs.declared.event.Fault.TheVariants as fault;
ghost use Rattle.wdf_model.specs.rules.Ready.{IsRunOf};
ghost use Rattle.law_free_runs.specs.FreeRuns.{IsFreeRun};
ghost use Rattle.law_lint.specs.Faults.{is_of_marks, is_of_scripts};
ghost use Rattle.wdf_lint.specs.Walks.{IsClean};

/// In every free run of a resolved clean plan no fault is one of the eight that the rules are named for.
pub fn clean_plans_break_no_rule<A>()
    ensures { (plan : Plan) (run : List Event) (n : ℕ) (k : Cpu) (x : Fault) (line : ℕ) → IsResolved plan → IsClean plan → IsFreeRun A plan run
        → slice_get run n ≡ Some (event.Fault k x line) → is_of_scripts x ≡ false }
{}

/// The same in every run, whatever the agents are: so in all that the words `order`, `idle` and `stack` play.
pub fn clean_plans_break_no_rule_in_runs<A>()
    ensures { (plan : Plan) (m : Meaning A) (run : List Event) (n : ℕ) (k : Cpu) (x : Fault) (line : ℕ) → IsResolved plan → IsClean plan → IsRunOf plan m run
        → slice_get run n ≡ Some (event.Fault k x line) → is_of_scripts x ≡ false }
{}

/// In every free run of a clean plan, resolved or not, no fault is one of a request's mark.
pub fn clean_plans_keep_marks<A>()
    ensures { (plan : Plan) (run : List Event) (n : ℕ) (k : Cpu) (x : Fault) (line : ℕ) → IsClean plan → IsFreeRun A plan run
        → slice_get run n ≡ Some (event.Fault k x line) → is_of_marks x ≡ false }
{}

/// In every free run of a clean plan, resolved or not, no callback ends with a lock that it acquired by a call.
pub fn clean_plans_give_locks_back<A>()
    ensures { (plan : Plan) (run : List Event) (n : ℕ) (k : Cpu) (line : ℕ) → IsClean plan → IsFreeRun A plan run
        → slice_get run n ≡ Some (event.Fault k fault.ReturnHoldingLock line) → ⊥ }
{}
