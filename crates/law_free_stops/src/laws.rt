//! The laws of stops and of scopes in free runs.
ghost use Rattle.std.specs.Prelude.{ℕ, ◌≤◌, List, length};
ghost use Rattle.wdf_base.specs.Resolved.{IsResolved};
ghost use Rattle.wdf_base.specs.declared.plan.Plan.{Plan};
ghost use Rattle.wdf_base.specs.declared.event.Event.{Event};
ghost use Rattle.law_free_runs.specs.FreeRuns.{IsFreeRun};
ghost use Rattle.law_free_stops.specs.LocksApart.{LocksApart};
ghost use Rattle.law_free_stops.specs.StopsWait.{StopsWait};

/// At each place of every free run of a resolved plan, `settled` is the next step of each device with a callback EvtIoStop.
pub fn free_stops_wait<A>()
    ensures { (plan : Plan) (run : List Event) → IsResolved plan → (free : IsFreeRun A plan run) (n : ℕ) → n ≤ length run → StopsWait (free.states n) }
{}

/// At each place of every free run, callbacks with one lock don't run at one time.
pub fn free_locks_apart<A>()
    ensures { (plan : Plan) (run : List Event) (free : IsFreeRun A plan run) (n : ℕ) → n ≤ length run → LocksApart plan (free.states n) }
{}
