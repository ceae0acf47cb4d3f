//! The laws of free runs.
ghost use Rattle.std.specs.Prelude.{ℕ, ◌≤◌, List, length};
ghost use Rattle.wdf_base.specs.Meaning.{Meaning};
ghost use Rattle.wdf_base.specs.declared.plan.Plan.{Plan};
ghost use Rattle.wdf_base.specs.declared.event.Event.{Event};
ghost use Rattle.wdf_model.specs.rules.Ready.{IsRunOf};
ghost use Rattle.law_free_runs.specs.FreeRuns.{IsFreeRun};
ghost use Rattle.law_machine_lives.specs.Agreements.{FramesThere, LocksAgree};

/// Every run is a free run.
pub fn runs_are_free<A>()
    ensures { (plan : Plan) (m : Meaning A) (run : List Event) → IsRunOf plan m run → IsFreeRun A plan run }
{}

/// At each place of every free run, a lock is held at most once, and by a frame that is there.
pub fn free_locks_agree<A>()
    ensures { (plan : Plan) (run : List Event) (free : IsFreeRun A plan run) (n : ℕ) → n ≤ length run → LocksAgree (free.states n) }
{}

/// At each place of every free run, the object of a frame that is there isn't gone.
pub fn free_frames_there<A>()
    ensures { (plan : Plan) (run : List Event) (free : IsFreeRun A plan run) (n : ℕ) → n ≤ length run → FramesThere (free.states n) }
{}
