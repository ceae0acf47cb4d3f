//! Runs that are stuck since a target never answers. The targets of the program do, so these have agents of their own.
ghost use Rattle.law_stuck_worked.specs.Silence.{IsSilentRun};
ghost use Rattle.law_stuck_worked.specs.SilentRuns.{never_answered_plan, never_answered_events, never_answered_waits};

/// The driver makes a request, sends it and deletes it, and the target never answers: the object's line names `sent`, and
/// the request's line names nothing.
#[tactic(auto, using(crate::proofs::SilentRuns::never_answered))]
pub fn never_answered()
    ensures { IsSilentRun never_answered_plan never_answered_events never_answered_waits }
{}
