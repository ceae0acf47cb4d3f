//! The findings of some plans, computed from the definitions: layer by layer, each state with the least lines among the walks
//! of its length. Each is what was worked out by hand.
#![tactic(auto)]

ghost use Rattle.std.specs.Prelude.{◌≡◌};
ghost use Rattle.law_lint_worked.specs.Computed.{findings_within};
ghost use Rattle.law_lint_worked.specs.Cases as cases;

/// Of plans that are about requests.
pub fn findings_of_requests()
    ensures unmarked { findings_within 40 cases.unmarked_plan ≡ cases.unmarked_findings }
    ensures anyway { findings_within 40 cases.anyway_plan ≡ cases.anyway_findings }
    ensures twice { findings_within 40 cases.twice_plan ≡ cases.twice_findings }
    ensures decided { findings_within 40 cases.decided_plan ≡ cases.decided_findings }
    ensures undecided { findings_within 40 cases.undecided_plan ≡ cases.undecided_findings }
    ensures forwards { findings_within 40 cases.forwards_plan ≡ cases.forwards_findings }
    ensures looping { findings_within 40 cases.loop_plan ≡ cases.loop_findings }
    ensures marked { findings_within 40 cases.marked_plan ≡ cases.marked_findings }
    ensures paths { findings_within 40 cases.paths_plan ≡ cases.paths_findings }
{}

/// Of plans that are about acknowledgements and locks.
pub fn findings_of_stops_and_locks()
    ensures locks { findings_within 40 cases.locks_plan ≡ cases.locks_findings }
    ensures stop { findings_within 40 cases.stop_plan ≡ cases.stop_findings }
    ensures unscoped { findings_within 40 cases.unscoped_plan ≡ cases.unscoped_findings }
    ensures sends { findings_within 40 cases.sends_plan ≡ cases.sends_findings }
    ensures interrupts { findings_within 40 cases.interrupts_plan ≡ cases.interrupts_findings }
{}
