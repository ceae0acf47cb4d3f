//! A trace has one verdict, and the accepted traces are exactly the texts of runs that have ended.
ghost use Rattle.std.specs.Prelude.{ℕ, List};
ghost use Rattle.wdf_base.specs.Meaning.{Meaning};
ghost use Rattle.wdf_base.specs.Resolved.{IsResolved};
ghost use Rattle.wdf_base.specs.declared.plan.Plan.{Plan};
ghost use Rattle.wdf_dev.specs.Agents.{agent_meaning};
ghost use Rattle.law_lines.specs.Agents.{HasFittingAgents};
ghost use Rattle.law_lines.specs.Fitting.{HasFittingNumbers};
ghost use Rattle.law_text.specs.Marks.{EndsInFeed};
ghost use Rattle.law_replay.specs.Claims.{AcceptsTexts, HasOneVerdict, IsAcceptedAgain, IsPlanOf, TextsTellRuns};

/// A trace of a resolved plan has one verdict, whatever the agents are. Two refusals of it are of the same line for the same
/// reason, two acceptances are with the same ending, and what is refused isn't accepted.
pub fn one_verdict<A>()
    ensures { (plan : Plan) (m : Meaning A) → IsResolved plan → HasOneVerdict plan m }
{}

/// For a resolved plan whose numbers fit, and agents whose numbers fit, a trace is accepted exactly where it is the text of a
/// run that has ended, with that run's ending.
pub fn texts_are_accepted<A>()
    ensures { (plan : Plan) (m : Meaning A) → IsResolved plan → HasFittingNumbers plan → HasFittingAgents plan m → AcceptsTexts plan m }
{}

/// The same of the plan of a text and the agents of `wdf_dev`, without a premise on numbers.
pub fn texts_of_plans_are_accepted()
    ensures { (text : List ℕ) (plan : Plan) → IsPlanOf text plan → AcceptsTexts plan agent_meaning }
{}

/// The bytes determine the run. For the plan of a text and the agents of `wdf_dev`, two runs that have ended with one text are
/// one run.
pub fn texts_tell_runs()
    ensures { (text : List ℕ) (plan : Plan) → IsPlanOf text plan → TextsTellRuns plan agent_meaning }
{}

/// What a run writes is accepted. Let a scenario end in a line feed, with a line `trace` and the text of a run of its plan that
/// has ended after it. The input's scenario and trace are these, and no verdict on the trace is another than that it is
/// accepted, with the run's ending.
pub fn written_runs_are_accepted()
    ensures { (scenario : List ℕ) (plan : Plan) → IsPlanOf scenario plan → EndsInFeed scenario → IsAcceptedAgain scenario plan agent_meaning }
{}
