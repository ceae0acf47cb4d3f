//! Laws on what the program promises, that follow from the promises and from the laws on runs, on traces and on texts.
#![tactic(auto)]

ghost use Rattle.std.specs.Prelude.{◌≡◌, ◌⊎◌, ℕ, List, None};
ghost use Rattle.wdf_base.specs.declared.plan.Plan.{Plan};
ghost use Rattle.wdf_base.specs.declared.event.Event.{Event};
ghost use Rattle.wdf_scene.specs.declared.scene.Scene.{Scene};
ghost use Rattle.wdf_parse.specs.Canonical.{canonical_text};
ghost use Rattle.wdf_parse.specs.StandsFor.{StandsFor};
ghost use Rattle.wdf_refusals.specs.First.{first_refusal};
ghost use Rattle.wdf_dev.specs.Agents.{agent_meaning};
ghost use Rattle.wdf_run_text.specs.Texts.{text_of};
ghost use Rattle.wdf_split.specs.Inputs.{scenario_in, trace_in};
ghost use Rattle.wdf_output.specs.Said.{Sinking};
ghost use Rattle.wdf_top.specs.Agents.{RunAgents, Usual};
ghost use Rattle.wdf_top.specs.Answers.{By, Canonical, HasPlan, Judgement, Picking, Run};
ghost use Rattle.wdf_top.specs.Causes.{IsGiven, Stayed, Unhindered};
ghost use Rattle.wdf_top.specs.Promises.{ServicePromises};
ghost use Rattle.wdf_top.specs.Top.{Reads, Sourcing};
ghost use Rattle.wdf_top.specs.declared.run.Picks.{Picks};
ghost use Rattle.wdf_serve.specs.Promises.{Promises};
ghost use Rattle.wdf_serve.specs.Runs.{WroteSomeRun};
ghost use Rattle.wdf_serve.specs.Words.{service_for};
ghost use Rattle.law_text.specs.Marks.{EndsInFeed, put_together};
ghost use Rattle.law_replay.specs.Claims.{IsEndedRun};
ghost use Rattle.law_top.specs.Written.{AreAlike, WroteAtRest, WroteCanonical, WroteExplained, WroteKept, WroteOver, WrotePlayed, WroteText};

/// For each plan that stands for an input, `check` writes the canonical text of its scene with 0, or is out of memory.
pub fn plans_are_checked()
    ensures { (s : Sourcing) (k : Sinking) (answer : ℕ) → ServicePromises (Reads Canonical) s k answer
        → (input : List ℕ) → IsGiven s input → Stayed k.faults_before k.faults_after → (plan : Plan) → HasPlan input plan
        → (answer ≡ 15) ⊎ WroteCanonical input k answer }
{}

/// Where a form that writes a run answers 4, the run that was written is stuck, and each line of its wait list is explained.
pub fn stuck_runs_are_explained()
    ensures { (words : List (List ℕ)) (s : Sourcing) (k : Sinking) → Promises words s k 4
        → (a : RunAgents) (by : Picking) → service_for words ≡ Reads (Run a by) → WroteExplained a by s k }
{}

/// Where a form that writes a run answers 0 or 4, nothing waits for time in the state at the run's end, and what is due can't
/// come.
pub fn ended_runs_are_at_rest()
    ensures { (words : List (List ℕ)) (s : Sourcing) (k : Sinking) (answer : ℕ) → Promises words s k answer
        → (a : RunAgents) (by : Picking) → service_for words ≡ Reads (Run a by) → (answer ≡ 0) ⊎ (answer ≡ 4) → WroteAtRest a by s k answer }
{}

/// Where a form that writes a run with the program's agents answers 0 or 4, its lines were posted. At the run's end each app has
/// posted all its lines, no device has an action left, and each target is done with all that was sent to it. The Plug and Play
/// manager has posted all its lines, or the next one is for a device that isn't done; no other post is due.
pub fn ended_runs_have_posted_all()
    ensures { (words : List (List ℕ)) (s : Sourcing) (k : Sinking) (answer : ℕ) → Promises words s k answer
        → (by : Picking) → service_for words ≡ Reads (Run Usual by) → (answer ≡ 0) ⊎ (answer ≡ 4) → WroteOver by s k answer }
{}

/// Where such a form answers 0, the run that was written has finished, and the whole scenario was played: no agent has anything
/// left to post, and no post is due.
pub fn finished_runs_have_played_all()
    ensures { (words : List (List ℕ)) (s : Sourcing) (k : Sinking) → Promises words s k 0
        → (by : Picking) → service_for words ≡ Reads (Run Usual by) → WrotePlayed by s k }
{}

/// What `check` writes is accepted by `check`, which writes it once more: let it be the canonical text of the scene of an input
/// with a plan, and be given. Then the same text is written with 0, or `check` is out of memory.
pub fn checked_texts_are_checked()
    ensures { (input : List ℕ) (scene : Scene) (stands : StandsFor input scene) → first_refusal scene ≡ None
        → (s : Sourcing) (k : Sinking) (answer : ℕ) → ServicePromises (Reads Canonical) s k answer
        → IsGiven s (canonical_text scene.version stands.ws) → Stayed k.faults_before k.faults_after
        → (answer ≡ 15) ⊎ WroteText (canonical_text scene.version stands.ws) k answer }
{}

/// `replay` accepts each text of a run that has ended. For a plan of the input's scenario, where the trace is the text of such
/// a run, the answer is 0, 13 or 15. Nothing is asked of the run's events.
pub fn texts_of_runs_are_accepted()
    ensures { (s : Sourcing) (k : Sinking) (answer : ℕ) → ServicePromises (Reads Judgement) s k answer
        → (input : List ℕ) → IsGiven s input → (plan : Plan) → HasPlan (scenario_in input) plan
        → (run : List Event) → IsEndedRun plan agent_meaning run → trace_in input ≡ text_of plan agent_meaning run → Unhindered 0 answer }
{}

/// What a run writes is accepted after its scenario. Let a plan stand for a scenario that ends in a line feed. Let the input be
/// that scenario, a line `trace` and the text of a run of the plan that has ended. Then `replay` answers 0, 13 or 15.
pub fn written_runs_are_accepted()
    ensures { (s : Sourcing) (k : Sinking) (answer : ℕ) → ServicePromises (Reads Judgement) s k answer
        → (scenario : List ℕ) (plan : Plan) → HasPlan scenario plan → EndsInFeed scenario
        → (run : List Event) → IsEndedRun plan agent_meaning run → IsGiven s (put_together scenario (text_of plan agent_meaning run)) → Unhindered 0 answer }
{}

/// Where `replay` answers 0, the run of which the accepted trace is the text keeps the nine laws of a trace.
pub fn accepted_runs_keep_laws()
    ensures { (s : Sourcing) (k : Sinking) → ServicePromises (Reads Judgement) s k 0 → WroteKept s k }
{}

/// The bytes that were written tell the run: of two calls that wrote a run with the program's agents for one input, both wrote
/// the same run where they wrote the same text.
pub fn written_texts_tell_runs()
    ensures { (by other : Picking) (s t : Sourcing) (k l : Sinking) (status another : ℕ) (one : WroteSomeRun Usual by s k status) (two : WroteSomeRun Usual other t l another)
        → one.input ≡ two.input → text_of one.plan agent_meaning one.run ≡ text_of two.plan agent_meaning two.run → one.run ≡ two.run }
{}

/// Let `order`, or `seed N`, have written a run for a text, and one for its canonical text, which is what `check` writes. Then both
/// runs have the same events, but for the line numbers in `step` and `fault`, and the status is the same.
pub fn canonical_texts_run_alike()
    ensures { (picks : Picks) (s t : Sourcing) (k l : Sinking) (status another : ℕ) (one : WroteSomeRun Usual (By picks) s k status) (two : WroteSomeRun Usual (By picks) t l another)
        → (scene : Scene) (stands : StandsFor one.input scene) → two.input ≡ canonical_text scene.version stands.ws → AreAlike one.run two.run status another }
{}
