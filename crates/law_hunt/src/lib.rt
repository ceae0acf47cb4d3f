//! What the status of `kmdfhunt seeds` says of the runs, and what the text of `kmdfhunt shrink` does.
#![tactic(auto)]

ghost use Rattle.std.specs.Prelude.{◌≡◌, ◌≢◌, ℕ, List, None};
ghost use Rattle.wdf_base.specs.declared.event.Event.{Event};
ghost use Rattle.wdf_base.specs.declared.plan.Plan.{Plan};
ghost use Rattle.wdf_dev.specs.Agents.{agent_meaning};
ghost use Rattle.wdf_expect.specs.declared.rules.Expectation.{Expectation};
ghost use Rattle.wdf_hunt.specs.Answers.{IsStoryText};
ghost use Rattle.wdf_parse.specs.StandsFor.{StandsFor};
ghost use Rattle.wdf_refusals.specs.First.{first_refusal};
ghost use Rattle.wdf_table.specs.declared.row.Row.{Row};
ghost use Rattle.wdf_table.specs.Lines.{kind_status, table_status};
ghost use Rattle.wdf_table.specs.Tables.{IsTableOf};
ghost use Rattle.wdf_tries.specs.declared.tried.Case.{Case};
ghost use Rattle.wdf_tries.specs.Tries.{AreTries, kind_of};
ghost use Rattle.law_story.specs.Seeds.{TellsSeed};
ghost use Rattle.law_hunt.specs.Statuses.{AreClean, SomeHas, run_status};

/// The status that is read off a kind is that of the run: 1 where it breaks a rule, 0 where it ended as expected, and else that of
/// its ending.
pub fn kinds_have_the_status_of_the_run()
    ensures { (es : List Expectation) (plan : Plan) (run : List Event) → kind_status (kind_of es plan agent_meaning run) ≡ run_status es plan agent_meaning run }
{}

/// Where the status of a table is 0, each seed of its range has a run of the status 0.
pub fn clean_tables_have_clean_runs()
    ensures { (tried : Case) (from count : ℕ) (tries rows : List Row) → AreTries tried from count tries → IsTableOf tries rows → table_status rows ≡ 0 → AreClean tried from count }
{}

/// Where it isn't 0, a seed of the range has a run of that status.
pub fn other_tables_have_a_run_of_their_status()
    ensures { (tried : Case) (from count : ℕ) (tries rows : List Row) → AreTries tried from count tries → IsTableOf tries rows → table_status rows ≢ 0 → SomeHas tried from count (table_status rows) }
{}

/// What `kmdfhunt shrink` writes for a seed of a text that has a plan, with `jitter` or without: it is a scenario, and `order` of it
/// makes a run of the kind of the seed's run, with no more events, but for the numbers of lines.
pub fn shrunk_texts_tell_the_seed()
    ensures { (input : List ℕ) (tried : Case) → StandsFor input tried.scene → first_refusal tried.scene ≡ None → (seed : ℕ) (text : List ℕ) (status : ℕ) → IsStoryText tried seed text status → TellsSeed tried seed text }
{}
