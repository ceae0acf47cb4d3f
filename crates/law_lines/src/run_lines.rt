//! Laws on the lines of runs.
ghost use Rattle.std.specs.Prelude.{◌≡◌, ◌≢◌, ℕ, true, List};
ghost use Rattle.std.specs.List.{list_all};
ghost use Rattle.wdf_base.specs.Meaning.{Meaning};
ghost use Rattle.wdf_base.specs.Resolved.{IsResolved};
ghost use Rattle.wdf_base.specs.declared.plan.Plan.{Plan};
ghost use Rattle.wdf_base.specs.declared.event.Event.{Event};
ghost use Rattle.wdf_base.specs.declared.event.Ending.{Ending};
ghost use Rattle.wdf_base.specs.declared.event.Ending.TheVariants as ending;
ghost use Rattle.wdf_base.specs.declared.wait.WaitLine.{WaitLine};
ghost use Rattle.wdf_model.specs.rules.Ready.{IsRunOf, ending_of};
ghost use Rattle.wdf_lines.specs.Lines.{line_text};
ghost use Rattle.wdf_lines.specs.Endings.{ending_text, wait_text};
ghost use Rattle.law_lines.specs.Feeds.{has_no_feed};
ghost use Rattle.wdf_run_text.specs.Texts.{text_of, HasEventsOf};
ghost use Rattle.law_lines.specs.Texts.{as_lines};

/// The line of an event has no line feed, whatever the event and its number.
pub fn event_lines_unfed()
    ensures { (plan : Plan) → IsResolved plan → (number : ℕ) (event : Event) → has_no_feed (line_text plan number event) ≡ true }
{}

/// The line of an ending has no line feed.
pub fn ending_lines_unfed()
    ensures { (events : ℕ) (ending : Ending) → has_no_feed (ending_text events ending) ≡ true }
{}

/// A line of a wait list has no line feed.
pub fn wait_lines_unfed()
    ensures { (plan : Plan) → IsResolved plan → (wait : WaitLine) → has_no_feed (wait_text plan wait) ≡ true }
{}

/// Texts without line feeds are told from what they make together, each with its line feed: no two lists of them make
/// the same bytes.
pub fn lines_are_cut_once()
    ensures { (us vs : List (List ℕ)) → list_all has_no_feed us ≡ true → list_all has_no_feed vs ≡ true → as_lines us ≡ as_lines vs → us ≡ vs }
{}

/// Two runs of a resolved plan that have ended, and whose events are of the plan, are one where their texts are the same.
pub fn one_run_a_text<A>()
    ensures { (plan : Plan) (m : Meaning A) → IsResolved plan → (a b : List Event) → IsRunOf plan m a → IsRunOf plan m b
        → ending_of plan m a ≢ ending.Running → ending_of plan m b ≢ ending.Running → HasEventsOf plan a → HasEventsOf plan b
        → text_of plan m a ≡ text_of plan m b → a ≡ b }
{}
