//! One line of a trace, after the lines of a run so far.
ghost use Rattle.std.specs.Prelude.{◌≡◌, ◌≢◌, ◌↔◌, ◌+◌, ◌^◌, ◌<◌, ◌≤◌, ◌++◌, ◌∷◌, ◌⊎◌, [], length, slice_get, Some, IsTrue, IsFalse};
ghost use Rattle.wdf_base.specs.Resolved.{IsResolved};
ghost use Rattle.wdf_model.specs.rules.Ready.{ending_of, ready};
ghost use Rattle.wdf_lines.specs.Endings.{ending_text, wait_text};
ghost use Rattle.wdf_trace.specs.Waits.{IsEndingText};
ghost use Rattle.wdf_run_text.specs.Lines.{fed};
ghost use Rattle.wdf_run_text.specs.Texts.{end_lines, IsAmong};
ghost use Rattle.wdf_replay.specs.Verdicts.{IsWaitText};
ghost use Rattle.wdf_replay.specs.Steps.{IsReadAs, IsTakenEnd, IsTold, IsNoEventFor, IsTakenLine};

use crate::told::{Told, one_told};
use crate::verdict::Why;
use wdf_base::{Agent, Ending, Event, Plan, WaitLine};
use wdf_core::Core;
use wdf_lines::{ending_line, wait_line};
use wdf_run_text::text_of_line;
use wdf_trace::{read_line, reads_as_ending, reads_as_wait};

/// Goes on by an event with this number, and answers true, exactly where it may follow.
fn take_event<A: Agent>(core: &mut Core<A>, number: usize, event: &Event) -> bool
    ensures plan { core.new.plan ≡ core.old.plan }
    ensures taken { IsTrue result → (number ≡ length core.old.journal + 1) × IsAmong event.now (ready core.old.plan A.meaning core.old.journal) × (core.new.journal ≡ core.old.journal ++ event.now ∷ []) }
    ensures left { IsFalse result → (core.new.journal ≡ core.old.journal) × (number ≡ length core.old.journal + 1 → IsAmong event.now (ready core.old.plan A.meaning core.old.journal) → ⊥) }
{
    number > 0 && number - 1 == core.journal_len() && core.apply_event(event)
}

/// What a text is, as far as events go.
#[derive(Clone, Copy)]
pub enum Reading {
    /// The line of an event that may follow, and the run went on by it.
    Taken,
    /// The line of another event.
    NotReady,
    /// The line of no event.
    NoEvent,
}

/// Goes on by the event whose line a text is, where that may follow.
fn read_text<A: Agent>(core: &mut Core<A>, text: &[u8]) -> Reading
    requires { IsResolved core.old.plan }
    ensures plan { core.new.plan ≡ core.old.plan }
    ensures read { IsReadAs core.old.plan A.meaning core.old.journal core.new.journal text.now result }
{
    match read_line(core.plan(), text) {
        Some((number, event)) => {
            if take_event(core, number, &event) {
                Reading::Taken
            } else {
                Reading::NotReady
            }
        }
        None => Reading::NoEvent,
    }
}

/// Whether a text is the line of how the run ended, without its line feed.
fn is_ending_line<A: Agent>(core: &Core<A>, text: &[u8]) -> bool
    requires { ending_of core.now.plan A.meaning core.now.journal ≢ Ending.Running }
    ensures { IsTrue result ↔ (ending_text (length core.now.journal) (ending_of core.now.plan A.meaning core.now.journal) ≡ text.now) }
{
    ending_line(core.journal_len(), core.ending()).bytes() == text
}

/// Whether a text is this line of the wait list, without its line feed.
fn is_line_of_wait(plan: &Plan, wait: &WaitLine, text: &[u8]) -> bool
    ensures { IsTrue result ↔ (wait_text plan.now wait.now ≡ text.now) }
{
    wait_line(plan, wait).bytes() == text
}

/// Whether a text is the next line of the wait list, without its line feed.
fn is_wait_line<A: Agent>(core: &Core<A>, told: Told, text: &[u8]) -> bool
    requires told { IsTold core.now.plan A.meaning core.now.journal told }
    requires ended { told.lines ≢ 0 }
    ensures { IsTrue result ↔ (slice_get (end_lines core.now.plan A.meaning core.now.journal) told.lines ≡ Some (fed text.now)) }
{
    if told.left == 0 {
        return false;
    }
    let (wait, _place) = core.next_wait(told.place);
    is_line_of_wait(core.plan(), &wait, text)
}

/// Whether a text is the next of the lines after the events of the run.
fn is_end_line<A: Agent>(core: &Core<A>, told: Told, text: &[u8]) -> bool
    requires { IsTold core.now.plan A.meaning core.now.journal told }
    ensures { IsTrue result ↔ (slice_get (end_lines core.now.plan A.meaning core.now.journal) told.lines ≡ Some (fed text.now)) }
{
    if told.lines > 0 {
        return is_wait_line(core, told, text);
    }
    if matches!(core.ending(), Ending::Running) {
        return false;
    }
    is_ending_line(core, text)
}

/// Takes a text for the next of the lines after the events, and answers how far these have come by now;
/// the given reason where it is another line.
fn take_end<A: Agent>(core: &Core<A>, told: Told, text: &[u8], why: Why) -> Result<Told, Why>
    requires told { IsTold core.now.plan A.meaning core.now.journal told }
    requires few { told.lines + 1 < 2 ^ 64 }
    ensures { IsTakenEnd core.now.plan A.meaning core.now.journal told (fed text.now) why result }
{
    if is_end_line(core, told, text) {
        Ok(one_told(core, told))
    } else {
        Err(why)
    }
}

/// Whether a text is the line of an ending or of a wait list, without its line feed.
fn reads_as_last(plan: &Plan, text: &[u8]) -> bool
    requires { IsResolved plan.now }
    ensures { IsTrue result ↔ (IsEndingText text.now ⊎ IsWaitText plan.now text.now) }
{
    reads_as_ending(text) || reads_as_wait(plan, text)
}

/// Why a text is bad that is the line of no event.
fn why_no_event(plan: &Plan, text: &[u8]) -> Why
    requires { IsResolved plan.now }
    ensures { IsNoEventFor plan.now text.now result }
{
    if reads_as_last(plan, text) {
        Why::WrongEnding
    } else {
        Why::NotALine
    }
}

/// Takes the text of the next line: of an event that may follow, or of the next of the lines after the
/// events. It answers how far these have come by now, or why the line is bad.
fn take_text<A: Agent>(core: &mut Core<A>, told: Told, text: &[u8]) -> Result<Told, Why>
    requires resolved { IsResolved core.old.plan }
    requires within { told.lines ≤ length (end_lines core.old.plan A.meaning core.old.journal) }
    requires told { IsTold core.old.plan A.meaning core.old.journal told }
    requires few { told.lines + 1 < 2 ^ 64 }
    ensures plan { core.new.plan ≡ core.old.plan }
    ensures taken { IsTakenLine core.old.plan A.meaning core.old.journal core.new.journal told (fed text.now) result }
{
    match read_text(core, text) {
        Reading::Taken => Ok(told),
        Reading::NotReady => take_end(core, told, text, Why::NotReady),
        Reading::NoEvent => take_end(core, told, text, why_no_event(core.plan(), text)),
    }
}

/// Takes the next line: an event that may follow, or the next of the lines after the events. It answers how
/// far these have come by now, or why the line is bad; then nothing changes.
pub fn take_line<A: Agent>(core: &mut Core<A>, told: Told, line: &[u8]) -> Result<Told, Why>
    requires resolved { IsResolved core.old.plan }
    requires within { told.lines ≤ length (end_lines core.old.plan A.meaning core.old.journal) }
    requires told { IsTold core.old.plan A.meaning core.old.journal told }
    requires few { told.lines + 1 < 2 ^ 64 }
    ensures plan { core.new.plan ≡ core.old.plan }
    ensures taken { IsTakenLine core.old.plan A.meaning core.old.journal core.new.journal told line.now result }
{
    match text_of_line(line) {
        Some(text) => take_text(core, told, text),
        None => Err(Why::NotALine),
    }
}
