//! Writing the trace of a run.
ghost use Rattle.std.specs.Prelude.{◌≡◌, ◌≢◌, ◌<◌, ◌≤◌, ◌++◌, length, codes, OnOk, OnErr};
ghost use Rattle.wdf_io.specs.Outside.{Gains, EndsRefused};
ghost use Rattle.wdf_model.specs.rules.Ready.{ending_of};
ghost use Rattle.wdf_model.specs.rules.Waits.{wait_list};
ghost use Rattle.wdf_lines.specs.Lines.{line_text, lines_from};
ghost use Rattle.wdf_lines.specs.Endings.{ending_text, wait_text, wait_lines};
ghost use Rattle.wdf_run_text.specs.Texts.{text_of};
ghost use Rattle.wdf_output.specs.Said.{Adds, Says, IsCutShort, sinking};
ghost use Rattle.wdf_output.specs.Endings.{status_of, ending_lines};

use crate::page::{Page, add_line, write_page};
use wdf_base::{Agent, Ending, Event, Plan, WaitLine};
use wdf_core::Core;
use wdf_exit::Exit;
use wdf_io::{Failed, Sink, write_all};
use wdf_lines::{LINE_LIMIT, Line, ending_line, rewrite, wait_line};

/// Writes a line and its line feed, in one piece.
///
/// # Errors
///
/// [`Failed`] where a write of the sink failed. A front of the line may be written by then.
pub fn write_line<K: Sink>(sink: &mut K, mut line: Line) -> Result<(), Failed>
    requires { length line < LINE_LIMIT }
    ensures whole { OnOk result (Gains (K.written sink.old) (K.written sink.new) (line ++ codes "\n")) }
    ensures cut { OnErr result (IsCutShort (sinking (K.written sink.old) (K.written sink.new) (K.faults sink.old) (K.faults sink.new)) (line ++ codes "\n")) }
    ensures quiet { OnOk result (K.faults sink.new ≡ K.faults sink.old) }
    ensures never_falls { K.faults sink.old ≤ K.faults sink.new }
    ensures not_again { OnErr result (EndsRefused K.refused K.faults sink.old sink.new) }
{
    line.push_line_feed();
    write_all(sink, line.bytes())
}

/// Adds the line of an event to a page.
fn add_event<K: Sink>(
    sink: &mut K,
    page: &mut Page,
    line: &mut Line,
    plan: &Plan,
    number: usize,
    event: &Event,
) -> Result<(), Failed>
    ensures whole { OnOk result (Adds (K.written sink.old) (K.written sink.new) page.old page.new (line_text plan.now number event.now ++ codes "\n")) }
    ensures cut { OnErr result (IsCutShort (sinking (K.written sink.old) (K.written sink.new) (K.faults sink.old) (K.faults sink.new)) page.old) }
    ensures quiet { OnOk result (K.faults sink.new ≡ K.faults sink.old) }
    ensures never_falls { K.faults sink.old ≤ K.faults sink.new }
    ensures not_again { OnErr result (EndsRefused K.refused K.faults sink.old sink.new) }
{
    rewrite(line, plan, number, event);
    line.push_line_feed();
    add_line(sink, page, line.bytes())
}

/// Adds a line for each event of the journal to a page.
fn add_events<A: Agent, K: Sink>(
    core: &Core<A>,
    sink: &mut K,
    page: &mut Page,
) -> Result<(), Failed>
    ensures whole { OnOk result (Adds (K.written sink.old) (K.written sink.new) page.old page.new (lines_from core.now.plan 1 core.now.journal)) }
    ensures cut { OnErr result (IsCutShort (sinking (K.written sink.old) (K.written sink.new) (K.faults sink.old) (K.faults sink.new)) (page.old ++ lines_from core.now.plan 1 core.now.journal)) }
    ensures quiet { OnOk result (K.faults sink.new ≡ K.faults sink.old) }
    ensures never_falls { K.faults sink.old ≤ K.faults sink.new }
    ensures not_again { OnErr result (EndsRefused K.refused K.faults sink.old sink.new) }
{
    let mut line = Line::new();
    for k in 0..core.journal_len() {
        let event = core.journal_at(k);
        match add_event(sink, page, &mut line, core.plan(), k + 1, &event) {
            Ok(()) => {}
            Err(failed) => return Err(failed),
        }
    }
    Ok(())
}

/// Adds the line of how the run ended to a page.
fn add_ending<A: Agent, K: Sink>(
    core: &Core<A>,
    sink: &mut K,
    page: &mut Page,
) -> Result<(), Failed>
    requires { ending_of core.now.plan A.meaning core.now.journal ≢ Ending.Running }
    ensures whole { OnOk result (Adds (K.written sink.old) (K.written sink.new) page.old page.new (ending_text (length core.now.journal) (ending_of core.now.plan A.meaning core.now.journal) ++ codes "\n")) }
    ensures cut { OnErr result (IsCutShort (sinking (K.written sink.old) (K.written sink.new) (K.faults sink.old) (K.faults sink.new)) page.old) }
    ensures quiet { OnOk result (K.faults sink.new ≡ K.faults sink.old) }
    ensures never_falls { K.faults sink.old ≤ K.faults sink.new }
    ensures not_again { OnErr result (EndsRefused K.refused K.faults sink.old sink.new) }
{
    let mut line = ending_line(core.journal_len(), core.ending());
    line.push_line_feed();
    add_line(sink, page, line.bytes())
}

/// Adds a line of the wait list to a page.
fn add_wait<K: Sink>(
    sink: &mut K,
    page: &mut Page,
    plan: &Plan,
    wait: &WaitLine,
) -> Result<(), Failed>
    ensures whole { OnOk result (Adds (K.written sink.old) (K.written sink.new) page.old page.new (wait_text plan.now wait.now ++ codes "\n")) }
    ensures cut { OnErr result (IsCutShort (sinking (K.written sink.old) (K.written sink.new) (K.faults sink.old) (K.faults sink.new)) page.old) }
    ensures quiet { OnOk result (K.faults sink.new ≡ K.faults sink.old) }
    ensures never_falls { K.faults sink.old ≤ K.faults sink.new }
    ensures not_again { OnErr result (EndsRefused K.refused K.faults sink.old sink.new) }
{
    let mut line = wait_line(plan, wait);
    line.push_line_feed();
    add_line(sink, page, line.bytes())
}

/// Adds the wait list to a page, a line for each open thing. A run that isn't stuck has none.
fn add_waits<A: Agent, K: Sink>(core: &Core<A>, sink: &mut K, page: &mut Page) -> Result<(), Failed>
    ensures whole { OnOk result (Adds (K.written sink.old) (K.written sink.new) page.old page.new (wait_lines core.now.plan (wait_list core.now.plan A.meaning core.now.journal))) }
    ensures cut { OnErr result (IsCutShort (sinking (K.written sink.old) (K.written sink.new) (K.faults sink.old) (K.faults sink.new)) (page.old ++ wait_lines core.now.plan (wait_list core.now.plan A.meaning core.now.journal))) }
    ensures quiet { OnOk result (K.faults sink.new ≡ K.faults sink.old) }
    ensures never_falls { K.faults sink.old ≤ K.faults sink.new }
    ensures not_again { OnErr result (EndsRefused K.refused K.faults sink.old sink.new) }
{
    let mut place = core.first_wait();
    for _k in 0..core.wait_len() {
        let (wait, next) = core.next_wait(place);
        match add_wait(sink, page, core.plan(), &wait) {
            Ok(()) => place = next,
            Err(failed) => return Err(failed),
        }
    }
    Ok(())
}

/// Adds the line of how the run ended and the wait list of a stuck run to a page, and writes that.
fn write_last<A: Agent, K: Sink>(
    core: &Core<A>,
    sink: &mut K,
    page: &mut Page,
) -> Result<(), Failed>
    requires { ending_of core.now.plan A.meaning core.now.journal ≢ Ending.Running }
    ensures whole { OnOk result (Gains (K.written sink.old) (K.written sink.new) (page.old ++ ending_lines core.now.plan A.meaning core.now.journal)) }
    ensures cut { OnErr result (IsCutShort (sinking (K.written sink.old) (K.written sink.new) (K.faults sink.old) (K.faults sink.new)) (page.old ++ ending_lines core.now.plan A.meaning core.now.journal)) }
    ensures quiet { OnOk result (K.faults sink.new ≡ K.faults sink.old) }
    ensures never_falls { K.faults sink.old ≤ K.faults sink.new }
    ensures not_again { OnErr result (EndsRefused K.refused K.faults sink.old sink.new) }
{
    match add_ending(core, sink, page) {
        Ok(()) => match add_waits(core, sink, page) {
            Ok(()) => write_page(sink, page),
            Err(failed) => Err(failed),
        },
        Err(failed) => Err(failed),
    }
}

/// Writes the line of how the run ended, and the wait list of a stuck run, many lines in one call of the sink.
///
/// # Errors
///
/// [`Failed`] where a write of the sink failed. A front of these lines may be written by then.
pub fn write_end<A: Agent, K: Sink>(core: &Core<A>, sink: &mut K) -> Result<(), Failed>
    requires { ending_of core.now.plan A.meaning core.now.journal ≢ Ending.Running }
    ensures whole { OnOk result (Gains (K.written sink.old) (K.written sink.new) (ending_lines core.now.plan A.meaning core.now.journal)) }
    ensures cut { OnErr result (IsCutShort (sinking (K.written sink.old) (K.written sink.new) (K.faults sink.old) (K.faults sink.new)) (ending_lines core.now.plan A.meaning core.now.journal)) }
    ensures quiet { OnOk result (K.faults sink.new ≡ K.faults sink.old) }
    ensures never_falls { K.faults sink.old ≤ K.faults sink.new }
    ensures not_again { OnErr result (EndsRefused K.refused K.faults sink.old sink.new) }
{
    let mut page = Page::new();
    write_last(core, sink, &mut page)
}

/// Writes the trace of a run that has ended, many lines in one call of the sink. Answers the status of its ending, or
/// that of [`Exit::WriteFault`] where the sink fails. It takes no memory.
#[tactic(auto, using(crate::proofs::Sinks::ending_no_sink, crate::proofs::Sinks::ends_later))]
pub fn write_run<A: Agent, K: Sink>(core: &Core<A>, sink: &mut K) -> u8
    requires { ending_of core.now.plan A.meaning core.now.journal ≢ Ending.Running }
    ensures said { Says (sinking (K.written sink.old) (K.written sink.new) (K.faults sink.old) (K.faults sink.new))
        (text_of core.now.plan A.meaning core.now.journal)
        (status_of (ending_of core.now.plan A.meaning core.now.journal)) result }
    ensures never_falls { K.faults sink.old ≤ K.faults sink.new }
    ensures not_again { result ≡ 13 → EndsRefused K.refused K.faults sink.old sink.new }
{
    let mut page = Page::new();
    match add_events(core, sink, &mut page) {
        Ok(()) => match write_last(core, sink, &mut page) {
            Ok(()) => status_of(core.ending()),
            Err(_) => Exit::WriteFault as u8,
        },
        Err(_) => Exit::WriteFault as u8,
    }
}

/// The status of a run that ended so.
pub fn status_of(ending: Ending) -> u8
    ensures { result ≡ status_of ending }
{
    match ending {
        Ending::Running | Ending::Finished => Exit::Fine as u8,
        Ending::Fault(_) => Exit::Fault as u8,
        Ending::Stuck => Exit::Stuck as u8,
        Ending::Limit => Exit::Limit as u8,
    }
}
