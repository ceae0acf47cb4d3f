//! A trace is checked line by line.
ghost use Rattle.std.specs.Prelude.{◌≡◌, ◌+◌, ◌≤◌, [], length, List};
ghost use Rattle.wdf_base.specs.Resolved.{IsResolved};
ghost use Rattle.wdf_run_text.specs.Texts.{end_lines, lines_so_far, HasEventsOf};
ghost use Rattle.wdf_run_text.specs.Lines.{trace_lines};
ghost use Rattle.wdf_base.specs.declared.event.Event.{Event};
ghost use Rattle.wdf_model.specs.rules.Ready.{ending_of};
ghost use Rattle.wdf_replay.specs.Verdicts.{GivesVerdict, IsLeft, IsWhole};

use crate::step::take_line;
use crate::told::none_told;
use crate::verdict::{Verdict, Why};
use wdf_base::{Agent, Ending};
use wdf_core::Core;
use wdf_run_text::line_at;

/// The verdict on a trace whose lines are all good.
fn verdict_at_end<A: Agent>(core: &Core<A>, trace: &[u8], told: usize, number: usize) -> Verdict
    requires within { told ≤ length (end_lines core.now.plan A.meaning core.now.journal) }
    requires good { trace_lines trace.now ≡ lines_so_far core.now.plan A.meaning core.now.journal told }
    requires valid { HasEventsOf core.now.plan core.now.journal }
    requires number { number ≡ length (lines_so_far core.now.plan A.meaning core.now.journal told) + 1 }
    ensures verdict { GivesVerdict core.now.plan A.meaning trace.now result }
    ensures left { IsLeft core.now.plan A.meaning trace.now result core.now.journal }
{
    let _events = core.journal_len();
    let ending = core.ending();
    let why = Why::Missing;
    if matches!(ending, Ending::Running) {
        return Verdict::RefusedAt { line: number, why };
    }
    if told <= core.wait_len() {
        return Verdict::RefusedAt { line: number, why };
    }
    Verdict::Accepted(ending)
}

/// Takes the lines of a trace in turn, up to the first bad one.
fn check_lines<A: Agent>(core: &mut Core<A>, trace: &[u8]) -> Verdict
    requires resolved { IsResolved core.old.plan }
    requires fresh { core.old.journal ≡ [] }
    ensures plan { core.new.plan ≡ core.old.plan }
    ensures verdict { GivesVerdict core.old.plan A.meaning trace.now result }
    ensures left { IsLeft core.old.plan A.meaning trace.now result core.new.journal }
{
    let mut at = 0;
    let mut number = 1;
    let mut told = none_told(core);
    while at < trace.len() {
        let line = line_at(trace, at);
        let _events = core.journal_len();
        match take_line(core, told, line) {
            Ok(now) => told = now,
            Err(why) => return Verdict::RefusedAt { line: number, why },
        }
        at += line.len();
        number += 1;
    }
    verdict_at_end(core, trace, told.lines, number)
}

/// Checks a trace on a core without events, and leaves on it the events of the lines before the first bad
/// one. It takes no memory.
pub fn replay<A: Agent>(core: &mut Core<A>, trace: &[u8]) -> Verdict
    requires resolved { IsResolved core.old.plan }
    requires fresh { core.old.journal ≡ [] }
    ensures plan { core.new.plan ≡ core.old.plan }

    // Only the text of a run that has ended is accepted; else the first bad line is refused.
    ensures verdict { GivesVerdict core.old.plan A.meaning trace.now result }
    // After an accepted trace its run is on the core, and after a refused one the run of the lines before the bad one.
    ensures left { IsLeft core.old.plan A.meaning trace.now result core.new.journal }

    // The lines of a run that has ended are accepted, where its events are of the plan.
    ensures each { (run : List Event) → IsWhole core.old.plan A.meaning trace.now run → result ≡ Verdict.Accepted (ending_of core.old.plan A.meaning run) }
{
    check_lines(core, trace)
}
