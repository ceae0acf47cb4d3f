//! The rest of the text of a watched run, and the whole call.
ghost use Rattle.std.specs.Prelude.{◌≡◌, ◌≢◌, ◌+◌, ◌≤◌, [], IfOk, OnOk, OnErr, drop, length};
ghost use Rattle.wdf_base.specs.declared.event.Ending.TheVariants as ending;
ghost use Rattle.wdf_io.specs.Outside.{Gains, EndsRefused};
ghost use Rattle.wdf_lines.specs.Lines.{lines_from};
ghost use Rattle.wdf_live.specs.Watched.{HasWatched, text_after};
ghost use Rattle.wdf_model.specs.rules.Ready.{ending_of};
ghost use Rattle.wdf_output.specs.Endings.{status_of};
ghost use Rattle.wdf_output.specs.Said.{IsCutShort, Says, sinking};

use crate::printer::write_event;
use crate::run::watch;
use std::alloc::Global;
use std::sync::Wait;
use std::thread::Threads;
use wdf_base::{Agent, Memory, Plan};
use wdf_core::Core;
use wdf_exit::Exit;
use wdf_io::{Failed, Sink};
use wdf_output::{status_of, write_end};
use wdf_turn::Gate;

/// Makes a run by threads and writes its text: the line of each event as soon as it is in the history, and after the last
/// one the ending and the wait list. Answers the status of the ending, or that of [`Exit::WriteFault`] where the sink fails.
///
/// # Errors
///
/// [`Memory`], with the core dropped, where memory was refused. Nothing has run and the sink wasn't called then.
pub fn write_watched<R: Threads + Wait + Sync, A: Agent + Send, K: Sink + Send, G: Gate + Sync>(
    rt: &R,
    alloc: Global,
    plan: &Plan,
    core: Core<A>,
    gate: &G,
    sink: &mut K,
) -> Result<u8, Memory>
    requires plan { plan.now ≡ core.plan }
    requires fresh { core.journal ≡ [] }
    // What is written is a front of the text of the one run that was made, and the whole of it where no write failed.
    ensures watched { IfOk result (λ status. HasWatched core.plan A.meaning (sinking (K.written sink.old) (K.written sink.new) (K.faults sink.old) (K.faults sink.new)) status) }
    ensures not_again { IfOk result (λ status. status ≡ 13 → EndsRefused K.refused K.faults sink.old sink.new) }
    ensures unused { OnErr result (sink.new ≡ sink.old) }
{
    let (core, printed) = watch(rt, alloc, plan, core, gate, sink)?;
    if printed.failed {
        return Ok(Exit::WriteFault as u8);
    }
    Ok(write_rest(&core, printed.lines, sink))
}

/// Writes what comes after the lines of so many events: the other lines, the ending and the wait list. Answers the status of
/// the ending, or that of [`Exit::WriteFault`] where the sink fails.
#[tactic(auto, using(wdf_output::proofs::Sinks::ending_no_sink, wdf_output::proofs::Sinks::ends_later))]
fn write_rest<A: Agent, K: Sink>(core: &Core<A>, lines: usize, sink: &mut K) -> u8
    requires ended { ending_of core.now.plan A.meaning core.now.journal ≢ ending.Running }
    requires within { lines ≤ length core.now.journal }
    ensures said { Says (sinking (K.written sink.old) (K.written sink.new) (K.faults sink.old) (K.faults sink.new))
        (text_after core.now.plan A.meaning core.now.journal lines) (status_of (ending_of core.now.plan A.meaning core.now.journal)) result }
    ensures never_falls { K.faults sink.old ≤ K.faults sink.new }
    ensures not_again { result ≡ 13 → EndsRefused K.refused K.faults sink.old sink.new }
{
    match write_left(core, lines, sink) {
        Ok(()) => match write_end(core, sink) {
            Ok(()) => status_of(core.ending()),
            Err(_) => Exit::WriteFault as u8,
        },
        Err(_) => Exit::WriteFault as u8,
    }
}

/// Writes the lines of the events after so many.
///
/// # Errors
///
/// [`Failed`] where a write of the sink failed. A front of the lines may be written by then.
fn write_left<A: Agent, K: Sink>(core: &Core<A>, lines: usize, sink: &mut K) -> Result<(), Failed>
    requires { lines ≤ length core.now.journal }
    ensures whole { OnOk result (Gains (K.written sink.old) (K.written sink.new) (lines_from core.now.plan (lines + 1) (drop lines core.now.journal))) }
    ensures cut { OnErr result (IsCutShort (sinking (K.written sink.old) (K.written sink.new) (K.faults sink.old) (K.faults sink.new)) (lines_from core.now.plan (lines + 1) (drop lines core.now.journal))) }
    ensures quiet { OnOk result (K.faults sink.new ≡ K.faults sink.old) }
    ensures never_falls { K.faults sink.old ≤ K.faults sink.new }
    ensures not_again { OnErr result (EndsRefused K.refused K.faults sink.old sink.new) }
{
    for k in lines..core.journal_len() {
        let event = core.journal_at(k);
        match write_event(sink, core.plan(), k + 1, &event) {
            Ok(()) => {}
            Err(failed) => return Err(failed),
        }
    }
    Ok(())
}
