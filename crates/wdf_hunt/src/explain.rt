//! The story of a trace's ending.
ghost use Rattle.std.specs.Prelude.{◌≡◌, ◌≤◌, [], length};
ghost use Rattle.wdf_base.specs.Resolved.{IsResolved};
ghost use Rattle.wdf_dev.specs.Agents.{agent_meaning};
ghost use Rattle.wdf_explain_run.specs.Endings.{story};
ghost use Rattle.wdf_io.specs.Outside.{EndsRefused};
ghost use Rattle.wdf_output.specs.Said.{sinking};
ghost use Rattle.wdf_top.specs.Top.{IsRead, Sourcing, TellsBy, sourcing};
ghost use Rattle.wdf_hunt.specs.Explained.{TellsExplained, TellsStory, explaining};

use crate::read::read_text;
use std::alloc::Global;
use wdf_base::Plan;
use wdf_core::Core;
use wdf_dev::AnyAgent;
use wdf_exit::Exit;
use wdf_explain_run::story_of_run;
use wdf_io::{Sink, Source};
use wdf_output::{Refusal, say, tell};
use wdf_parse::TEXT_LIMIT;
use wdf_replay::{Verdict, refused_line, replay};
use wdf_run_text::from_place;
use wdf_split::split;
use wdf_top::{opening, plan_of_text};

/// Writes the story of the ending of the run on a core, or the line `out of memory`.
fn tell_ending<K: Sink>(alloc: Global, core: &Core<AnyAgent>, sink: &mut K) -> u8
    ensures told { TellsStory (story core.now.plan agent_meaning core.now.journal)
        (sinking (K.written sink.old) (K.written sink.new) (K.faults sink.old) (K.faults sink.new))
        result }
    ensures not_again { result ≡ 13 → EndsRefused K.refused K.faults sink.old sink.new }
{
    match story_of_run(alloc, core) {
        Ok(text) => say(sink, text.bytes(), Exit::Fine as u8),
        Err(memory) => tell(sink, Refusal::from(memory)),
    }
}

/// Judges a trace on a core without events, and writes the story of its ending, or which line is bad.
fn tell_trace<K: Sink>(alloc: Global, core: &mut Core<AnyAgent>, trace: &[u8], sink: &mut K) -> u8
    requires resolved { IsResolved core.old.plan }
    requires fresh { core.old.journal ≡ [] }
    ensures told { TellsExplained core.old.plan trace.now
        (sinking (K.written sink.old) (K.written sink.new) (K.faults sink.old) (K.faults sink.new))
        result }
    ensures not_again { result ≡ 13 → EndsRefused K.refused K.faults sink.old sink.new }
{
    match replay(core, trace) {
        Verdict::Accepted(_) => tell_ending(alloc, core, sink),
        Verdict::RefusedAt { line, why } => say(
            sink,
            refused_line(line, why).bytes(),
            Exit::BadLine as u8,
        ),
    }
}

/// The same by a run from the plan's opening.
fn tell_plan<K: Sink>(alloc: Global, plan: Plan, trace: &[u8], sink: &mut K) -> u8
    requires { IsResolved plan }
    ensures told { TellsExplained plan trace.now
        (sinking (K.written sink.old) (K.written sink.new) (K.faults sink.old) (K.faults sink.new))
        result }
    ensures not_again { result ≡ 13 → EndsRefused K.refused K.faults sink.old sink.new }
{
    match opening::<AnyAgent>(alloc, plan) {
        Ok(mut core) => tell_trace(alloc, &mut core, trace, sink),
        Err(memory) => tell(sink, Refusal::from(memory)),
    }
}

/// Writes the story of an input's trace, or says why its scenario has no plan.
fn explain_input<K: Sink>(alloc: Global, input: &[u8], sink: &mut K) -> u8
    requires { length input.now ≤ TEXT_LIMIT }
    ensures told { (s : Sourcing) → IsRead s input.now → TellsBy explaining s
        (sinking (K.written sink.old) (K.written sink.new) (K.faults sink.old) (K.faults sink.new))
        result }
    ensures not_again { result ≡ 13 → EndsRefused K.refused K.faults sink.old sink.new }
{
    let parts = split(input);
    match plan_of_text(alloc, &input[..parts.scenario]) {
        Ok(plan) => tell_plan(alloc, plan, from_place(input, parts.trace), sink),
        Err(refusal) => tell(sink, refusal),
    }
}

/// Reads a scenario and a trace, and writes the story of the trace's ending, or says why it can't.
pub(crate) fn explain<S: Source, K: Sink>(alloc: Global, source: &mut S, sink: &mut K) -> u8
    ensures told { TellsBy explaining
        (sourcing (S.left source.old) (S.left source.new) (S.faults source.old) (S.faults source.new))
        (sinking (K.written sink.old) (K.written sink.new) (K.faults sink.old) (K.faults sink.new))
        result }
    ensures not_again { result ≡ 13 → EndsRefused K.refused K.faults sink.old sink.new }
{
    match read_text(alloc, source) {
        Ok(input) => explain_input(alloc, &input, sink),
        Err(refusal) => tell(sink, refusal),
    }
}
