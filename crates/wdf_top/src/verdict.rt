//! The form `replay`: the verdict on a trace.
ghost use Rattle.std.specs.Prelude.{◌≡◌, ◌≤◌, [], length};
ghost use Rattle.wdf_base.specs.Resolved.{IsResolved};
ghost use Rattle.wdf_io.specs.Outside.{EndsRefused};
ghost use Rattle.wdf_output.specs.Said.{Says, sinking};
ghost use Rattle.wdf_top.specs.Answers.{accepted_line, judging, verdict_line, verdict_status};
ghost use Rattle.wdf_top.specs.Top.{IsRead, Sourcing, TellsBy, TellsVerdict};

use crate::run::opening;
use crate::scenario::plan_of_text;
use std::alloc::Global;
use wdf_base::{Ending, Plan};
use wdf_core::Core;
use wdf_dev::AnyAgent;
use wdf_exit::Exit;
use wdf_io::Sink;
use wdf_lines::{Message, ending_word};
use wdf_output::{Refusal, say, tell};
use wdf_parse::TEXT_LIMIT;
use wdf_replay::{Verdict, refused_line, replay};
use wdf_run_text::from_place;
use wdf_split::split;

/// The line of a trace that is accepted.
#[tactic(auto, using(crate::proofs::Lines::accepted_joined))]
fn accepted_line(events: usize, ending: Ending) -> Message
    ensures { result ≡ accepted_line events ending }
{
    let mut message = Message::new(b"accepted ");
    message.push(ending_word(ending));
    message.push(b" ");
    message.push_number(events as u64);
    message.push(b"\n");
    message
}

/// Writes the verdict on a trace, whose run has so many events where it is accepted.
fn say_verdict<K: Sink>(events: usize, verdict: Verdict, sink: &mut K) -> u8
    ensures said { Says (sinking (K.written sink.old) (K.written sink.new) (K.faults sink.old) (K.faults sink.new))
        (verdict_line events verdict) (verdict_status verdict) result }
    ensures not_again { result ≡ 13 → EndsRefused K.refused K.faults sink.old sink.new }
{
    match verdict {
        Verdict::Accepted(ending) => say(
            sink,
            accepted_line(events, ending).bytes(),
            Exit::Fine as u8,
        ),
        Verdict::RefusedAt { line, why } => say(
            sink,
            refused_line(line, why).bytes(),
            Exit::BadLine as u8,
        ),
    }
}

/// Judges a trace on a core without events, and writes the verdict. It takes no memory.
fn judge_trace<K: Sink>(core: &mut Core<AnyAgent>, trace: &[u8], sink: &mut K) -> u8
    requires resolved { IsResolved core.old.plan }
    requires fresh { core.old.journal ≡ [] }
    ensures told { TellsVerdict core.old.plan trace.now
        (sinking (K.written sink.old) (K.written sink.new) (K.faults sink.old) (K.faults sink.new))
        result }
    ensures not_again { result ≡ 13 → EndsRefused K.refused K.faults sink.old sink.new }
{
    let verdict = replay(core, trace);
    say_verdict(core.journal_len(), verdict, sink)
}

/// Writes the verdict on a trace, by a run from the plan's opening, or the line `out of memory`. All memory is
/// taken before the first line is read.
fn tell_verdict<K: Sink>(alloc: Global, plan: Plan, trace: &[u8], sink: &mut K) -> u8
    requires { IsResolved plan }
    ensures told { TellsVerdict plan trace.now
        (sinking (K.written sink.old) (K.written sink.new) (K.faults sink.old) (K.faults sink.new))
        result }
    ensures not_again { result ≡ 13 → EndsRefused K.refused K.faults sink.old sink.new }
{
    match opening::<AnyAgent>(alloc, plan) {
        Ok(mut core) => judge_trace(&mut core, trace, sink),
        Err(memory) => tell(sink, Refusal::from(memory)),
    }
}

/// Writes the verdict on an input's trace, or says why its scenario has no plan.
pub fn judge_input<K: Sink>(alloc: Global, input: &[u8], sink: &mut K) -> u8
    requires { length input.now ≤ TEXT_LIMIT }
    ensures told { (s : Sourcing) → IsRead s input.now → TellsBy judging s
        (sinking (K.written sink.old) (K.written sink.new) (K.faults sink.old) (K.faults sink.new))
        result }
    ensures not_again { result ≡ 13 → EndsRefused K.refused K.faults sink.old sink.new }
{
    let parts = split(input);
    match plan_of_text(alloc, &input[..parts.scenario]) {
        Ok(plan) => tell_verdict(alloc, plan, from_place(input, parts.trace), sink),
        Err(refusal) => tell(sink, refusal),
    }
}
