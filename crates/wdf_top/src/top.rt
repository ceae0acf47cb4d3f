//! The top call without threads.
ghost use Rattle.std.specs.Prelude.{◌≡◌, map, string_bytes};
ghost use Rattle.wdf_io.specs.Outside.{EndsRefused};
ghost use Rattle.wdf_output.specs.Said.{sinking};
ghost use Rattle.wdf_top.specs.Answers.{By, checking, judging, linting, running};
ghost use Rattle.wdf_top.specs.Promises.{ServicePromises};
ghost use Rattle.wdf_top.specs.Top.{service_of, Tells, TellsBy, sourcing};
ghost use Rattle.wdf_top.specs.Words.{form_of_words};

use crate::agents::RunAgent;
use crate::generated::tell_generated;
use crate::lint::tell_findings;
use crate::load::tell_summary;
use crate::run::{Picks, tell_run};
use crate::scenario::{read_canonical, read_input, read_plan};
use crate::verdict::judge_input;
use crate::words::{Form, form_of};
use std::alloc::Global;
use wdf_dev::AnyAgent;
use wdf_exit::Exit;
use wdf_idle::IdleAgent;
use wdf_io::{Sink, Source};
use wdf_output::{say, tell};
use wdf_stack::StackAgent;

/// What is written for words of no form.
const USAGE: &[u8] =
    b"usage: kmdfsim check | order | seed N | run | replay | gen N | load N | idle | stack | lint | watch\n";

/// Serves the words after the program's name, and answers the status to end with. It
/// always returns.
///
/// `check` reads a scenario from the source and writes it in canonical form to the sink. `order` reads a
/// scenario and writes the trace of the run that its picks make: a line for each event, the ending's
/// line and, of a stuck run, the wait list. `seed N` does the same with the words of
/// `SplitMix64::seed_from_u64(N)` for picks, and takes no notice of the scenario's own. `replay` reads a scenario,
/// a line `trace` and a trace, and writes the verdict on the trace. `gen N` reads nothing and writes the
/// scenario that N generates. `load N` reads nothing, runs that scenario by the words of N, and writes the summary
/// of the run. `idle` and `stack` run as `order` does: `idle` with a policy that puts idle devices to sleep, `stack` with
/// targets that are the queues of the device below. `lint` writes what a walk of each callback's statements finds, a line
/// for each finding, or `clean`. What is no form gets the usage line. So do `run` and `watch`, which this call doesn't serve.
/// Nothing else is written. The section Statuses of `docs/SCENARIO.md` says when each status comes.
pub fn top_plain<S: Source, K: Sink>(
    alloc: Global,
    words: &[String],
    source: &mut S,
    sink: &mut K,
) -> u8
    // All that is promised of the answer to what the words ask for; the record lists it.
    ensures promises { ServicePromises (service_of (form_of_words (map string_bytes words.now)))
        (sourcing (S.left source.old) (S.left source.new) (S.faults source.old) (S.faults source.new))
        (sinking (K.written sink.old) (K.written sink.new) (K.faults sink.old) (K.faults sink.new))
        result }
    // A sink isn't tried again after its failure.
    ensures not_again { result ≡ 13 → EndsRefused K.refused K.faults sink.old sink.new }
{
    answer(alloc, form_of(words), source, sink)
}

/// Serves a form of words.
fn answer<S: Source, K: Sink>(alloc: Global, form: Option<Form>, source: &mut S, sink: &mut K) -> u8
    ensures told { Tells (service_of form)
        (sourcing (S.left source.old) (S.left source.new) (S.faults source.old) (S.faults source.new))
        (sinking (K.written sink.old) (K.written sink.new) (K.faults sink.old) (K.faults sink.new))
        result }
    ensures not_again { result ≡ 13 → EndsRefused K.refused K.faults sink.old sink.new }
{
    match form {
        None => say(sink, USAGE, Exit::Usage as u8),
        Some(Form::Check) => check(alloc, source, sink),
        Some(Form::Order) => run::<AnyAgent, S, K>(alloc, Picks::Listed, source, sink),
        Some(Form::Seed(seed)) => run::<AnyAgent, S, K>(alloc, Picks::Seeded(seed), source, sink),
        Some(Form::Gen(number)) => tell_generated(alloc, number, sink),
        Some(Form::Replay) => judge(alloc, source, sink),
        Some(Form::Load(number)) => tell_summary(alloc, number, sink),
        Some(Form::Idle) => run::<IdleAgent, S, K>(alloc, Picks::Listed, source, sink),
        Some(Form::Stack) => run::<StackAgent, S, K>(alloc, Picks::Listed, source, sink),
        Some(Form::Lint) => check_scripts(alloc, source, sink),
    }
}

/// Reads the input and writes its scene in canonical form, or says why it has no plan.
fn check<S: Source, K: Sink>(alloc: Global, source: &mut S, sink: &mut K) -> u8
    ensures told { TellsBy checking
        (sourcing (S.left source.old) (S.left source.new) (S.faults source.old) (S.faults source.new))
        (sinking (K.written sink.old) (K.written sink.new) (K.faults sink.old) (K.faults sink.new))
        result }
    ensures not_again { result ≡ 13 → EndsRefused K.refused K.faults sink.old sink.new }
{
    match read_canonical(alloc, source) {
        Ok(text) => say(sink, &text, Exit::Fine as u8),
        Err(refusal) => tell(sink, refusal),
    }
}

/// Reads the input, runs its plan with agents of this type and writes the trace, or says why it can't.
fn run<A: RunAgent, S: Source, K: Sink>(
    alloc: Global,
    picks: Picks,
    source: &mut S,
    sink: &mut K,
) -> u8
    ensures told { TellsBy (running A.meaning (By picks))
        (sourcing (S.left source.old) (S.left source.new) (S.faults source.old) (S.faults source.new))
        (sinking (K.written sink.old) (K.written sink.new) (K.faults sink.old) (K.faults sink.new))
        result }
    ensures not_again { result ≡ 13 → EndsRefused K.refused K.faults sink.old sink.new }
{
    match read_plan(alloc, source) {
        Ok(plan) => tell_run::<A, K>(alloc, plan, picks, sink),
        Err(refusal) => tell(sink, refusal),
    }
}

/// Reads the input and writes the verdict on its trace, or says why it can't.
fn judge<S: Source, K: Sink>(alloc: Global, source: &mut S, sink: &mut K) -> u8
    ensures told { TellsBy judging
        (sourcing (S.left source.old) (S.left source.new) (S.faults source.old) (S.faults source.new))
        (sinking (K.written sink.old) (K.written sink.new) (K.faults sink.old) (K.faults sink.new))
        result }
    ensures not_again { result ≡ 13 → EndsRefused K.refused K.faults sink.old sink.new }
{
    match read_input(alloc, source) {
        Ok(input) => judge_input(alloc, &input, sink),
        Err(refusal) => tell(sink, refusal),
    }
}

/// Reads the input and writes what the static check finds in its plan's scripts, or says why it can't.
fn check_scripts<S: Source, K: Sink>(alloc: Global, source: &mut S, sink: &mut K) -> u8
    ensures told { TellsBy linting
        (sourcing (S.left source.old) (S.left source.new) (S.faults source.old) (S.faults source.new))
        (sinking (K.written sink.old) (K.written sink.new) (K.faults sink.old) (K.faults sink.new))
        result }
    ensures not_again { result ≡ 13 → EndsRefused K.refused K.faults sink.old sink.new }
{
    match read_plan(alloc, source) {
        Ok(plan) => tell_findings(alloc, plan, sink),
        Err(refusal) => tell(sink, refusal),
    }
}
