//! The call of the program.
ghost use Rattle.std.specs.Prelude.{◌≡◌, ◌+◌, ◌<◌, ◌≤◌, ◌^◌, map, string_bytes};
ghost use Rattle.wdf_io.specs.Outside.{EndsRefused};
ghost use Rattle.wdf_output.specs.Said.{Says, sinking};
ghost use Rattle.wdf_top.specs.Top.{TellsBy, sourcing};
ghost use Rattle.wdf_hunt.specs.Answers.{Tells, seeking, shrinking, with_jitter};
ghost use Rattle.wdf_hunt.specs.Cases.{case_refusal_line, case_refusal_status};
ghost use Rattle.wdf_hunt.specs.Words.{form_of_words};

use crate::explain::explain;
use crate::read::{CaseRefusal, read_case};
use crate::story::tell_story;
use crate::sum::add_tables;
use crate::table::tell_table;
use crate::words::{Form, form_of};
use std::alloc::Global;
use std::thread::Threads;
use wdf_exit::Exit;
use wdf_hunters::Progress;
use wdf_io::{Sink, Source};
use wdf_output::{say, tell};
use wdf_tries::Case;

/// What is written for words of no form.
const USAGE: &[u8] =
    b"usage: kmdfhunt seeds FROM COUNT [jitter TICKS] [--no-progress] | shrink N [jitter TICKS] | test FOLDER [FROM COUNT] | sum | explain\n";

/// Writes why an input is no case.
fn tell_refusal<K: Sink>(sink: &mut K, refusal: CaseRefusal) -> u8
    ensures said { Says (sinking (K.written sink.old) (K.written sink.new) (K.faults sink.old) (K.faults sink.new))
        (case_refusal_line refusal) (case_refusal_status refusal) result }
    ensures not_again { result ≡ 13 → EndsRefused K.refused K.faults sink.old sink.new }
{
    match refusal {
        CaseRefusal::Scenario { refusal } => tell(sink, refusal),
        CaseRefusal::Unread { .. } => say(sink, refusal.line().bytes(), Exit::NoScene as u8),
    }
}

/// A case with so many ticks by which a seed may move a line.
fn with_jitter(case: Case, jitter: u32) -> Case
    ensures { result ≡ with_jitter jitter case }
{
    Case {
        scene: case.scene,
        expectations: case.expectations,
        jitter,
    }
}

/// Reads a scenario, and writes the table of its runs by the seeds of a range, or says why it can't.
fn seek<R: Threads + Sync, S: Source, K: Sink, P: Progress>(
    rt: &R,
    alloc: Global,
    from: u64,
    count: u32,
    jitter: u32,
    source: &mut S,
    sink: &mut K,
    progress: &mut P,
) -> u8
    requires some { 0 < count }
    requires fits { from + count ≤ 2 ^ 64 }
    ensures told { TellsBy (seeking from count jitter)
        (sourcing (S.left source.old) (S.left source.new) (S.faults source.old) (S.faults source.new))
        (sinking (K.written sink.old) (K.written sink.new) (K.faults sink.old) (K.faults sink.new))
        result }
    ensures not_again { result ≡ 13 → EndsRefused K.refused K.faults sink.old sink.new }
{
    match read_case(alloc, source) {
        Ok(case) => {
            let case = with_jitter(case, jitter);
            tell_table(rt, alloc, &case, from, count, sink, progress)
        }
        Err(refusal) => tell_refusal(sink, refusal),
    }
}

/// Reads a scenario, and writes the story of a seed, or says why it can't.
fn shrink<S: Source, K: Sink>(
    alloc: Global,
    seed: u64,
    jitter: u32,
    source: &mut S,
    sink: &mut K,
) -> u8
    ensures told { TellsBy (shrinking seed jitter)
        (sourcing (S.left source.old) (S.left source.new) (S.faults source.old) (S.faults source.new))
        (sinking (K.written sink.old) (K.written sink.new) (K.faults sink.old) (K.faults sink.new))
        result }
    ensures not_again { result ≡ 13 → EndsRefused K.refused K.faults sink.old sink.new }
{
    match read_case(alloc, source) {
        Ok(case) => tell_story(alloc, with_jitter(case, jitter), seed, sink),
        Err(refusal) => tell_refusal(sink, refusal),
    }
}

/// Serves the words after the program's name, and answers the status to end with. It returns where each thread that it joins does.
///
/// `seeds FROM COUNT` reads a scenario, and runs it by each of COUNT seeds, from FROM on, as `kmdfsim seed N` does. It
/// writes a line for each kind of ending that came, most frequent first: how many seeds, which of them has the run of the
/// fewest events (of several the least seed), how many those are, and the kind. Comments that begin with `#!` say what is
/// expected of each run. The status is 0 where each run finished, or ended as expected, and breaks no rule. Else it is that of
/// the worst kind: 1 where a rule is broken, then 3, 4 and 5 by the ending.
///
/// `shrink N` reads a scenario, and looks for plain picks whose run is of the kind of the seed's run, with no more events.
/// It writes the scenario in canonical form with an `order` block of these picks. The status is 0.
///
/// `sum` reads tables that `seeds` wrote for separate ranges, and writes the table of all their seeds, with the status that `seeds`
/// would have. It refuses, with the status 6, the first line that is wrong.
///
/// `explain` reads a scenario, a line `trace` and a trace, as `kmdfsim replay` does, and writes the story of the trace's ending. The
/// status is 0; where `replay` refuses the trace, its line is written, with its status.
///
/// With `jitter TICKS` each seed moves each `at` line by up to so many ticks to later, by the words that come after its picks,
/// one for each line of the scenario; and what `shrink` writes has the moved ticks.
///
/// While `seeds` goes on it is told how far it is, in rounds; nothing of that is on the sink.
///
/// Where `kmdfsim` refuses the input, its line is written, with its status; where a comment `#!` can't be read, a line that
/// names its line, with the status 10. For other words there is a line of usage, with the
/// status 2. Where the sink fails the status is 13.
pub fn hunt<R: Threads + Sync, S: Source, K: Sink, P: Progress>(
    rt: &R,
    alloc: Global,
    words: &[String],
    source: &mut S,
    sink: &mut K,
    progress: &mut P,
) -> u8
    ensures told { Tells (form_of_words (map string_bytes words.now))
        (sourcing (S.left source.old) (S.left source.new) (S.faults source.old) (S.faults source.new))
        (sinking (K.written sink.old) (K.written sink.new) (K.faults sink.old) (K.faults sink.new))
        result }
    ensures not_again { result ≡ 13 → EndsRefused K.refused K.faults sink.old sink.new }
{
    match form_of(words) {
        Some(
            Form::Seeds {
                from,
                count,
                jitter,
            },
        ) => seek(rt, alloc, from, count, jitter, source, sink, progress),
        Some(Form::Shrink { seed, jitter }) => shrink(alloc, seed, jitter, source, sink),
        Some(Form::Sum) => add_tables(alloc, source, sink),
        Some(Form::Explain) => explain(alloc, source, sink),
        None => say(sink, USAGE, Exit::Usage as u8),
    }
}
