//! The top call, for all words.
ghost use Rattle.std.specs.Prelude.{◌≡◌, map, string_bytes};
ghost use Rattle.wdf_io.specs.Outside.{EndsRefused};
ghost use Rattle.wdf_output.specs.Said.{sinking};
ghost use Rattle.wdf_serve.specs.Promises.{Promises};
ghost use Rattle.wdf_serve.specs.Words.{service_for};
ghost use Rattle.wdf_top.specs.Top.{sourcing, Tells};

use crate::run::serve_threaded;
use crate::words::asked_of_threads;
use std::alloc::Global;
use std::sync::Wait;
use std::thread::Threads;
use wdf_io::{Sink, Source};
use wdf_top::top_plain;
use wdf_turn::Gate;

/// Serves the words after the program's name, and answers the status to end with.
///
/// `run` reads a scenario from the source and runs it on the machine whose processors are threads. There is a worker
/// for each processor, one for the framework and the clock, and one for all agents. Each of them passes the gate
/// before each of its turns. `run` writes the trace of the run that they made, which may be another one each time.
/// For the words of [`top_plain`] it is that call. The statuses are those of [`top_plain`]: `run` and `watch` answer as
/// `order` does.
///
/// `watch` makes a run as `run` does, and writes its lines while the workers go on. No clause says when a line is written.
///
/// For every form but `run` and `watch` it is [`top_plain`], which always returns; no clause says that of this call. For these two it
/// returns if the gate and the threads do.
pub fn top<R: Threads + Wait + Sync, S: Source, K: Sink + Send, G: Gate + Sync>(
    rt: &R,
    alloc: Global,
    words: &[String],
    source: &mut S,
    sink: &mut K,
    gate: &G,
) -> u8
    // Which text is due with which status, when each status comes, and the headline. The headline is that what is written
    // with 0, 3, 4 or 5 for words that ask for a run is the text of a run of the written machine.
    ensures promises { Promises (map string_bytes words.now)
        (sourcing (S.left source.old) (S.left source.new) (S.faults source.old) (S.faults source.new))
        (sinking (K.written sink.old) (K.written sink.new) (K.faults sink.old) (K.faults sink.new))
        result }
    // A sink isn't tried again after its failure.
    ensures not_again { result ≡ 13 → EndsRefused K.refused K.faults sink.old sink.new }
{
    answer(rt, alloc, words, source, sink, gate)
}

/// Has threads run the input where the words are `run` or `watch`, and hands other words on.
fn answer<R: Threads + Wait + Sync, S: Source, K: Sink + Send, G: Gate + Sync>(
    rt: &R,
    alloc: Global,
    words: &[String],
    source: &mut S,
    sink: &mut K,
    gate: &G,
) -> u8
    ensures told { Tells (service_for (map string_bytes words.now))
        (sourcing (S.left source.old) (S.left source.new) (S.faults source.old) (S.faults source.new))
        (sinking (K.written sink.old) (K.written sink.new) (K.faults sink.old) (K.faults sink.new))
        result }
    ensures not_again { result ≡ 13 → EndsRefused K.refused K.faults sink.old sink.new }
{
    match asked_of_threads(words) {
        Some(how) => serve_threaded(rt, alloc, how, source, sink, gate),
        None => top_plain(alloc, words, source, sink),
    }
}
