//! The program over any reader and any writer.
ghost use Rattle.std.specs.Prelude.{◌≡◌, IsTrue, []};
ghost use Rattle.wdf_arguments.specs.Arguments.{LacksArguments, LacksMemory, words_after_name};
ghost use Rattle.wdf_io.specs.Outside.{EndsRefused};
ghost use Rattle.wdf_io.specs.Streams.{RefusedBy};
ghost use Rattle.wdf_output.specs.Refusals.{no_memory_line};
ghost use Rattle.wdf_output.specs.Said.{Says, sinking};
ghost use Rattle.wdf_serve.specs.Runs.{WroteSomeRun, is_end_status};
ghost use Rattle.wdf_serve.specs.Promises.{Promises};
ghost use Rattle.wdf_serve.specs.Serving.{Serves};
ghost use Rattle.wdf_serve.specs.Words.{service_for};
ghost use Rattle.wdf_top.specs.Agents.{RunAgents};
ghost use Rattle.wdf_top.specs.Answers.{Picking, Run};
ghost use Rattle.wdf_top.specs.Causes.{is_status};
ghost use Rattle.wdf_top.specs.Top.{IsUnread, Reads, sourcing};

use crate::call::top;
use std::alloc::Global;
use std::env::Args;
use std::io;
use std::io::{Read, Write};
use std::sync::Wait;
use std::thread::Threads;
use wdf_arguments::words_of;
use wdf_io::{ReadSource, WriteSink};
use wdf_output::{Refusal, tell};
use wdf_turn::Gate;

/// Serves the program's arguments over a reader and a writer, and answers the status to end with: it is
/// [`top`] for the words after the program's name. What it says of the bytes counts for each
/// reader that says what it has left, and for each writer that says what it has taken. (own)
///
/// Where the system can't give the arguments for another reason than memory, there are no words. Where memory
/// for them is refused, the line `out of memory` is written, with the status 15, and nothing is read.
pub fn serve<T: Threads + Wait + Sync, R: Read, W: Write + Send, G: Gate + Sync>(
    rt: &T,
    alloc: Global,
    arguments: io::Result<Args>,
    source: &mut ReadSource<R>,
    sink: &mut WriteSink<W>,
    gate: &G,
) -> u8
    // The promises of the top call, of what is left of the reader, of what the writer has got, and of the status.
    ensures served { Serves arguments
        (sourcing source.old.left source.new.left source.old.faults source.new.faults)
        (sinking sink.old.written sink.new.written sink.old.faults sink.new.faults)
        result }
    // For words that ask for a run, as `order`, `seed N`, `run`, `watch`, `idle` and `stack` do, 0, 3, 4 and 5 come only where
    // what was written is the text of a run of the written machine from the opening of the whole input's plan, with the agents
    // that the words ask for. That run has ended, the status is its ending's, and it keeps the nine laws of a trace and those
    // of its agents.
    ensures headline { (a : RunAgents) (by : Picking) → service_for (words_after_name arguments) ≡ Reads (Run a by) → IsTrue (is_end_status result)
        → WroteSomeRun a by (sourcing source.old.left source.new.left source.old.faults source.new.faults)
        (sinking sink.old.written sink.new.written sink.old.faults sink.new.faults) result }
    // Where memory for the words is refused, that is said and nothing is read.
    ensures lacking { LacksMemory arguments
        → IsUnread (sourcing source.old.left source.new.left source.old.faults source.new.faults)
        × Says (sinking sink.old.written sink.new.written sink.old.faults sink.new.faults) no_memory_line 15 result }
    // Where the system can't give the arguments for another reason, that isn't told as a lack of memory: it is the call
    // without words.
    ensures only_memory { LacksArguments arguments → Promises []
        (sourcing source.old.left source.new.left source.old.faults source.new.faults)
        (sinking sink.old.written sink.new.written sink.old.faults sink.new.faults)
        result }
    // The writer isn't tried again after its failure.
    ensures not_again { result ≡ 13 → EndsRefused RefusedBy (λ k. k.faults) sink.old sink.new }
    ensures listed { IsTrue (is_status result) }
{
    match words_of(alloc, arguments) {
        Ok(words) => top(rt, alloc, &words, source, sink, gate),
        Err(_) => tell(sink, Refusal::NoMemory),
    }
}
