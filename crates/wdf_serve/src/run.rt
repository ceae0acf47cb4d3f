//! The forms `run` and `watch`: a run of a plan by processors as threads.
ghost use Rattle.std.specs.Prelude.{◌≡◌, ◌≢◌, IfOk, OnErr};
ghost use Rattle.wdf_base.specs.Resolved.{IsResolved};
ghost use Rattle.wdf_base.specs.declared.event.Ending.TheVariants as ending;
ghost use Rattle.wdf_dev.specs.Agents.{agent_meaning};
ghost use Rattle.wdf_io.specs.Outside.{EndsRefused};
ghost use Rattle.wdf_live.specs.Watched.{HasWatched};
ghost use Rattle.wdf_model.specs.rules.Ready.{ending_of, IsRunOf};
ghost use Rattle.wdf_output.specs.Said.{sinking};
ghost use Rattle.wdf_top.specs.Answers.{Freely, running};
ghost use Rattle.wdf_top.specs.Top.{sourcing, TellsBy, TellsPlan};

use crate::words::Threaded;
use std::alloc::Global;
use std::sync::Wait;
use std::thread::Threads;
use wdf_base::{Memory, Plan};
use wdf_core::Core;
use wdf_dev::AnyAgent;
use wdf_io::{Sink, Source};
use wdf_live::write_watched;
use wdf_output::{Refusal, tell, write_run};
use wdf_top::{opening, read_plan, read_plan_and_copy};
use wdf_turn::Gate;
use wdf_workers::run_threads;

/// Reads the input, runs its plan by threads and writes the trace, while the run is made where it is watched; or says why it
/// can't.
pub fn serve_threaded<R: Threads + Wait + Sync, S: Source, K: Sink + Send, G: Gate + Sync>(
    rt: &R,
    alloc: Global,
    how: Threaded,
    source: &mut S,
    sink: &mut K,
    gate: &G,
) -> u8
    ensures told { TellsBy (running agent_meaning Freely)
        (sourcing (S.left source.old) (S.left source.new) (S.faults source.old) (S.faults source.new))
        (sinking (K.written sink.old) (K.written sink.new) (K.faults sink.old) (K.faults sink.new))
        result }
    ensures not_again { result ≡ 13 → EndsRefused K.refused K.faults sink.old sink.new }
{
    match how {
        Threaded::Run => run_input(rt, alloc, source, sink, gate),
        Threaded::Watch => watch_input(rt, alloc, source, sink, gate),
    }
}

/// Reads the input, runs its plan by threads and writes the trace meanwhile, or says why it can't.
fn watch_input<R: Threads + Wait + Sync, S: Source, K: Sink + Send, G: Gate + Sync>(
    rt: &R,
    alloc: Global,
    source: &mut S,
    sink: &mut K,
    gate: &G,
) -> u8
    ensures told { TellsBy (running agent_meaning Freely)
        (sourcing (S.left source.old) (S.left source.new) (S.faults source.old) (S.faults source.new))
        (sinking (K.written sink.old) (K.written sink.new) (K.faults sink.old) (K.faults sink.new))
        result }
    ensures not_again { result ≡ 13 → EndsRefused K.refused K.faults sink.old sink.new }
{
    match read_plan_and_copy(alloc, source) {
        Ok((plan, other)) => tell_watched(rt, alloc, plan, &other, sink, gate),
        Err(refusal) => tell(sink, refusal),
    }
}

/// Runs a plan by threads and writes the trace meanwhile, or the line `out of memory`. All memory is taken before the first
/// byte is written.
fn tell_watched<R: Threads + Wait + Sync, K: Sink + Send, G: Gate + Sync>(
    rt: &R,
    alloc: Global,
    plan: Plan,
    other: &Plan,
    sink: &mut K,
    gate: &G,
) -> u8
    requires resolved { IsResolved plan }
    requires same { other.now ≡ plan }
    ensures told { TellsPlan plan agent_meaning Freely
        (sinking (K.written sink.old) (K.written sink.new) (K.faults sink.old) (K.faults sink.new))
        result }
    ensures not_again { result ≡ 13 → EndsRefused K.refused K.faults sink.old sink.new }
{
    match watch_plan(rt, alloc, plan, other, sink, gate) {
        Ok(status) => status,
        Err(memory) => tell(sink, Refusal::from(memory)),
    }
}

/// A watched run of a plan, from its opening to its end. Answers the status of its ending, or that of a sink that failed.
fn watch_plan<R: Threads + Wait + Sync, K: Sink + Send, G: Gate + Sync>(
    rt: &R,
    alloc: Global,
    plan: Plan,
    other: &Plan,
    sink: &mut K,
    gate: &G,
) -> Result<u8, Memory>
    requires resolved { IsResolved plan }
    requires same { other.now ≡ plan }
    ensures watched { IfOk result (λ status. HasWatched plan agent_meaning (sinking (K.written sink.old) (K.written sink.new) (K.faults sink.old) (K.faults sink.new)) status) }
    ensures not_again { IfOk result (λ status. status ≡ 13 → EndsRefused K.refused K.faults sink.old sink.new) }
    ensures unused { OnErr result (sink.new ≡ sink.old) }
{
    let core = opening::<AnyAgent>(alloc, plan)?;
    write_watched(rt, alloc, other, core, gate, sink)
}

/// Reads the input, runs its plan by threads and writes the trace, or says why it can't.
fn run_input<R: Threads + Wait + Sync, S: Source, K: Sink + Send, G: Gate + Sync>(
    rt: &R,
    alloc: Global,
    source: &mut S,
    sink: &mut K,
    gate: &G,
) -> u8
    ensures told { TellsBy (running agent_meaning Freely)
        (sourcing (S.left source.old) (S.left source.new) (S.faults source.old) (S.faults source.new))
        (sinking (K.written sink.old) (K.written sink.new) (K.faults sink.old) (K.faults sink.new))
        result }
    ensures not_again { result ≡ 13 → EndsRefused K.refused K.faults sink.old sink.new }
{
    match read_plan(alloc, source) {
        Ok(plan) => tell_some_run(rt, alloc, plan, sink, gate),
        Err(refusal) => tell(sink, refusal),
    }
}

/// Runs a plan by threads and writes the trace, or the line `out of memory`.
fn tell_some_run<R: Threads + Sync, K: Sink, G: Gate + Sync>(
    rt: &R,
    alloc: Global,
    plan: Plan,
    sink: &mut K,
    gate: &G,
) -> u8
    requires { IsResolved plan }
    ensures told { TellsPlan plan agent_meaning Freely
        (sinking (K.written sink.old) (K.written sink.new) (K.faults sink.old) (K.faults sink.new))
        result }
    ensures not_again { result ≡ 13 → EndsRefused K.refused K.faults sink.old sink.new }
{
    match run_plan(rt, alloc, plan, gate) {
        Ok(core) => write_run(&core, sink),
        Err(memory) => tell(sink, Refusal::from(memory)),
    }
}

/// A run of a plan by threads, from its opening to its end. All memory is taken before the first step.
fn run_plan<R: Threads + Sync, G: Gate + Sync>(
    rt: &R,
    alloc: Global,
    plan: Plan,
    gate: &G,
) -> Result<Core<AnyAgent>, Memory>
    requires { IsResolved plan }
    ensures plan { IfOk result (λ core. core.plan ≡ plan) }
    ensures run { IfOk result (λ core. IsRunOf plan agent_meaning core.journal) }
    ensures ended { IfOk result (λ core. ending_of plan agent_meaning core.journal ≢ ending.Running) }
{
    let core = opening::<AnyAgent>(alloc, plan)?;
    run_threads(rt, alloc, core, gate)
}
