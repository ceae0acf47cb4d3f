//! The table of a range of seeds.
ghost use Rattle.std.specs.Prelude.{◌≡◌, ◌+◌, ◌<◌, ◌≤◌, ◌^◌, IfOk};
ghost use Rattle.wdf_io.specs.Outside.{EndsRefused};
ghost use Rattle.wdf_output.specs.Said.{sinking};
ghost use Rattle.wdf_scene.specs.Naming.{HasProperNames};
ghost use Rattle.wdf_scene.specs.Written.{IsScene};
ghost use Rattle.wdf_tries.specs.declared.tried.Case.{Case};
ghost use Rattle.wdf_tries.specs.Tries.{IsHuntOf};
ghost use Rattle.wdf_hunt.specs.Answers.{IsTableText, TellsDue};

use std::alloc::Global;
use std::thread::Threads;
use wdf_base::Memory;
use wdf_hunters::{Progress, hunt_rounds};
use wdf_io::Sink;
use wdf_output::{Refusal, say, tell};
use wdf_tries::{Case, Hunted};
use wdf_writing::Text;

/// How often a range is halved among threads.
pub(crate) const HALVINGS: u32 = 5;

/// The table of what the tries of a range came to, and its status.
fn table_of(alloc: Global, hunted: Hunted, from: u64, count: u32) -> Result<(Text, u8), Memory>
    requires some { 0 < count }
    requires fits { from + count ≤ 2 ^ 64 }
    ensures due { (tried : Case) → IsHuntOf tried from count hunted → IfOk result (λ (text, status). IsTableText tried from count text status) }
    ensures small { IfOk result (λ (text, status). status ≤ 5) }
{
    let Hunted { mut tally, events } = hunted;
    tally.sort();
    let text = tally.text(alloc, from, u64::from(count), events)?;
    let status = tally.status();
    Ok((text, status))
}

/// The table of a case's runs by the seeds of a range, and its status.
fn hunted_table<R: Threads + Sync, P: Progress>(
    rt: &R,
    alloc: Global,
    case: &Case,
    from: u64,
    count: u32,
    progress: &mut P,
) -> Result<(Text, u8), Memory>
    requires scene { IsScene case.now.scene }
    requires names { HasProperNames case.now.scene }
    requires some { 0 < count }
    requires fits { from + count ≤ 2 ^ 64 }
    ensures due { IfOk result (λ (text, status). IsTableText case.now from count text status) }
    ensures small { IfOk result (λ (text, status). status ≤ 5) }
{
    let hunted = hunt_rounds(rt, alloc, case, from, count, HALVINGS, progress)?;
    table_of(alloc, hunted, from, count)
}

/// Writes the table of a case's runs by the seeds of a range, or the line `out of memory`.
pub(crate) fn tell_table<R: Threads + Sync, K: Sink, P: Progress>(
    rt: &R,
    alloc: Global,
    case: &Case,
    from: u64,
    count: u32,
    sink: &mut K,
    progress: &mut P,
) -> u8
    requires scene { IsScene case.now.scene }
    requires names { HasProperNames case.now.scene }
    requires some { 0 < count }
    requires fits { from + count ≤ 2 ^ 64 }
    ensures told { TellsDue (IsTableText case.now from count)
        (sinking (K.written sink.old) (K.written sink.new) (K.faults sink.old) (K.faults sink.new))
        result }
    ensures not_again { result ≡ 13 → EndsRefused K.refused K.faults sink.old sink.new }
{
    match hunted_table(rt, alloc, case, from, count, progress) {
        Ok((text, status)) => say(sink, text.bytes(), status),
        Err(memory) => tell(sink, Refusal::from(memory)),
    }
}
