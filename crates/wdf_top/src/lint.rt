//! The form `lint`: what the static check finds in the scripts of a plan.
ghost use Rattle.std.specs.Prelude.{◌≡◌, IfOk};
ghost use Rattle.wdf_io.specs.Outside.{EndsRefused};
ghost use Rattle.wdf_output.specs.Said.{sinking};
ghost use Rattle.wdf_top.specs.Answers.{IsLinted};
ghost use Rattle.wdf_top.specs.Top.{TellsFindings};

use std::alloc::Global;
use wdf_base::{Memory, Plan};
use wdf_io::Sink;
use wdf_lint::lint;
use wdf_lint_text::{answer_status, answer_text};
use wdf_output::{Refusal, say, tell};

/// Writes what the static check finds in the scripts of a plan, or the line `out of memory`.
pub fn tell_findings<K: Sink>(alloc: Global, plan: Plan, sink: &mut K) -> u8
    ensures told { TellsFindings plan
        (sinking (K.written sink.old) (K.written sink.new) (K.faults sink.old) (K.faults sink.new))
        result }
    ensures not_again { result ≡ 13 → EndsRefused K.refused K.faults sink.old sink.new }
{
    match findings_text(alloc, plan) {
        Ok((text, status)) => say(sink, &text, status),
        Err(memory) => tell(sink, Refusal::from(memory)),
    }
}

/// The text of what the static check finds, and its status.
fn findings_text(alloc: Global, plan: Plan) -> Result<(Vec<u8>, u8), Memory>
    ensures { IfOk result (λ found. IsLinted plan found.0.items found.1) }
{
    let answer = lint(alloc, &plan)?;
    let text = answer_text(alloc, &answer)?;
    Ok((text, answer_status(&answer)))
}
