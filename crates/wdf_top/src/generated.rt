//! The form `gen N`: a generated scenario.
ghost use Rattle.std.specs.Prelude.{◌≡◌, IfOk};
ghost use Rattle.wdf_gen.specs.Generated.{generated};
ghost use Rattle.wdf_io.specs.Outside.{EndsRefused};
ghost use Rattle.wdf_parse.specs.Printing.{printed};
ghost use Rattle.wdf_output.specs.Said.{sinking};
ghost use Rattle.wdf_top.specs.Top.{TellsScenario};

use std::alloc::Global;
use wdf_base::Memory;
use wdf_exit::Exit;
use wdf_gen::generate;
use wdf_io::Sink;
use wdf_output::{Refusal, say, tell};
use wdf_parse::print;

/// Writes the scenario that a number generates, or the line `out of memory`.
pub fn tell_generated<K: Sink>(alloc: Global, number: u64, sink: &mut K) -> u8
    ensures told { TellsScenario number
        (sinking (K.written sink.old) (K.written sink.new) (K.faults sink.old) (K.faults sink.new))
        result }
    ensures not_again { result ≡ 13 → EndsRefused K.refused K.faults sink.old sink.new }
{
    match generated_text(alloc, number) {
        Ok(text) => say(sink, &text, Exit::Fine as u8),
        Err(memory) => tell(sink, Refusal::from(memory)),
    }
}

/// The text of the scenario that a number generates.
fn generated_text(alloc: Global, number: u64) -> Result<Vec<u8>, Memory>
    ensures { IfOk result (λ text. text.items ≡ printed (generated number)) }
{
    let scene = generate(alloc, number)?;
    print(alloc, &scene)
}
