//! A text is written whole, or the sink fails.
ghost use Rattle.std.specs.Prelude.{◌≡◌, ◌≢◌, ◌≤◌};
ghost use Rattle.wdf_io.specs.Outside.{EndsRefused};
ghost use Rattle.wdf_output.specs.Refusals.{refusal_line, refusal_status};
ghost use Rattle.wdf_output.specs.Said.{Says, sinking};

use crate::refusal::Refusal;
use wdf_exit::Exit;
use wdf_io::{Sink, write_all};

/// Writes a text, and answers the status, or that of [`Exit::WriteFault`] where the sink fails.
pub fn say<K: Sink>(sink: &mut K, text: &[u8], status: u8) -> u8
    ensures said { Says (sinking (K.written sink.old) (K.written sink.new) (K.faults sink.old) (K.faults sink.new)) text.now status result }
    ensures never_falls { K.faults sink.old ≤ K.faults sink.new }
    ensures not_again { status ≢ 13 → result ≡ 13 → EndsRefused K.refused K.faults sink.old sink.new }
{
    match write_all(sink, text) {
        Ok(()) => status,
        Err(_) => Exit::WriteFault as u8,
    }
}

/// Writes the line of a refusal, and answers its status.
#[tactic(auto, using(crate::proofs::Sinks::refusal_no_sink))]
pub fn tell<K: Sink>(sink: &mut K, refusal: Refusal) -> u8
    ensures said { Says (sinking (K.written sink.old) (K.written sink.new) (K.faults sink.old) (K.faults sink.new)) (refusal_line refusal) (refusal_status refusal) result }
    ensures not_again { result ≡ 13 → EndsRefused K.refused K.faults sink.old sink.new }
{
    let line = refusal.line();
    say(sink, line.bytes(), refusal.status())
}
