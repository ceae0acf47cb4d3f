//! Why there is no picture.
ghost use Rattle.std.specs.Prelude.{◌≡◌};
ghost use Rattle.wdf_io.specs.Outside.{EndsRefused};
ghost use Rattle.wdf_output.specs.Said.{Says, sinking};
ghost use Rattle.wdf_view.specs.Causes.{bad_line, bad_status};

use wdf_exit::Exit;
use wdf_io::Sink;
use wdf_output::{Refusal, say, tell};
use wdf_replay::{Why, refused_line};

/// Why there is no picture.
#[derive(Clone, Copy)]
pub enum Bad {
    /// The input wasn't read, or its scenario has no plan, or memory was refused.
    Unread(Refusal),
    /// The trace is refused at this line, counted from 1.
    BadTrace { line: usize, why: Why },
}

/// Writes the line that says why there is no picture, and answers its status.
pub(crate) fn tell_bad<K: Sink>(sink: &mut K, bad: Bad) -> u8
    ensures said { Says (sinking (K.written sink.old) (K.written sink.new) (K.faults sink.old) (K.faults sink.new)) (bad_line bad) (bad_status bad) result }
    ensures not_again { result ≡ 13 → EndsRefused K.refused K.faults sink.old sink.new }
{
    match bad {
        Bad::Unread(refusal) => tell(sink, refusal),
        Bad::BadTrace { line, why } => say(
            sink,
            refused_line(line, why).bytes(),
            Exit::BadLine as u8,
        ),
    }
}
