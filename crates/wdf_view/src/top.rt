//! The call of the program.
ghost use Rattle.std.specs.Prelude.{◌≡◌, Some, map, string_bytes, IfOk, IfErr};
ghost use Rattle.wdf_io.specs.Outside.{EndsRefused};
ghost use Rattle.wdf_output.specs.Said.{sinking};
ghost use Rattle.wdf_view.specs.Causes.{IsCause, IsShownFrom, sourcing};
ghost use Rattle.wdf_view.specs.Formed.{IsFormed, drawn_bytes};
ghost use Rattle.wdf_view.specs.Views.{Tells};
ghost use Rattle.wdf_view.specs.Words.{form_of_words};

use crate::bad::{Bad, tell_bad};
use crate::drawn::Drawn;
use crate::judged::draw_input;
use crate::read::read_input;
use crate::words::{Form, form_of};
use std::alloc::Global;
use wdf_exit::Exit;
use wdf_io::{Sink, Source};
use wdf_output::say;

/// What is written for words of no form.
const USAGE: &[u8] = b"usage: kmdfview html | perfetto\n";

/// The picture of the whole input of a source.
fn draw_source<S: Source>(alloc: Global, form: Form, source: &mut S) -> Result<Drawn, Bad>
    ensures formed { IfOk result (λ drawn. IsFormed form (drawn_bytes drawn)) }
    ensures shown { IfOk result (λ drawn. IsShownFrom (sourcing (S.left source.old) (S.left source.new) (S.faults source.old) (S.faults source.new))) }
    ensures cause { IfErr result (IsCause (sourcing (S.left source.old) (S.left source.new) (S.faults source.old) (S.faults source.new))) }
{
    match read_input(alloc, source) {
        Ok(text) => draw_input(alloc, form, &text),
        Err(refusal) => Err(Bad::Unread(refusal)),
    }
}

/// Writes the picture of a source's whole input, or the line that says why there is none.
fn show<S: Source, K: Sink>(alloc: Global, form: Form, source: &mut S, sink: &mut K) -> u8
    ensures told { Tells (Some form)
        (sourcing (S.left source.old) (S.left source.new) (S.faults source.old) (S.faults source.new))
        (sinking (K.written sink.old) (K.written sink.new) (K.faults sink.old) (K.faults sink.new))
        result }
    ensures not_again { result ≡ 13 → EndsRefused K.refused K.faults sink.old sink.new }
{
    match draw_source(alloc, form, source) {
        Ok(drawn) => say(sink, drawn.bytes(), Exit::Fine as u8),
        Err(bad) => tell_bad(sink, bad),
    }
}

/// Serves the words after the program's name, and answers the status to end with. It always returns.
///
/// `html` reads a scenario, a line `trace` and a trace, as `kmdfsim replay` does, and writes a page that shows the run,
/// with the status 0. `perfetto` writes the run as JSON for a viewer of traces. Where `replay` refuses the input, its line is
/// written, with its status. For other words there is a line of usage, with the status 2. Where the sink fails the status is
/// 13.
pub fn view<S: Source, K: Sink>(alloc: Global, words: &[String], source: &mut S, sink: &mut K) -> u8
    ensures told { Tells (form_of_words (map string_bytes words.now))
        (sourcing (S.left source.old) (S.left source.new) (S.faults source.old) (S.faults source.new))
        (sinking (K.written sink.old) (K.written sink.new) (K.faults sink.old) (K.faults sink.new))
        result }
    ensures not_again { result ≡ 13 → EndsRefused K.refused K.faults sink.old sink.new }
{
    match form_of(words) {
        Some(form) => show(alloc, form, source, sink),
        None => say(sink, USAGE, Exit::Usage as u8),
    }
}
