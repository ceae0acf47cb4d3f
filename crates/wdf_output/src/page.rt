//! Lines that are written together: a call of the sink for each line would cost more than the line.
ghost use Rattle.std.specs.Prelude.{◌≡◌, ◌+◌, ◌≤◌, ◌++◌, [], length, nat_le, OnOk, OnErr};
ghost use Rattle.wdf_io.specs.Outside.{Gains, EndsRefused};
ghost use Rattle.wdf_output.specs.Said.{Adds, IsCutShort, sinking};

use arrayvec::ArrayVec;
use std::marker::Model;
use wdf_io::{Failed, Sink, write_all};

/// The most bytes that are written together.
pub(crate) const PAGE: usize = 16_384;

/// Lines that are written together, without heap. Contracts see their bytes.
#[derive(Drop)]
pub(crate) struct Page {
    text: ArrayVec<u8, PAGE>,
}

impl Model for Page {
    ghost use Rattle.std.specs.Prelude.{ℕ, List};

    ghost Value = { List ℕ };

    ghost view = { λ page. page.text.items };
}

impl Page {
    /// No line.
    pub(crate) fn new() -> Page
        ensures { result ≡ [] }
    {
        Page {
            text: ArrayVec::new(),
        }
    }

    /// The bytes of the lines.
    pub(crate) fn bytes(&self) -> &[u8]
        ensures { result.now ≡ self.now }
    {
        self.text.as_slice()
    }

    /// Whether so many bytes more have room.
    fn has_room(&self, more: usize) -> bool
        requires { more ≤ PAGE }
        ensures { result ≡ nat_le (length self.now + more) PAGE }
    {
        self.text.len() + more <= PAGE
    }

    /// Adds these bytes at the end.
    fn push(&mut self, piece: &[u8])
        requires { length self.old + length piece.now ≤ PAGE }
        ensures { self.new ≡ self.old ++ piece.now }
    {
        self.text.try_extend_from_slice(piece).unwrap();
    }
}

/// Writes what a page has.
pub(crate) fn write_page<K: Sink>(sink: &mut K, page: &Page) -> Result<(), Failed>
    ensures whole { OnOk result (Gains (K.written sink.old) (K.written sink.new) page.now) }
    ensures cut { OnErr result (IsCutShort (sinking (K.written sink.old) (K.written sink.new) (K.faults sink.old) (K.faults sink.new)) page.now) }
    ensures quiet { OnOk result (K.faults sink.new ≡ K.faults sink.old) }
    ensures never_falls { K.faults sink.old ≤ K.faults sink.new }
    ensures not_again { OnErr result (EndsRefused K.refused K.faults sink.old sink.new) }
{
    write_all(sink, page.bytes())
}

/// Adds a line to a page. Where that has no room for it, what it has is written first.
pub(crate) fn add_line<K: Sink>(sink: &mut K, page: &mut Page, line: &[u8]) -> Result<(), Failed>
    requires { length line.now ≤ PAGE }
    ensures whole { OnOk result (Adds (K.written sink.old) (K.written sink.new) page.old page.new line.now) }
    ensures cut { OnErr result (IsCutShort (sinking (K.written sink.old) (K.written sink.new) (K.faults sink.old) (K.faults sink.new)) page.old) }
    ensures quiet { OnOk result (K.faults sink.new ≡ K.faults sink.old) }
    ensures never_falls { K.faults sink.old ≤ K.faults sink.new }
    ensures not_again { OnErr result (EndsRefused K.refused K.faults sink.old sink.new) }
{
    if page.has_room(line.len()) {
        page.push(line);
        return Ok(());
    }
    match write_page(sink, page) {
        Ok(()) => {
            *page = Page::new();
            page.push(line);
            Ok(())
        }
        Err(failed) => Err(failed),
    }
}
