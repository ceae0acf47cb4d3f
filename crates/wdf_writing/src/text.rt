ghost use Rattle.std.specs.Prelude.{◌≡◌, ◌++◌, [], OnOk, bytes_eq, codes, decimal};

use itoa::Buffer;
use std::alloc::Global;
use std::marker::Model;
use wdf_base::Memory;

/// A text that is being written. Contracts see its bytes.
///
/// Each call that adds something may answer [`Memory`]. Then the text may have part of what was added, and is only to be
/// dropped.
#[derive(Drop)]
pub struct Text {
    bytes: Vec<u8>,
}

impl Model for Text {
    ghost use Rattle.std.specs.Prelude.{ℕ, List};

    ghost Value = { List ℕ };

    ghost view = { λ text. text.bytes.items };
}

impl Text {
    /// A text without bytes.
    pub fn new(alloc: Global) -> Text
        ensures { result ≡ [] }
    {
        Text {
            bytes: Vec::new(alloc),
        }
    }

    /// The bytes of the text.
    pub fn bytes(&self) -> &[u8]
        ensures { result.now ≡ self.now }
    {
        self.bytes.as_slice()
    }

    /// Whether these are the bytes of the text.
    pub fn is(&self, other: &[u8]) -> bool
        ensures { result ≡ bytes_eq self.now other.now }
    {
        self.bytes.as_slice() == other
    }

    /// Adds these bytes at the end.
    pub fn push(&mut self, piece: &[u8]) -> Result<(), Memory>
        ensures { OnOk result (self.new ≡ self.old ++ piece.now) }
    {
        self.bytes.extend_from_slice(piece)?;
        Ok(())
    }

    /// Adds a blank and a word.
    pub fn push_word(&mut self, word: &[u8]) -> Result<(), Memory>
        ensures { OnOk result (self.new ≡ self.old ++ (codes " " ++ word.now)) }
    {
        self.push(b" ")?;
        self.push(word)
    }

    /// Adds a number in decimal digits.
    pub fn push_number(&mut self, number: u64) -> Result<(), Memory>
        ensures { OnOk result (self.new ≡ self.old ++ decimal number) }
    {
        let mut buffer = Buffer::new();
        self.push(buffer.format(number).as_bytes())
    }
}
