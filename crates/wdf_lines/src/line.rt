ghost use Rattle.std.specs.Prelude.{◌≡◌, ◌+◌, ◌<◌, ◌≤◌, [], ◌++◌, length, codes, decimal};

use arrayvec::ArrayVec;
use itoa::Buffer;
use std::marker::Model;

/// The most bytes of a line.
pub const LINE_LIMIT: usize = 512;

/// A line of a trace, without heap. Contracts see its bytes.
#[derive(Drop)]
pub struct Line {
    text: ArrayVec<u8, LINE_LIMIT>,
}

impl Model for Line {
    ghost use Rattle.std.specs.Prelude.{ℕ, List};

    ghost Value = { List ℕ };

    ghost view = { λ line. line.text.items };
}

impl Line {
    /// An empty line.
    pub fn new() -> Line
        ensures { result ≡ [] }
    {
        Line {
            text: ArrayVec::new(),
        }
    }

    /// Nothing is left of the line.
    pub(crate) fn clear(&mut self)
        ensures { self.new ≡ [] }
    {
        self.text.clear();
    }

    /// The bytes of the line.
    pub fn bytes(&self) -> &[u8]
        ensures value { result.now ≡ self.now }
        ensures small { length result.now ≤ LINE_LIMIT }
    {
        self.text.as_slice()
    }

    /// Adds the line feed that ends a line in a trace.
    pub fn push_line_feed(&mut self)
        requires { length self.old < LINE_LIMIT }
        ensures value { self.new ≡ self.old ++ codes "\n" }
        ensures length { length self.new ≡ length self.old + 1 }
    {
        self.push(b"\n");
    }

    /// Adds these bytes at the end.
    pub(crate) fn push(&mut self, piece: &[u8])
        requires { length self.old + length piece.now ≤ LINE_LIMIT }
        ensures value { self.new ≡ self.old ++ piece.now }
        ensures length { length self.new ≡ length self.old + length piece.now }
    {
        self.text.try_extend_from_slice(piece).unwrap();
    }

    /// Adds a number in decimal digits.
    pub(crate) fn push_digits(&mut self, number: u64)
        requires { length self.old + 20 ≤ LINE_LIMIT }
        ensures value { self.new ≡ self.old ++ decimal number }
        ensures length { length self.new ≤ length self.old + 20 }
    {
        let mut buffer = Buffer::new();
        self.push(buffer.format(number).as_bytes());
    }

    /// Adds a blank and a word.
    pub(crate) fn push_word(&mut self, word: &[u8])
        requires { length self.old + length word.now + 1 ≤ LINE_LIMIT }
        ensures value { self.new ≡ self.old ++ (codes " " ++ word.now) }
        ensures length { length self.new ≡ length self.old + length word.now + 1 }
    {
        self.push(b" ");
        self.push(word);
    }

    /// Adds a blank and a number in decimal digits.
    pub(crate) fn push_number(&mut self, number: u64)
        requires { length self.old + 21 ≤ LINE_LIMIT }
        ensures value { self.new ≡ self.old ++ (codes " " ++ decimal number) }
        ensures length { length self.new ≤ length self.old + 21 }
    {
        self.push(b" ");
        self.push_digits(number);
    }
}
