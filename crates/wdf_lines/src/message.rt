//! Short messages, built without heap.
ghost use Rattle.std.specs.Prelude.{◌≡◌, ◌+◌, ◌≤◌, ◌++◌, length, decimal};

use arrayvec::ArrayVec;
use itoa::Buffer;
use std::marker::Model;

/// The most bytes of a message.
pub const MESSAGE_LIMIT: usize = 128;

/// A message. Contracts see its bytes.
#[derive(Drop)]
pub struct Message {
    text: ArrayVec<u8, MESSAGE_LIMIT>,
}

impl Model for Message {
    ghost use Rattle.std.specs.Prelude.{ℕ, List};

    ghost Value = { List ℕ };

    ghost view = { λ message. message.text.items };
}

impl Message {
    /// The message of these bytes.
    pub fn new(piece: &[u8]) -> Message
        requires { length piece.now ≤ MESSAGE_LIMIT }
        ensures { result ≡ piece.now }
    {
        let mut message = Message {
            text: ArrayVec::new(),
        };
        message.push(piece);
        message
    }

    /// The bytes of the message.
    pub fn bytes(&self) -> &[u8]
        ensures { result.now ≡ self.now }
    {
        self.text.as_slice()
    }

    /// Adds these bytes at the end.
    pub fn push(&mut self, piece: &[u8])
        requires { length self.old + length piece.now ≤ MESSAGE_LIMIT }
        ensures value { self.new ≡ self.old ++ piece.now }
        ensures length { length self.new ≡ length self.old + length piece.now }
    {
        self.text.try_extend_from_slice(piece).unwrap();
    }

    /// Adds a number in decimal digits.
    pub fn push_number(&mut self, number: u64)
        requires { length self.old + 20 ≤ MESSAGE_LIMIT }
        ensures value { self.new ≡ self.old ++ decimal number }
        ensures length { length self.new ≤ length self.old + 20 }
    {
        let mut buffer = Buffer::new();
        self.push(buffer.format(number).as_bytes());
    }
}

/// A number between two texts.
pub fn one_number(front: &[u8], number: u32, back: &[u8]) -> Message
    requires { length front.now + length back.now ≤ 80 }
    ensures value { result ≡ front.now ++ decimal number ++ back.now }
    ensures length { length result ≤ length front.now + length back.now + 20 }
{
    let mut message = Message::new(front);
    message.push_number(u64::from(number));
    message.push(back);
    message
}

/// Two numbers between three texts.
pub fn two_numbers(front: &[u8], number: u32, middle: &[u8], other: u32, back: &[u8]) -> Message
    requires { length front.now + length middle.now + length back.now ≤ 80 }
    ensures { result ≡ front.now ++ decimal number ++ middle.now ++ decimal other ++ back.now }
{
    let mut message = one_number(front, number, middle);
    message.push_number(u64::from(other));
    message.push(back);
    message
}
