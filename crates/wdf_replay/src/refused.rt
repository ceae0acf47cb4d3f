//! What is written of a trace that is refused.
ghost use Rattle.std.specs.Prelude.{◌≡◌, ◌≤◌, length};
ghost use Rattle.wdf_replay.specs.Refused.{refused_line, why_word};

use crate::verdict::Why;
use wdf_lines::Message;

impl Why {
    /// The word of the reason.
    fn word(self) -> &'static [u8]
        ensures value { result.now ≡ why_word self }
        ensures small { length result.now ≤ 11 }
    {
        match self {
            Why::NotALine => b"NotALine",
            Why::NotReady => b"NotReady",
            Why::WrongEnding => b"WrongEnding",
            Why::Missing => b"Missing",
        }
    }
}

/// The line of a trace of which this line is refused, with its line feed.
pub fn refused_line(line: usize, why: Why) -> Message
    ensures { result ≡ refused_line line why }
{
    let mut message = Message::new(b"refused at line ");
    message.push_number(line as u64);
    message.push(b": ");
    message.push(why.word());
    message.push(b"\n");
    message
}
