//! The sum of tables.
ghost use Rattle.std.specs.Prelude.{◌≡◌, ◌+◌, ◌<◌, ◌≤◌, ◌^◌, ℕ, IfOk, List, length};
ghost use Rattle.wdf_io.specs.Outside.{EndsRefused};
ghost use Rattle.wdf_output.specs.Said.{sinking};
ghost use Rattle.wdf_sum.specs.Sums.{IsNoSum, IsSumOf};
ghost use Rattle.wdf_top.specs.Top.{sourcing};
ghost use Rattle.wdf_hunt.specs.Sums.{IsSumText, TellsSum, TellsSumOf, sum_line, sum_word};

use crate::read::read_text;
use std::alloc::Global;
use wdf_base::Memory;
use wdf_exit::Exit;
use wdf_io::{Sink, Source};
use wdf_lines::Message;
use wdf_output::{Refusal, say, tell};
use wdf_sum::{Bad, Sum, Why, sum_of};
use wdf_writing::Text;

/// The word of a reason.
fn why_word(why: Why) -> &'static [u8]
    ensures value { result.now ≡ sum_word why }
    ensures small { length result.now ≤ 12 }
{
    match why {
        Why::NotALine => b"NotALine",
        Why::WrongCount => b"WrongCount",
        Why::TooMany => b"TooMany",
        Why::CountedTwice => b"CountedTwice",
        Why::Gap => b"Gap",
        Why::Missing => b"Missing",
    }
}

/// The line of tables of which this line is refused.
fn refused_line(line: usize, why: Why) -> Message
    ensures { result ≡ sum_line line why }
{
    let mut message = Message::new(b"refused at line ");
    message.push_number(line as u64);
    message.push(b": ");
    message.push(why_word(why));
    message.push(b"\n");
    message
}

/// The table of a sum, and its status.
fn table_of(alloc: Global, sum: Sum) -> Result<(Text, u8), Memory>
    requires some { 0 < sum.count }
    requires fits { sum.from + sum.count ≤ 2 ^ 64 }
    ensures due { (input : List ℕ) → IsSumOf input sum → IfOk result (λ (text, status). IsSumText input text status) }
    ensures small { IfOk result (λ (text, status). status ≤ 5) }
{
    let Sum {
        mut tally,
        from,
        count,
        events,
    } = sum;
    tally.sort();
    let text = tally.text(alloc, from, count, events)?;
    let status = tally.status();
    Ok((text, status))
}

/// Writes the table of a sum, or the line `out of memory`.
fn tell_table<K: Sink>(alloc: Global, sum: Sum, sink: &mut K) -> u8
    requires some { 0 < sum.count }
    requires fits { sum.from + sum.count ≤ 2 ^ 64 }
    ensures told { (input : List ℕ) → IsSumOf input sum → TellsSumOf input
        (sinking (K.written sink.old) (K.written sink.new) (K.faults sink.old) (K.faults sink.new))
        result }
    ensures not_again { result ≡ 13 → EndsRefused K.refused K.faults sink.old sink.new }
{
    match table_of(alloc, sum) {
        Ok((text, status)) => say(sink, text.bytes(), status),
        Err(memory) => tell(sink, Refusal::from(memory)),
    }
}

/// Writes why tables have no sum.
fn tell_bad<K: Sink>(bad: Bad, sink: &mut K) -> u8
    ensures told { (input : List ℕ) → IsNoSum input bad → TellsSumOf input
        (sinking (K.written sink.old) (K.written sink.new) (K.faults sink.old) (K.faults sink.new))
        result }
    ensures not_again { result ≡ 13 → EndsRefused K.refused K.faults sink.old sink.new }
{
    match bad {
        Bad::NoMemory => tell(sink, Refusal::NoMemory),
        Bad::AtLine { line, why } => say(
            sink,
            refused_line(line, why).bytes(),
            Exit::BadLine as u8,
        ),
    }
}

/// Writes the sum of the tables in an input, or why they have none.
fn tell_sum<K: Sink>(alloc: Global, input: &[u8], sink: &mut K) -> u8
    ensures told { TellsSumOf input.now
        (sinking (K.written sink.old) (K.written sink.new) (K.faults sink.old) (K.faults sink.new))
        result }
    ensures not_again { result ≡ 13 → EndsRefused K.refused K.faults sink.old sink.new }
{
    match sum_of(alloc, input) {
        Ok(sum) => tell_table(alloc, sum, sink),
        Err(bad) => tell_bad(bad, sink),
    }
}

/// Reads tables, and writes their sum, or says why it can't.
pub(crate) fn add_tables<S: Source, K: Sink>(alloc: Global, source: &mut S, sink: &mut K) -> u8
    ensures told { TellsSum
        (sourcing (S.left source.old) (S.left source.new) (S.faults source.old) (S.faults source.new))
        (sinking (K.written sink.old) (K.written sink.new) (K.faults sink.old) (K.faults sink.new))
        result }
    ensures not_again { result ≡ 13 → EndsRefused K.refused K.faults sink.old sink.new }
{
    match read_text(alloc, source) {
        Ok(input) => tell_sum(alloc, &input, sink),
        Err(refusal) => tell(sink, refusal),
    }
}
