//! One call of the program over a source and a sink in memory.
use std::alloc::Global;
use std::process::Abort;
use std::test::Fail;
use wdf_base::Memory;
use wdf_io::{MemSink, MemSource};
use wdf_top::top_plain;

/// What the outside does.
#[derive(Clone, Copy)]
pub struct Outside {
    /// The most bytes that one read gives.
    pub piece: usize,
    /// The read that fails, counted from 1.
    pub read_fails: Option<u64>,
    /// The write that fails, counted from 1.
    pub write_fails: Option<u64>,
    /// The bytes that the sink can hold.
    pub room: usize,
}

/// An outside that doesn't fail.
pub const STEADY: Outside = Outside {
    piece: 65_536,
    read_fails: None,
    write_fails: None,
    room: 65_536,
};

/// What is tried, and what is due.
#[derive(Clone, Copy)]
pub struct Row {
    /// A name for it.
    pub name: &'static str,
    /// The words after the program's name.
    pub words: &'static str,
    /// The parts of the input, in their order.
    pub input: &'static [&'static [u8]],
    /// The status that is due.
    pub status: u8,
    /// The text that is due.
    pub text: &'static [u8],
}

/// Adds a word.
fn add_word(all: &mut Vec<String>, alloc: Global, word: &str) -> Result<(), Memory> {
    let word = String::from_str(alloc, word)?;
    all.push(word)?;
    Ok(())
}

/// The words that come after the program's name.
fn words_of(alloc: Global, words: &str) -> Result<Vec<String>, Memory> {
    let mut all = Vec::new(alloc);
    for word in words.split_whitespace() {
        add_word(&mut all, alloc, word)?;
    }
    Ok(all)
}

/// The calls that fail.
fn failing(alloc: Global, number: Option<u64>) -> Result<Vec<u64>, Memory> {
    match number {
        Some(number) => Ok(Vec::from_slice(alloc, &[number])?),
        None => Ok(Vec::new(alloc)),
    }
}

/// A source of an input.
fn source_of(alloc: Global, input: &[u8], outside: Outside) -> Result<MemSource, Memory> {
    let input = Vec::from_slice(alloc, input)?;
    let fails = failing(alloc, outside.read_fails)?;
    Ok(MemSource::new(input, fails, outside.piece.max(1)))
}

/// An empty sink.
fn sink_for(alloc: Global, outside: Outside) -> Result<MemSink, Memory> {
    let fails = failing(alloc, outside.write_fails)?;
    MemSink::new(alloc, outside.room, fails)
}

/// The status that the program ends with over a source and a sink.
fn status_over(alloc: Global, words: &[String], mut source: MemSource, sink: &mut MemSink) -> u8 {
    top_plain(alloc, words, &mut source, sink)
}

/// The same with words that are parted here.
fn status_of(
    alloc: Global,
    words: &str,
    source: MemSource,
    sink: &mut MemSink,
) -> Result<u8, Memory> {
    match words_of(alloc, words) {
        Ok(words) => Ok(status_over(alloc, &words, source, sink)),
        Err(memory) => Err(memory),
    }
}

/// The status that the program ends with, and where it wrote.
pub fn call(
    alloc: Global,
    words: &str,
    input: &[u8],
    outside: Outside,
) -> Result<(u8, MemSink), Memory> {
    let mut sink = sink_for(alloc, outside)?;
    let source = source_of(alloc, input, outside)?;
    let status = status_of(alloc, words, source, &mut sink)?;
    Ok((status, sink))
}

/// Whether a call ends with this status and writes this text.
pub fn is_answered(
    alloc: Global,
    words: &str,
    input: &[u8],
    outside: Outside,
    due: (u8, &[u8]),
) -> Result<bool, Memory> {
    match call(alloc, words, input, outside) {
        Ok((status, sink)) => Ok(status == due.0 && sink.written() == due.1),
        Err(memory) => Err(memory),
    }
}

/// Texts one after the other.
pub fn joined(alloc: Global, texts: &[&[u8]]) -> Result<Vec<u8>, Memory> {
    let mut all = Vec::new(alloc);
    for text in texts {
        match all.extend_from_slice(text) {
            Ok(()) => {}
            Err(_) => return Err(Memory),
        }
    }
    Ok(all)
}

/// Whether the words and the input of a row are answered so.
pub fn is_row_answered(
    alloc: Global,
    row: &Row,
    outside: Outside,
    due: (u8, &[u8]),
) -> Result<bool, Memory> {
    match joined(alloc, row.input) {
        Ok(input) => is_answered(alloc, row.words, &input, outside, due),
        Err(memory) => Err(memory),
    }
}

/// The name of the first row that isn't answered as is due.
fn first_wrong(
    alloc: Global,
    outside: Outside,
    rows: &[Row],
) -> Result<Option<&'static str>, Memory> {
    for row in rows {
        match is_row_answered(alloc, row, outside, (row.status, row.text)) {
            Ok(true) => {}
            Ok(false) => return Ok(Some(row.name)),
            Err(memory) => return Err(memory),
        }
    }
    Ok(None)
}

/// Tries what each row says.
pub fn try_rows<R: Abort>(
    rt: &R,
    alloc: Global,
    outside: Outside,
    rows: &[Row],
) -> Result<(), Fail> {
    assert_eq!(rt; first_wrong(alloc, outside, rows)?, None);
    Ok(())
}
