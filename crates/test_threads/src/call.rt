//! One call of the program over a source and a sink in memory.
use std::alloc::Global;
use std::sync::Wait;
use std::thread::Threads;
use wdf_base::Memory;
use wdf_io::{MemSink, MemSource};
use wdf_serve::top;
use wdf_turn::Gate;

/// What the outside does.
#[derive(Clone, Copy)]
pub struct Outside {
    /// The most bytes that one read gives.
    pub piece: usize,
    /// The read that fails, counted from 1; 0 where none does.
    pub read_fails: u64,
    /// The write that fails, counted from 1; 0 where none does.
    pub write_fails: u64,
}

/// An outside that doesn't fail.
pub const STEADY: Outside = Outside {
    piece: 4096,
    read_fails: 0,
    write_fails: 0,
};

/// The bytes that the sink can hold.
const ROOM: usize = 65_536;

/// Adds a word.
fn add_word(all: &mut Vec<String>, alloc: Global, word: &str) -> Result<(), Memory> {
    let word = String::from_str(alloc, word)?;
    all.push(word)?;
    Ok(())
}

/// The words after the program's name.
pub fn words_of(alloc: Global, words: &str) -> Result<Vec<String>, Memory> {
    let mut all = Vec::new(alloc);
    for word in words.split_whitespace() {
        add_word(&mut all, alloc, word)?;
    }
    Ok(all)
}

/// A source of an input.
pub fn source_of(alloc: Global, input: &[u8], outside: Outside) -> Result<MemSource, Memory> {
    let input = Vec::from_slice(alloc, input)?;
    let fails = Vec::from_slice(alloc, &[outside.read_fails])?;
    Ok(MemSource::new(input, fails, outside.piece.max(1)))
}

/// An empty sink.
pub fn sink_for(alloc: Global, outside: Outside) -> Result<MemSink, Memory> {
    let fails = Vec::from_slice(alloc, &[outside.write_fails])?;
    MemSink::new(alloc, ROOM, fails)
}

/// The status that the program ends with over a source and a sink.
fn status_over<R: Threads + Wait + Sync, G: Gate + Sync>(
    rt: &R,
    alloc: Global,
    words: &[String],
    mut source: MemSource,
    sink: &mut MemSink,
    gate: &G,
) -> u8 {
    top(rt, alloc, words, &mut source, sink, gate)
}

/// The same with words that are parted here.
fn status_of<R: Threads + Wait + Sync, G: Gate + Sync>(
    rt: &R,
    alloc: Global,
    words: &str,
    source: MemSource,
    sink: &mut MemSink,
    gate: &G,
) -> Result<u8, Memory> {
    match words_of(alloc, words) {
        Ok(words) => Ok(status_over(rt, alloc, &words, source, sink, gate)),
        Err(memory) => Err(memory),
    }
}

/// The status that the program ends with, and where it wrote.
pub fn call<R: Threads + Wait + Sync, G: Gate + Sync>(
    rt: &R,
    alloc: Global,
    words: &str,
    input: &[u8],
    outside: Outside,
    gate: &G,
) -> Result<(u8, MemSink), Memory> {
    let mut sink = sink_for(alloc, outside)?;
    let source = source_of(alloc, input, outside)?;
    let status = status_of(rt, alloc, words, source, &mut sink, gate)?;
    Ok((status, sink))
}
