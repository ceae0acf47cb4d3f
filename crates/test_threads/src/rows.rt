//! Calls of the program in rows, with what is due of each.
use crate::call::{Outside, call};
use std::alloc::Global;
use std::sync::Wait;
use std::thread::Threads;
use wdf_base::Memory;
use wdf_serve::OpenGate;

/// The text that is due.
#[derive(Clone, Copy)]
pub enum Text {
    /// This one.
    Is(&'static [u8]),
    /// One that begins so.
    Begins(&'static [u8]),
    /// One that ends so.
    Ends(&'static [u8]),
}

/// What is tried, and what is due.
#[derive(Clone, Copy)]
pub struct Row {
    /// The words after the program's name.
    pub words: &'static str,
    pub input: &'static [u8],
    pub outside: Outside,
    /// The status that is due.
    pub status: u8,
    pub text: Text,
}

/// Whether a text is the due one.
pub fn is_due(written: &[u8], due: Text) -> bool {
    match due {
        Text::Is(text) => written == text,
        Text::Begins(text) => written.starts_with(text),
        Text::Ends(text) => written.ends_with(text),
    }
}

/// Whether the program answers a row as is due.
fn is_answered<R: Threads + Wait + Sync>(rt: &R, alloc: Global, row: &Row) -> Result<bool, Memory> {
    match call(rt, alloc, row.words, row.input, row.outside, &OpenGate) {
        Ok((status, sink)) => Ok(status == row.status && is_due(sink.written(), row.text)),
        Err(memory) => Err(memory),
    }
}

/// The place of the first row that isn't answered as is due.
pub fn first_wrong<R: Threads + Wait + Sync>(
    rt: &R,
    alloc: Global,
    rows: &[Row],
) -> Result<Option<usize>, Memory> {
    for (place, row) in rows.iter().enumerate() {
        match is_answered(rt, alloc, row) {
            Ok(true) => {}
            Ok(false) => return Ok(Some(place)),
            Err(memory) => return Err(memory),
        }
    }
    Ok(None)
}
