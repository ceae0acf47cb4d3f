//! `kmdfhunt`: how the runs of many seeds of a scenario end. It hands the system's arguments, streams and files over to what does
//! the work.
//!
//! # Choices
//!
//! - **Which files of a folder are a suite?** Those whose name ends in `.kmdf`, in the order of their names, byte by byte.
//! - **When is there a line on standard error of how far a table is?** Where standard error is a terminal, and the last word isn't
//!   `--no-progress`. The line is wiped at the end.
//! - **When is a line of a suite written?** When its file is done, so that one sees how far it is.
#![tactic(auto)]

mod progress_line;
mod suite;

use progress_line::Line;
use std::env;
use std::io::IsTerminal;
use std::process::ExitCode;
use std::rt::Files;
use std::thread::Threads;
use suite::tell_suite;
use wdf_arguments::words_of;
use wdf_exit::Exit;
use wdf_hunt::{Progress, hunt, suite_of};
use wdf_io::{ReadSource, Sink, Source, WriteSink};

/// Takes the word `--no-progress` away where it is the last, and answers whether it was.
fn takes_no_progress(words: &mut Vec<String>) -> bool {
    let is_last = match words.last() {
        Some(word) => word.as_str() == "--no-progress",
        None => false,
    };
    if is_last {
        words.truncate(words.len() - 1);
    }
    is_last
}

/// Serves these words, and answers the status to end with.
fn serve<R: Threads + Sync + Files + AllocGlobal + Clone + Drop, S: Source, K: Sink, P: Progress>(
    rt: &R,
    words: &[String],
    source: &mut S,
    sink: &mut K,
    progress: &mut P,
) -> u8 {
    match (words, suite_of(words)) {
        ([_, folder, ..], Some(range)) => tell_suite(rt, folder.as_str(), range, sink),
        _ => hunt(rt, rt.alloc(), words, source, sink, progress),
    }
}

/// Serves the program's arguments over its input and its output, and ends with the status that is answered: 15, and no line,
/// where there is no memory for the arguments.
fn main(rt: HostRuntime) -> ExitCode {
    let mut source = ReadSource::new(rt.stdin());
    let mut sink = WriteSink::new(rt.stdout());
    let status = match words_of(rt.alloc(), env::args(&rt)) {
        Ok(mut words) => {
            let is_quiet = takes_no_progress(&mut words);
            let mut line = Line::new(&rt, !is_quiet && rt.stderr().is_terminal());
            serve(&rt, words.as_slice(), &mut source, &mut sink, &mut line)
        }
        Err(_) => Exit::NoMemory as u8,
    };
    ExitCode::from(status)
}
