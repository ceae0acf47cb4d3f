//! `kmdfview`: shows a run of `kmdfsim` as a picture. It hands the system's arguments and streams to the program, which
//! does the work.
#![tactic(auto)]

use std::env;
use std::process::ExitCode;
use wdf_arguments::words_of;
use wdf_exit::Exit;
use wdf_io::{ReadSource, WriteSink};
use wdf_view::view;

/// Serves the program's arguments over its input and its output, and ends with the status that is answered: 15, and no line,
/// where there is no memory for the arguments.
fn main(rt: HostRuntime) -> ExitCode {
    let mut source = ReadSource::new(rt.stdin());
    let mut sink = WriteSink::new(rt.stdout());
    let status = match words_of(rt.alloc(), env::args(&rt)) {
        Ok(words) => view(rt.alloc(), &words, &mut source, &mut sink),
        Err(_) => Exit::NoMemory as u8,
    };
    ExitCode::from(status)
}
