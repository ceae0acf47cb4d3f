//! A folder of scenarios as a suite of tests: a line in TAP for each file.
ghost use Rattle.std.specs.Prelude.{◌+◌, ◌≤◌, ◌^◌};

use std::alloc::Global;
use std::rt::Files;
use std::thread::Threads;
use std::{fs, io};
use wdf_base::Memory;
use wdf_exit::Exit;
use wdf_hunt::{Range, suite_line, unread_file_line};
use wdf_io::Sink;
use wdf_output::{Refusal, say, tell};
use wdf_writing::Text;

/// What the names of scenarios end in.
const ENDING: &str = ".kmdf";

/// The names of a folder's scenarios, in their order.
fn names_in<R: Files + AllocGlobal + Clone + Drop>(
    rt: &R,
    folder: &str,
) -> io::Result<Vec<String>> {
    let mut names = Vec::new(rt.alloc());
    for entry in fs::read_dir(rt, folder)? {
        let entry = entry?;
        if entry.file_name().ends_with(ENDING) {
            names.push(String::from_str(rt.alloc(), entry.file_name())?)?;
        }
    }
    names.sort()?;
    Ok(names)
}

/// The text of a file in a folder.
fn text_in<R: Files + AllocGlobal>(rt: &R, folder: &str, name: &str) -> io::Result<Vec<u8>> {
    let path = format!(in rt.alloc(); "{folder}/{name}")?;
    fs::read(rt, path.as_str())
}

/// The line of a file, and its status.
fn file_line<R: Threads + Sync + Files + AllocGlobal>(
    rt: &R,
    number: u64,
    folder: &str,
    name: &str,
    range: Range,
) -> Result<(Text, u8), Memory>
    requires { range.from + range.count ≤ 2 ^ 64 }
{
    match text_in(rt, folder, name) {
        Ok(text) => suite_line(
            rt,
            rt.alloc(),
            number,
            name.as_bytes(),
            text.as_slice(),
            range.from,
            range.count,
        ),
        Err(_) => Ok((
            unread_file_line(rt.alloc(), number, name.as_bytes())?,
            Exit::Broken as u8,
        )),
    }
}

/// Writes the line of a file, and answers its status.
fn tell_file<R: Threads + Sync + Files + AllocGlobal, K: Sink>(
    rt: &R,
    number: u64,
    folder: &str,
    name: &str,
    range: Range,
    sink: &mut K,
) -> u8
    requires { range.from + range.count ≤ 2 ^ 64 }
{
    match file_line(rt, number, folder, name, range) {
        Ok((line, status)) => say(sink, line.bytes(), status),
        Err(memory) => tell(sink, Refusal::from(memory)),
    }
}

/// The first line of a suite of so many files.
fn plan_line(alloc: Global, count: usize) -> Result<Text, Memory> {
    let mut line = Text::new(alloc);
    line.push(b"1..")?;
    line.push_number(count as u64)?;
    line.push(b"\n")?;
    Ok(line)
}

/// The status of that line: a suite without files isn't as it should be.
fn plan_status(count: usize) -> u8 {
    if count == 0 {
        Exit::Broken as u8
    } else {
        Exit::Fine as u8
    }
}

/// Writes the first line of a suite of so many files.
fn tell_plan<K: Sink>(alloc: Global, count: usize, sink: &mut K) -> u8 {
    match plan_line(alloc, count) {
        Ok(line) => say(sink, line.bytes(), plan_status(count)),
        Err(memory) => tell(sink, Refusal::from(memory)),
    }
}

/// Writes a line for each of these files, and answers the status to end with.
fn tell_files<R: Threads + Sync + Files + AllocGlobal, K: Sink>(
    rt: &R,
    folder: &str,
    names: &[String],
    range: Range,
    sink: &mut K,
) -> u8
    requires { range.from + range.count ≤ 2 ^ 64 }
{
    let mut worst = tell_plan(rt.alloc(), names.len(), sink);
    for (k, name) in names.iter().enumerate() {
        if worst > Exit::Broken as u8 {
            return worst;
        }
        let number = (k as u64).saturating_add(1);
        worst = worst.max(tell_file(rt, number, folder, name.as_str(), range, sink));
    }
    worst
}

/// Tries each scenario of a folder over the seeds of a range, and writes a line for each: `ok`, or `not ok` with the reason, which
/// may be that the file can't be read. The status is 0 where each is `ok`, else 1, also where there is none; 12 where the folder
/// can't be read or memory for its names was refused, 13 where the output fails, and 15 where memory for the tries or for a line
/// was refused.
pub fn tell_suite<R: Threads + Sync + Files + AllocGlobal + Clone + Drop, K: Sink>(
    rt: &R,
    folder: &str,
    range: Range,
    sink: &mut K,
) -> u8
    requires { range.from + range.count ≤ 2 ^ 64 }
{
    match names_in(rt, folder) {
        Ok(names) => tell_files(rt, folder, names.as_slice(), range, sink),
        Err(_) => tell(sink, Refusal::ReadFault),
    }
}
