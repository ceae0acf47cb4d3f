//! A trace that needs three pages: where one isn't written, those before it are left.
use crate::call::{Outside, STEADY, call};
use std::alloc::Global;
use std::test::Fail;
use wdf_base::Memory;

/// How many reads nobody takes.
const READS: usize = 700;

/// How many bytes come before each write, and in all: a page has whole lines and at most 16,384 bytes. The first ends among
/// the events, the second in the wait list.
static BEFORE: [usize; 4] = [0, 16_378, 32_738, 38_198];

/// The scenario before its reads.
const HEAD: &[u8] = b"\
cpus 1\n\
limit 1000\n\
objects 1000\n\
device D working\n\
queue Q manual\n\
default\n\
end\n\
end\n\
app A\n\
";

/// A scenario with the reads.
fn scenario_text(alloc: Global) -> Result<Vec<u8>, Memory> {
    let mut text = Vec::from_slice(alloc, HEAD)?;
    for _ in 0..READS {
        text.extend_from_slice(b"at 0 read D 16\n")?;
    }
    text.extend_from_slice(b"end\n")?;
    Ok(text)
}

/// Adds the line of the event of a read, counted from 0.
fn add_event(text: &mut Vec<u8>, alloc: Global, read: u64) -> Result<(), Memory> {
    let number = read.saturating_add(1);
    let id = read.saturating_add(4);
    match format!(in alloc; "{number} A read D.2 16 -> req.{id}\n") {
        Ok(line) => Ok(text.extend_from_slice(line.as_bytes())?),
        Err(_) => Err(Memory),
    }
}

/// Adds the line of the wait list for a read, counted from 0.
fn add_wait(text: &mut Vec<u8>, alloc: Global, read: u64) -> Result<(), Memory> {
    let id = read.saturating_add(4);
    match format!(in alloc; "req.{id} queued Q.3 manual\n") {
        Ok(line) => Ok(text.extend_from_slice(line.as_bytes())?),
        Err(_) => Err(Memory),
    }
}

/// The text of the scenario's run: each read is put into the queue, and stays there.
fn run_text(alloc: Global) -> Result<Vec<u8>, Memory> {
    let mut text = Vec::new(alloc);
    for read in 0..READS {
        add_event(&mut text, alloc, read as u64)?;
    }
    text.extend_from_slice(b"stuck 700\n")?;
    for read in 0..READS {
        add_wait(&mut text, alloc, read as u64)?;
    }
    Ok(text)
}

/// Whether so many bytes of the text are written, and the status is this, where the write with this number fails.
fn leaves(
    alloc: Global,
    scenario: &[u8],
    text: &[u8],
    number: u64,
    due: (u8, usize),
) -> Result<bool, Memory> {
    let outside = Outside {
        write_fails: Some(number),
        ..STEADY
    };
    match call(alloc, "order", scenario, outside) {
        Ok((status, sink)) => {
            let written = sink.written();
            Ok(status == due.0 && written.len() == due.1 && text.starts_with(written))
        }
        Err(memory) => Err(memory),
    }
}

#[test]
fn a_failed_page_leaves_those_before(rt: HostRuntime) -> Result<(), Fail> {
    let scenario = scenario_text(rt.alloc())?;
    let text = run_text(rt.alloc())?;
    assert_eq!(rt; text.len(), BEFORE[3]);
    for (number, due) in [
        (1, (13, BEFORE[0])),
        (2, (13, BEFORE[1])),
        (3, (13, BEFORE[2])),
        (4, (4, BEFORE[3])),
    ] {
        assert!(rt; leaves(rt.alloc(), &scenario, &text, number, due)?);
    }
    Ok(())
}
