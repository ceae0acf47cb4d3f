//! `run` with sources and sinks that fail, and inputs that have no plan.
use crate::call::{Outside, STEADY, call};
use crate::rows::{Row, Text, first_wrong};
use crate::runs::is_verdict;
use crate::texts::{KEPT, LONG, ONE_READ};
use std::alloc::Global;
use std::sync::Wait;
use std::test::Fail;
use std::thread::Threads;
use wdf_base::Memory;
use wdf_serve::OpenGate;

/// The most bytes that an input may have.
const INPUT_LIMIT: usize = 1_048_576;

/// Inputs that come to no run.
static REFUSALS: [Row; 6] = [
    Row {
        words: "run",
        input: b"",
        outside: STEADY,
        status: 10,
        text: Text::Is(b"parse refused at line 1: BadLine\n"),
    },
    Row {
        words: "run",
        input: b"cpus 9\nlimit 9\nobjects 9\n",
        outside: STEADY,
        status: 11,
        text: Text::Is(b"plan refused at line 1: OverLimit cpus\n"),
    },
    Row {
        words: "run",
        input: ONE_READ,
        outside: Outside {
            piece: 1,
            read_fails: 1,
            write_fails: 0,
        },
        status: 12,
        text: Text::Is(b"read fault\n"),
    },
    Row {
        words: "run",
        input: ONE_READ,
        outside: Outside {
            piece: 1,
            read_fails: 2,
            write_fails: 0,
        },
        status: 12,
        text: Text::Is(b"read fault\n"),
    },
    Row {
        words: "run",
        input: ONE_READ,
        outside: Outside {
            piece: 4096,
            read_fails: 1,
            write_fails: 0,
        },
        status: 12,
        text: Text::Is(b"read fault\n"),
    },
    Row {
        words: "run",
        input: ONE_READ,
        outside: Outside {
            piece: 4096,
            read_fails: 2,
            write_fails: 0,
        },
        status: 12,
        text: Text::Is(b"read fault\n"),
    },
];

#[test]
fn what_comes_to_no_run_is_refused(rt: HostRuntime) -> Result<(), Fail> {
    assert_eq!(rt; first_wrong(&rt, rt.alloc(), &REFUSALS)?, None);
    Ok(())
}

/// Whether an input with one byte too many is told.
fn is_too_large<R: Threads + Wait + Sync>(
    rt: &R,
    alloc: Global,
    input: &[u8],
) -> Result<bool, Memory> {
    match call(rt, alloc, "run", input, STEADY, &OpenGate) {
        Ok((status, sink)) => Ok(status == 14 && sink.written() == b"input too large\n".as_slice()),
        Err(memory) => Err(memory),
    }
}

#[test]
fn an_input_over_the_limit_is_refused(rt: HostRuntime) -> Result<(), Fail> {
    let mut input = Vec::new(rt.alloc());
    input.resize(INPUT_LIMIT + 1, b'\n')?;
    assert!(rt; is_too_large(&rt, rt.alloc(), &input)?);
    Ok(())
}

/// A scenario whose runs all have as many lines and one status.
struct Pieces {
    scenario: &'static [u8],
    /// For each write what `replay` says of the lines before it. A write has whole lines and at most 16,384 bytes.
    missing: &'static [&'static [u8]],
    status: u8,
    /// What `replay` says of its runs.
    verdict: &'static [u8],
    /// How many numbers of writes are tried.
    tries: usize,
}

static PIECES: [Pieces; 3] = [
    Pieces {
        scenario: ONE_READ,
        missing: &[b"refused at line 1: Missing\n"],
        status: 0,
        verdict: b"accepted finished 6\n",
        tries: 20,
    },
    Pieces {
        scenario: KEPT,
        missing: &[b"refused at line 1: Missing\n"],
        status: 4,
        verdict: b"accepted stuck 3\n",
        tries: 20,
    },
    Pieces {
        scenario: LONG,
        missing: &[
            b"refused at line 1: Missing\n",
            b"refused at line 398: Missing\n",
        ],
        status: 4,
        verdict: b"accepted stuck 504\n",
        tries: 4,
    },
];

/// The verdicts on texts that end before a line, from the first on.
pub static MISSING: [&[u8]; 7] = [
    b"refused at line 1: Missing\n",
    b"refused at line 2: Missing\n",
    b"refused at line 3: Missing\n",
    b"refused at line 4: Missing\n",
    b"refused at line 5: Missing\n",
    b"refused at line 6: Missing\n",
    b"refused at line 7: Missing\n",
];

/// The status and the verdict that are due where the write with this number, from 1 on, fails.
fn due_at(pieces: &Pieces, number: usize) -> (u8, &'static [u8]) {
    match pieces.missing.get(number.saturating_sub(1)) {
        Some(missing) => (13, *missing),
        None => (pieces.status, pieces.verdict),
    }
}

/// Whether a text has whole lines alone.
fn has_whole_lines(text: &[u8]) -> bool {
    text.is_empty() || text.ends_with(b"\n")
}

/// Whether a front of a run's text is what is due where the write with this number fails.
fn is_front<R: Threads + Wait + Sync>(
    rt: &R,
    alloc: Global,
    pieces: &Pieces,
    written: &[u8],
    number: usize,
) -> Result<bool, Memory> {
    let (_, verdict) = due_at(pieces, number);
    if !has_whole_lines(written) {
        return Ok(false);
    }
    is_verdict(rt, alloc, pieces.scenario, written, Text::Is(verdict))
}

/// Lets one write fail. Whether the lines before it are a front of some run's text, with nothing after them.
fn leaves_front<R: Threads + Wait + Sync>(
    rt: &R,
    alloc: Global,
    pieces: &Pieces,
    number: usize,
) -> Result<bool, Memory> {
    let outside = Outside {
        write_fails: number as u64,
        ..STEADY
    };
    match call(rt, alloc, "run", pieces.scenario, outside, &OpenGate) {
        Ok((status, sink)) => {
            let front = is_front(rt, alloc, pieces, sink.written(), number)?;
            Ok(front && status == due_at(pieces, number).0)
        }
        Err(memory) => Err(memory),
    }
}

/// The number of the first write that leaves no front where it fails.
fn first_wrong_write<R: Threads + Wait + Sync>(
    rt: &R,
    alloc: Global,
    pieces: &Pieces,
) -> Result<Option<usize>, Memory> {
    for number in 1..=pieces.tries {
        match leaves_front(rt, alloc, pieces, number) {
            Ok(true) => {}
            Ok(false) => return Ok(Some(number)),
            Err(memory) => return Err(memory),
        }
    }
    Ok(None)
}

#[test]
fn a_failed_write_leaves_a_front(rt: HostRuntime) -> Result<(), Fail> {
    for pieces in &PIECES {
        assert_eq!(rt; first_wrong_write(&rt, rt.alloc(), pieces)?, None);
    }
    Ok(())
}
