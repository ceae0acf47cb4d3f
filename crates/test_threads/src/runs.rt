//! Runs by threads, and what `replay` says of them.
use crate::DEVICE_SCOPE;
use crate::call::{Outside, STEADY, call};
use crate::rows::{Text, is_due};
use crate::texts::{KEPT, ONE_READ, SPINNING, TWICE};
use std::alloc::Global;
use std::sync::Wait;
use std::test::Fail;
use std::thread::Threads;
use wdf_base::Memory;
use wdf_serve::OpenGate;

/// What `replay` is given: a scenario, a line `trace` and a trace.
fn judged(alloc: Global, scenario: &[u8], trace: &[u8]) -> Result<Vec<u8>, Memory> {
    let mut input = Vec::from_slice(alloc, scenario)?;
    input.extend_from_slice(b"trace\n")?;
    input.extend_from_slice(trace)?;
    Ok(input)
}

/// Whether the verdict on an input is the due one.
fn is_verdict_on<R: Threads + Wait + Sync>(
    rt: &R,
    alloc: Global,
    input: &[u8],
    due: Text,
) -> Result<bool, Memory> {
    match call(rt, alloc, "replay", input, STEADY, &OpenGate) {
        Ok((_, sink)) => Ok(is_due(sink.written(), due)),
        Err(memory) => Err(memory),
    }
}

/// Whether the verdict on a trace of a scenario is the due one.
pub fn is_verdict<R: Threads + Wait + Sync>(
    rt: &R,
    alloc: Global,
    scenario: &[u8],
    trace: &[u8],
    due: Text,
) -> Result<bool, Memory> {
    match judged(alloc, scenario, trace) {
        Ok(input) => is_verdict_on(rt, alloc, &input, due),
        Err(memory) => Err(memory),
    }
}

/// A scenario, and what is due of its runs: the status and the end of the text.
struct Run {
    scenario: &'static [u8],
    status: u8,
    end: &'static [u8],
}

static RUNS: [Run; 5] = [
    Run {
        scenario: ONE_READ,
        status: 0,
        end: b"\nfinished 6\n",
    },
    Run {
        scenario: DEVICE_SCOPE,
        status: 0,
        end: b"\nfinished 14\n",
    },
    Run {
        scenario: KEPT,
        status: 4,
        end: b"\nstuck 3\nreq.4 owned\n",
    },
    Run {
        scenario: SPINNING,
        status: 5,
        end: b"\nlimit 50\n",
    },
    Run {
        scenario: TWICE,
        status: 3,
        end: b"\n",
    },
];

/// Whether what is written ends as is due, and `replay` accepts it.
fn is_accepted<R: Threads + Wait + Sync>(
    rt: &R,
    alloc: Global,
    run: &Run,
    written: &[u8],
) -> Result<bool, Memory> {
    if !written.ends_with(run.end) {
        return Ok(false);
    }
    is_verdict(rt, alloc, run.scenario, written, Text::Begins(b"accepted "))
}

/// Whether a run by threads over a source in such pieces comes out as is due.
fn comes_out<R: Threads + Wait + Sync>(
    rt: &R,
    alloc: Global,
    word: &str,
    run: &Run,
    piece: usize,
) -> Result<bool, Memory> {
    let outside = Outside { piece, ..STEADY };
    match call(rt, alloc, word, run.scenario, outside, &OpenGate) {
        Ok((status, sink)) => {
            let accepted = is_accepted(rt, alloc, run, sink.written())?;
            Ok(accepted && status == run.status)
        }
        Err(memory) => Err(memory),
    }
}

/// The place of the first run that doesn't come out.
fn first_wrong<R: Threads + Wait + Sync>(
    rt: &R,
    alloc: Global,
    word: &str,
    piece: usize,
) -> Result<Option<usize>, Memory> {
    for (place, run) in RUNS.iter().enumerate() {
        match comes_out(rt, alloc, word, run, piece) {
            Ok(true) => {}
            Ok(false) => return Ok(Some(place)),
            Err(memory) => return Err(memory),
        }
    }
    Ok(None)
}

#[test]
fn runs_are_accepted(rt: HostRuntime) -> Result<(), Fail> {
    assert_eq!(rt; first_wrong(&rt, rt.alloc(), "run", 1)?, None);
    assert_eq!(rt; first_wrong(&rt, rt.alloc(), "run", 4096)?, None);
    assert_eq!(rt; first_wrong(&rt, rt.alloc(), "watch", 4096)?, None);
    Ok(())
}
