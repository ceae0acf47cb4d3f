//! The word `watch`: lines come while the run is made, and a sink that is full is left alone.
ghost use Rattle.std.specs.Prelude.{Some, ⊤};

use crate::call::{STEADY, sink_for, source_of, words_of};
use crate::faults::MISSING;
use crate::rows::Text;
use crate::runs::is_verdict;
use crate::texts::ONE_READ;
use std::alloc::Global;
use std::sync::Wait;
use std::sync::atomic::{AtomicU64, Ordering};
use std::test::Fail;
use std::thread;
use std::thread::Threads;
use wdf_base::Memory;
use wdf_io::{Failed, MemSink, Sink};
use wdf_serve::{OpenGate, top};
use wdf_turn::Gate;

/// How often a held worker looks before it gives up.
const LOOKS: u32 = 10_000_000;

/// A sink in memory that counts the calls that write where its maker can look.
#[derive(Drop)]
struct CountedSink<'a> {
    inner: MemSink,
    writes: &'a AtomicU64,
}

impl Sink for CountedSink<'_> {
    ghost written = { λ sink. Some sink.inner.written };

    ghost faults = { λ sink. sink.inner.calls.faults };

    ghost refused = { λ before after. ⊤ };

    fn write(&mut self, piece: &[u8]) -> Result<usize, Failed> {
        let answer = self.inner.write(piece);
        self.writes.fetch_add(1, Ordering::SeqCst);
        answer
    }
}

/// Holds worker 0 in its first pass until the sink has had a write, or gives up.
#[derive(Drop)]
struct UntilWritten<'a> {
    writes: &'a AtomicU64,
    given_up: &'a AtomicU64,
}

impl Gate for UntilWritten<'_> {
    fn pass(&self, worker: u32, turn: u32) {
        if worker == 0 && turn == 0 {
            self.hold();
        }
    }

    fn rest(&self, _looks: u32) {
        thread::yield_now();
    }
}

impl UntilWritten<'_> {
    /// Waits for a write, or gives up.
    fn hold(&self) {
        for _look in 0..LOOKS {
            if self.writes.load(Ordering::SeqCst) > 0 {
                return;
            }
            thread::yield_now();
        }
        self.given_up.fetch_add(1, Ordering::SeqCst);
    }
}

/// Whether a line was written before processor 0 did anything, and the run ends as it must.
fn writes_meanwhile<R: Threads + Wait + Sync>(rt: &R, alloc: Global) -> Result<bool, Memory> {
    let writes = AtomicU64::new(0);
    let given_up = AtomicU64::new(0);
    let gate = UntilWritten {
        writes: &writes,
        given_up: &given_up,
    };
    let mut sink = CountedSink {
        inner: sink_for(alloc, STEADY)?,
        writes: &writes,
    };
    let words = words_of(alloc, "watch")?;
    let mut source = source_of(alloc, ONE_READ, STEADY)?;
    let status = top(rt, alloc, &words, &mut source, &mut sink, &gate);
    let whole = sink.inner.written().ends_with(b"\nfinished 6\n");
    Ok(status == 0 && whole && given_up.load(Ordering::SeqCst) == 0)
}

#[test]
fn a_line_comes_before_the_run_goes_on(rt: HostRuntime) -> Result<(), Fail> {
    assert!(rt; writes_meanwhile(&rt, rt.alloc())?);
    Ok(())
}

/// Whether a sink with room for 40 bytes gets the first 40 of a run's text, and the status is 13.
fn fills_up<R: Threads + Wait + Sync>(rt: &R, alloc: Global) -> Result<bool, Memory> {
    let mut sink = MemSink::new(alloc, 40, Vec::new(alloc))?;
    let words = words_of(alloc, "watch")?;
    let mut source = source_of(alloc, ONE_READ, STEADY)?;
    let status = top(rt, alloc, &words, &mut source, &mut sink, &OpenGate);
    let written = sink.written();
    let whole = whole_lines(written);
    let lines = whole.iter().filter(|byte| **byte == b'\n').count();
    let Some(missing) = MISSING.get(lines) else {
        return Ok(false);
    };
    let front = is_verdict(rt, alloc, ONE_READ, whole, Text::Is(missing))?;
    Ok(front && written.len() == 40 && status == 13)
}

/// The whole lines at the front of a text.
fn whole_lines(text: &[u8]) -> &[u8] {
    match text.iter().rposition(|byte| *byte == b'\n') {
        Some(last) => text.get(..last.saturating_add(1)).unwrap_or(text),
        None => b"",
    }
}

#[test]
fn a_full_sink_has_a_front(rt: HostRuntime) -> Result<(), Fail> {
    assert!(rt; fills_up(&rt, rt.alloc())?);
    Ok(())
}
