//! A reader and a writer that count their calls, for pieces of several sizes and for a failure at each place.
use std::io;
use std::io::{Read, Write};
use wdf_io::{ReadSource, Sink, Source, WriteSink};

/// How many calls each case makes.
const CALLS: u64 = 5;

/// Gives a byte at each call, and fails at one.
#[derive(Drop)]
struct FailsOnce {
    calls: u64,
    fail_at: u64,
}

impl Read for FailsOnce {
    fn read(&mut self, buf: &mut [u8]) -> io::Result<usize> {
        self.calls = self.calls.saturating_add(1);
        if self.calls == self.fail_at {
            return Err(io::ErrorKind::Other.into());
        }
        let mut rest: &[u8] = b"x";
        rest.read(buf)
    }
}

/// Takes a byte at each call, and nothing or a failure at one.
#[derive(Drop)]
struct RefusesOnce {
    calls: u64,
    refuse_at: u64,
    fails: bool,
}

impl Write for RefusesOnce {
    fn write(&mut self, buf: &[u8]) -> io::Result<usize> {
        self.calls = self.calls.saturating_add(1);
        if self.calls != self.refuse_at {
            return Ok(buf.len().min(1));
        }
        if self.fails {
            Err(io::ErrorKind::Other.into())
        } else {
            Ok(0)
        }
    }

    fn flush(&mut self) -> io::Result<()> {
        Ok(())
    }
}

/// Whether each read fails exactly where the reader does, and the reader was asked once for each.
fn reads_once_each(size: usize, fail_at: u64) -> bool {
    let mut reader = FailsOnce { calls: 0, fail_at };
    let mut source = ReadSource::new(&mut reader);
    let mut right = true;
    for call in 1..CALLS + 1 {
        let mut buf = [0; 8];
        let (piece, _) = buf.split_at_mut(size.clamp(1, 8));
        let failed = source.read(piece).is_err();
        right = right && failed == (call == fail_at);
    }
    drop(source);
    right && reader.calls == CALLS
}

/// Whether each write fails exactly where the writer takes nothing or fails, and the writer was asked once for each.
fn writes_once_each(size: usize, refuse_at: u64, fails: bool) -> bool {
    let mut writer = RefusesOnce {
        calls: 0,
        refuse_at,
        fails,
    };
    let mut sink = WriteSink::new(&mut writer);
    let mut right = true;
    for call in 1..CALLS + 1 {
        let (piece, _) = b"abcdefgh".split_at(size.clamp(1, 8));
        let failed = sink.write(piece).is_err();
        right = right && failed == (call == refuse_at);
    }
    drop(sink);
    right && writer.calls == CALLS
}

#[test]
fn a_read_is_one_call_of_the_reader(rt: HostRuntime) {
    for size in 1..9 {
        for fail_at in 0..CALLS + 1 {
            assert!(rt; reads_once_each(size, fail_at));
        }
    }
}

#[test]
fn a_write_is_one_call_of_the_writer(rt: HostRuntime) {
    for size in 1..9 {
        for refuse_at in 0..CALLS + 1 {
            assert!(rt; writes_once_each(size, refuse_at, true));
            assert!(rt; writes_once_each(size, refuse_at, false));
        }
    }
}
