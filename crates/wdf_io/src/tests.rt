//! Each source and sink once, through its trait.
use super::{Failed, MemSink, MemSource, ReadSource, Sink, Source, WriteSink, write_all};
use std::io;
use std::io::{Read, Write};
use std::test::Fail;

fn read_three<S: Source>(source: &mut S) -> (Result<usize, Failed>, [u8; 3]) {
    let mut buf = [0; 3];
    let count = source.read(&mut buf);
    (count, buf)
}

fn write_two<K: Sink>(sink: &mut K) -> Result<usize, Failed> {
    sink.write(b"ab")
}

fn may_cross_threads<T: Send>(_value: &T) {}

#[test]
fn memory_gives_its_bytes(rt: HostRuntime) -> Result<(), Fail> {
    let bytes = Vec::from_slice(rt.alloc(), b"abcde")?;
    let fail_at = Vec::from_slice(rt.alloc(), &[2, 9])?;
    let mut source = MemSource::new(bytes, fail_at, 2);
    assert_eq!(rt; read_three(&mut source), (Ok(2), *b"ab\0"));
    assert_eq!(rt; read_three(&mut source), (Err(Failed), [0; 3]));
    assert_eq!(rt; source.left(), b"cde".as_slice());
    assert_eq!(rt; read_three(&mut source), (Ok(2), *b"cd\0"));
    assert_eq!(rt; read_three(&mut source), (Ok(1), *b"e\0\0"));
    assert_eq!(rt; read_three(&mut source), (Ok(0), [0; 3]));
    may_cross_threads(&source);
    Ok(())
}

#[test]
fn memory_takes_what_fits(rt: HostRuntime) -> Result<(), Fail> {
    let fail_at = Vec::from_slice(rt.alloc(), &[2])?;
    let Ok(mut sink) = MemSink::new(rt.alloc(), 5, fail_at) else {
        return Err("no memory".into());
    };
    assert_eq!(rt; write_two(&mut sink), Ok(2));
    assert_eq!(rt; write_two(&mut sink), Err(Failed));
    assert_eq!(rt; write_all(&mut sink, b"cdef"), Err(Failed));
    assert_eq!(rt; sink.written(), b"abcde".as_slice());
    may_cross_threads(&sink);
    Ok(())
}

// Gives "abc", then fails once, then gives "de".
#[derive(Drop)]
struct FailsInMidStream {
    calls: u8,
}

impl Read for FailsInMidStream {
    fn read(&mut self, buf: &mut [u8]) -> io::Result<usize> {
        self.calls = self.calls.saturating_add(1);
        let mut rest: &[u8] = match self.calls {
            1 => b"abc",
            2 => return Err(io::ErrorKind::Other.into()),
            3 => b"de",
            _ => b"",
        };
        rest.read(buf)
    }
}

#[test]
fn reader_fails_in_mid_stream(rt: HostRuntime) {
    let mut source = ReadSource::new(FailsInMidStream { calls: 0 });
    assert_eq!(rt; read_three(&mut source), (Ok(3), *b"abc"));
    assert_eq!(rt; read_three(&mut source).0, Err(Failed));
    assert_eq!(rt; read_three(&mut source), (Ok(2), *b"de\0"));
    assert_eq!(rt; read_three(&mut source).0, Ok(0));
    may_cross_threads(&source);
}

// Takes one byte a call, nothing at its third call, and fails at its fifth.
#[derive(Drop)]
struct TakesLittle {
    calls: u8,
    taken: u8,
}

impl Write for TakesLittle {
    fn write(&mut self, buf: &[u8]) -> io::Result<usize> {
        self.calls = self.calls.saturating_add(1);
        match self.calls {
            3 => Ok(0),
            5 => Err(io::ErrorKind::Other.into()),
            _ => {
                let count = buf.len().min(1);
                self.taken = self.taken.saturating_add(count as u8);
                Ok(count)
            }
        }
    }

    fn flush(&mut self) -> io::Result<()> {
        Ok(())
    }
}

#[test]
fn writer_fails_in_mid_stream(rt: HostRuntime) {
    let mut writer = TakesLittle { calls: 0, taken: 0 };
    let mut sink = WriteSink::new(&mut writer);
    assert_eq!(rt; write_all(&mut sink, b"ab"), Ok(()));
    assert_eq!(rt; write_two(&mut sink), Err(Failed));
    assert_eq!(rt; write_all(&mut sink, b"cde"), Err(Failed));
    assert_eq!(rt; write_all(&mut sink, b"de"), Ok(()));
    may_cross_threads(&sink);
    drop(sink);
    assert_eq!(rt; writer.taken, 5);
}
