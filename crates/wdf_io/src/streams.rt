//! Sources over readers and sinks over writers. What a reader or a writer says of its bytes, they say too.
ghost use Rattle.std.specs.Prelude.{◌≡◌, ◌≤◌, ◌<◌, ◌↔◌, [], IfOk, IfSome, OnOk, OnErr, length, take};
ghost use Rattle.std.specs.Io.KnownBytes.{Keeps};
ghost use Rattle.wdf_io.specs.Outside.{Rose, Takes, Gains, counted};
ghost use Rattle.wdf_io.specs.Streams.{RefusedBy};

use super::{Failed, Sink, Source};
use std::io::{Read, Write};
use std::marker::Model;

/// A source over a reader. It is seen as what is left of the reader, where the reader says that, and as
/// its count of faults, which rises at each error of the reader. After the count's last value each call
/// fails. A standard stream says nothing of what is left.
#[derive(Drop)]
pub struct ReadSource<R: Read> {
    inner: R,
    faults: u64,
}

impl<R: Read> Model for ReadSource<R> {
    ghost use Rattle.wdf_io.specs.Streams.{FromReader};

    ghost Value = { FromReader };

    ghost view = { λ s. record { left = R.remaining s.inner; faults = s.faults } };
}

impl<R: Read> ReadSource<R> {
    /// A source that reads from `inner`, with no fault so far.
    pub fn new(inner: R) -> ReadSource<R>
        ensures { result ≡ record { left = R.remaining inner; faults = 0 } }
    {
        ReadSource { inner, faults: 0 }
    }
}

impl<R: Read> Source for ReadSource<R> {
    ghost left = { λ s. s.left };

    ghost faults = { λ s. s.faults };

    #[tactic(auto, using(crate::proofs::Pieces::keeps_same, crate::proofs::Pieces::end_of_reader))]
    fn read(&mut self, buf: &mut [u8]) -> Result<usize, Failed>
        requires { 0 < length buf.old }
        ensures within { IfOk result (λ n. n ≤ length buf.new) }
        ensures taken { IfOk result (λ n. Takes self.old.left self.new.left (take n buf.new)) }
        ensures end { IfOk result (λ n. IfSome self.old.left (λ bytes. (n ≡ 0) ↔ (bytes ≡ []))) }
        ensures quiet { OnOk result (self.new.faults ≡ self.old.faults) }
        ensures untouched { OnErr result (Keeps self.old.left self.new.left) }
        ensures err { OnErr result (self.new.faults ≡ counted self.old.faults) }
        ensures rose { OnErr result (Rose self.old.faults self.new.faults) }
        ensures never_falls { self.old.faults ≤ self.new.faults }
    {
        if self.faults == u64::MAX {
            return Err(Failed);
        }
        match self.inner.read(buf) {
            Ok(count) => Ok(count),
            Err(_) => {
                self.faults += 1;
                Err(Failed)
            }
        }
    }
}

/// A sink over a writer. It is seen as what the writer has taken, where the writer says that, and as its
/// count of faults. The count rises at each error of the writer and at each call at which the writer takes
/// nothing. After the count's last value each call fails. A standard stream says nothing of what it has taken.
#[derive(Drop)]
pub struct WriteSink<W: Write> {
    inner: W,
    faults: u64,
}

impl<W: Write> Model for WriteSink<W> {
    ghost use Rattle.wdf_io.specs.Streams.{IntoWriter};

    ghost Value = { IntoWriter };

    ghost view = { λ s. record { written = W.contents s.inner; faults = s.faults } };
}

impl<W: Write> WriteSink<W> {
    /// A sink that writes to `inner`, with no fault so far.
    pub fn new(inner: W) -> WriteSink<W>
        ensures { result ≡ record { written = W.contents inner; faults = 0 } }
    {
        WriteSink { inner, faults: 0 }
    }
}

impl<W: Write> Sink for WriteSink<W> {
    ghost written = { λ s. s.written };

    ghost faults = { λ s. s.faults };

    ghost refused = { RefusedBy };

    #[tactic(auto, using(crate::proofs::Pieces::keeps_same, crate::proofs::Pieces::nothing_taken))]
    fn write(&mut self, piece: &[u8]) -> Result<usize, Failed>
        requires { 0 < length piece.now }
        ensures some { IfOk result (λ n. 0 < n) }
        ensures within { IfOk result (λ n. n ≤ length piece.now) }
        ensures gained { IfOk result (λ n. Gains self.old.written self.new.written (take n piece.now)) }
        ensures quiet { OnOk result (self.new.faults ≡ self.old.faults) }
        ensures untouched { OnErr result (Keeps self.old.written self.new.written) }
        ensures refused { OnErr result (RefusedBy self.old self.new) }
        ensures rose { OnErr result (Rose self.old.faults self.new.faults) }
        ensures never_falls { self.old.faults ≤ self.new.faults }
    {
        if self.faults == u64::MAX {
            return Err(Failed);
        }
        match self.inner.write(piece) {
            Ok(count) if count > 0 => Ok(count),
            _ => {
                self.faults += 1;
                Err(Failed)
            }
        }
    }
}
