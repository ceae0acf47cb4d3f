//! The outside: where bytes come from and where they go.
//!
//! # Choices
//!
//! - **What do a source and a sink say of their content?** They may say nothing: the system's streams don't know it.
//!   A clause that speaks of bytes then claims nothing of them.
//! - **What does a read leave in the rest of its buffer?** It isn't said, since a reader of the system may write
//!   there.
#![tactic(auto)]

ghost use Rattle.std.specs.Prelude.{◌≡◌, ℕ, ◌<◌, ◌≤◌, ◌↔◌, Option, List, [], length, take, IfOk, IfSome, IsOk, OnOk, OnErr};
ghost use Rattle.std.specs.Io.KnownBytes.{Keeps};
ghost use Rattle.wdf_io.specs.Outside.{Rose, Takes, Gains, EndsRefused};

mod calls;
mod mem_sink;
mod mem_source;
mod streams;
#[cfg(test)]
mod tests;

pub use mem_sink::MemSink;
pub use mem_source::MemSource;
pub use streams::{ReadSource, WriteSink};

/// The outside didn't do what it was asked. The object that answers it has counted a fault, up to 2^64 - 1.
#[derive(Clone, Copy, Debug, PartialEq, Eq)]
pub struct Failed;

/// Where bytes come from, in order.
pub trait Source {
    // The bytes not yet read, where the source says what they are.
    ghost left: { Self → Option (List ℕ) };

    // How often a call failed, counted up to 2^64 - 1. It never falls.
    ghost faults: { Self → ℕ };

    /// Fills the front of `buf` with the next bytes and answers how many: 0 is the end of the input.
    /// What is after them in `buf` is left open.
    ///
    /// # Errors
    ///
    /// `Failed` only where the count of faults rose or was at its last value. Nothing is taken then, and `buf` is left open.
    fn read(&mut self, buf: &mut [u8]) -> Result<usize, Failed>
        requires { 0 < length buf.old }
        ensures within { IfOk result (λ n. n ≤ length buf.new) }
        ensures taken { IfOk result (λ n. Takes (left self.old) (left self.new) (take n buf.new)) }
        ensures end { IfOk result (λ n. IfSome (left self.old) (λ bytes. (n ≡ 0) ↔ (bytes ≡ []))) }
        ensures quiet { OnOk result (faults self.new ≡ faults self.old) }
        ensures untouched { OnErr result (Keeps (left self.old) (left self.new)) }
        ensures rose { OnErr result (Rose (faults self.old) (faults self.new)) }
        ensures never_falls { faults self.old ≤ faults self.new };
}

/// Where bytes go, in order.
pub trait Sink {
    // The bytes written, where the sink says what they are.
    ghost written: { Self → Option (List ℕ) };

    // How often a call failed, counted up to 2^64 - 1. It never falls.
    ghost faults: { Self → ℕ };

    // A failed call brought the sink from the one to the other.
    ghost refused: { Self → Self → Type 0 };

    /// Appends the front of `piece` and answers how many bytes that were, at least one.
    ///
    /// # Errors
    ///
    /// `Failed` only where the count of faults rose or was at its last value. Nothing is appended then.
    fn write(&mut self, piece: &[u8]) -> Result<usize, Failed>
        requires { 0 < length piece.now }
        ensures some { IfOk result (λ n. 0 < n) }
        ensures within { IfOk result (λ n. n ≤ length piece.now) }
        ensures gained { IfOk result (λ n. Gains (written self.old) (written self.new) (take n piece.now)) }
        ensures quiet { OnOk result (faults self.new ≡ faults self.old) }
        ensures untouched { OnErr result (Keeps (written self.old) (written self.new)) }
        ensures refused { OnErr result (refused self.old self.new) }
        ensures rose { OnErr result (Rose (faults self.old) (faults self.new)) }
        ensures never_falls { faults self.old ≤ faults self.new };
}

/// Writes the whole piece, in as many calls as the sink needs.
///
/// # Errors
///
/// `Failed` where a call of the sink failed. A front of the piece may be written by then.
pub fn write_all<K: Sink>(sink: &mut K, piece: &[u8]) -> Result<(), Failed>
    ensures whole { OnOk result (Gains (K.written sink.old) (K.written sink.new) piece.now) }
    ensures front { OnErr result ((n : ℕ) × (n < length piece.now)
        × Gains (K.written sink.old) (K.written sink.new) (take n piece.now)) }
    ensures empty { piece.now ≡ [] → IsOk result × (sink.new ≡ sink.old) }
    ensures quiet { OnOk result (K.faults sink.new ≡ K.faults sink.old) }
    ensures rose { OnErr result (Rose (K.faults sink.old) (K.faults sink.new)) }
    ensures never_falls { K.faults sink.old ≤ K.faults sink.new }
    ensures not_again { OnErr result (EndsRefused K.refused K.faults sink.old sink.new) }
{
    let mut done = 0;
    while done < piece.len() {
        match sink.write(&piece[done..]) {
            Ok(count) => done += count,
            Err(failed) => return Err(failed),
        }
    }
    Ok(())
}
