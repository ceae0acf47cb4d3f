//! A source that holds its bytes in memory.
ghost use Rattle.std.specs.Prelude.{◌≡◌, ◌≤◌, ◌<◌, ◌↔◌, ◌++◌, [], Some, IsErr, IfOk, OnErr, length, take, drop};
ghost use Rattle.wdf_io.specs.Memory.{NextFails, given, after_giving, after_failing};
ghost use Rattle.wdf_io.specs.Outside.{Rose};

use super::calls::Calls;
use super::{Failed, Source};
use std::marker::Model;

/// A source over bytes in memory that gives at most `piece` bytes in a call and fails at the calls
/// whose numbers it is given.
#[derive(Drop)]
pub struct MemSource {
    bytes: Vec<u8>,
    at: usize,
    piece: usize,
    calls: Calls,
}

impl Model for MemSource {
    ghost use Rattle.std.specs.Prelude.{◌≤◌, ◌<◌, drop, length};
    ghost use Rattle.wdf_io.specs.Memory.{Supply};

    ghost Value = { Supply };

    ghost view = { λ s. record { left = drop s.at s.bytes.items; piece = s.piece; calls = s.calls } };

    ghost invariant = { λ s. (s.at ≤ length s.bytes.items) × (0 < s.piece) };
}

impl MemSource {
    /// A source of these bytes. Exactly the calls whose numbers, from 1, are in `fail_at` fail.
    pub fn new(bytes: Vec<u8>, fail_at: Vec<u64>, piece: usize) -> MemSource
        requires { 1 ≤ piece }
        ensures { result ≡ record { left = bytes.items; piece = piece; calls = record { fail_at = fail_at.items; made = 0; faults = 0 } } }
    {
        MemSource {
            bytes,
            at: 0,
            piece,
            calls: Calls::new(fail_at),
        }
    }

    /// The bytes not yet read.
    pub fn left(&self) -> &[u8]
        ensures { result.now ≡ self.now.left }
    {
        &self.bytes[self.at..]
    }
}

impl Source for MemSource {
    ghost left = { λ s. Some s.left };

    ghost faults = { λ s. s.calls.faults };

    fn read(&mut self, buf: &mut [u8]) -> Result<usize, Failed>
        requires { 0 < length buf.old }
        ensures fails { IsErr result ↔ NextFails self.old.calls }
        ensures count { IfOk result (λ n. n ≡ given self.old (length buf.old)) }
        ensures gave { IfOk result (λ n. buf.new ≡ take n self.old.left ++ drop n buf.old) }
        ensures ok { IfOk result (λ n. self.new ≡ after_giving self.old n) }
        ensures err { OnErr result (self.new ≡ after_failing self.old) }
        ensures kept { OnErr result (buf.new ≡ buf.old) }

        ensures end { IfOk result (λ n. (n ≡ 0) ↔ (self.old.left ≡ [])) }
        ensures rose { OnErr result (Rose self.old.calls.faults self.new.calls.faults) }
        ensures never_falls { self.old.calls.faults ≤ self.new.calls.faults }
    {
        if self.calls.next_fails() {
            return Err(self.calls.fail());
        }
        self.calls.serve();
        let left = self.bytes.len() - self.at;
        let count = self.piece.min(buf.len()).min(left);
        buf[..count].copy_from_slice(&self.bytes[self.at..self.at + count]);
        self.at += count;
        Ok(count)
    }
}
