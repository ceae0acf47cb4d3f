//! A sink that keeps its bytes in memory.
ghost use Rattle.std.specs.Prelude.{◌≡◌, ◌≤◌, ◌<◌, ◌⊎◌, ◌↔◌, [], Some, IsErr, IfOk, OnErr, length, take};
ghost use Rattle.wdf_io.specs.Memory.{NextFails, taken, after_taking, after_refusing};
ghost use Rattle.wdf_io.specs.Outside.{Rose};

use super::calls::Calls;
use super::{Failed, Sink};
use std::alloc::Global;
use std::marker::Model;
use wdf_base::Memory;

/// A sink that keeps at most `room` bytes in memory and fails at the calls whose numbers it is given.
#[derive(Drop)]
pub struct MemSink {
    bytes: Vec<u8>,
    room: usize,
    calls: Calls,
}

impl Model for MemSink {
    ghost use Rattle.std.specs.Prelude.{◌≤◌, length, vec_capacity};
    ghost use Rattle.wdf_io.specs.Memory.{Store};

    ghost Value = { Store };

    ghost view = { λ s. record { written = s.bytes.items; room = s.room; calls = s.calls } };

    ghost invariant = { λ s. (length s.bytes.items ≤ s.room) × (s.room ≤ vec_capacity s.bytes) };
}

impl MemSink {
    /// An empty sink that can hold `room` bytes, for which it takes all its memory now. Exactly the
    /// calls whose numbers, from 1, are in `fail_at` fail, and those at which no room is left. [`Memory`] where that
    /// memory was refused.
    pub fn new(alloc: Global, room: usize, fail_at: Vec<u64>) -> Result<MemSink, Memory>
        ensures { IfOk result (λ sink. sink ≡ record { written = []; room = room; calls = record { fail_at = fail_at.items; made = 0; faults = 0 } }) }
    {
        Ok(MemSink {
            bytes: Vec::with_capacity(alloc, room)?,
            room,
            calls: Calls::new(fail_at),
        })
    }

    /// The bytes written.
    pub fn written(&self) -> &[u8]
        ensures { result.now ≡ self.now.written }
    {
        &self.bytes
    }
}

impl Sink for MemSink {
    ghost written = { λ s. Some s.written };

    ghost faults = { λ s. s.calls.faults };

    ghost refused = { λ before after. after ≡ after_refusing before };

    fn write(&mut self, piece: &[u8]) -> Result<usize, Failed>
        requires { 0 < length piece.now }
        ensures fails { IsErr result ↔ (NextFails self.old.calls ⊎ (length self.old.written ≡ self.old.room)) }
        ensures count { IfOk result (λ n. n ≡ taken self.old (length piece.now)) }
        ensures ok { IfOk result (λ n. self.new ≡ after_taking self.old (take n piece.now)) }
        ensures err { OnErr result (self.new ≡ after_refusing self.old) }

        ensures some { IfOk result (λ n. 0 < n) }
        ensures rose { OnErr result (Rose self.old.calls.faults self.new.calls.faults) }
        ensures never_falls { self.old.calls.faults ≤ self.new.calls.faults }
    {
        let free = self.room - self.bytes.len();
        if free == 0 || self.calls.next_fails() {
            return Err(self.calls.fail());
        }
        self.calls.serve();
        let count = piece.len().min(free);
        self.bytes.extend_from_slice(&piece[..count]).unwrap();
        Ok(count)
    }
}
