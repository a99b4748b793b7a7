// A sink in memory, whose failing calls are listed.
ghost use Rattle.std.specs.Prelude.{◌≡◌, ◌<◌, ◌-◌, ◌↔◌, ◌⊎◌, ◌++◌, [], length, take, min, IsErr, IsTrue, IfOk, OnErr, Some};
ghost use Rattle.std.specs.Io.{WritesAtMost};
ghost use Rattle.std.specs.Io.KnownBytes.{WriteAppends, Keeps};
ghost use Rattle.outside.specs.Cause.{HasCause};

use crate::calls::Calls;
use crate::{Failed, Sink};
use std::alloc::{AllocError, Global};
use std::marker::Model;

/// A sink in memory with room for so many bytes, which reports its content. The calls that are to fail are listed.
///
/// Its calls are the writes and the flushes, numbered together from 1. Past the last number of 64 bits each call has that
/// number. A write takes what fits, and fails where nothing of its piece does.
#[derive(Debug, Drop)]
pub struct MemorySink {
    taken: Vec<u8>,
    room: usize,
    calls: Calls,
}

impl Model for MemorySink {
    ghost use Rattle.std.specs.Prelude.{◌≤◌, vec_len, vec_capacity};
    ghost use Rattle.outside.specs.Memory.{SinkInMemory};

    ghost Value = { SinkInMemory };

    ghost view = { λ s. record {
      taken = s.taken.items;
      room = s.room;
      fails = s.calls.fails;
      calls = s.calls.calls;
      faults = s.calls.faults;
    } };

    ghost invariant = { λ s. (vec_len s.taken ≤ s.room) × (s.room ≤ vec_capacity s.taken) };
}

impl MemorySink {
    ghost use Rattle.outside.specs.Memory.{IsFull, SinkInMemory};

    /// A sink that takes `room` bytes in all and fails at the calls of these numbers, the first being 1. It takes the memory
    /// for its room here, so that no later call can lack it.
    pub fn new(alloc: Global, room: usize, fails: Vec<u64>) -> Result<MemorySink, AllocError>
        ensures { IfOk result (λ sink. sink ≡
            record { taken = []; room = room; fails = fails.items; calls = 0; faults = 0 }) }
    {
        Ok(MemorySink {
            taken: Vec::with_capacity(alloc, room)?,
            room,
            calls: Calls::new(fails),
        })
    }

    /// The bytes that it took.
    pub fn taken(&self) -> &[u8]
        ensures { result.now ≡ self.now.taken }
    {
        &self.taken
    }

    // Nothing of the piece fits.
    fn is_full(&self, piece: &[u8]) -> bool
        ensures { IsTrue result ↔ IsFull self.now piece.now }
    {
        !piece.is_empty() && self.room <= self.taken.len()
    }
}

impl Sink for MemorySink {
    ghost use Rattle.outside.specs.Cause.{next_count};
    ghost use Rattle.outside.specs.Memory.{IsFull, IsListed};

    ghost written = { λ s. Some s.taken };

    ghost faults = { λ s. s.faults };

    fn faults(&self) -> u64 {
        self.calls.faults()
    }

    fn write(&mut self, piece: &[u8]) -> Result<usize, Failed>
        ensures bound { WritesAtMost result piece.now }
        ensures some { 0 < length piece.now → IfOk result (λ n. 0 < n) }
        ensures bytes { WriteAppends (Some self.old.taken) (Some self.new.taken) result piece.now }
        ensures cause { HasCause self.old.faults self.new.faults result }

        // Exactly which calls fail, how many bytes the others take, and what each leaves.
        ensures failing { IsErr result ↔
            (IsListed self.old.fails self.old.calls ⊎ IsFull self.old piece.now) }
        ensures count { IfOk result (λ n. n ≡ min (length piece.now) (self.old.room - length self.old.taken)) }
        ensures taken { IfOk result (λ n. self.new ≡
            record self.old { taken = self.old.taken ++ take n piece.now; calls = next_count self.old.calls }) }
        ensures fault { OnErr result (self.new ≡
            record self.old { calls = next_count self.old.calls; faults = next_count self.old.faults }) }
    {
        let is_full = self.is_full(piece);
        let is_listed = self.calls.begin();
        let n = piece.len().min(self.room - self.taken.len());
        if is_full || is_listed || self.taken.extend_from_slice(&piece[..n]).is_err() {
            return Err(self.calls.fail());
        }
        Ok(n)
    }

    fn flush(&mut self) -> Result<(), Failed>
        ensures bytes { Keeps (Some self.old.taken) (Some self.new.taken) }
        ensures cause { HasCause self.old.faults self.new.faults result }
        ensures failing { IsErr result ↔ IsListed self.old.fails self.old.calls }
        ensures kept { IfOk result (λ _. self.new ≡
            record self.old { calls = next_count self.old.calls }) }
        ensures fault { OnErr result (self.new ≡
            record self.old { calls = next_count self.old.calls; faults = next_count self.old.faults }) }
    {
        if self.calls.begin() {
            return Err(self.calls.fail());
        }
        Ok(())
    }
}
