// A source in memory, whose failing calls are listed.
ghost use Rattle.std.specs.Prelude.{◌≡◌, ◌<◌, ◌↔◌, length, drop, IsErr, IfOk, OnErr, Some};
ghost use Rattle.std.specs.Io.{ReadsAtMost};
ghost use Rattle.std.specs.Io.KnownBytes.{ReadConsumes};
ghost use Rattle.outside.specs.Cause.{HasCause};
ghost use Rattle.outside.specs.Memory.{count_given};

use crate::calls::Calls;
use crate::pieces::Pieces;
use crate::{Failed, Source};
use std::marker::Model;

/// A source in memory, which reports its content. The calls that are to fail are listed.
///
/// Its calls are the reads, numbered from 1. Past the last number of 64 bits each call has that number.
#[derive(Debug, Drop)]
pub struct MemorySource {
    pieces: Pieces,
    calls: Calls,
}

impl Model for MemorySource {
    ghost use Rattle.outside.specs.Memory.{SourceInMemory};

    ghost Value = { SourceInMemory };

    ghost view = { λ s. record {
      left = s.pieces.left;
      most = s.pieces.most;
      fails = s.calls.fails;
      calls = s.calls.calls;
      faults = s.calls.faults;
    } };
}

impl MemorySource {
    ghost use Rattle.outside.specs.Memory.{SourceInMemory};

    /// A source of these bytes, which gives at most `most` of them a call and fails at the calls of these numbers, the
    /// first being 1.
    pub fn new(bytes: Vec<u8>, most: usize, fails: Vec<u64>) -> MemorySource
        requires { 0 < most }
        ensures { result ≡
            record { left = bytes.items; most = most; fails = fails.items; calls = 0; faults = 0 } }
    {
        MemorySource {
            pieces: Pieces::new(bytes, most),
            calls: Calls::new(fails),
        }
    }
}

impl Source for MemorySource {
    ghost use Rattle.outside.specs.Cause.{next_count};
    ghost use Rattle.outside.specs.Memory.{IsListed};

    ghost left = { λ s. Some s.left };

    ghost faults = { λ s. s.faults };

    fn faults(&self) -> u64 {
        self.calls.faults()
    }

    fn read(&mut self, into: &mut [u8]) -> Result<usize, Failed>
        ensures bound { ReadsAtMost result into.new }
        ensures bytes { ReadConsumes (Some self.old.left) (Some self.new.left) result into.new }
        ensures cause { HasCause self.old.faults self.new.faults result }

        // Exactly which calls fail, how many bytes the others give, and what each leaves.
        ensures failing { IsErr result ↔ IsListed self.old.fails self.old.calls }
        ensures count { IfOk result (λ n. n ≡ count_given self.old.left (length into.new) self.old.most) }
        ensures rest { IfOk result (λ n. self.new ≡
            record self.old { left = drop n self.old.left; calls = next_count self.old.calls }) }
        ensures fault { OnErr result (self.new ≡
            record self.old { calls = next_count self.old.calls; faults = next_count self.old.faults }) }
    {
        if self.calls.begin() {
            return Err(self.calls.fail());
        }
        Ok(self.pieces.give(into))
    }
}
