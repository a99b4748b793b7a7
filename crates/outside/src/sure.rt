// A source and a sink that never fail.
ghost use Rattle.std.specs.Prelude.{◌≡◌, ◌<◌, length, drop, IfOk, IsOk, Some, None};
ghost use Rattle.std.specs.Io.{ReadsAtMost, WritesAtMost};
ghost use Rattle.std.specs.Io.KnownBytes.{ReadConsumes, WriteAppends, Keeps};
ghost use Rattle.outside.specs.Cause.{HasCause};
ghost use Rattle.outside.specs.Memory.{count_given};

use crate::pieces::Pieces;
use crate::{Failed, Sink, Source};
use std::marker::Model;

/// A source in memory whose count of faults is 0 for ever, so that it never fails.
#[derive(Debug, Drop)]
pub struct SureSource {
    pieces: Pieces,
}

impl Model for SureSource {
    ghost use Rattle.outside.specs.Memory.{BytesInPieces};

    ghost Value = { BytesInPieces };

    ghost view = { λ s. s.pieces };
}

impl SureSource {
    ghost use Rattle.outside.specs.Memory.{BytesInPieces};

    /// A source of these bytes, which gives at most `most` of them a call.
    pub fn new(bytes: Vec<u8>, most: usize) -> SureSource
        requires { 0 < most }
        ensures { result ≡ record { left = bytes.items; most = most } }
    {
        SureSource {
            pieces: Pieces::new(bytes, most),
        }
    }
}

impl Source for SureSource {
    ghost left = { λ s. Some s.left };

    ghost faults = { λ _. 0 };

    fn faults(&self) -> u64 {
        0
    }

    fn read(&mut self, into: &mut [u8]) -> Result<usize, Failed>
        ensures bound { ReadsAtMost result into.new }
        ensures bytes { ReadConsumes (Some self.old.left) (Some self.new.left) result into.new }
        ensures cause { HasCause 0 0 result }
        ensures count { result ≡ Ok (count_given self.old.left (length into.new) self.old.most) }
        ensures rest { IfOk result (λ n. self.new ≡ record self.old { left = drop n self.old.left }) }
    {
        Ok(self.pieces.give(into))
    }
}

/// A sink that takes every piece whole and keeps none of it. It reports nothing, and its count of faults is 0 for ever, so
/// that it never fails.
#[derive(Debug, Default, Clone, Copy)]
pub struct SureSink;

impl SureSink {
    /// A sink that never fails.
    pub fn new() -> SureSink
        ensures written { ⟦<SureSink as Sink>⟧.written result ≡ None }
        ensures faults { ⟦<SureSink as Sink>⟧.faults result ≡ 0 }
    {
        SureSink
    }
}

impl Sink for SureSink {
    ghost written = { λ _. None };

    ghost faults = { λ _. 0 };

    fn faults(&self) -> u64 {
        0
    }

    fn write(&mut self, piece: &[u8]) -> Result<usize, Failed>
        ensures bound { WritesAtMost result piece.now }
        ensures some { 0 < length piece.now → IfOk result (λ n. 0 < n) }
        ensures bytes { WriteAppends None None result piece.now }
        ensures cause { HasCause 0 0 result }
        ensures whole { result ≡ Ok (length piece.now) }
    {
        Ok(piece.len())
    }

    fn flush(&mut self) -> Result<(), Failed>
        ensures bytes { Keeps None None }
        ensures cause { HasCause 0 0 result }
        ensures sure { IsOk result }
    {
        Ok(())
    }
}
