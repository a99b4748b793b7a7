// Where bytes go.
ghost use Rattle.std.specs.Prelude.{◌≡◌, ℕ, List, ◌<◌, length, IfOk};
ghost use Rattle.std.specs.declared.option.Option.{Option};
ghost use Rattle.std.specs.Io.{WritesAtMost};
ghost use Rattle.std.specs.Io.KnownBytes.{WriteAppends, Keeps};
ghost use Rattle.outside.specs.Cause.{HasCause};

use crate::Failed;

/// A sink of bytes, which counts its faults.
///
/// A sink that reports the bytes written to it has them known. One over a real stream reports nothing, and then only the
/// bounds on the answer and the count of faults are known.
pub trait Sink {
    // The bytes written so far, where the sink reports them.
    ghost written: { Self → Option (List ℕ) };

    // How often the sink has failed.
    ghost faults: { Self → ℕ };

    /// How often the sink has failed. Asking for it is no call that can fail or that is numbered.
    fn faults(&self) -> u64
        ensures { result ≡ faults self.now };

    /// Writes the front of the piece and answers how long it is. A loop of writes ends, since no write takes 0 bytes of a
    /// piece that isn't empty.
    fn write(&mut self, piece: &[u8]) -> Result<usize, Failed>
        ensures bound { WritesAtMost result piece.now }
        ensures some { 0 < length piece.now → IfOk result (λ n. 0 < n) }

        // Where known: the bytes written grow by the front of the piece that is as long as the answer, and by nothing where
        // the write fails.
        ensures bytes { WriteAppends (written self.old) (written self.new) result piece.now }

        ensures cause { HasCause (faults self.old) (faults self.new) result };

    /// Hands on what was written, where the sink keeps some of it back.
    fn flush(&mut self) -> Result<(), Failed>
        ensures bytes { Keeps (written self.old) (written self.new) }
        ensures cause { HasCause (faults self.old) (faults self.new) result };
}
