// The adapter over a real stream to write to.
ghost use Rattle.std.specs.Prelude.{◌≡◌, ◌<◌, length, IfOk};
ghost use Rattle.std.specs.Io.{WritesAtMost};
ghost use Rattle.std.specs.Io.KnownBytes.{WriteAppends, Keeps};
ghost use Rattle.outside.specs.Cause.{CountsFault, HasCause};

use crate::faults::Faults;
use crate::{Failed, Sink};
use std::io::Write;

/// A sink over any writer, as standard output.
///
/// What was written is known where the writer reports what it holds. Standard output reports nothing. Each error of the
/// writer is a fault, and so is a write of 0 bytes of a piece that isn't empty.
#[derive(Debug, Drop)]
pub struct StreamSink<W> {
    writer: W,
    faults: Faults,
}

impl<W: Write> StreamSink<W> {
    /// A sink over this writer, which has not failed yet.
    pub fn new(writer: W) -> StreamSink<W>
        ensures written { ⟦<StreamSink<W> as Sink>⟧.written result ≡ W.contents writer }
        ensures faults { ⟦<StreamSink<W> as Sink>⟧.faults result ≡ 0 }
    {
        StreamSink {
            writer,
            faults: Faults::new(),
        }
    }
}

impl<W: Write> Sink for StreamSink<W> {
    ghost written = { λ s. W.contents s.writer };

    ghost faults = { λ s. s.faults };

    fn faults(&self) -> u64 {
        self.faults.count()
    }

    fn write(&mut self, piece: &[u8]) -> Result<usize, Failed>
        ensures bound { WritesAtMost result piece.now }
        ensures some { 0 < length piece.now → IfOk result (λ n. 0 < n) }
        ensures bytes { let written = ⟦<StreamSink<W> as Sink>⟧.written in
            WriteAppends (written self.old) (written self.new) result piece.now }
        ensures cause { let faults = ⟦<StreamSink<W> as Sink>⟧.faults in
            HasCause (faults self.old) (faults self.new) result }
        ensures counted { let faults = ⟦<StreamSink<W> as Sink>⟧.faults in
            CountsFault (faults self.old) (faults self.new) result }
    {
        match self.writer.write(piece) {
            Ok(count) if count > 0 || piece.is_empty() => Ok(count),
            _ => Err(self.faults.fail()),
        }
    }

    fn flush(&mut self) -> Result<(), Failed>
        ensures bytes { let written = ⟦<StreamSink<W> as Sink>⟧.written in
            Keeps (written self.old) (written self.new) }
        ensures cause { let faults = ⟦<StreamSink<W> as Sink>⟧.faults in
            HasCause (faults self.old) (faults self.new) result }
        ensures counted { let faults = ⟦<StreamSink<W> as Sink>⟧.faults in
            CountsFault (faults self.old) (faults self.new) result }
    {
        match self.writer.flush() {
            Ok(()) => Ok(()),
            Err(_) => Err(self.faults.fail()),
        }
    }
}
