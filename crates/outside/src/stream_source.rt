// The adapter over a real stream to read from.
ghost use Rattle.std.specs.Prelude.{◌≡◌};
ghost use Rattle.std.specs.Io.{ReadsAtMost};
ghost use Rattle.std.specs.Io.KnownBytes.{ReadConsumes};
ghost use Rattle.outside.specs.Cause.{CountsFault, HasCause};

use crate::faults::Faults;
use crate::{Failed, Source};
use std::io::Read;

/// A source over any reader, as standard input.
///
/// What is left is known where the reader reports it. Standard input reports nothing. Each error of the reader is a fault,
/// an interruption too, and no read is tried again.
#[derive(Debug, Drop)]
pub struct StreamSource<R> {
    reader: R,
    faults: Faults,
}

impl<R: Read> StreamSource<R> {
    /// A source over this reader, which has not failed yet.
    pub fn new(reader: R) -> StreamSource<R>
        ensures left { ⟦<StreamSource<R> as Source>⟧.left result ≡ R.remaining reader }
        ensures faults { ⟦<StreamSource<R> as Source>⟧.faults result ≡ 0 }
    {
        StreamSource {
            reader,
            faults: Faults::new(),
        }
    }
}

impl<R: Read> Source for StreamSource<R> {
    ghost left = { λ s. R.remaining s.reader };

    ghost faults = { λ s. s.faults };

    fn faults(&self) -> u64 {
        self.faults.count()
    }

    fn read(&mut self, into: &mut [u8]) -> Result<usize, Failed>
        ensures bound { ReadsAtMost result into.new }
        ensures bytes { let left = ⟦<StreamSource<R> as Source>⟧.left in
            ReadConsumes (left self.old) (left self.new) result into.new }
        ensures cause { let faults = ⟦<StreamSource<R> as Source>⟧.faults in
            HasCause (faults self.old) (faults self.new) result }
        ensures counted { let faults = ⟦<StreamSource<R> as Source>⟧.faults in
            CountsFault (faults self.old) (faults self.new) result }
    {
        match self.reader.read(into) {
            Ok(count) => Ok(count),
            Err(_) => Err(self.faults.fail()),
        }
    }
}
