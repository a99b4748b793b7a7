// Where bytes come from.
ghost use Rattle.std.specs.Prelude.{◌≡◌, ℕ, List};
ghost use Rattle.std.specs.declared.option.Option.{Option};
ghost use Rattle.std.specs.Io.{ReadsAtMost};
ghost use Rattle.std.specs.Io.KnownBytes.{ReadConsumes};
ghost use Rattle.outside.specs.Cause.{HasCause};

use crate::Failed;

/// A source of bytes, which counts its faults.
///
/// A source in memory reports the bytes that it has left, so that they are known. One over a real stream reports
/// nothing, and then only the bound on the answer and the count of faults are known.
pub trait Source {
    // The bytes not yet read, where the source reports them.
    ghost left: { Self → Option (List ℕ) };

    // How often the source has failed.
    ghost faults: { Self → ℕ };

    /// How often the source has failed. Asking for it is no call that can fail or that is numbered.
    fn faults(&self) -> u64
        ensures { result ≡ faults self.now };

    /// Reads some bytes into the front of the slice and answers how many. 0 bytes into a slice that isn't empty are the
    /// end of input. What stands in the slice behind them is left open.
    fn read(&mut self, into: &mut [u8]) -> Result<usize, Failed>
        ensures bound { ReadsAtMost result into.new }

        // Where known: the bytes left lose those that are now at the slice's front, which are none only at the end of input
        // or where the slice is empty, and a call that fails takes none.
        ensures bytes { ReadConsumes (left self.old) (left self.new) result into.new }

        ensures cause { HasCause (faults self.old) (faults self.new) result };
}
