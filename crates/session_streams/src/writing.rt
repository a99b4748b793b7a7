//! Writing whole texts.
ghost use Rattle.std.specs.Prelude.{◌≤◌, OnOk, OnErr};
ghost use Rattle.std.specs.Io.KnownBytes.{Appends};
ghost use Rattle.outside.specs.Cause.{Rose};
ghost use Rattle.session_streams.specs.Streams.{AppendsFront};

use outside::{Failed, Sink};

/// Writes the whole text and hands it on.
pub fn write_text<O: Sink>(output: &mut O, text: &[u8]) -> Result<(), Failed>
    ensures whole { OnOk result (Appends (O.written output.old) (O.written output.new) text.now) }
    ensures front { OnErr result (AppendsFront (O.written output.old) (O.written output.new) text.now) }
    ensures failed { OnErr result (Rose (O.faults output.old) (O.faults output.new)) }
    ensures later { O.faults output.old ≤ O.faults output.new }
{
    let mut at = 0;
    while at < text.len() {
        at += output.write(&text[at..])?;
    }
    output.flush()?;
    Ok(())
}
