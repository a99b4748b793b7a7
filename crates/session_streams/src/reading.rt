//! The lines of a source.
ghost use Rattle.std.specs.Prelude.{◌≡◌, ◌≤◌, ◌<◌, ◌+◌, ◌-◌, ◌++◌, [], ◌∷◌, false, length, take, IfOk, IfErr, OnOk, OnErr, MatchOption};
ghost use Rattle.session_words.specs.Reading.{KeepsLines, GivesLine, GivesNoLine};
ghost use Rattle.session_streams.specs.declared.reading.ReadEnd.{ReadEnd as End};
ghost use Rattle.session_streams.specs.Reads.{IsUnread, ReadsOn, EndsReading};
ghost use Rattle.session_streams.specs.Private.{EndsReadingHere, left_to_read};

use formula_core::OutOfMemory;
use outside::Source;
use session_words::{Commands, Line};
use std::alloc::Global;

/// The most bytes of an input.
const LONGEST_INPUT: usize = 67_108_864;

/// The most bytes that one call asks a source for.
const PIECE: usize = 4_096;

/// Why no more lines are read.
#[derive(Debug, PartialEq, Eq, Clone, Copy)]
pub enum ReadEnd {
    /// The input ended.
    Ended,
    /// The source failed.
    ReadFault,
    /// The input has more bytes than it may have.
    FullInput,
    OutOfMemory,
}

/// A reader of a source's lines.
#[derive(Drop)]
pub struct Reader {
    commands: Commands,
    /// How many bytes were taken.
    taken: usize,
    ended: bool,
}

impl Reader {
    /// A reader that has read nothing.
    pub fn new(alloc: Global) -> Reader
        ensures { IsUnread result }
    {
        Reader {
            commands: Commands::new(alloc),
            taken: 0,
            ended: false,
        }
    }
}

// The next line of what was read, where one is whole.
fn whole_line(reader: &mut Reader) -> Result<Option<Line>, ReadEnd>
    ensures same { (reader.new.taken ≡ reader.old.taken) × (reader.new.ended ≡ reader.old.ended) }
    ensures given { IfOk result (λ read. MatchOption read (GivesNoLine reader.old.commands reader.new.commands)
        (λ line. GivesLine reader.old.commands line reader.new.commands)) }
    ensures kept { OnErr result (KeepsLines reader.old.commands reader.new.commands) }
    ensures memory { IfErr result (λ end. end ≡ End.OutOfMemory) }
{
    match reader.commands.next() {
        Ok(line) => Ok(line),
        Err(_) => Err(ReadEnd::OutOfMemory),
    }
}

// Feeds a piece that was taken. A byte behind the longest input is taken and not fed.
fn feed(reader: &mut Reader, piece: &[u8]) -> Result<(), OutOfMemory>
    requires most { length piece.now + reader.old.taken ≤ 67108865 }
    requires few { reader.old.taken ≤ 67108864 }
    ensures taken { OnOk result (reader.new.taken ≡ reader.old.taken + length piece.now) }
    ensures ended { reader.new.ended ≡ reader.old.ended }
    ensures fed { OnOk result (reader.new.commands ≡ record reader.old.commands {
      fed = record reader.old.commands.fed
          { left = reader.old.commands.fed.left ++ take (67108864 - reader.old.taken) piece.now };
    }) }
{
    let counted = piece.len().min(LONGEST_INPUT - reader.taken);
    reader.taken += piece.len();
    reader.commands.feed(&piece[..counted])
}

// Reads one piece of the input, in which no line was left.
fn read_piece<I: Source>(input: &mut I, reader: &mut Reader) -> Result<(), ReadEnd>
    requires { reader.old.ended ≡ false }
    ensures read { OnOk result (ReadsOn (I.left input.old) reader.old (I.left input.new) reader.new []) }
    ensures less { OnOk result (left_to_read reader.new < left_to_read reader.old) }
    ensures ended { IfErr result (λ end. EndsReadingHere (I.left input.old) reader.old (I.left input.new) end
        (I.faults input.old) (I.faults input.new)) }
    ensures later { I.faults input.old ≤ I.faults input.new }
{
    if reader.taken > LONGEST_INPUT {
        return Err(ReadEnd::FullInput);
    }
    let mut buffer = [0u8; PIECE];
    let room = (LONGEST_INPUT + 1 - reader.taken).min(PIECE);
    let into = &mut buffer[..room];
    let n = match input.read(into) {
        Ok(n) => n,
        Err(_) => return Err(ReadEnd::ReadFault),
    };
    if n == 0 {
        reader.commands.finish();
        reader.ended = true;
        return Ok(());
    }
    match feed(reader, &into[..n]) {
        Ok(()) => Ok(()),
        Err(_) => Err(ReadEnd::OutOfMemory),
    }
}

/// The next line of the source. It reads no more than is needed.
pub fn next_line<I: Source>(input: &mut I, reader: &mut Reader) -> Result<Line, ReadEnd>
    ensures given { IfOk result (λ line.
        ReadsOn (I.left input.old) reader.old (I.left input.new) reader.new (line ∷ [])) }
    ensures ended { IfErr result (λ end. EndsReading (I.left input.old) reader.old (I.left input.new) end
        (I.faults input.old) (I.faults input.new)) }
    ensures later { I.faults input.old ≤ I.faults input.new }
{
    loop {
        match whole_line(reader)? {
            Some(line) => return Ok(line),
            None if reader.ended => return Err(ReadEnd::Ended),
            None => read_piece(input, reader)?,
        }
    }
}
