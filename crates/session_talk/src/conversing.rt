//! The dialogue of a user's chair with the user.
ghost use Rattle.std.specs.Prelude.{◌≡◌, ◌≢◌, ◌≤◌, ℕ, List, [], Option, MatchResult, string_bytes};
ghost use Rattle.turn_desk.specs.Chairs.{IsOf, IsSameChair};
ghost use Rattle.prover_pool.specs.Shift.{fair};
ghost use Rattle.session_words.specs.declared.line.Line.{Line};
ghost use Rattle.session_streams.specs.Streams.{reading, writing};
ghost use Rattle.session_talk.specs.Conversing.{Converses};
ghost use Rattle.session_talk.specs.Private.{ending_of, EndsAt, SaysOrEnds, IsServing, ServesLine, TurnsTo};

use outside::{Gate, Sink, Source};
use prover_pool::{Office, Tools};
use sequent_core::Prover;
use session_run::{Stop, answer};
use session_streams::{ReadEnd, Reader, next_line, write_text};
use session_words::Line;
use std::sync::Wait;
use store_log::{EventStore, StoreFault};
use turn_desk::Chair;

/// How the commands of a session ended.
#[derive(Debug, PartialEq, Eq, Clone, Copy)]
pub enum Ending {
    /// With no more lines.
    Read(ReadEnd),
    /// At `quit`.
    Quit,
    /// Inside an edit.
    CutEdit,
    /// The sink failed on the text of a line.
    WriteFault,
    /// What a line asks was done, and memory ran out over its text.
    OutOfMemory,
    /// The store did not do what a line asks.
    Store(StoreFault),
}

// How the commands end where a line isn't answered.
fn ending_of(stop: Stop) -> Ending
    ensures { result ≡ ending_of stop }
{
    match stop {
        Stop::OutOfMemory => Ending::OutOfMemory,
        Stop::Store(fault) => Ending::Store(fault),
    }
}

// The line, unless the commands end at it.
fn before_end(line: Line) -> Result<Line, Ending>
    ensures { MatchResult result (λ same. (same ≡ line) × (line ≢ Line.Quit) × (line ≢ Line.CutEdit)) (EndsAt line) }
{
    match line {
        Line::Quit => Err(Ending::Quit),
        Line::CutEdit => Err(Ending::CutEdit),
        line => Ok(line),
    }
}

// Writes what is said to a line.
fn say<O: Sink>(output: &mut O, said: String) -> Result<(), Ending>
    ensures said { SaysOrEnds
        (writing (O.written output.old) (O.written output.new) (O.faults output.old) (O.faults output.new))
        (string_bytes said) result }
    ensures later { O.faults output.old ≤ O.faults output.new }
{
    match write_text(output, said.as_str().as_bytes()) {
        Ok(()) => Ok(()),
        Err(_) => Err(Ending::WriteFault),
    }
}

// Answers a line, and writes the answer.
fn serve_line<R: Wait, V: EventStore, O: Sink, P: Prover, G: Gate>(
    tools: &Tools<'_, R, P, G>,
    office: &Office<'_, V>,
    chair: &mut Chair<V>,
    output: &mut O,
    line: Line,
) -> Result<(), Ending>
    requires chair { IsOf office.now.desk.now chair.old }
    requires line { (line ≢ Line.Quit) × (line ≢ Line.CutEdit) }
    ensures chair { IsSameChair chair.old chair.new }
    ensures served { ServesLine (fair (P.answers tools.now.prover.now) (P.sure tools.now.prover.now))
        office.now.desk.now.base chair.old.number line chair.old.seen result chair.new.seen
        (writing (O.written output.old) (O.written output.new) (O.faults output.old) (O.faults output.new)) }
    ensures later { O.faults output.old ≤ O.faults output.new }
{
    match answer(tools, office, chair, line) {
        Ok(said) => say(output, said),
        Err(stop) => Err(ending_of(stop)),
    }
}

// Reads a line, answers it, and writes the answer.
fn turn<R: Wait, V: EventStore, I: Source, O: Sink, P: Prover, G: Gate>(
    tools: &Tools<'_, R, P, G>,
    office: &Office<'_, V>,
    chair: &mut Chair<V>,
    input: &mut I,
    reader: &mut Reader,
    output: &mut O,
) -> Result<(), Ending>
    requires { IsOf office.now.desk.now chair.old }
    ensures chair { IsSameChair chair.old chair.new }
    ensures turned { (left : Option (List ℕ)) (faults : ℕ) (written : Option (List ℕ)) (losses : ℕ) →
        IsServing (fair (P.answers tools.now.prover.now) (P.sure tools.now.prover.now))
        office.now.desk.now.base chair.old.number
        (reading left (I.left input.old) faults (I.faults input.old))
        (writing written (O.written output.old) losses (O.faults output.old)) chair.old.seen reader.old →
        TurnsTo (fair (P.answers tools.now.prover.now) (P.sure tools.now.prover.now))
        office.now.desk.now.base chair.old.number
        (reading left (I.left input.new) faults (I.faults input.new))
        (writing written (O.written output.new) losses (O.faults output.new)) chair.new.seen reader.new result }
{
    let line = match next_line(input, reader) {
        Ok(line) => line,
        Err(end) => return Err(Ending::Read(end)),
    };
    match before_end(line) {
        Ok(line) => serve_line(tools, office, chair, output, line),
        Err(ending) => Err(ending),
    }
}

/// Reads and answers the lines of the source, one after another, until the commands end.
pub fn converse<R: Wait, V: EventStore, I: Source, O: Sink, P: Prover, G: Gate>(
    tools: &Tools<'_, R, P, G>,
    office: &Office<'_, V>,
    chair: &mut Chair<V>,
    input: &mut I,
    output: &mut O,
) -> Ending
    requires { IsOf office.now.desk.now chair.old × (chair.old.seen ≡ []) }
    ensures chair { IsSameChair chair.old chair.new }
    ensures ended { Converses (fair (P.answers tools.now.prover.now) (P.sure tools.now.prover.now))
        office.now.desk.now.base chair.old.number
        (reading (I.left input.old) (I.left input.new) (I.faults input.old) (I.faults input.new))
        (writing (O.written output.old) (O.written output.new) (O.faults output.old) (O.faults output.new))
        chair.new.seen result }
{
    let mut reader = Reader::new(tools.alloc);
    for _ in tools.rt.forever() {
        match turn(tools, office, chair, input, &mut reader, output) {
            Ok(()) => {}
            Err(ending) => return ending,
        }
    }
    unreachable!()
}
