// `check`: the whole input is read, built and proved, and the faults, the warnings and the statuses are printed.
ghost use Rattle.std.specs.Prelude.{◌≡◌, ◌⊎◌, ◌≤◌, ◌<◌, ◌+◌, ◌^◌, ◌↔◌, ◌++◌, ◌∷◌, [], None, Ok, List, ℕ, length, IsTrue, IfOk, OnOk, OnErr, MatchBool, MatchOption};
ghost use Rattle.std.specs.Io.KnownBytes.{IsAtEnd};
ghost use Rattle.outside.specs.Cause.{Rose};
ghost use Rattle.core_steps.specs.declared.Event.{Event};
ghost use Rattle.core_steps.specs.declared.Question.{Question};
ghost use Rattle.core_steps.specs.declared.Reply.{Reply};
ghost use Rattle.core_steps.specs.Run.{Exchange, IsLegal};
ghost use Rattle.core_steps.specs.State.{opened, no_texts};
ghost use Rattle.check_input.specs.Inputs.{IsInput};
ghost use Rattle.session_run.specs.Completeness.{LeavesNothingSure};
ghost use Rattle.rodin_cli.specs.Script.{IsFullScript, IsWholeScript, IsFront};
ghost use Rattle.rodin_cli.specs.PrivateSession.{Extends, IsUnchanged};
ghost use Rattle.session_streams.specs.Streams.{reading, writing, WritesNothing};
ghost use Rattle.check_input.specs.Lines.{input_line};
ghost use Rattle.rodin_cli.specs.Check.{HasNoHistory, EndsWithLine, ComesOf, RunsCheck, ReadsToEnd, IsUnfailedCheckStatus, check_status};
ghost use Rattle.rodin_cli.specs.Private.{PrintsAnswer};

use crate::outcome::Part;
use crate::round::work;
use crate::session::{Session, perform, start};
use crate::streams::{LONGEST_INPUT, ReadError, read_input};
use crate::texts::printed;
use act_history::History;
use check_input::{InputError, InputFault, input_line, parts_of};
use core_steps::{
    Durable, Event, FaultLine, Origin, Question, Reply, Status, decides_sequents, enters_all,
};
use formula_core::{List, Name, OutOfMemory, PoName, Steps, Text};
use outside::{Sink, Source};
use sequent_core::Prover;
use session_ends::{exit, write_last};
use session_streams::write_text;
use std::alloc::Global;
use std::marker::Brand;
use std::sync::ledger::{Blank, Ledger};

/// What is told and shown at the end.
#[derive(Drop)]
struct Shown {
    faults: List<FaultLine>,
    warnings: List<(Name, Name)>,
    statuses: List<(PoName, Status, Option<Origin>)>,
}

// Asks for the faults and the warnings, and for the statuses.
fn ask<L: Ledger>(session: &mut Session, steps: &mut Steps<L>) -> Result<Shown, OutOfMemory>
    ensures whole { IfOk result (λ shown. (x : Exchange) × (y : Exchange)
        × (x.event ≡ Event.Ask Question.Faults) × (x.reply ≡ Reply.Faults shown.faults shown.warnings)
        × (y.event ≡ Event.Ask Question.Statuses)
        × (y.reply ≡ Reply.Statuses shown.statuses) × Extends session.old (x ∷ y ∷ []) session.new) }
    ensures front { OnErr result (IsUnchanged session.old session.new
        ⊎ ((x : Exchange) × (x.event ≡ Event.Ask Question.Faults) × Extends session.old (x ∷ []) session.new)) }
{
    let told = perform(session, Event::Ask(Question::Faults), steps)?;
    let Reply::Faults(faults, warnings) = told else {
        unreachable!()
    };
    let shown = perform(session, Event::Ask(Question::Statuses), steps)?;
    let Reply::Statuses(statuses) = shown else {
        unreachable!()
    };
    Ok(Shown {
        faults,
        warnings,
        statuses,
    })
}

// The run of `check` on these parts. None where the table is too large.
fn play<L: Ledger, P: Prover>(
    alloc: Global,
    prover: &P,
    session: &mut Session,
    parts: Vec<(Name, Text)>,
    steps: &mut Steps<L>,
) -> Result<Option<Shown>, OutOfMemory>
    requires { session.old.core ≡ opened no_texts }
    ensures whole { IfOk result (λ played. MatchOption played
        ((exchanges : List Exchange) × IsFullScript parts.items exchanges × Extends session.old exchanges session.new)
        (λ shown. (exchanges : List Exchange)
        × IsWholeScript
        (P.answers prover.now) (P.sure prover.now) parts.items shown.faults shown.warnings shown.statuses exchanges
        × IsLegal exchanges × LeavesNothingSure (P.sure prover.now) session.new.core.durable exchanges
        × Extends session.old exchanges session.new)) }
    ensures front { OnErr result ((exchanges : List Exchange)
        × IsFront (P.answers prover.now) (P.sure prover.now) parts.items exchanges × IsLegal exchanges
        × Extends session.old exchanges session.new) }
{
    decides_sequents();
    match work(alloc, prover, session, parts, steps) {
        Ok(Some(_numbers)) => {}
        Ok(None) => return Ok(None),
        Err(error) => return Err(error),
    }
    match ask(session, steps) {
        Ok(shown) => Ok(Some(shown)),
        Err(error) => Err(error),
    }
}

/// What the session did, with the status.
pub fn part_from(session: Session, status: u8) -> Part
    ensures status { result.status ≡ status }
    ensures history { result.history.items ≡ session.history.items }
    ensures last { result.last ≡ session.core.durable }
{
    let Session { core, history } = session;
    Part {
        status,
        history,
        last: core.into_durable(),
    }
}

/// Nothing was done, with the status.
pub fn no_part(alloc: Global, status: u8) -> Part
    ensures status { result.status ≡ status }
    ensures nothing { HasNoHistory result }
{
    Part {
        status,
        history: History::new(alloc),
        last: Durable::empty(alloc),
    }
}

/// Writes the last line and ends with the status. Nothing was done.
pub fn ends_with_line<O: Sink>(alloc: Global, output: &mut O, status: u8, line: &[u8]) -> Part
    ensures { EndsWithLine status line.now
        (writing (O.written output.old) (O.written output.new) (O.faults output.old) (O.faults output.new)) result }
{
    write_last(output, line);
    no_part(alloc, status)
}

// 1 where a fault is told.
fn status_of(told: &[FaultLine]) -> u8
    ensures { result ≡ check_status told.now }
{
    if told.is_empty() {
        exit::DONE
    } else {
        exit::FAULTED
    }
}

// Prints what is told and shown. The status is 9 where memory ran out before anything was written.
fn answer<O: Sink>(alloc: Global, output: &mut O, shown: &Shown) -> u8
    ensures { PrintsAnswer shown.now.faults shown.now.warnings shown.now.statuses
        (writing (O.written output.old) (O.written output.new) (O.faults output.old) (O.faults output.new)) result }
{
    let faults = shown.faults.items();
    let text = match printed(
        alloc,
        faults,
        shown.warnings.items(),
        shown.statuses.items(),
    ) {
        Ok(text) => text,
        Err(_) => return exit::OUT_OF_MEMORY,
    };
    match write_text(output, text.as_str().as_bytes()) {
        Ok(()) => status_of(faults),
        Err(_) => exit::WRITE_FAULT,
    }
}

// Builds and proves an input of these parts, with a counter of its steps.
fn check_parts<L: Ledger, O: Sink, P: Prover>(
    alloc: Global,
    parts: Vec<(Name, Text)>,
    output: &mut O,
    prover: &P,
    blank: Blank,
) -> Part
    requires name { blank.name ≡ L.name }
    requires parts { blank.parts ≡ L.parts }
    requires some { 0 < blank.parts }
    ensures { (bytes : List ℕ) → IsInput bytes (Ok parts.items)
        → ComesOf (P.answers prover.now) (P.sure prover.now) bytes
        (writing (O.written output.old) (O.written output.new) (O.faults output.old) (O.faults output.new)) result }
{
    enters_all();
    let mut steps = Steps::<L>::open(blank);
    let mut session = match start(alloc, &mut steps) {
        Ok(session) => session,
        Err(_) => return no_part(alloc, exit::OUT_OF_MEMORY),
    };
    match play(alloc, prover, &mut session, parts, &mut steps) {
        Ok(Some(shown)) => {
            let status = answer(alloc, output, &shown);
            part_from(session, status)
        }
        Ok(None) => {
            write_last(output, b"full: table\n");
            part_from(session, exit::FULL)
        }
        Err(_) => part_from(session, exit::OUT_OF_MEMORY),
    }
}

// Tells what is wrong with an input of these bytes.
fn refuse<O: Sink>(alloc: Global, fault: &InputFault, output: &mut O) -> Part
    ensures { EndsWithLine 1 (input_line fault.now)
        (writing (O.written output.old) (O.written output.new) (O.faults output.old) (O.faults output.new)) result
        ⊎ ((result.status ≡ 9) × HasNoHistory result × WritesNothing
        (writing (O.written output.old) (O.written output.new) (O.faults output.old) (O.faults output.new))) }
{
    match input_line(alloc, fault) {
        Ok(line) => ends_with_line(alloc, output, exit::FAULTED, line.as_str().as_bytes()),
        Err(_) => no_part(alloc, exit::OUT_OF_MEMORY),
    }
}

// Builds and proves an input of these bytes.
fn check_bytes<O: Sink, P: Prover>(alloc: Global, bytes: &[u8], output: &mut O, prover: &P) -> Part
    requires { length bytes.now ≤ 67108864 }
    ensures { ComesOf (P.answers prover.now) (P.sure prover.now) bytes.now
        (writing (O.written output.old) (O.written output.new) (O.faults output.old) (O.faults output.new)) result }
{
    match parts_of(alloc, bytes) {
        Ok(parts) => check_parts::<Brand, O, P>(alloc, parts, output, prover, Blank::new(1)),
        Err(InputError::Fault(fault)) => refuse(alloc, &fault, output),
        Err(InputError::OutOfMemory) => no_part(alloc, exit::OUT_OF_MEMORY),
    }
}

// Reads the whole input, builds and proves it.
fn check_source<I: Source, O: Sink, P: Prover>(
    alloc: Global,
    input: &mut I,
    output: &mut O,
    prover: &P,
) -> Part
    ensures { RunsCheck (P.answers prover.now) (P.sure prover.now)
        (reading (I.left input.old) (I.left input.new) (I.faults input.old) (I.faults input.new))
        (writing (O.written output.old) (O.written output.new) (O.faults output.old) (O.faults output.new)) result }
{
    match read_input(alloc, input) {
        Ok(bytes) => {
            if bytes.len() > LONGEST_INPUT {
                return ends_with_line(alloc, output, exit::FULL, b"full: input\n");
            }
            check_bytes(alloc, &bytes, output, prover)
        }
        Err(ReadError::Failed) => {
            ends_with_line(alloc, output, exit::READ_FAULT, b"input: read fault\n")
        }
        Err(ReadError::OutOfMemory) => no_part(alloc, exit::OUT_OF_MEMORY),
    }
}

/// Reads the whole input, builds and proves its components, and prints each fault, each warning and the status of each
/// obligation. The exit status is 0, 1 where the input or a component of it has a fault, 3 for a read fault, 4 for a
/// write fault, 7 where the input or its table of obligations is too large, and 9 where memory ran out.
pub fn run_check<I: Source, O: Sink, P: Prover>(
    alloc: Global,
    input: &mut I,
    output: &mut O,
    prover: &P,
) -> Part
    ensures checked { RunsCheck (P.answers prover.now) (P.sure prover.now)
        (reading (I.left input.old) (I.left input.new) (I.faults input.old) (I.faults input.new))
        (writing (O.written output.old) (O.written output.new) (O.faults output.old) (O.faults output.new)) result }
    ensures ended { ReadsToEnd result.status → IsAtEnd (I.left input.new) }
    ensures read_fault { result.status ≡ 3 → Rose (I.faults input.old) (I.faults input.new) }
    ensures write_fault { result.status ≡ 4 → Rose (O.faults output.old) (O.faults output.new) }
    ensures without_faults { (Rose (I.faults input.old) (I.faults input.new) → ⊥)
        → (Rose (O.faults output.old) (O.faults output.new) → ⊥) → IsUnfailedCheckStatus result.status }
{
    check_source(alloc, input, output, prover)
}
