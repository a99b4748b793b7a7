// `demo`: models that are made from a seed are built and proved, then a machine is edited, built and proved again, and
// each time a line with the numbers is printed.
ghost use Rattle.std.specs.Prelude.{◌≡◌, ◌≢◌, ◌<◌, ◌≤◌, ◌∷◌, [], List, ℕ, IfOk, IfErr, OnOk, OnErr, MatchOption, codes, string_bytes};
ghost use Rattle.outside.specs.Cause.{Rose};
ghost use Rattle.core_steps.specs.declared.Event.{Event};
ghost use Rattle.core_steps.specs.declared.Question.{Question};
ghost use Rattle.core_steps.specs.declared.Reply.{Reply};
ghost use Rattle.core_steps.specs.Run.{Exchange};
ghost use Rattle.core_steps.specs.State.{opened, no_texts};
ghost use Rattle.rodin_cli.specs.Script.{IsFullScript, IsRoundFront};
ghost use Rattle.rodin_cli.specs.PrivateSession.{Extends, IsUnchanged};
ghost use Rattle.session_streams.specs.Streams.{writing, Writes};
ghost use Rattle.rodin_cli.specs.Demo.{is_discharged, discharged_in, edited_in, line_after, Counts, Demonstrates, IsUnfailedDemoStatus};
ghost use Rattle.rodin_cli.specs.Private.{HasFewModels, LineStops, RoundShows, RoundStops, ReachesBoth, ReachesStop, ReportsStop, stop_status};

use crate::check::{no_part, part_from};
use crate::outcome::Part;
use crate::round::work;
use crate::session::{Session, perform, start};
use core_steps::{Event, Origin, Question, Reply, Status, decides_sequents, enters_all};
use demo_models::{edited_machine, models};
use formula_core::{List, Name, OutOfMemory, PoName, Steps, Text};
use outside::Sink;
use sequent_core::Prover;
use session_ends::{exit, write_last};
use session_streams::write_text;
use std::alloc::Global;
use std::marker::Brand;
use std::sync::ledger::{Blank, Ledger};

// The models of a demonstration: so many, made from a seed.
#[derive(Clone, Copy)]
struct Seeded {
    seed: u64,
    n: u64,
}

/// What a round edits: all models of a seed, or the last machine alone.
#[derive(Debug, Clone, Copy)]
pub enum Round {
    Models { seed: u64, n: u64 },
    Edit { n: u64 },
}

/// What a round counted.
#[derive(Debug, Clone, Copy)]
pub struct Counted {
    pub components: u32,
    pub obligations: u32,
    pub discharged: usize,
}

/// Why the rounds stopped.
#[derive(Debug, Clone, Copy)]
pub enum Stop {
    Full,
    Cut,
    OutOfMemory,
}

fn is_discharged(status: Status) -> bool
    ensures { result ≡ is_discharged status }
{
    match status {
        Status::Discharged => true,
        Status::Unattempted | Status::Pending | Status::Reviewed | Status::Broken => false,
    }
}

// How many statuses are shown discharged.
fn discharged_in(shown: &[(PoName, Status, Option<Origin>)]) -> usize
    ensures { result ≡ discharged_in shown.now }
{
    let mut count = 0;
    for (_, status, _) in shown {
        if is_discharged(*status) {
            count += 1;
        }
    }
    count
}

// The components that the round edits.
fn edited_in(alloc: Global, round: Round) -> Result<Vec<(Name, Text)>, OutOfMemory>
    requires { HasFewModels round }
    ensures { IfOk result (λ parts. parts.items ≡ edited_in round) }
{
    match round {
        Round::Models { seed, n } => models(alloc, seed, n),
        Round::Edit { n } => {
            let mut parts = Vec::new(alloc);
            parts.push(edited_machine(alloc, n)?)?;
            Ok(parts)
        }
    }
}

// The line that is printed after the round.
fn line_after(alloc: Global, round: Round, counted: Counted) -> Result<String, OutOfMemory>
    ensures { IfOk result (λ line. string_bytes line ≡ line_after round counted) }
{
    let Counted {
        components,
        obligations,
        discharged,
    } = counted;
    match round {
        Round::Models { seed, n } => Ok(format!(in alloc;
            "demo {seed} {n}: {components} components, {obligations} obligations, {discharged} discharged\n"
        )?),
        Round::Edit { .. } => Ok(format!(in alloc;
            "after one edit: {obligations} obligations, {discharged} discharged\n"
        )?),
    }
}

// Asks for the statuses.
fn statuses<L: Ledger>(
    session: &mut Session,
    steps: &mut Steps<L>,
) -> Result<List<(PoName, Status, Option<Origin>)>, OutOfMemory>
    ensures asked { IfOk result (λ shown.
        (x : Exchange) × (x.event ≡ Event.Ask Question.Statuses) × (x.reply ≡ Reply.Statuses shown)
        × Extends session.old (x ∷ []) session.new) }
    ensures same { OnErr result (IsUnchanged session.old session.new) }
{
    let shown = perform(session, Event::Ask(Question::Statuses), steps)?;
    let Reply::Statuses(statuses) = shown else {
        unreachable!()
    };
    Ok(statuses)
}

// Edits, builds and proves what the round edits, and counts. None where the table is too large.
fn count<L: Ledger, P: Prover>(
    alloc: Global,
    prover: &P,
    session: &mut Session,
    round: Round,
    steps: &mut Steps<L>,
) -> Result<Option<Counted>, OutOfMemory>
    requires few { HasFewModels round }
    requires out { session.old.core.out ≡ [] }
    requires number { session.old.core.next ≤ 8388609 }
    ensures whole { IfOk result (λ played. MatchOption played
        ((exchanges : List Exchange)
        × IsFullScript (edited_in round) exchanges × Extends session.old exchanges session.new)
        (λ counted. (exchanges : List Exchange)
        × Counts (P.answers prover.now) (P.sure prover.now) round counted exchanges
        × Extends session.old exchanges session.new)) }
    ensures front { OnErr result ((exchanges : List Exchange)
        × IsRoundFront (P.answers prover.now) (P.sure prover.now) (edited_in round) (Question.Statuses ∷ []) exchanges
        × Extends session.old exchanges session.new) }
{
    let parts = match edited_in(alloc, round) {
        Ok(parts) => parts,
        Err(error) => return Err(error),
    };
    let numbers = match work(alloc, prover, session, parts, steps) {
        Ok(Some(numbers)) => numbers,
        Ok(None) => return Ok(None),
        Err(error) => return Err(error),
    };
    match statuses(session, steps) {
        Ok(shown) => Ok(Some(Counted {
            components: numbers.components,
            obligations: numbers.obligations,
            discharged: discharged_in(shown.items()),
        })),
        Err(error) => Err(error),
    }
}

// Prints the line of a round.
fn print_line<O: Sink>(
    alloc: Global,
    output: &mut O,
    round: Round,
    counted: Counted,
) -> Result<(), Stop>
    ensures whole { OnOk result (Writes
        (writing (O.written output.old) (O.written output.new) (O.faults output.old) (O.faults output.new))
        (line_after round counted)) }
    ensures stopped { IfErr result (λ stop. LineStops
        (writing (O.written output.old) (O.written output.new) (O.faults output.old) (O.faults output.new))
        (line_after round counted) stop) }
    ensures later { O.faults output.old ≤ O.faults output.new }
{
    let line = match line_after(alloc, round, counted) {
        Ok(line) => line,
        Err(_) => return Err(Stop::OutOfMemory),
    };
    match write_text(output, line.as_str().as_bytes()) {
        Ok(()) => Ok(()),
        Err(_) => Err(Stop::Cut),
    }
}

// Does a round and prints its line.
fn show<L: Ledger, O: Sink, P: Prover>(
    alloc: Global,
    prover: &P,
    output: &mut O,
    session: &mut Session,
    round: Round,
    steps: &mut Steps<L>,
) -> Result<(), Stop>
    requires few { HasFewModels round }
    requires out { session.old.core.out ≡ [] }
    requires number { session.old.core.next ≤ 8388609 }
    ensures shown { OnOk result (RoundShows (P.answers prover.now) (P.sure prover.now) round session.old session.new
        (writing (O.written output.old) (O.written output.new) (O.faults output.old) (O.faults output.new))) }
    ensures stopped { IfErr result (λ stop.
        RoundStops (P.answers prover.now) (P.sure prover.now) round session.old session.new
        (writing (O.written output.old) (O.written output.new) (O.faults output.old) (O.faults output.new)) stop) }
    ensures later { O.faults output.old ≤ O.faults output.new }
{
    match count(alloc, prover, session, round, steps) {
        Ok(Some(counted)) => print_line(alloc, output, round, counted),
        Ok(None) => Err(Stop::Full),
        Err(_) => Err(Stop::OutOfMemory),
    }
}

// Both rounds, from the empty project.
fn rounds<L: Ledger, O: Sink, P: Prover>(
    alloc: Global,
    seeded: Seeded,
    prover: &P,
    output: &mut O,
    session: &mut Session,
    steps: &mut Steps<L>,
) -> Result<(), Stop>
    requires few { seeded.n ≤ 128 }
    requires empty { session.old.core ≡ opened no_texts }
    ensures both { OnOk result (
        ReachesBoth (P.answers prover.now) (P.sure prover.now) seeded.seed seeded.n session.old session.new
        (writing (O.written output.old) (O.written output.new) (O.faults output.old) (O.faults output.new))) }
    ensures stopped { IfErr result (λ stop.
        ReachesStop (P.answers prover.now) (P.sure prover.now) seeded.seed seeded.n session.old session.new
        (writing (O.written output.old) (O.written output.new) (O.faults output.old) (O.faults output.new)) stop) }
    ensures later { O.faults output.old ≤ O.faults output.new }
{
    enters_all();
    decides_sequents();
    let Seeded { seed, n } = seeded;
    match show(
        alloc,
        prover,
        output,
        session,
        Round::Models { seed, n },
        steps,
    ) {
        Ok(()) => {}
        Err(stop) => return Err(stop),
    }
    show(alloc, prover, output, session, Round::Edit { n }, steps)
}

fn stop_status(stop: Stop) -> u8
    ensures { result ≡ stop_status stop }
{
    match stop {
        Stop::Cut => exit::WRITE_FAULT,
        Stop::Full => exit::FULL,
        Stop::OutOfMemory => exit::OUT_OF_MEMORY,
    }
}

// Writes the last line where there is one.
fn conclude<O: Sink>(output: &mut O, stop: Stop)
    ensures { ReportsStop
        (writing (O.written output.old) (O.written output.new) (O.faults output.old) (O.faults output.new)) stop }
{
    match stop {
        Stop::Full => write_last(output, b"full: table\n"),
        Stop::Cut | Stop::OutOfMemory => {}
    }
}

// The demonstration in a session of the empty project.
fn demonstrate_in<L: Ledger, O: Sink, P: Prover>(
    alloc: Global,
    seeded: Seeded,
    output: &mut O,
    prover: &P,
    session: Session,
    steps: &mut Steps<L>,
) -> Part
    requires few { seeded.n ≤ 128 }
    requires empty { session.core ≡ opened no_texts }
    requires history { session.history.items ≡ [] }
    ensures { Demonstrates (P.answers prover.now) (P.sure prover.now) seeded.seed seeded.n
        (writing (O.written output.old) (O.written output.new) (O.faults output.old) (O.faults output.new)) result }
{
    enters_all();
    let mut session = session;
    match rounds(alloc, seeded, prover, output, &mut session, steps) {
        Ok(()) => part_from(session, exit::DONE),
        Err(stop) => {
            conclude(output, stop);
            part_from(session, stop_status(stop))
        }
    }
}

// The demonstration, with a counter of its steps.
fn demonstrate<L: Ledger, O: Sink, P: Prover>(
    alloc: Global,
    seeded: Seeded,
    output: &mut O,
    prover: &P,
    blank: Blank,
) -> Part
    requires name { blank.name ≡ L.name }
    requires parts { blank.parts ≡ L.parts }
    requires some { 0 < blank.parts }
    requires few { seeded.n ≤ 128 }
    ensures { Demonstrates (P.answers prover.now) (P.sure prover.now) seeded.seed seeded.n
        (writing (O.written output.old) (O.written output.new) (O.faults output.old) (O.faults output.new)) result }
{
    let mut steps = Steps::<L>::open(blank);
    match start(alloc, &mut steps) {
        Ok(session) => demonstrate_in(alloc, seeded, output, prover, session, &mut steps),
        Err(_) => no_part(alloc, exit::OUT_OF_MEMORY),
    }
}

/// Builds and proves models that are made from the seed, edits the last machine, and builds and proves again. After each
/// of the two a line tells how many obligations there are and how many are discharged. The exit status is 0, 4 for a
/// write fault, 7 where a table of obligations is too large, and 9 where memory ran out.
pub fn run_demo<O: Sink, P: Prover>(
    alloc: Global,
    seed: u64,
    n: u64,
    output: &mut O,
    prover: &P,
) -> Part
    requires some { 1 ≤ n }
    requires few { n ≤ 128 }
    ensures demonstrated { Demonstrates (P.answers prover.now) (P.sure prover.now) seed n
        (writing (O.written output.old) (O.written output.new) (O.faults output.old) (O.faults output.new)) result }
    ensures write_fault { result.status ≡ 4 → Rose (O.faults output.old) (O.faults output.new) }
    ensures without_faults { (Rose (O.faults output.old) (O.faults output.new) → ⊥)
        → IsUnfailedDemoStatus result.status }
{
    let seeded = Seeded { seed, n };
    demonstrate::<Brand, O, P>(alloc, seeded, output, prover, Blank::new(1))
}
