//! The grammar of machines, read from left to right.

ghost use Rattle.component_text.specs.Grammar.{LabelledPart};
ghost use Rattle.component_text.specs.Machines.{Refines, Variant, References, Guards, Witnesses, With, ActionLine, ManySteps, Actions, EventBody, EventPart, EventList, Events, MachineBody, IsMachine, IsComponent};
ghost use Rattle.component_text.specs.PrivateReading.{ReadsOrStops, ReadsWhole};

use crate::cursor::Cursor;
use crate::parse::{context, ends, labelled, lines, lines_behind, names_behind, some_names_behind};
use crate::stop::Stop;
use formula_core::{List, Ref};
use model_core::{Convergence, RawComponent, RawEvent, RawLabelled, RawStep, RawVariant};
use std::alloc::Global;

/// What an event extends, which is one, or refines.
#[derive(Drop)]
pub struct Abstracts {
    pub extended: bool,
    pub names: List<Ref>,
}

fn refines(alloc: Global, cursor: &mut Cursor<'_, '_>) -> Result<Option<Ref>, Stop>
    ensures { ReadsOrStops Refines cursor.old result cursor.new }
{
    if !cursor.take_word("refines") {
        return Ok(None);
    }
    let Some(name) = cursor.name(alloc)? else {
        return Err(Stop::Unexpected);
    };
    Ok(Some(name))
}

/// The variant, whose label isn't kept.
fn variant(alloc: Global, cursor: &mut Cursor<'_, '_>) -> Result<Option<RawVariant>, Stop>
    ensures { ReadsOrStops Variant cursor.old result cursor.new }
{
    if !cursor.take_word("variant") {
        return Ok(None);
    }
    let _ = cursor.take_label();
    let (formula, first) = cursor.expression(alloc)?;
    Ok(Some(RawVariant { formula, first }))
}

fn references(alloc: Global, cursor: &mut Cursor<'_, '_>) -> Result<Abstracts, Stop>
    ensures { ReadsOrStops References cursor.old result cursor.new }
{
    if cursor.take_word("extends") {
        let Some(name) = cursor.name(alloc)? else {
            return Err(Stop::Unexpected);
        };
        let mut names = Vec::new(alloc);
        names.push(name)?;
        return Ok(Abstracts {
            extended: true,
            names: List::of(names),
        });
    }
    let names = some_names_behind(alloc, cursor, "refines")?;
    Ok(Abstracts {
        extended: false,
        names,
    })
}

fn guards(alloc: Global, cursor: &mut Cursor<'_, '_>) -> Result<List<RawLabelled>, Stop>
    ensures { ReadsOrStops Guards cursor.old result cursor.new }
{
    if cursor.take_either("where", "when") {
        lines(alloc, cursor)
    } else {
        Ok(List::of(Vec::new(alloc)))
    }
}

fn witnesses(alloc: Global, cursor: &mut Cursor<'_, '_>) -> Result<List<RawLabelled>, Stop>
    ensures { ReadsOrStops Witnesses cursor.old result cursor.new }
{
    let mut witnesses = Vec::new(alloc);
    while cursor.is_at_label() {
        let witness = labelled(alloc, cursor, false)?;
        witnesses.push(witness)?;
    }
    Ok(List::of(witnesses))
}

fn with(alloc: Global, cursor: &mut Cursor<'_, '_>) -> Result<List<RawLabelled>, Stop>
    ensures { ReadsOrStops With cursor.old result cursor.new }
{
    if cursor.take_word("with") {
        witnesses(alloc, cursor)
    } else {
        Ok(List::of(Vec::new(alloc)))
    }
}

fn step(alloc: Global, cursor: &mut Cursor<'_, '_>) -> Result<RawStep, Stop>
    ensures { ReadsOrStops ActionLine cursor.old result cursor.new }
{
    let Some((label, place)) = cursor.label(alloc)? else {
        return Err(Stop::Unexpected);
    };
    let action = cursor.action(alloc)?;
    Ok(RawStep {
        label,
        action,
        place,
    })
}

fn steps(alloc: Global, cursor: &mut Cursor<'_, '_>) -> Result<List<RawStep>, Stop>
    ensures { ReadsOrStops ManySteps cursor.old result cursor.new }
{
    let mut steps = Vec::new(alloc);
    while cursor.is_at_label() {
        let step = step(alloc, cursor)?;
        steps.push(step)?;
    }
    Ok(List::of(steps))
}

fn actions(alloc: Global, cursor: &mut Cursor<'_, '_>) -> Result<List<RawStep>, Stop>
    ensures { ReadsOrStops Actions cursor.old result cursor.new }
{
    if cursor.take_either("then", "begin") {
        steps(alloc, cursor)
    } else {
        Ok(List::of(Vec::new(alloc)))
    }
}

/// An event from the word `event` on.
fn event_body(
    alloc: Global,
    cursor: &mut Cursor<'_, '_>,
    convergence: Convergence,
) -> Result<RawEvent, Stop>
    ensures { ReadsOrStops (EventBody convergence) cursor.old result cursor.new }
{
    if !cursor.take_word("event") {
        return Err(Stop::Unexpected);
    }
    let Some(name) = cursor.name(alloc)? else {
        return Err(Stop::Unexpected);
    };
    let references = references(alloc, cursor)?;
    let params = names_behind(alloc, cursor, "any")?;
    let guards = guards(alloc, cursor)?;
    let witnesses = with(alloc, cursor)?;
    let actions = actions(alloc, cursor)?;
    if !cursor.take_word("end") {
        return Err(Stop::Unexpected);
    }
    let Abstracts { extended, names } = references;
    Ok(RawEvent {
        name,
        convergence,
        extended,
        refines: names,
        params,
        guards,
        witnesses,
        actions,
    })
}

fn event(alloc: Global, cursor: &mut Cursor<'_, '_>) -> Result<RawEvent, Stop>
    ensures { ReadsOrStops EventPart cursor.old result cursor.new }
{
    if cursor.take_word("ordinary") {
        event_body(alloc, cursor, Convergence::Ordinary)
    } else if cursor.take_word("convergent") {
        event_body(alloc, cursor, Convergence::Convergent)
    } else if cursor.take_word("anticipated") {
        event_body(alloc, cursor, Convergence::Anticipated)
    } else {
        event_body(alloc, cursor, Convergence::Ordinary)
    }
}

fn event_list(alloc: Global, cursor: &mut Cursor<'_, '_>) -> Result<List<RawEvent>, Stop>
    ensures { ReadsOrStops EventList cursor.old result cursor.new }
{
    let mut events = Vec::new(alloc);
    while cursor.is_at_event() {
        let event = event(alloc, cursor)?;
        events.push(event)?;
    }
    Ok(List::of(events))
}

fn events(alloc: Global, cursor: &mut Cursor<'_, '_>) -> Result<List<RawEvent>, Stop>
    ensures { ReadsOrStops Events cursor.old result cursor.new }
{
    if cursor.take_word("events") {
        event_list(alloc, cursor)
    } else {
        Ok(List::of(Vec::new(alloc)))
    }
}

/// What stands between `machine` and `end`.
fn machine_body(alloc: Global, cursor: &mut Cursor<'_, '_>) -> Result<RawComponent, Stop>
    ensures { ReadsOrStops MachineBody cursor.old result cursor.new }
{
    let Some(name) = cursor.name(alloc)? else {
        return Err(Stop::Unexpected);
    };
    let refines = refines(alloc, cursor)?;
    let sees = some_names_behind(alloc, cursor, "sees")?;
    let variables = names_behind(alloc, cursor, "variables")?;
    let invariants = lines_behind(alloc, cursor, "invariants")?;
    let variant = variant(alloc, cursor)?;
    let events = events(alloc, cursor)?;
    Ok(RawComponent::Machine {
        name,
        refines,
        sees,
        variables,
        invariants,
        variant,
        events,
    })
}

/// Reads a machine.
pub fn machine(alloc: Global, cursor: &mut Cursor<'_, '_>) -> Result<RawComponent, Stop>
    ensures { ReadsWhole IsMachine cursor.old result cursor.new }
{
    if !cursor.take_word("machine") {
        return Err(Stop::Unexpected);
    }
    let component = machine_body(alloc, cursor)?;
    if ends(cursor) {
        Ok(component)
    } else {
        Err(Stop::Unexpected)
    }
}

/// Reads a context or a machine.
pub fn component(alloc: Global, cursor: &mut Cursor<'_, '_>) -> Result<RawComponent, Stop>
    ensures { ReadsWhole IsComponent cursor.old result cursor.new }
{
    if cursor.is_at_word("machine") {
        machine(alloc, cursor)
    } else {
        context(alloc, cursor)
    }
}
