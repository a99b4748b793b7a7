//! Rows of events on a store.
ghost use Rattle.std.specs.Prelude.{◌≡◌, ◌<◌};

use crate::cores::add_replies;
use crate::events::told_event;
use crate::printing::{add_count, add_number, add_two};
use crate::replies::add_reply_line;
use crate::row::Row;
use crate::runs::{Sides, disk_of};
use core_steps::{Durable, Event, Reply};
use formula_core::Steps;
use outside::{Disk, MemoryDisk};
use project_store::{OpenFault, Store, StoreFault};
use sequent_core::Ticket;
use session_words::{Commands, Line};
use std::alloc::{AllocError, Global};
use std::marker::Brand;
use std::sync::ledger::{Blank, Ledger};

// Each with a counter of steps that nobody reads.
fn start_counted<L: Ledger>(
    alloc: Global,
    disk: MemoryDisk,
    blank: Blank,
) -> Result<Store<MemoryDisk, ()>, (MemoryDisk, OpenFault)>
    requires name { blank.name ≡ L.name }
    requires parts { blank.parts ≡ L.parts }
    requires some { 0 < blank.parts }
{
    let mut steps = Steps::<L>::open(blank);
    Store::start(alloc, disk, &mut steps)
}

fn apply_counted<L: Ledger>(
    store: &mut Store<MemoryDisk, ()>,
    event: Event,
    blank: Blank,
) -> Result<Reply, StoreFault>
    requires name { blank.name ≡ L.name }
    requires parts { blank.parts ≡ L.parts }
    requires some { 0 < blank.parts }
{
    let mut steps = Steps::<L>::open(blank);
    store.apply(0, event, &mut steps)
}

fn apply(store: &mut Store<MemoryDisk, ()>, event: Event) -> Result<Reply, StoreFault> {
    apply_counted::<Brand>(store, event, Blank::new(1))
}

// Keeps the ticket that a reply gives.
fn keep(tickets: &mut Vec<Ticket>, reply: Reply) -> Result<(), AllocError> {
    match reply {
        Reply::Taken(ticket) => {
            tickets.push(ticket)?;
            Ok(())
        }
        other => {
            drop(other);
            Ok(())
        }
    }
}

// Does an event, adds its reply, and answers whether the store did it.
fn act(
    alloc: Global,
    store: &mut Store<MemoryDisk, ()>,
    tickets: &mut Vec<Ticket>,
    event: Event,
    out: &mut String,
) -> Result<bool, AllocError> {
    match apply(store, event) {
        Ok(reply) => {
            let told = add_reply_line(alloc, out, &reply);
            keep(tickets, reply)?;
            told?;
            Ok(true)
        }
        Err(fault) => {
            add_fault(out, &fault)?;
            Ok(false)
        }
    }
}

fn add_fault(out: &mut String, fault: &StoreFault) -> Result<(), AllocError> {
    writeln!(out, "fault {fault:?}")?;
    Ok(())
}

// The event of a session's line that is one.
fn event_of(line: Line) -> Option<Event> {
    match line {
        Line::One(event) => Some(event),
        other => {
            drop(other);
            None
        }
    }
}

// The next event of the session's lines that are whole.
fn next_event(commands: &mut Commands) -> Result<Option<Event>, AllocError> {
    match commands.next() {
        Ok(Some(line)) => Ok(event_of(line)),
        Ok(None) => Ok(None),
        Err(_) => Err(AllocError),
    }
}

// The event that a line of a session ends.
fn ended_event(commands: &mut Commands, line: &str) -> Result<Option<Event>, AllocError> {
    if commands.feed(line.as_bytes()).is_err() || commands.feed(b"\n").is_err() {
        return Err(AllocError);
    }
    next_event(commands)
}

// The event of a line.
fn event_at(
    alloc: Global,
    tickets: &[Ticket],
    commands: &mut Commands,
    line: &str,
) -> Result<Option<Event>, AllocError> {
    match told_event(alloc, tickets, line) {
        Some(event) => Ok(Some(event)),
        None => ended_event(commands, line),
    }
}

// Does an event, and keeps the same one again if the store did it.
fn act_and_keep(
    alloc: Global,
    store: &mut Store<MemoryDisk, ()>,
    tickets: &mut Vec<Ticket>,
    both: (Event, Event),
    acts: &mut Vec<(u32, Event)>,
    out: &mut String,
) -> Result<(), AllocError> {
    let (event, again) = both;
    if act(alloc, store, tickets, event, out)? {
        acts.push((0, again))?;
    } else {
        drop(again);
    }
    Ok(())
}

// Reads each line twice, since the store keeps no event.
fn act_all(
    alloc: Global,
    store: &mut Store<MemoryDisk, ()>,
    text: &str,
    acts: &mut Vec<(u32, Event)>,
    out: &mut String,
) -> Result<(), AllocError> {
    let mut tickets = Vec::new(alloc);
    let mut commands = Commands::new(alloc);
    let mut commands_again = Commands::new(alloc);
    for line in text.split('\n') {
        let event = event_at(alloc, &tickets, &mut commands, line)?;
        let again = event_at(alloc, &tickets, &mut commands_again, line)?;
        if let (Some(event), Some(again)) = (event, again) {
            act_and_keep(alloc, store, &mut tickets, (event, again), acts, out)?;
        }
    }
    Ok(())
}

// The chair and the event that met a fault of the disk.
fn add_failed(out: &mut String, failed: Option<&(u32, Event)>) -> Result<(), AllocError> {
    let Some((chair, event)) = failed else {
        return Ok(());
    };
    out.push_str("failed: chair ")?;
    add_number(out, u64::from(*chair))?;
    if let Event::Edit(name, text) = event {
        add_two(out, ", edit ", name.as_text())?;
        out.push(' ')?;
        add_number(out, text.as_text().len() as u64)?;
    }
    out.push('\n')
}

// What the disk counts, and the components that last, each with the length of its text.
fn add_last(out: &mut String, faults: u64, durable: &Durable) -> Result<(), AllocError> {
    add_count(out, faults, " faults, last")?;
    for (name, text) in durable.texts.entries().iter() {
        add_two(out, " ", name.as_text())?;
        out.push(' ')?;
        add_number(out, text.as_text().len() as u64)?;
    }
    out.push('\n')
}

// Does the events of a row on a store one after another, and the acts that it did on a core. Adds the replies of each.
fn acts_on(
    alloc: Global,
    store: Store<MemoryDisk, ()>,
    text: &str,
    told: &mut String,
    by_core: &mut String,
) -> Result<(), AllocError> {
    let mut store = store;
    let mut acts = Vec::new(alloc);
    let done = act_all(alloc, &mut store, text, &mut acts, told);
    let failed = add_failed(told, store.failed());
    let done_acts = store.history().len();
    let (disk, history, durable) = store.into_parts();
    let faults = disk.faults();
    drop(disk);
    let kept = match faults {
        0 => Ok(()),
        _ => add_last(told, faults, &durable),
    };
    drop(durable);
    if done.is_err() || failed.is_err() || kept.is_err() {
        return Err(AllocError);
    }
    if acts.len() != done_acts || history.len() != done_acts {
        told.push_str("another history is given back\n")?;
    }
    drop(history);
    add_replies(alloc, &acts, by_core)
}

// Why a store wasn't opened, and what the disk counts.
fn add_unopened(out: &mut String, fault: OpenFault, faults: u64) -> Result<(), AllocError> {
    write!(out, "not opened, {fault:?}, ")?;
    add_count(out, faults, " faults\n")
}

// Does the events of a row on a store over these sides, and the same acts on a core. Adds the replies of each.
fn acts_of(
    alloc: Global,
    row: &Row,
    sides: &Sides,
    told: &mut String,
    by_core: &mut String,
) -> Result<(), AllocError> {
    let disk = disk_of(alloc, row, sides, row.fault())?;
    match start_counted::<Brand>(alloc, disk, Blank::new(1)) {
        Ok(store) => acts_on(alloc, store, row.text(), told, by_core),
        Err((disk, fault)) => {
            let faults = disk.faults();
            drop(disk);
            add_unopened(told, fault, faults)?;
            by_core.push_str(told)
        }
    }
}

/// Adds the replies to the events of a row on a store, and those of a core where they are others.
pub fn add_events(
    alloc: Global,
    row: &Row,
    sides: &Sides,
    out: &mut String,
) -> Result<(), AllocError> {
    let mut told = String::new(alloc);
    let mut by_core = String::new(alloc);
    acts_of(alloc, row, sides, &mut told, &mut by_core)?;
    out.push_str(&told)?;
    if by_core.as_str() != told.as_str() {
        out.push_str("but on a core\n")?;
        out.push_str(&by_core)?;
    }
    Ok(())
}
