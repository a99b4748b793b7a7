//! Replies as they are printed.

use crate::printing::{add_count, add_number, add_two};
use core_steps::{FaultLine, Follows, NodeLine, Origin, Reply, Status};
use formula_core::{Name, OutOfMemory, PoName};
use reply_text::reply_text;
use rule_making::RuleFault;
use sequent_core::{Sequent, Ticket};
use std::alloc::{AllocError, Global};

// An obligation's name behind words, and its status.
fn add_status(
    out: &mut String,
    words: &str,
    name: &PoName,
    status: Status,
) -> Result<(), AllocError> {
    add_two(out, words, name.as_text())?;
    write!(out, " {status:?}")?;
    Ok(())
}

// What a finish came to. The status is none where the obligation is gone.
fn add_finished(
    out: &mut String,
    words: &str,
    name: &PoName,
    status: Option<Status>,
) -> Result<(), AllocError> {
    match status {
        Some(status) => add_status(out, words, name, status),
        None => {
            add_two(out, words, name.as_text())?;
            out.push_str(" gone")
        }
    }
}

// A number behind words, and words behind it.
fn add_counted(out: &mut String, words: &str, number: u64, behind: &str) -> Result<(), AllocError> {
    out.push_str(words)?;
    add_count(out, number, behind)
}

fn add_ticket(out: &mut String, ticket: &Ticket) -> Result<(), AllocError> {
    add_counted(out, "ticket ", ticket.number, " on ")?;
    out.push_str(ticket.name.as_text())
}

fn add_built(
    out: &mut String,
    components: u32,
    faulted: u32,
    obligations: u32,
) -> Result<(), AllocError> {
    add_counted(out, "built ", components as u64, ", ")?;
    add_count(out, faulted as u64, " faulted, ")?;
    add_count(out, obligations as u64, " obligations")
}

fn add_origin(out: &mut String, origin: Origin) -> Result<(), AllocError> {
    write!(out, " by {origin:?}")?;
    Ok(())
}

fn add_statuses(
    out: &mut String,
    statuses: &[(PoName, Status, Option<Origin>)],
) -> Result<(), AllocError> {
    out.push_str("statuses")?;
    for (name, status, origin) in statuses {
        add_status(out, " ", name, *status)?;
        if let Some(origin) = origin {
            add_origin(out, *origin)?;
        }
    }
    Ok(())
}

// Why no rule was made.
fn add_rule_fault(out: &mut String, fault: &RuleFault) -> Result<(), AllocError> {
    out.push_str("no rule, ")?;
    match fault {
        RuleFault::NoPlace => out.push_str("no such place"),
        RuleFault::BadTerm => out.push_str("a term is not typed"),
        RuleFault::NotFresh(name) => add_two(out, name.as_text(), " is not fresh"),
        RuleFault::NoForm => out.push_str("no form"),
        RuleFault::TooWide(_, _) => out.push_str("a number is too wide"),
        RuleFault::TooLarge => out.push_str("a formula is too large"),
        RuleFault::OutOfMemory => out.push_str("no memory"),
    }
}

// Each fault by its component, its line and its column, and each warning by its machine and its event.
fn add_faults(
    out: &mut String,
    faults: &[FaultLine],
    warnings: &[(Name, Name)],
) -> Result<(), AllocError> {
    out.push_str("faults")?;
    for told in faults {
        add_two(out, " ", told.fault.component.as_text())?;
        add_counted(out, " ", told.line as u64, ":")?;
        add_number(out, told.column as u64)?;
    }
    for (machine, event) in warnings {
        add_two(out, ", ", machine.as_text())?;
        add_two(out, " without ", event.as_text())?;
    }
    Ok(())
}

// The path of a node.
fn add_path(out: &mut String, path: &[u32]) -> Result<(), AllocError> {
    out.push_str(" -")?;
    for number in path {
        out.push('.')?;
        add_number(out, *number as u64)?;
    }
    Ok(())
}

// Each node by its path and the number of its rule; a leaf is open where it has a goal.
fn add_nodes(out: &mut String, nodes: &[NodeLine]) -> Result<(), AllocError> {
    out.push_str("nodes")?;
    for node in nodes {
        add_path(out, node.path.items())?;
        out.push(' ')?;
        match node.kind {
            Some(kind) => add_number(out, kind as u64)?,
            None if node.goal.is_some() => out.push_str("open")?,
            None => out.push_str("leaf")?,
        }
    }
    Ok(())
}

// What is said of an obligation's tree.
fn add_followed(out: &mut String, name: &PoName, answer: &Follows) -> Result<(), AllocError> {
    match answer {
        Follows::Yes => add_two(out, "true in each reading ", name.as_text()),
        Follows::NotDerived => add_two(out, "underived ", name.as_text()),
        Follows::NotPlain(path) => {
            add_two(out, "by more than plain rules ", name.as_text())?;
            add_path(out, path.items())
        }
    }
}

fn add_digest(out: &mut String, digest: &[u8]) -> Result<(), AllocError> {
    out.push_str("digest ")?;
    for byte in digest {
        write!(out, "{byte:02x}")?;
    }
    Ok(())
}

// How many hypotheses a sequent has that is shown.
fn add_shown(
    out: &mut String,
    name: &PoName,
    status: Status,
    sequent: &Sequent,
) -> Result<(), AllocError> {
    add_status(out, "shown ", name, status)?;
    add_counted(out, ", ", sequent.hyps.items().len() as u64, " hypotheses")
}

// Adds a reply, without the end of its line.
fn add_reply(out: &mut String, reply: &Reply) -> Result<(), AllocError> {
    match reply {
        Reply::BadName => out.push_str("bad name"),
        Reply::TextTooLong => out.push_str("text too long"),
        Reply::ProjectFull => out.push_str("project full"),
        Reply::Edited(name) => add_two(out, "edited ", name.as_text()),
        Reply::NoSuch(name) => add_two(out, "no component ", name.as_text()),
        Reply::Deleted(name) => add_two(out, "deleted ", name.as_text()),
        Reply::TableFull(nodes) => add_counted(out, "table full, ", *nodes, " nodes"),
        Reply::Built(components, faulted, obligations) => {
            add_built(out, *components, *faulted, *obligations)
        }
        Reply::NoObligation(name) => add_two(out, "no obligation ", name.as_text()),
        Reply::Broken => out.push_str("broken"),
        Reply::NoLeaf => out.push_str("no leaf"),
        Reply::NoNode => out.push_str("no node"),
        Reply::Rule(fault) => add_rule_fault(out, fault),
        Reply::TreeFull => out.push_str("tree full"),
        Reply::Now(name, status) => add_status(out, "now ", name, *status),
        Reply::Nothing => out.push_str("nothing"),
        Reply::Taken(ticket) => add_ticket(out, ticket),
        Reply::NotOpen(name, status) => add_status(out, "not open ", name, *status),
        Reply::NoTicket(number) => add_counted(out, "no ticket ", *number, ""),
        Reply::Noted(name, status) => add_finished(out, "noted ", name, *status),
        Reply::NoMemory(name, status) => add_finished(out, "no memory ", name, *status),
        Reply::Stored(name, status) => add_finished(out, "stored ", name, *status),
        Reply::Refused(name, status) => add_finished(out, "refused ", name, *status),
        Reply::Stale(name, status) => add_finished(out, "stale ", name, *status),
        Reply::Purged(count) => add_counted(out, "purged ", *count, ""),
        Reply::Statuses(statuses) => add_statuses(out, statuses.items()),
        Reply::Faults(faults, warnings) => add_faults(out, faults.items(), warnings.items()),
        Reply::Shown(name, status, sequent) => add_shown(out, name, *status, sequent),
        Reply::Nodes(nodes) => add_nodes(out, nodes.items()),
        Reply::Followed(name, answer) => add_followed(out, name, answer),
        Reply::Digest(digest) => add_digest(out, digest),
        Reply::Idle(is_idle) => out.push_str(if *is_idle { "idle true" } else { "idle false" }),
    }
}

// The printed text of a reply that no session gives, or nothing.
fn printed(alloc: Global, reply: &Reply) -> Result<String, OutOfMemory> {
    match reply {
        Reply::NoTicket(number) => reply_text(alloc, &Reply::NoTicket(*number)),
        Reply::Stale(name, status) => {
            let name = name.copy(alloc)?;
            reply_text(alloc, &Reply::Stale(name, *status))
        }
        _ => Ok(String::new(alloc)),
    }
}

/// Adds a reply with the end of its line. Behind one that no session gives stands how it is printed.
pub fn add_reply_line(alloc: Global, out: &mut String, reply: &Reply) -> Result<(), AllocError> {
    add_reply(out, reply)?;
    let Ok(text) = printed(alloc, reply) else {
        return Err(AllocError);
    };
    if !text.is_empty() {
        write!(out, ", printed {text:?}")?;
    }
    out.push('\n')
}
