// A core with the history of what it did.
ghost use Rattle.std.specs.Prelude.{◌≡◌, ◌+◌, ◌<◌, ◌^◌, [], ◌∷◌, ◌++◌, None, IfOk, OnOk, OnErr, MatchOption};
ghost use Rattle.core_steps.specs.declared.Event.{Event};
ghost use Rattle.core_steps.specs.declared.Reply.{Reply};
ghost use Rattle.core_steps.specs.State.{opened, no_texts};
ghost use Rattle.core_steps.specs.Step.{IsTake, take_reply};
ghost use Rattle.sequent_core.specs.declared.Ticket.{Ticket};
ghost use Rattle.rodin_cli.specs.PrivateSession.{PerformsInSession, IsUnchanged};

use act_history::History;
use core_steps::{BuildFault, Durable, Event, Reply};
use formula_core::{OutOfMemory, Steps};
use sequent_core::{Attempt, Ticket};
use status_core::Core;
use std::alloc::Global;
use std::sync::ledger::Ledger;

/// A core, and the events that it performed, each with its chair.
#[derive(Drop)]
pub struct Session {
    pub core: Core,
    pub history: History<(u32, Event)>,
}

/// The session of the empty project, before its first event.
pub fn start<L: Ledger>(alloc: Global, steps: &mut Steps<L>) -> Result<Session, OutOfMemory>
    ensures core { IfOk result (λ session. session.core ≡ opened no_texts) }
    ensures history { IfOk result (λ session. session.history.items ≡ []) }
{
    match Core::start(alloc, Durable::empty(alloc), steps) {
        Ok(core) => Ok(Session {
            core,
            history: History::new(alloc),
        }),
        Err(BuildFault::OutOfMemory) => Err(OutOfMemory),
        Err(BuildFault::TableFull(_)) => unreachable!(),
    }
}

/// Performs an event of chair 0.
pub fn perform<L: Ledger>(
    session: &mut Session,
    event: Event,
    steps: &mut Steps<L>,
) -> Result<Reply, OutOfMemory>
    requires number { IsTake event → session.old.core.next + 1 < 2 ^ 64 }
    ensures done { IfOk result (λ reply. PerformsInSession session.old event reply session.new) }
    ensures err { OnErr result (IsUnchanged session.old session.new) }
{
    session.history.reserve()?;
    let prepared = session.core.prepare(&event, steps)?;
    let reply = session.core.commit(prepared);
    session.history.note((0, event));
    Ok(reply)
}

// The ticket of a reply that gives one.
fn ticket_of(reply: Reply) -> Option<Ticket>
    ensures { MatchOption result
        ((ticket : Ticket) → reply ≡ Reply.Taken ticket → ⊥) (λ ticket. reply ≡ Reply.Taken ticket) }
{
    match reply {
        Reply::Taken(ticket) => Some(ticket),
        _ => None,
    }
}

/// Takes the first open obligation.
pub fn take<L: Ledger>(
    session: &mut Session,
    steps: &mut Steps<L>,
) -> Result<Option<Ticket>, OutOfMemory>
    requires { session.old.core.next + 1 < 2 ^ 64 }
    ensures done { IfOk result (λ taken.
        PerformsInSession session.old (Event.Take None) (take_reply taken) session.new) }
    ensures err { OnErr result (IsUnchanged session.old session.new) }
{
    match perform(session, Event::Take(None), steps) {
        Ok(reply) => Ok(ticket_of(reply)),
        Err(error) => Err(error),
    }
}

// The reply isn't looked at.
fn pass(_reply: Reply) {}

/// Takes a ticket in, with what the prover answered.
pub fn finish<L: Ledger>(
    session: &mut Session,
    number: u64,
    attempt: Attempt,
    steps: &mut Steps<L>,
) -> Result<(), OutOfMemory>
    ensures done { OnOk result ((reply : Reply)
        × PerformsInSession session.old (Event.Finish number attempt) reply session.new) }
    ensures err { OnErr result (IsUnchanged session.old session.new) }
{
    match perform(session, Event::Finish(number, attempt), steps) {
        Ok(reply) => {
            pass(reply);
            Ok(())
        }
        Err(error) => Err(error),
    }
}
