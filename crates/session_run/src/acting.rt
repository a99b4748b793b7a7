//! Acts of a user's chair.
ghost use Rattle.std.specs.Prelude.{◌≡◌, ◌≢◌, ◌+◌, ◌<◌, ◌^◌, ⊤, None, Some, Ok, Err, IfOk, OnErr, MatchOption, MatchResult};
ghost use Rattle.sequent_core.specs.Sequents.{IsSequent};
ghost use Rattle.sequent_core.specs.declared.Attempt.{Attempt};
ghost use Rattle.core_steps.specs.declared.Event.{Event};
ghost use Rattle.core_steps.specs.declared.Question.{Question};
ghost use Rattle.core_steps.specs.declared.Reply.{Reply};
ghost use Rattle.core_steps.specs.Step.{take_reply};
ghost use Rattle.turn_desk.specs.Chairs.{IsOf, IsSameChair};
ghost use Rattle.prover_pool.specs.Shift.{fair};
ghost use Rattle.store_log.specs.declared.StoreFault.{StoreFault as Fault};
ghost use Rattle.sequent_core.specs.declared.Ticket.{Ticket as Given};
ghost use Rattle.session_run.specs.PrivateActing.{ActsOn, TookNamed};

use core_steps::{Event, Question, Reply};
use formula_core::PoName;
use outside::Gate;
use prover_pool::{Office, Tools};
use sequent_core::{Prover, Ticket};
use std::sync::Wait;
use store_log::{Apply, EventStore, StoreFault};
use turn_desk::{Chair, Desk};
use typed_tables::typed_tables;

/// Does an event as the next act of the chair.
pub(crate) fn act_on<R: Wait, V: EventStore>(
    rt: &R,
    desk: &Desk<V>,
    chair: &mut Chair<V>,
    event: Event,
) -> Result<Reply, StoreFault>
    requires { IsOf desk.now chair.old }
    ensures chair { chair.new ≡ record chair.old { acts = chair.old.acts + 1; seen = chair.new.seen } }
    ensures acted { ActsOn desk.now.base chair.old.number event chair.old.seen result chair.new.seen }
{
    desk.act(rt, chair, Apply { event })
}

// Which of two users has the chair.
fn user_of<V: EventStore>(chair: &Chair<V>) -> u32
    ensures { result < 2 }
{
    u32::from(chair.number() > 0)
}

/// Waits for a finish by another chair.
pub(crate) fn wait_for_finish<R: Wait, V: EventStore>(
    rt: &R,
    office: &Office<'_, V>,
    chair: &Chair<V>,
) {
    office.notices.finished_for(rt, user_of(chair));
}

/// Asks the prover on a ticket that the chair took, and hands in what it answers.
///
/// The other user is told of the finish, also where it met a fault of the store: that user may wait for it.
pub(crate) fn finish_ticket<R: Wait, V: EventStore, P: Prover, G: Gate>(
    tools: &Tools<'_, R, P, G>,
    office: &Office<'_, V>,
    chair: &mut Chair<V>,
    ticket: Ticket,
) -> Result<Reply, StoreFault>
    requires chair { IsOf office.now.desk.now chair.old }
    requires sequent { IsSequent ticket.sequent }
    ensures chair { chair.new ≡ record chair.old { acts = chair.old.acts + 1; seen = chair.new.seen } }
    ensures acted { (attempt : Attempt)
        × fair (P.answers tools.now.prover.now) (P.sure tools.now.prover.now) ticket.sequent attempt
        × ActsOn office.now.desk.now.base chair.old.number (Event.Finish ticket.number attempt) chair.old.seen
        result chair.new.seen }
{
    let number = ticket.number;
    let attempt = tools.prover.attempt(tools.alloc, &ticket.sequent);
    tools.gate.before_finish(number);
    let reply = act_on(tools.rt, office.desk, chair, Event::Finish(number, attempt));
    tools.gate.after_finish(number);
    office.notices.finish_by(tools.rt, user_of(chair));
    reply
}

/// Takes the first open obligation.
pub(crate) fn take_next<R: Wait, V: EventStore>(
    rt: &R,
    desk: &Desk<V>,
    chair: &mut Chair<V>,
) -> Result<Option<Ticket>, StoreFault>
    requires { IsOf desk.now chair.old }
    ensures chair { IsSameChair chair.old chair.new }
    ensures took { IfOk result (λ ticket.
        ActsOn desk.now.base chair.old.number (Event.Take None) chair.old.seen
        (Ok (take_reply ticket)) chair.new.seen) }
    ensures typed { IfOk result (λ ticket. MatchOption ticket ⊤ (λ k. IsSequent k.sequent)) }
    ensures stopped { OnErr result ((fault : Fault)
        × ActsOn desk.now.base chair.old.number (Event.Take None) chair.old.seen (Err fault) chair.new.seen) }
{
    typed_tables();
    match act_on(rt, desk, chair, Event::Take(None)) {
        Ok(Reply::Taken(ticket)) => Ok(Some(ticket)),
        Ok(Reply::Nothing) => Ok(None),
        Ok(_) => unreachable!(),
        Err(fault) => Err(fault),
    }
}

// The ticket of a reply that gives one, or the reply.
fn ticket_of(reply: Reply) -> Result<Ticket, Reply>
    ensures { MatchResult result (λ ticket. reply ≡ Reply.Taken ticket)
        (λ other. (other ≡ reply) × ((ticket : Given) → reply ≢ Reply.Taken ticket)) }
{
    match reply {
        Reply::Taken(ticket) => Ok(ticket),
        other => Err(other),
    }
}

/// Takes the obligation of this name: its ticket, or the reply that gives none.
pub(crate) fn take_named<R: Wait, V: EventStore>(
    rt: &R,
    desk: &Desk<V>,
    chair: &mut Chair<V>,
    name: PoName,
) -> Result<Result<Ticket, Reply>, StoreFault>
    requires { IsOf desk.now chair.old }
    ensures chair { IsSameChair chair.old chair.new }
    ensures took { IfOk result (λ taken.
        TookNamed desk.now.base chair.old.number name chair.old.seen taken chair.new.seen) }
    ensures stopped { OnErr result ((fault : Fault)
        × ActsOn desk.now.base chair.old.number (Event.Take (Some name)) chair.old.seen (Err fault) chair.new.seen) }
{
    typed_tables();
    match act_on(rt, desk, chair, Event::Take(Some(name))) {
        Ok(reply) => Ok(ticket_of(reply)),
        Err(fault) => Err(fault),
    }
}

/// Whether there is nothing to take, and no ticket is out.
pub(crate) fn ask_idle<R: Wait, V: EventStore>(
    rt: &R,
    desk: &Desk<V>,
    chair: &mut Chair<V>,
) -> Result<bool, StoreFault>
    requires { IsOf desk.now chair.old }
    ensures chair { IsSameChair chair.old chair.new }
    ensures asked { IfOk result (λ idle.
        ActsOn desk.now.base chair.old.number (Event.Ask Question.Idle) chair.old.seen
        (Ok (Reply.Idle idle)) chair.new.seen) }
    ensures stopped { OnErr result ((fault : Fault)
        × ActsOn desk.now.base chair.old.number (Event.Ask Question.Idle) chair.old.seen (Err fault) chair.new.seen) }
{
    match act_on(rt, desk, chair, Event::Ask(Question::Idle)) {
        Ok(Reply::Idle(idle)) => Ok(idle),
        Ok(_) => unreachable!(),
        Err(fault) => Err(fault),
    }
}
