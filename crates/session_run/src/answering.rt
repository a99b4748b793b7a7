//! The answers to the lines of a session.
ghost use Rattle.std.specs.Prelude.{◌≡◌, ◌≢◌, ◌++◌, ⊤, ℕ, List, Ok, Err, None, Some, true, IfOk, OnOk, OnErr, MatchBool, MatchOption, string_bytes};
ghost use Rattle.sequent_core.specs.Sequents.{IsSequent};
ghost use Rattle.formula_core.specs.Substitution.{AreWell};
ghost use Rattle.core_steps.specs.declared.Event.{Event};
ghost use Rattle.core_steps.specs.declared.Reply.{Reply};
ghost use Rattle.core_steps.specs.Step.{take_reply};
ghost use Rattle.reply_text.specs.Replies.{reply_text, shown_formulas};
ghost use Rattle.turn_desk.specs.Chairs.{IsOf, IsSameChair};
ghost use Rattle.prover_pool.specs.Shift.{fair};
ghost use Rattle.session_words.specs.declared.Line.{Line};
ghost use Rattle.session_run.specs.Dialogue.{asks, owes, tells, refusal_text};
ghost use Rattle.session_run.specs.Talking.{AnswersUpTo, StoppedIn, ComesOfLine};
ghost use Rattle.session_run.specs.Private.{GoesOn, StoppedWithin};
ghost use Rattle.store_log.specs.declared.Logged.{Logged};
ghost use Rattle.store_log.specs.declared.StoreFault.{StoreFault as Fault};

use crate::acting::{act_on, ask_idle, finish_ticket, take_named, take_next, wait_for_finish};
use core_steps::{Event, Reply, one_answer, stays_orderly};
use formula_core::{OutOfMemory, PoName};
use outside::Gate;
use prover_pool::{Notices, Office, Tools};
use reply_text::{reply_text, shows_well_formulas};
use sequent_core::{Prover, Ticket};
use session_words::{Line, LineFault, line_fault_text};
use std::alloc::Global;
use std::sync::Wait;
use store_log::{EventStore, StoreFault};
use turn_desk::{Chair, Desk};

/// Why a line isn't answered.
#[derive(Debug, PartialEq, Eq, Clone, Copy)]
pub enum Stop {
    /// What it asks was done, and memory ran out over its text.
    OutOfMemory,
    Store(StoreFault),
}

impl From<OutOfMemory> for Stop {
    ghost use Rattle.std.specs.Prelude.{◌≡◌};
    ghost use Rattle.session_run.specs.declared.answering.Stop.TheVariants as stop;

    ghost from_gives = { λ _ e. e ≡ stop.OutOfMemory };

    fn from(_: OutOfMemory) -> Stop {
        Stop::OutOfMemory
    }
}

// Tells the workers of news that may be work.
fn tell_work<R: Wait>(rt: &R, notices: &Notices, reply: &Reply) {
    if matches!(
        reply,
        Reply::Built(_, _, _) | Reply::Now(_, _) | Reply::Deleted(_)
    ) {
        notices.work(rt);
    }
}

// The text of a reply.
fn text_of(alloc: Global, reply: &Reply) -> Result<String, Stop>
    requires { AreWell (shown_formulas reply.now) }
    ensures told { IfOk result (λ text. string_bytes text ≡ reply_text reply.now) }
    ensures untold { (fault : Fault) → result ≢ Err (Stop.Store fault) }
{
    match reply_text(alloc, reply) {
        Ok(text) => Ok(text),
        Err(_) => Err(Stop::OutOfMemory),
    }
}

// The text of a line that is refused.
fn refusal_text(alloc: Global, fault: LineFault) -> Result<String, OutOfMemory>
    ensures { IfOk result (λ text. string_bytes text ≡ refusal_text fault) }
{
    let words = line_fault_text(alloc, &fault)?;
    let mut text = String::new(alloc);
    text.push_str("refused: ")?;
    text.push_str(words.as_str())?;
    text.push_str("\n")?;
    Ok(text)
}

// Does the event of a line, and tells its reply.
fn answer_one<R: Wait, V: EventStore, P: Prover, G>(
    tools: &Tools<'_, R, P, G>,
    office: &Office<'_, V>,
    chair: &mut Chair<V>,
    event: Event,
) -> Result<String, Stop>
    requires { IsOf office.now.desk.now chair.old }
    ensures chair { IsSameChair chair.old chair.new }
    ensures answered { ComesOfLine (fair (P.answers tools.now.prover.now) (P.sure tools.now.prover.now))
        office.now.desk.now.base chair.old.number (Line.One event) chair.old.seen result chair.new.seen }
{
    one_answer();
    stays_orderly();
    shows_well_formulas();
    match act_on(tools.rt, office.desk, chair, event) {
        Ok(reply) => {
            tell_work(tools.rt, office.notices, &reply);
            text_of(tools.alloc, &reply)
        }
        Err(fault) => Err(Stop::Store(fault)),
    }
}

// Finishes the ticket that `auto` took, and tells the reply.
fn finish_told<R: Wait, V: EventStore, P: Prover, G: Gate>(
    tools: &Tools<'_, R, P, G>,
    office: &Office<'_, V>,
    chair: &mut Chair<V>,
    ticket: Ticket,
) -> Result<String, Stop>
    requires chair { IsOf office.now.desk.now chair.old }
    requires sequent { IsSequent ticket.sequent }
    ensures chair { IsSameChair chair.old chair.new }
    ensures finished { (name : List ℕ) (old : List Logged) →
        AnswersUpTo (fair (P.answers tools.now.prover.now) (P.sure tools.now.prover.now))
        office.now.desk.now.base chair.old.number (Line.Auto name) old (owes ticket) chair.old.seen →
        ComesOfLine (fair (P.answers tools.now.prover.now) (P.sure tools.now.prover.now))
        office.now.desk.now.base chair.old.number (Line.Auto name) old result chair.new.seen }
{
    one_answer();
    stays_orderly();
    shows_well_formulas();
    match finish_ticket(tools, office, chair, ticket) {
        Ok(reply) => text_of(tools.alloc, &reply),
        Err(fault) => Err(Stop::Store(fault)),
    }
}

// Takes the obligation, asks the prover, and hands in what it answers.
fn auto<R: Wait, V: EventStore, P: Prover, G: Gate>(
    tools: &Tools<'_, R, P, G>,
    office: &Office<'_, V>,
    chair: &mut Chair<V>,
    name: PoName,
) -> Result<String, Stop>
    requires { IsOf office.now.desk.now chair.old }
    ensures chair { IsSameChair chair.old chair.new }
    ensures answered { ComesOfLine (fair (P.answers tools.now.prover.now) (P.sure tools.now.prover.now))
        office.now.desk.now.base chair.old.number (Line.Auto name) chair.old.seen result chair.new.seen }
{
    one_answer();
    stays_orderly();
    shows_well_formulas();
    match take_named(tools.rt, office.desk, chair, name) {
        Ok(Ok(ticket)) => finish_told(tools, office, chair, ticket),
        Ok(Err(reply)) => text_of(tools.alloc, &reply),
        Err(fault) => Err(Stop::Store(fault)),
    }
}

// A round of `wait`: a ticket is taken and finished, or it is asked whether all is idle. Where it isn't, it waits for the
// finish of another chair.
fn wait_turn<R: Wait, V: EventStore, P: Prover, G: Gate>(
    tools: &Tools<'_, R, P, G>,
    office: &Office<'_, V>,
    chair: &mut Chair<V>,
) -> Result<bool, StoreFault>
    requires { IsOf office.now.desk.now chair.old }
    ensures chair { IsSameChair chair.old chair.new }
    ensures turned { IfOk result (λ idle. MatchBool idle
        (GoesOn (fair (P.answers tools.now.prover.now) (P.sure tools.now.prover.now))
        office.now.desk.now.base chair.old.number Line.Wait (asks (Event.Take None)) chair.old.seen
        (tells (reply_text (Reply.Idle true))) chair.new.seen)
        (GoesOn (fair (P.answers tools.now.prover.now) (P.sure tools.now.prover.now))
        office.now.desk.now.base chair.old.number Line.Wait (asks (Event.Take None)) chair.old.seen
        (asks (Event.Take None)) chair.new.seen)) }
    ensures stopped { OnErr result (StoppedWithin (fair (P.answers tools.now.prover.now) (P.sure tools.now.prover.now))
        office.now.desk.now.base chair.old.number Line.Wait (asks (Event.Take None)) chair.old.seen chair.new.seen) }
{
    one_answer();
    stays_orderly();
    match take_next(tools.rt, office.desk, chair) {
        Err(fault) => Err(fault),
        Ok(Some(ticket)) => match finish_ticket(tools, office, chair, ticket) {
            Ok(reply) => {
                drop(reply);
                Ok(false)
            }
            Err(fault) => Err(fault),
        },
        Ok(None) => match ask_idle(tools.rt, office.desk, chair) {
            Err(fault) => Err(fault),
            Ok(idle) => {
                if !idle {
                    wait_for_finish(tools.rt, office, chair);
                }
                Ok(idle)
            }
        },
    }
}

// Takes and finishes until nothing is left and no ticket is out.
fn wait<R: Wait, V: EventStore, P: Prover, G: Gate>(
    tools: &Tools<'_, R, P, G>,
    office: &Office<'_, V>,
    chair: &mut Chair<V>,
) -> Result<(), StoreFault>
    requires { IsOf office.now.desk.now chair.old }
    ensures chair { IsSameChair chair.old chair.new }
    ensures answered { OnOk result (AnswersUpTo (fair (P.answers tools.now.prover.now) (P.sure tools.now.prover.now))
        office.now.desk.now.base chair.old.number Line.Wait chair.old.seen
        (tells (reply_text (Reply.Idle true))) chair.new.seen) }
    ensures stopped { OnErr result (StoppedIn (fair (P.answers tools.now.prover.now) (P.sure tools.now.prover.now))
        office.now.desk.now.base chair.old.number Line.Wait chair.old.seen chair.new.seen) }
{
    one_answer();
    stays_orderly();
    for _ in tools.rt.forever() {
        match wait_turn(tools, office, chair) {
            Ok(true) => return Ok(()),
            Ok(false) => {}
            Err(fault) => return Err(fault),
        }
    }
    unreachable!()
}

// The text of the reply that all is idle.
fn idle_text(alloc: Global) -> Result<String, Stop>
    ensures told { IfOk result (λ text. string_bytes text ≡ reply_text (Reply.Idle true)) }
    ensures untold { (fault : Fault) → result ≢ Err (Stop.Store fault) }
{
    match String::from_str(alloc, "idle\n") {
        Ok(text) => Ok(text),
        Err(_) => Err(Stop::OutOfMemory),
    }
}

// Waits until all is idle, and tells it.
fn answer_wait<R: Wait, V: EventStore, P: Prover, G: Gate>(
    tools: &Tools<'_, R, P, G>,
    office: &Office<'_, V>,
    chair: &mut Chair<V>,
) -> Result<String, Stop>
    requires { IsOf office.now.desk.now chair.old }
    ensures chair { IsSameChair chair.old chair.new }
    ensures answered { ComesOfLine (fair (P.answers tools.now.prover.now) (P.sure tools.now.prover.now))
        office.now.desk.now.base chair.old.number Line.Wait chair.old.seen result chair.new.seen }
{
    one_answer();
    stays_orderly();
    match wait(tools, office, chair) {
        Ok(()) => idle_text(tools.alloc),
        Err(fault) => Err(Stop::Store(fault)),
    }
}

// The answer to a line that is refused.
fn answer_refused<V: EventStore, P: Prover>(
    alloc: Global,
    _desk: &Desk<V>,
    _chair: &Chair<V>,
    _prover: &P,
    fault: LineFault,
) -> Result<String, Stop>
    ensures { ComesOfLine (fair (P.answers _prover.now) (P.sure _prover.now)) _desk.now.base _chair.now.number
        (Line.Refused fault) _chair.now.seen result _chair.now.seen }
{
    one_answer();
    stays_orderly();
    match refusal_text(alloc, fault) {
        Ok(text) => Ok(text),
        Err(_) => Err(Stop::OutOfMemory),
    }
}

/// Answers a line, which isn't the one that ends a session.
pub fn answer<R: Wait, V: EventStore, P: Prover, G: Gate>(
    tools: &Tools<'_, R, P, G>,
    office: &Office<'_, V>,
    chair: &mut Chair<V>,
    line: Line,
) -> Result<String, Stop>
    requires chair { IsOf office.now.desk.now chair.old }
    requires line { (line ≢ Line.Quit) × (line ≢ Line.CutEdit) }
    ensures chair { IsSameChair chair.old chair.new }
    ensures answered { ComesOfLine (fair (P.answers tools.now.prover.now) (P.sure tools.now.prover.now))
        office.now.desk.now.base chair.old.number line chair.old.seen result chair.new.seen }
{
    match line {
        Line::One(event) => answer_one(tools, office, chair, event),
        Line::Auto(name) => auto(tools, office, chair, name),
        Line::Wait => answer_wait(tools, office, chair),
        Line::Refused(fault) => answer_refused(
            tools.alloc,
            office.desk,
            chair,
            tools.prover,
            fault,
        ),
        Line::Quit | Line::CutEdit => unreachable!(),
    }
}
