// Edits, a build, and turns until nothing is left to take: what `check` and each round of `demo` begin with.
ghost use Rattle.std.specs.Prelude.{◌≡◌, ◌≢◌, ◌≤◌, ◌<◌, ◌+◌, ◌^◌, ◌++◌, ◌∷◌, [], None, List, ℕ, IfOk, OnOk, OnErr, MatchBool, MatchOption};
ghost use Rattle.core_steps.specs.declared.Event.{Event};
ghost use Rattle.core_steps.specs.declared.Reply.{Reply};
ghost use Rattle.core_steps.specs.Run.{Exchange};
ghost use Rattle.rodin_cli.specs.Script.{AreEdits, AreFirstEdits, AreTurns, IsTurn, IsEndFront, IsFullScript, IsRound, IsRoundFront};
ghost use Rattle.rodin_cli.specs.PrivateSession.{Extends};

use crate::session::{Session, finish, perform, take};
use core_steps::{Event, Reply};
use formula_core::{Name, OutOfMemory, Steps, Text};
use sequent_core::Prover;
use std::alloc::Global;
use std::sync::ledger::Ledger;

/// The numbers of the reply to a build.
#[derive(Debug, Clone, Copy)]
pub struct Numbers {
    pub components: u32,
    pub faulted: u32,
    pub obligations: u32,
}

// Edits each part.
fn edit_all<L: Ledger>(
    session: &mut Session,
    parts: Vec<(Name, Text)>,
    steps: &mut Steps<L>,
) -> Result<(), OutOfMemory>
    ensures done { OnOk result ((edits : List Exchange)
        × AreEdits parts.items edits × Extends session.old edits session.new) }
    ensures front { OnErr result ((edits : List Exchange)
        × AreFirstEdits parts.items edits × Extends session.old edits session.new) }
{
    for (name, text) in parts {
        perform(session, Event::Edit(name, text), steps)?;
    }
    Ok(())
}

// The numbers of a reply that says that the texts were built.
fn numbers_of(reply: &Reply) -> Option<Numbers>
    ensures { MatchOption result
        ((c f o : ℕ) → reply.now ≢ Reply.Built c f o)
        (λ n. reply.now ≡ Reply.Built n.components n.faulted n.obligations) }
{
    match reply {
        Reply::Built(components, faulted, obligations) => Some(Numbers {
            components: *components,
            faulted: *faulted,
            obligations: *obligations,
        }),
        _ => None,
    }
}

// Edits each part and builds. None where the table is too large.
fn begin<L: Ledger>(
    session: &mut Session,
    parts: Vec<(Name, Text)>,
    steps: &mut Steps<L>,
) -> Result<Option<Numbers>, OutOfMemory>
    ensures whole { IfOk result (λ begun. MatchOption begun
        ((exchanges : List Exchange) × IsFullScript parts.items exchanges × Extends session.old exchanges session.new)
        (λ n. (edits : List Exchange) × (build : Exchange) × AreEdits parts.items edits
        × (build.event ≡ Event.Build) × (build.reply ≡ Reply.Built n.components n.faulted n.obligations)
        × Extends session.old (edits ++ build ∷ []) session.new)) }
    ensures front { OnErr result ((edits : List Exchange)
        × AreFirstEdits parts.items edits × Extends session.old edits session.new) }
{
    match edit_all(session, parts, steps) {
        Ok(()) => {}
        Err(error) => return Err(error),
    }
    match perform(session, Event::Build, steps) {
        Ok(reply) => Ok(numbers_of(&reply)),
        Err(error) => Err(error),
    }
}

// Takes a ticket and finishes it. False where nothing is left.
fn turn<L: Ledger, P: Prover>(
    alloc: Global,
    prover: &P,
    session: &mut Session,
    steps: &mut Steps<L>,
) -> Result<bool, OutOfMemory>
    requires { session.old.core.next + 1 < 2 ^ 64 }
    ensures turned { IfOk result (λ more. MatchBool more
        ((x : Exchange) × (y : Exchange)
        × IsTurn (P.answers prover.now) (P.sure prover.now) x y × Extends session.old (x ∷ y ∷ []) session.new)
        ((x : Exchange)
        × (x.event ≡ Event.Take None) × (x.reply ≡ Reply.Nothing) × Extends session.old (x ∷ []) session.new)) }
    ensures front { OnErr result ((end : List Exchange) × IsEndFront [] end × Extends session.old end session.new) }
{
    match take(session, steps)? {
        None => Ok(false),
        Some(ticket) => {
            let attempt = prover.attempt(alloc, &ticket.sequent);
            finish(session, ticket.number, attempt, steps)?;
            Ok(true)
        }
    }
}

// Turns, until nothing is left to take. Each turn closes an obligation, so there are no more turns than obligations.
fn turns<L: Ledger, P: Prover>(
    alloc: Global,
    prover: &P,
    session: &mut Session,
    steps: &mut Steps<L>,
) -> Result<(), OutOfMemory>
    requires out { session.old.core.out ≡ [] }
    requires number { session.old.core.next ≤ 8388609 }
    ensures whole { OnOk result ((turns : List Exchange)
        × (x : Exchange) × AreTurns (P.answers prover.now) (P.sure prover.now) turns
        × (x.event ≡ Event.Take None) × (x.reply ≡ Reply.Nothing) × Extends session.old (turns ++ x ∷ []) session.new) }
    ensures front { OnErr result ((turns : List Exchange)
        × (end : List Exchange) × AreTurns (P.answers prover.now) (P.sure prover.now) turns
        × IsEndFront [] end × Extends session.old (turns ++ end) session.new) }
{
    let obligations = session.core.builder().table().len();
    for _turn in 0..obligations + 1 {
        if !turn(alloc, prover, session, steps)? {
            return Ok(());
        }
    }
    unreachable!()
}

/// Edits each part, builds, and takes and finishes until nothing is left to take. None where the table is too large.
pub fn work<L: Ledger, P: Prover>(
    alloc: Global,
    prover: &P,
    session: &mut Session,
    parts: Vec<(Name, Text)>,
    steps: &mut Steps<L>,
) -> Result<Option<Numbers>, OutOfMemory>
    requires out { session.old.core.out ≡ [] }
    requires number { session.old.core.next ≤ 8388609 }
    ensures whole { IfOk result (λ worked. MatchOption worked
        ((exchanges : List Exchange) × IsFullScript parts.items exchanges × Extends session.old exchanges session.new)
        (λ n. (exchanges : List Exchange)
        × IsRound (P.answers prover.now) (P.sure prover.now) parts.items n [] exchanges
        × Extends session.old exchanges session.new)) }
    ensures front { OnErr result ((exchanges : List Exchange)
        × IsRoundFront (P.answers prover.now) (P.sure prover.now) parts.items [] exchanges
        × Extends session.old exchanges session.new) }
{
    let numbers = match begin(session, parts, steps) {
        Ok(Some(numbers)) => numbers,
        Ok(None) => return Ok(None),
        Err(error) => return Err(error),
    };
    match turns(alloc, prover, session, steps) {
        Ok(()) => Ok(Some(numbers)),
        Err(error) => Err(error),
    }
}
