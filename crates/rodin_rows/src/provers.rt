//! The provers that a row may name.
ghost use Rattle.std.specs.Prelude.{◌<◌, ◌^◌};
ghost use Rattle.sequent_core.specs.Members.{members_of};
ghost use Rattle.sequent_core.specs.Sequents.{IsSequent};

use crate::trees::attempt_of;
use rodin_cli::HypProver;
use sequent_core::{Attempt, Prover, Sequent};
use std::alloc::Global;
use std::thread;
use std::time::{Clock, Duration};
use strategy_core::AutoProver;

/// The greatest number of rules of a proof, as in `rodin`.
const BUDGET: u32 = 400;

/// How many milliseconds the slow prover waits before an attempt.
const PAUSE: u64 = 50;

/// The prover of `rodin`, the same after a wait, the one by hypotheses, or one that gives the answer that is told.
#[derive(Drop)]
pub enum Handed<'a, R> {
    Auto,
    Slow(&'a R),
    Hypotheses,
    Told(&'a str),
}

fn automatic(alloc: Global, sequent: &Sequent) -> Attempt
    requires { IsSequent sequent.now }
    ensures { members_of result < 2 ^ 32 }
{
    AutoProver::new(BUDGET).attempt(alloc, sequent)
}

fn by_hypotheses(alloc: Global, sequent: &Sequent) -> Attempt
    requires { IsSequent sequent.now }
    ensures { members_of result < 2 ^ 32 }
{
    HypProver::new().attempt(alloc, sequent)
}

impl<'a, R: Clock> Prover for Handed<'a, R> {
    ghost sure = { λ prover sequent. ⊥ };

    ghost answers = { λ prover sequent attempt. Unit {0} };

    fn attempt(&self, alloc: Global, sequent: &Sequent) -> Attempt {
        match self {
            Handed::Auto => automatic(alloc, sequent),
            Handed::Slow(rt) => {
                thread::sleep(*rt, Duration::from_millis(PAUSE));
                automatic(alloc, sequent)
            }
            Handed::Hypotheses => by_hypotheses(alloc, sequent),
            Handed::Told(answer) => attempt_of(alloc, *answer, Some(sequent)),
        }
    }
}
