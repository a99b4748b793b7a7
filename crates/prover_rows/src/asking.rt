//! The provers that can be asked.
ghost use Rattle.std.specs.Prelude.{◌≤◌};
ghost use Rattle.sequent_core.specs.Sequents.{IsSequent};

use prover_arith::ArithProver;
use prover_prop::PropProver;
use sequent_core::{Attempt, Prover, Sequent};
use sequent_test::is_sequent;
use std::alloc::Global;
use strategy_core::AutoProver;

/// What a prover answers on a sequent. None where there is no such prover with this budget, or no such sequent.
pub fn asked_prover(alloc: Global, name: &str, sequent: &Sequent, budget: u32) -> Option<Attempt> {
    if budget < 8 || budget > 2000 {
        return None;
    }
    let Ok(true) = is_sequent(alloc, sequent) else {
        return None;
    };
    match name {
        "prop" => Some(tried(&PropProver::new(budget), alloc, sequent)),
        "arith" => Some(tried(&ArithProver::new(budget), alloc, sequent)),
        "auto" => Some(tried(&AutoProver::new(budget), alloc, sequent)),
        _ => None,
    }
}

fn tried<P: Prover>(prover: &P, alloc: Global, sequent: &Sequent) -> Attempt
    requires { IsSequent sequent.now }
{
    prover.attempt(alloc, sequent)
}
