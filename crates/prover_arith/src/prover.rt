//! The prover by arithmetic: one linear step.
ghost use Rattle.std.specs.Prelude.{◌≡◌, ◌≤◌, ◌<◌, ◌^◌};
ghost use Rattle.sequent_core.specs.Members.{members_of};
ghost use Rattle.sequent_core.specs.Provers.{AnswersWithin, IsGood};
ghost use Rattle.sequent_core.specs.Sequents.{IsSequent};
ghost use Rattle.short_proofs.specs.Short.{IsShortIfFound};
ghost use Rattle.short_proofs.specs.Sure.{IsSureByArithmetic};

use sequent_core::{Attempt, Prover, Sequent};
use short_proofs::proof_by_arithmetic;
use std::alloc::Global;

/// A prover by arithmetic, whose proofs have at most `budget` rules.
#[derive(Debug, Clone, Copy)]
pub struct ArithProver {
    pub budget: u32,
    ghost least: { 8 ≤ budget },
    ghost most: { budget ≤ 2000 },
}

impl ArithProver {
    pub fn new(budget: u32) -> ArithProver
        requires least { 8 ≤ budget }
        requires most { budget ≤ 2000 }
        ensures budget { result.budget ≡ budget }
    {
        ArithProver { budget }
    }
}

impl Prover for ArithProver {
    ghost sure = { λ _ s. IsSureByArithmetic s };

    ghost answers = { λ p s attempt. AnswersWithin p.budget (IsSureByArithmetic s) s attempt };

    fn attempt(&self, alloc: Global, sequent: &Sequent) -> Attempt
        requires { IsSequent sequent.now }
        ensures allowed { AnswersWithin self.now.budget (IsSureByArithmetic sequent.now) sequent.now result }
        ensures sure { IsSureByArithmetic sequent.now → IsGood result sequent.now }
        ensures few { members_of result < 2 ^ 32 }
        ensures short { IsSureByArithmetic sequent.now → IsShortIfFound result sequent.now }
    {
        match proof_by_arithmetic(alloc, sequent) {
            Ok(Some(tree)) => Attempt::found(tree),
            Ok(None) => Attempt::NoProof,
            Err(_) => Attempt::NoMemory,
        }
    }
}
