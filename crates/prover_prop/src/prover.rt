//! The prover by logic: short proofs, and else proofs by cases.
ghost use Rattle.std.specs.Prelude.{◌≡◌, ◌≤◌, ◌<◌, ◌^◌};
ghost use Rattle.prover_prop.specs.Sure.{IsSurePropositionally};
ghost use Rattle.sequent_core.specs.Members.{members_of};
ghost use Rattle.sequent_core.specs.Provers.{AnswersWithin, IsGood};
ghost use Rattle.sequent_core.specs.Sequents.{IsSequent};
ghost use Rattle.short_proofs.specs.Short.{IsShortIfFound};
ghost use Rattle.short_proofs.specs.Sure.{IsSureByLogic};

use case_proofs::proof_by_cases;
use sequent_core::{Attempt, Prover, Sequent};
use short_proofs::proof_by_logic;
use std::alloc::Global;

/// A prover by logic, whose proofs have at most `budget` rules.
#[derive(Debug, Clone, Copy)]
pub struct PropProver {
    pub budget: u32,
    ghost least: { 8 ≤ budget },
    ghost most: { budget ≤ 2000 },
}

impl PropProver {
    pub fn new(budget: u32) -> PropProver
        requires least { 8 ≤ budget }
        requires most { budget ≤ 2000 }
        ensures budget { result.budget ≡ budget }
    {
        PropProver { budget }
    }
}

impl Prover for PropProver {
    ghost sure = { λ p s. IsSurePropositionally p.budget s };

    ghost answers = { λ p s attempt. AnswersWithin p.budget (IsSurePropositionally p.budget s) s attempt };

    fn attempt(&self, alloc: Global, sequent: &Sequent) -> Attempt
        requires { IsSequent sequent.now }
        ensures allowed { AnswersWithin self.now.budget (IsSurePropositionally self.now.budget sequent.now) sequent.now
            result }
        ensures sure { IsSurePropositionally self.now.budget sequent.now → IsGood result sequent.now }
        ensures few { members_of result < 2 ^ 32 }
        ensures short { IsSureByLogic sequent.now → IsShortIfFound result sequent.now }
    {
        match proof_by_logic(alloc, sequent) {
            Ok(Some(short)) => Attempt::found(short),
            Ok(None) => match proof_by_cases(alloc, sequent, self.budget) {
                Ok(Some(tree)) => Attempt::found(tree),
                Ok(None) => Attempt::NoProof,
                Err(_) => Attempt::NoMemory,
            },
            Err(_) => Attempt::NoMemory,
        }
    }
}
