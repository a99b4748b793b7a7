// The prover by hypotheses.
ghost use Rattle.sequent_core.specs.Provers.{AnswersWithin};
ghost use Rattle.rodin_cli.specs.Hyp.{IsAssumed};

use formula_core::List;
use proof_tree::hypothesis;
use sequent_core::{Attempt, Prover, Sequent, Tree};
use std::alloc::Global;

/// A prover of the sequents whose goal is a hypothesis, by the one rule `hyp`.
#[derive(Debug, Clone, Copy)]
pub struct HypProver;

impl HypProver {
    /// The prover. It keeps nothing.
    pub fn new() -> HypProver {
        HypProver
    }
}

impl Prover for HypProver {
    ghost sure = { λ _ s. IsAssumed s };

    ghost answers = { λ _ s attempt. AnswersWithin 1 (IsAssumed s) s attempt };

    fn attempt(&self, alloc: Global, sequent: &Sequent) -> Attempt {
        if !sequent.has_hypothesis(&sequent.goal) || !sequent.goal.is_within_limits() {
            return Attempt::NoProof;
        }
        match hypothesis(alloc, &sequent.goal) {
            Ok(rule) => Attempt::found(Tree::Node(rule, List::of(Vec::new(alloc)))),
            Err(_) => Attempt::NoMemory,
        }
    }
}
