//! Strategies, by what they may answer.
ghost use Rattle.std.specs.Prelude.{◌≡◌, ◌≤◌, ℕ};
ghost use Rattle.sequent_core.specs.declared.prover.Attempt.{Attempt};
ghost use Rattle.sequent_core.specs.declared.sequent.Sequent.{Sequent};
ghost use Rattle.sequent_core.specs.Trees.{Applies, node_count, rule_count};
ghost use Rattle.proof_strategies.specs.Strategies.{IfFound};

use sequent_core::{Attempt, Sequent};
use std::alloc::Global;

/// A way to begin a proof of a sequent. Its tree may have leaves.
pub trait Strategy {
    // The sequents and budgets for which it may answer that it has no proof.
    ghost may_refuse: { Self → Sequent → ℕ → Type 0 };

    // What it may answer for a sequent and a budget.
    ghost gives: { Self → Sequent → ℕ → Attempt → Type 0 };

    /// A tree for the sequent, with at most `budget` rules.
    fn run(&self, alloc: Global, sequent: &Sequent, budget: u32) -> Attempt
        requires least { 1 ≤ budget }
        requires most { budget ≤ 2000 }
        ensures gives { gives self.now sequent.now budget result }
        ensures refuses { result ≡ Attempt.NoProof → may_refuse self.now sequent.now budget }
        ensures applies { IfFound result (λ tree. Applies tree sequent.now) }
        ensures rules { IfFound result (λ tree. rule_count tree ≤ budget) }
        ensures nodes { IfFound result (λ tree. node_count tree ≤ 2048) };
}
