//! The automatic prover: short proofs, and else what the search finds, and what is found by cases.
ghost use Rattle.std.specs.Prelude.{◌≡◌, ◌≤◌, ◌<◌, ◌^◌, ◌↔◌, IsSome, IsNone, IfOk, IfSome};
ghost use Rattle.case_proofs.specs.Cases.{HasFewRules, HasFewRulesIfFound, IsSureByCases};
ghost use Rattle.sequent_core.specs.Members.{members_of};
ghost use Rattle.sequent_core.specs.Provers.{AnswersWithin, IsGood, IsGoodTree};
ghost use Rattle.sequent_core.specs.Sequents.{IsSequent};
ghost use Rattle.sequent_core.specs.Trees.{rule_count};
ghost use Rattle.short_proofs.specs.Short.{IsShortIfFound, IsShortProof};
ghost use Rattle.strategy_core.specs.Sure.{IsSure, IsSureAtOnce};

use case_proofs::{proof_by_cases, rules_by_cases};
use checked_search::{Effort, Passes, Stop, proof_within};
use formula_core::OutOfMemory;
use sequent_core::{Attempt, Prover, Sequent, Tree};
use short_proofs::{proof_by_arithmetic, proof_by_logic};
use std::alloc::Global;

/// Every pass of the search.
const ALL_PASSES: Passes = Passes {
    unfolds: true,
    reckons: true,
};

/// A prover of logic, sets and arithmetic, whose proofs have at most `budget` rules.
#[derive(Debug, Clone, Copy)]
pub struct AutoProver {
    pub budget: u32,
    ghost least: { 8 ≤ budget },
    ghost most: { budget ≤ 2000 },
}

impl AutoProver {
    pub fn new(budget: u32) -> AutoProver
        requires least { 8 ≤ budget }
        requires most { budget ≤ 2000 }
        ensures budget { result.budget ≡ budget }
    {
        AutoProver { budget }
    }
}

/// A short proof, where the sequent is sure at once.
fn short_proof(alloc: Global, sequent: &Sequent) -> Result<Option<Tree>, OutOfMemory>
    requires sequent { IsSequent sequent.now }
    ensures sure { IfOk result (λ o. IsSome o ↔ IsSureAtOnce sequent.now) }
    ensures short { IfOk result (λ o. IfSome o (λ tree. IsShortProof tree sequent.now)) }
    ensures by_connectives { IfOk result (λ o. IfSome o (HasFewRules sequent.now)) }
{
    if let Some(tree) = proof_by_logic(alloc, sequent)? {
        return Ok(Some(tree));
    }
    proof_by_arithmetic(alloc, sequent)
}

/// What the search finds. A proof has no leaf and so as many nodes as rules: none that is found is too large to be stored.
fn searched(
    alloc: Global,
    sequent: &Sequent,
    budget: u32,
    effort: Effort,
) -> Result<Option<Tree>, Stop>
    requires most { budget ≤ 2000 }
    ensures good { IfOk result (λ o. IfSome o (λ tree. IsGoodTree tree sequent.now)) }
    ensures few { IfOk result (λ o. IfSome o (λ tree. rule_count tree ≤ budget)) }
{
    proof_within(alloc, sequent, budget, ALL_PASSES, effort)
}

/// What the search finds with little fuel, or else what is found by cases, or else what the search finds with more. The search
/// goes first, since its proofs are shorter; the cases go before its dear attempts.
fn long_proof(alloc: Global, sequent: &Sequent, budget: u32) -> Result<Option<Tree>, OutOfMemory>
    requires sequent { IsSequent sequent.now }
    requires most { budget ≤ 2000 }
    ensures sure { IfOk result (λ o. IsNone o → ¬ IsSureByCases budget sequent.now) }
    ensures good { IfOk result (λ o. IfSome o (λ tree. IsGoodTree tree sequent.now)) }
    ensures few { IfOk result (λ o. IfSome o (λ tree. rule_count tree ≤ budget)) }
    ensures by_connectives { IfOk result (λ o. IfSome o (λ tree.
        IsSureByCases budget sequent.now → HasFewRules sequent.now tree)) }
{
    match searched(alloc, sequent, budget, Effort::Small) {
        Ok(Some(tree)) => Ok(Some(fewest(alloc, sequent, budget, tree)?)),
        Ok(None) => proof_by_cases(alloc, sequent, budget),
        Err(Stop::Spent) => cases_or_search(alloc, sequent, budget),
        Err(Stop::NoMemory) => Err(OutOfMemory),
    }
}

/// A proof that the search found; or one by cases, where that one has more rules than one by cases may have.
fn fewest(alloc: Global, sequent: &Sequent, budget: u32, tree: Tree) -> Result<Tree, OutOfMemory>
    requires sequent { IsSequent sequent.now }
    requires most { budget ≤ 2000 }
    requires good { IsGoodTree tree sequent.now }
    requires few { rule_count tree ≤ budget }
    ensures good { IfOk result (λ t. IsGoodTree t sequent.now) }
    ensures few { IfOk result (λ t. rule_count t ≤ budget) }
    ensures by_connectives { IfOk result (λ t. IsSureByCases budget sequent.now → HasFewRules sequent.now t) }
{
    if tree.tally().rules <= rules_by_cases(sequent) {
        return Ok(tree);
    }
    match proof_by_cases(alloc, sequent, budget)? {
        Some(other) => Ok(other),
        None => Ok(tree),
    }
}

/// What is found by cases, or else what the search finds with more fuel.
fn cases_or_search(
    alloc: Global,
    sequent: &Sequent,
    budget: u32,
) -> Result<Option<Tree>, OutOfMemory>
    requires sequent { IsSequent sequent.now }
    requires most { budget ≤ 2000 }
    ensures sure { IfOk result (λ o. IsNone o → ¬ IsSureByCases budget sequent.now) }
    ensures good { IfOk result (λ o. IfSome o (λ tree. IsGoodTree tree sequent.now)) }
    ensures few { IfOk result (λ o. IfSome o (λ tree. rule_count tree ≤ budget)) }
    ensures by_connectives { IfOk result (λ o. IfSome o (λ tree.
        IsSureByCases budget sequent.now → HasFewRules sequent.now tree)) }
{
    if let Some(tree) = proof_by_cases(alloc, sequent, budget)? {
        return Ok(Some(tree));
    }
    match searched(alloc, sequent, budget, Effort::Large) {
        Ok(found) => Ok(found),
        Err(Stop::Spent) => Ok(None),
        Err(Stop::NoMemory) => Err(OutOfMemory),
    }
}

impl Prover for AutoProver {
    ghost sure = { λ p s. IsSure p.budget s };

    ghost answers = { λ p s attempt. AnswersWithin p.budget (IsSure p.budget s) s attempt };

    fn attempt(&self, alloc: Global, sequent: &Sequent) -> Attempt
        requires { IsSequent sequent.now }
        ensures allowed { AnswersWithin self.now.budget (IsSure self.now.budget sequent.now) sequent.now result }
        ensures sure { IsSure self.now.budget sequent.now → IsGood result sequent.now }
        ensures few { members_of result < 2 ^ 32 }
        ensures short { IsSureAtOnce sequent.now → IsShortIfFound result sequent.now }
        ensures by_connectives { IsSureByCases self.now.budget sequent.now → HasFewRulesIfFound sequent.now result }
    {
        match short_proof(alloc, sequent) {
            Ok(Some(short)) => Attempt::found(short),
            Ok(None) => match long_proof(alloc, sequent, self.budget) {
                Ok(Some(long)) => Attempt::found(long),
                Ok(None) => Attempt::NoProof,
                Err(_) => Attempt::NoMemory,
            },
            Err(_) => Attempt::NoMemory,
        }
    }
}
