//! Proofs by cases.
ghost use Rattle.std.specs.Prelude.{◌≡◌, ◌≤◌, ◌++◌, ◌∷◌, [], IfOk, IfSome, IsNone, false, map, true};
ghost use Rattle.case_proofs.specs.Cases.{HasFewRules, IsSureByCases};
ghost use Rattle.case_proofs.specs.PrivateWays.{signed};
ghost use Rattle.sequent_core.specs.Provers.{IsGoodTree};
ghost use Rattle.sequent_core.specs.Sequents.{IsSequent};
ghost use Rattle.sequent_core.specs.Trees.{rule_count};

use crate::search::{Outcome, refuted};
use crate::sizes::{connective_count, has_half_size, is_enough};
use crate::standing::Said;
use case_trees::contra_tree;
use formula_core::{List, OutOfMemory};
use sequent_core::{Sequent, Tree};
use std::alloc::Global;

/// A proof of at most `budget` rules, for each sequent of few connectives whose goal is true in each propositional reading
/// that makes the hypotheses true. For c connectives it has at most 16 · 2^c rules.
pub fn proof_by_cases(
    alloc: Global,
    sequent: &Sequent,
    budget: u32,
) -> Result<Option<Tree>, OutOfMemory>
    requires sequent { IsSequent sequent.now }
    requires most { budget ≤ 2000 }
    ensures sure { IfOk result (λ o. IsNone o → ¬ IsSureByCases budget sequent.now) }
    ensures good { IfOk result (λ o. IfSome o (λ tree. IsGoodTree tree sequent.now)) }
    ensures few { IfOk result (λ o. IfSome o (λ tree. rule_count tree ≤ budget)) }
    ensures by_connectives { IfOk result (λ o. IfSome o (HasFewRules sequent.now)) }
{
    let count = connective_count(sequent);
    if !is_enough(budget, count) {
        return Ok(None);
    }
    if !has_half_size(sequent) {
        return Ok(None);
    }
    let hyps = all_said(alloc, sequent)?;
    match refuted(alloc, hyps.items(), count)? {
        Outcome::Closed(tree) => Ok(Some(contra_tree(alloc, &sequent.goal, tree)?)),
        Outcome::Open => Ok(None),
    }
}

/// The hypotheses are said to be true, and then the goal to be false.
fn all_said<'a>(alloc: Global, sequent: &'a Sequent) -> Result<List<Said<'a>>, OutOfMemory>
    ensures { IfOk result (λ o.
        o ≡ map (λ h. signed h true) sequent.now.hyps ++ signed sequent.now.goal false ∷ []) }
{
    let mut out = Vec::new(alloc);
    for hyp in sequent.hyps.items() {
        out.push(Said::of(hyp, true))?;
    }
    out.push(Said::of(&sequent.goal, false))?;
    Ok(List::of(out))
}
