//! Proofs of one rule or two by logic.
ghost use Rattle.std.specs.Prelude.{◌≡◌, ◌↔◌, IsTrue, IsSome, IfOk, IfSome, is_some};
ghost use Rattle.formula_core.specs.Same.{same_formula};
ghost use Rattle.well_defined.specs.Predicates.{top};
ghost use Rattle.rule_table.specs.SetLaws.{member_of_whole};
ghost use Rattle.rule_table.specs.Linear.{is_formula_among};
ghost use Rattle.rule_table.specs.Shapes.{bottom};
ghost use Rattle.sequent_core.specs.Sequents.{IsSequent};
ghost use Rattle.short_proofs.specs.Private.{truth};
ghost use Rattle.short_proofs.specs.Short.{IsShortProof};
ghost use Rattle.short_proofs.specs.Sure.{IsSmallSequent, IsSureByLogic, is_reflexive};

use crate::rules::{above, alone, goal_by_law, rule_of};
use crate::tests::{bottom, is_among, is_reflexive, is_small};
use formula_core::OutOfMemory;
use rule_table::{RuleKind, backward, both, forward, none_left, one, top};
use rules_sets::member_of_whole;
use sequent_core::{Sequent, Tree};
use std::alloc::Global;

/// The number of the law that a member of the whole set of its type meets.
const MEMBER_OF_WHOLE: u8 = 55;

/// A short proof, where the sequent is one that is surely proved by logic.
pub fn proof_by_logic(alloc: Global, sequent: &Sequent) -> Result<Option<Tree>, OutOfMemory>
    requires sequent { IsSequent sequent.now }
    ensures sure { IfOk result (λ o. IsSome o ↔ IsSureByLogic sequent.now) }
    ensures short { IfOk result (λ o. IfSome o (λ tree. IsShortProof tree sequent.now)) }
{
    if !is_small(sequent) {
        return Ok(None);
    }
    if sequent.goal.same(&top(alloc)) {
        return Ok(Some(by_top(alloc, sequent)?));
    }
    if is_among(sequent.hyps.items(), &bottom(alloc)) {
        return Ok(Some(by_bottom(alloc, sequent)?));
    }
    if is_among(sequent.hyps.items(), &sequent.goal) {
        return Ok(Some(by_hypothesis(alloc, sequent)?));
    }
    if is_reflexive(alloc, &sequent.goal)? {
        return Ok(Some(by_reflexivity(alloc, sequent)?));
    }
    if member_of_whole(alloc, &sequent.goal)?.is_some() {
        return Ok(Some(by_whole(alloc, sequent)?));
    }
    Ok(None)
}

fn by_top(alloc: Global, sequent: &Sequent) -> Result<Tree, OutOfMemory>
    requires sequent { IsSequent sequent.now }
    requires small { IsSmallSequent sequent.now }
    requires form { IsTrue (same_formula sequent.now.goal top) }
    ensures short { IfOk result (λ tree. IsShortProof tree sequent.now) }
{
    let body = backward(alloc, &sequent.goal, none_left(alloc))?;
    let rule = rule_of(alloc, RuleKind::Top, body)?;
    Ok(alone(alloc, rule))
}

fn by_bottom(alloc: Global, sequent: &Sequent) -> Result<Tree, OutOfMemory>
    requires sequent { IsSequent sequent.now }
    requires small { IsSmallSequent sequent.now }
    requires form { IsTrue (is_formula_among sequent.now.hyps bottom) }
    ensures short { IfOk result (λ tree. IsShortProof tree sequent.now) }
{
    let hyps = one(alloc, bottom(alloc))?;
    let body = forward(hyps, none_left(alloc));
    let rule = rule_of(alloc, RuleKind::Bot, body)?;
    Ok(alone(alloc, rule))
}

fn by_hypothesis(alloc: Global, sequent: &Sequent) -> Result<Tree, OutOfMemory>
    requires sequent { IsSequent sequent.now }
    requires small { IsSmallSequent sequent.now }
    requires form { IsTrue (is_formula_among sequent.now.hyps sequent.now.goal) }
    ensures short { IfOk result (λ tree. IsShortProof tree sequent.now) }
{
    let hyps = one(alloc, sequent.goal.copy(alloc)?)?;
    let body = both(alloc, &sequent.goal, hyps.items(), none_left(alloc))?;
    let rule = rule_of(alloc, RuleKind::Hyp, body)?;
    Ok(alone(alloc, rule))
}

fn by_reflexivity(alloc: Global, sequent: &Sequent) -> Result<Tree, OutOfMemory>
    requires sequent { IsSequent sequent.now }
    requires small { IsSmallSequent sequent.now }
    requires form { IsTrue (is_reflexive sequent.now.goal) }
    ensures short { IfOk result (λ tree. IsShortProof tree sequent.now) }
{
    let body = backward(alloc, &sequent.goal, none_left(alloc))?;
    let rule = rule_of(alloc, RuleKind::EqRefl, body)?;
    Ok(alone(alloc, rule))
}

fn by_whole(alloc: Global, sequent: &Sequent) -> Result<Tree, OutOfMemory>
    requires sequent { IsSequent sequent.now }
    requires small { IsSmallSequent sequent.now }
    requires form { IsTrue (is_some (member_of_whole sequent.now.goal)) }
    ensures short { IfOk result (λ tree. IsShortProof tree sequent.now) }
{
    let rule = goal_by_law(alloc, MEMBER_OF_WHOLE, &sequent.goal, top(alloc))?;
    above(alloc, rule, truth(alloc)?)
}

/// The proof of `⊤`.
fn truth(alloc: Global) -> Result<Tree, OutOfMemory>
    ensures tree { IfOk result (λ t. t ≡ truth) }
{
    let body = backward(alloc, &top(alloc), none_left(alloc))?;
    let rule = rule_of(alloc, RuleKind::Top, body)?;
    Ok(alone(alloc, rule))
}
