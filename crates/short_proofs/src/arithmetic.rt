//! Proofs by one linear step.
ghost use Rattle.std.specs.Prelude.{◌≡◌, ◌≢◌, ◌↔◌, ◌∷◌, [], ℤ, IsTrue, IsSome, IfOk, IfSome, Contains, ◌||◌};
ghost use Rattle.std.specs.List.{list_any};
ghost use Rattle.rule_table.specs.declared.kind.RuleKind.TheVariants as kind;
ghost use Rattle.rule_table.specs.Rows.{adds, backward, both, forward, proves};
ghost use Rattle.rule_table.specs.Rules.{IsSound};
ghost use Rattle.sequent_core.specs.Sequents.{IsSequent};
ghost use Rattle.short_proofs.specs.Private.{below_goal, below_hyp, either_tree_if, law_of_reading, linear_tree_if};
ghost use Rattle.short_proofs.specs.Short.{IsShortProof};
ghost use Rattle.short_proofs.specs.Sure.{IsSmallSequent, IsSureByArithmetic, as_comparison, follows_from, is_linear_step};

use crate::reading::{Reading, read};
use crate::rules::{above, alone, goal_by_law, hyp_by_law, rule_of};
use crate::tests::{bottom, is_small, may_be_goal, may_be_multiplied};
use formula_core::{Formula, List, OutOfMemory};
use rule_table::RuleKind;
use rules_arith::linear_step_of;
use sequent_core::{Sequent, Tree};
use std::alloc::Global;
use std::slice;

/// A short proof, where the sequent is one that is surely proved by arithmetic.
pub fn proof_by_arithmetic(alloc: Global, sequent: &Sequent) -> Result<Option<Tree>, OutOfMemory>
    requires sequent { IsSequent sequent.now }
    ensures sure { IfOk result (λ o. IsSome o ↔ IsSureByArithmetic sequent.now) }
    ensures short { IfOk result (λ o. IfSome o (λ tree. IsShortProof tree sequent.now)) }
{
    if !is_small(sequent) || sequent.goal.same(&bottom(alloc)) {
        return Ok(None);
    }
    if let Some(tree) = from_nothing(alloc, sequent)? {
        return Ok(Some(tree));
    }
    from_any(alloc, sequent)
}

/// A proof in which no hypothesis is used.
fn from_nothing(alloc: Global, sequent: &Sequent) -> Result<Option<Tree>, OutOfMemory>
    requires sequent { IsSequent sequent.now }
    requires small { IsSmallSequent sequent.now }
    ensures sure { IfOk result (λ o. IsSome o ↔ IsTrue (is_linear_step [] [] (as_comparison sequent.now.goal))) }
    ensures short { IfOk result (λ o. IfSome o (λ tree. IsShortProof tree sequent.now)) }
{
    let goal = read(alloc, &sequent.goal)?;
    let Some(tree) = linear_tree(alloc, List::of(Vec::new(alloc)), &[], &goal.formula)? else {
        return Ok(None);
    };
    Ok(Some(below_goal(alloc, &sequent.goal, &goal, tree)?))
}

/// A proof in which one hypothesis is used.
fn from_any(alloc: Global, sequent: &Sequent) -> Result<Option<Tree>, OutOfMemory>
    requires sequent { IsSequent sequent.now }
    requires small { IsSmallSequent sequent.now }
    ensures sure { IfOk result (λ o. IsSome o
        ↔ IsTrue (list_any (λ h. follows_from (as_comparison sequent.now.goal) (as_comparison h)) sequent.now.hyps)) }
    ensures short { IfOk result (λ o. IfSome o (λ tree. IsShortProof tree sequent.now)) }
{
    let goal = read(alloc, &sequent.goal)?;
    if !may_be_goal(&goal.formula) {
        return Ok(None);
    }
    let hyps = sequent.hyps.items();
    for hyp in hyps {
        if let Some(tree) = from_hypothesis(alloc, sequent, &goal, hyp)? {
            return Ok(Some(tree));
        }
    }
    Ok(None)
}

/// A proof in which a hypothesis is used, for the goal as it is read.
fn from_hypothesis(
    alloc: Global,
    sequent: &Sequent,
    goal: &Reading,
    hyp: &Formula,
) -> Result<Option<Tree>, OutOfMemory>
    requires sequent { IsSequent sequent.now }
    requires small { IsSmallSequent sequent.now }
    requires among { Contains sequent.now.hyps hyp.now }
    requires goal { goal.now.formula ≡ as_comparison sequent.now.goal }
    requires law { goal.now.law ≡ law_of_reading sequent.now.goal }
    ensures sure { IfOk result (λ o.
        IsSome o ↔ IsTrue (follows_from (as_comparison sequent.now.goal) (as_comparison hyp.now))) }
    ensures short { IfOk result (λ o. IfSome o (λ tree. IsShortProof tree sequent.now)) }
{
    let reading = read(alloc, hyp)?;
    let Some(tree) = step_by_either(alloc, &reading.formula, &goal.formula)? else {
        return Ok(None);
    };
    let tree = below_hyp(alloc, hyp, reading, tree)?;
    Ok(Some(below_goal(alloc, &sequent.goal, goal, tree)?))
}

/// The tree of a linear step in which a formula is used with the multiplier 1, or −1.
#[tactic(auto, using(crate::proofs::Steps::by_first, crate::proofs::Steps::by_second))]
fn step_by_either(
    alloc: Global,
    used: &Formula,
    goal: &Formula,
) -> Result<Option<Tree>, OutOfMemory>
    requires sound { IsSound (kind.Linear []) (both goal.now (used.now ∷ []) []) }
    ensures tree { IfOk result (λ o. o ≡ either_tree_if used.now goal.now) }
{
    if let Some(tree) = step_from(alloc, used, 1, goal)? {
        return Ok(Some(tree));
    }
    step_from(alloc, used, -1, goal)
}

/// The tree of a linear step in which a formula is used with a multiplier.
fn step_from(
    alloc: Global,
    used: &Formula,
    multiplier: i128,
    goal: &Formula,
) -> Result<Option<Tree>, OutOfMemory>
    requires sound { IsSound (kind.Linear (multiplier ∷ [])) (both goal.now (used.now ∷ []) []) }
    ensures tree { IfOk result (λ o. o ≡ linear_tree_if (multiplier ∷ []) (used.now ∷ []) goal.now) }
{
    if !may_be_multiplied(used, multiplier) {
        return Ok(None);
    }
    let by = one_number(alloc, multiplier)?;
    linear_tree(alloc, by, slice::from_ref(used), goal)
}

fn one_number(alloc: Global, n: i128) -> Result<List<i128>, OutOfMemory>
    ensures { IfOk result (λ list. list ≡ n ∷ []) }
{
    let mut numbers = Vec::new(alloc);
    numbers.push(n)?;
    Ok(List::of(numbers))
}

/// The tree of a linear step, if it is one.
#[tactic(auto, unfolding(crate::specs::Sure::is_linear_step))]
fn linear_tree(
    alloc: Global,
    multipliers: List<i128>,
    hyps: &[Formula],
    goal: &Formula,
) -> Result<Option<Tree>, OutOfMemory>
    requires sound { IsSound (kind.Linear multipliers) (both goal.now hyps.now []) }
    ensures tree { IfOk result (λ o. o ≡ linear_tree_if multipliers hyps.now goal.now) }
{
    let Some(body) = linear_step_of(alloc, multipliers.items(), hyps, goal)? else {
        return Ok(None);
    };
    let rule = rule_of(alloc, RuleKind::Linear(multipliers), body)?;
    Ok(Some(alone(alloc, rule)))
}

/// A tree below the law by which the goal was read.
fn below_goal(
    alloc: Global,
    goal: &Formula,
    reading: &Reading,
    tree: Tree,
) -> Result<Tree, OutOfMemory>
    requires sound { reading.now.law ≢ 0
        → IsSound (kind.RwGoal reading.now.law []) (backward goal.now (proves reading.now.formula ∷ [])) }
    ensures tree { IfOk result (λ t. t ≡ below_goal reading.now.law goal.now reading.now.formula tree) }
{
    if reading.law == 0 {
        return Ok(tree);
    }
    let formula = reading.formula.copy(alloc)?;
    let rule = goal_by_law(alloc, reading.law, goal, formula)?;
    above(alloc, rule, tree)
}

/// A tree below the law by which a hypothesis was read.
fn below_hyp(
    alloc: Global,
    hyp: &Formula,
    reading: Reading,
    tree: Tree,
) -> Result<Tree, OutOfMemory>
    requires sound { reading.law ≢ 0
        → IsSound (kind.RwHyp reading.law []) (forward (hyp.now ∷ []) (adds (reading.formula ∷ []) ∷ [])) }
    ensures tree { IfOk result (λ t. t ≡ below_hyp reading.law hyp.now reading.formula tree) }
{
    let Reading { formula, law } = reading;
    if law == 0 {
        return Ok(tree);
    }
    let rule = hyp_by_law(alloc, law, hyp, formula)?;
    above(alloc, rule, tree)
}
