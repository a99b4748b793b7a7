//! Whether a sequent is small, and which form its goal has.
ghost use Rattle.std.specs.Prelude.{◌≡◌, ◌↔◌, IsTrue, IfOk};
ghost use Rattle.std.specs.List.{AllByRecursion};
ghost use Rattle.formula_core.specs.Sizes.{IsWithinLimits};
ghost use Rattle.formula_core.specs.declared.Formula.{Formula};
ghost use Rattle.formula_core.specs.declared.Formula.TheOpen.{Node as NodeShape};
ghost use Rattle.formula_core.specs.declared.Ty.{Ty};
ghost use Rattle.rule_table.specs.Linear.{is_formula_among, may_be_goal, may_be_multiplied, shape, shape_at, shape_of_none, shape_of_two};
ghost use Rattle.rule_table.specs.Shapes.{bottom};
ghost use Rattle.short_proofs.specs.Sure.{IsSmallSequent, is_reflexive};

use formula_core::{Formula, List, Op, OutOfMemory, Ty};
use rule_table::{predicate, two_operands};
use sequent_core::Sequent;
use std::alloc::Global;

/// Whether no formula passes the limits.
pub(crate) fn is_small(sequent: &Sequent) -> bool
    ensures { IsTrue result ↔ IsSmallSequent sequent.now }
{
    sequent.goal.is_within_limits() && are_small(sequent.hyps.items())
}

fn are_small(formulas: &[Formula]) -> bool
    ensures { IsTrue result ↔ AllByRecursion IsWithinLimits formulas.now }
{
    for formula in formulas {
        if !formula.is_within_limits() {
            return false;
        }
    }
    true
}

/// Whether a formula is one of these.
pub(crate) fn is_among(formulas: &[Formula], f: &Formula) -> bool
    ensures { result ≡ is_formula_among formulas.now f.now }
{
    for formula in formulas {
        if formula.same(f) {
            return true;
        }
    }
    false
}

/// `⊥`
pub(crate) fn bottom(alloc: Global) -> Formula
    ensures { result ≡ bottom }
{
    Formula::Node(Op::Bottom, List::of(Vec::new(alloc)), Ty::Truth)
}

/// Whether it is `E = E`.
pub(crate) fn is_reflexive(alloc: Global, f: &Formula) -> Result<bool, OutOfMemory>
    ensures { IfOk result (λ b. b ≡ is_reflexive f.now) }
{
    match two_operands(Op::Equal, f) {
        Some((left, _)) => {
            let reflexive = predicate(alloc, Op::Equal, left, left)?;
            Ok(f.same(&reflexive))
        }
        None => Ok(false),
    }
}

/// Whether it may be the goal of a linear step: `E ≤ F`, `E < F`, or `⊥`.
pub(crate) fn may_be_goal(f: &Formula) -> bool
    ensures { result ≡ may_be_goal (shape f.now) }
{
    match f {
        Formula::Node(op, parts, _) => is_goal(*op, parts.items()),
        _ => false,
    }
}

fn is_goal(op: Op, parts: &[Formula]) -> bool
    ensures { (t : Ty) → result ≡ may_be_goal (shape_at (NodeShape op parts.now t)) }
{
    match parts {
        [] => is_goal_of_none(op),
        [_, _] => is_goal_of_two(op),
        _ => false,
    }
}

fn is_goal_of_none(op: Op) -> bool
    ensures { result ≡ may_be_goal (shape_of_none op) }
{
    match op {
        Op::Bottom => true,
        _ => false,
    }
}

fn is_goal_of_two(op: Op) -> bool
    ensures { (e f : Formula) → result ≡ may_be_goal (shape_of_two op e f) }
{
    match op {
        Op::LessOrEqual | Op::Less => true,
        _ => false,
    }
}

/// Whether it may be a hypothesis of a linear step with this multiplier: an equation of integers, and `E ≤ F` or `E < F`
/// where the multiplier isn't negative.
pub(crate) fn may_be_multiplied(f: &Formula, multiplier: i128) -> bool
    ensures { result ≡ may_be_multiplied (shape f.now) multiplier }
{
    match f {
        Formula::Node(op, parts, _) => is_multiplied(*op, parts.items(), multiplier),
        _ => false,
    }
}

fn is_multiplied(op: Op, parts: &[Formula], multiplier: i128) -> bool
    ensures { (t : Ty) → result ≡ may_be_multiplied (shape_at (NodeShape op parts.now t)) multiplier }
{
    match parts {
        [e, _] => is_multiplied_of_two(op, e, multiplier),
        _ => false,
    }
}

fn is_multiplied_of_two(op: Op, e: &Formula, multiplier: i128) -> bool
    ensures { (f : Formula) → result ≡ may_be_multiplied (shape_of_two op e.now f) multiplier }
{
    match op {
        Op::LessOrEqual | Op::Less => 0 <= multiplier,
        Op::Equal => {
            let integer = Ty::Int;
            e.type_of(&integer).is_integer()
        }
        _ => false,
    }
}
