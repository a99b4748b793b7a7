//! The laws of logic, from the left side to the right side.
ghost use Rattle.std.specs.Prelude.{◌≡◌, IfOk};
ghost use Rattle.rule_table.specs.LogicLaws.{bool_is_false, bool_is_true, double_negation, equal_turned};
ghost use Rattle.rule_table.specs.LogicLaws.{negated_and, negated_equivalent, negated_exists, negated_for_all};
ghost use Rattle.rule_table.specs.LogicLaws.{negated_implies, negated_or};

use crate::closing::instead_of;
use formula_core::{Binder, Formula, Op, OutOfMemory, copy_types};
use rule_table::{
    binary, negation, one_bound, operand, operands, predicate, quantified, two_operands,
};
use std::alloc::Global;

/// Double negation, `¬¬P`: `P`.
pub fn double_negation(alloc: Global, f: &Formula) -> Result<Option<Formula>, OutOfMemory>
    ensures law { IfOk result (λ o. o ≡ double_negation f.now) }
{
    let Some(g) = operand(Op::Not, f) else {
        return Ok(None);
    };
    let Some(p) = operand(Op::Not, g) else {
        return Ok(None);
    };
    Ok(Some(p.copy(alloc)?))
}

/// De Morgan's law of a conjunction, `¬(P ∧ Q)`: `¬P ∨ ¬Q`.
pub fn negated_and(alloc: Global, f: &Formula) -> Result<Option<Formula>, OutOfMemory>
    ensures law { IfOk result (λ o. o ≡ negated_and f.now) }
{
    let Some(g) = operand(Op::Not, f) else {
        return Ok(None);
    };
    let Some((p, q)) = two_operands(Op::And, g) else {
        return Ok(None);
    };
    let left = negation(alloc, p.copy(alloc)?)?;
    let Ok(q) = q.copy(alloc) else {
        return instead_of(left, Err(OutOfMemory));
    };
    let Ok(right) = negation(alloc, q) else {
        return instead_of(left, Err(OutOfMemory));
    };
    Ok(Some(binary(alloc, Op::Or, left, right)?))
}

/// De Morgan's law of a disjunction, `¬(P ∨ Q)`: `¬P ∧ ¬Q`.
pub fn negated_or(alloc: Global, f: &Formula) -> Result<Option<Formula>, OutOfMemory>
    ensures law { IfOk result (λ o. o ≡ negated_or f.now) }
{
    let Some(g) = operand(Op::Not, f) else {
        return Ok(None);
    };
    let Some((p, q)) = two_operands(Op::Or, g) else {
        return Ok(None);
    };
    let left = negation(alloc, p.copy(alloc)?)?;
    let Ok(q) = q.copy(alloc) else {
        return instead_of(left, Err(OutOfMemory));
    };
    let Ok(right) = negation(alloc, q) else {
        return instead_of(left, Err(OutOfMemory));
    };
    Ok(Some(binary(alloc, Op::And, left, right)?))
}

/// A negated implication, `¬(P ⇒ Q)`: `P ∧ ¬Q`.
pub fn negated_implies(alloc: Global, f: &Formula) -> Result<Option<Formula>, OutOfMemory>
    ensures law { IfOk result (λ o. o ≡ negated_implies f.now) }
{
    let Some(g) = operand(Op::Not, f) else {
        return Ok(None);
    };
    let Some((p, q)) = two_operands(Op::Implies, g) else {
        return Ok(None);
    };
    let right = negation(alloc, q.copy(alloc)?)?;
    let Ok(p) = p.copy(alloc) else {
        return instead_of(right, Err(OutOfMemory));
    };
    Ok(Some(binary(alloc, Op::And, p, right)?))
}

/// A negated equivalence, `¬(P ⇔ Q)`: `P ⇔ ¬Q`.
pub fn negated_equivalent(alloc: Global, f: &Formula) -> Result<Option<Formula>, OutOfMemory>
    ensures law { IfOk result (λ o. o ≡ negated_equivalent f.now) }
{
    let Some(g) = operand(Op::Not, f) else {
        return Ok(None);
    };
    let Some((p, q)) = two_operands(Op::Equivalent, g) else {
        return Ok(None);
    };
    let right = negation(alloc, q.copy(alloc)?)?;
    let Ok(p) = p.copy(alloc) else {
        return instead_of(right, Err(OutOfMemory));
    };
    Ok(Some(binary(alloc, Op::Equivalent, p, right)?))
}

/// A negated universal quantifier, `¬(∀x·P)`: `∃x·¬P`.
pub fn negated_for_all(alloc: Global, f: &Formula) -> Result<Option<Formula>, OutOfMemory>
    ensures law { IfOk result (λ o. o ≡ negated_for_all f.now) }
{
    let Some(g) = operand(Op::Not, f) else {
        return Ok(None);
    };
    let Some((types, p)) = one_bound(Binder::ForAll, g) else {
        return Ok(None);
    };
    let body = negation(alloc, p.copy(alloc)?)?;
    let Ok(types) = copy_types(alloc, types) else {
        return instead_of(body, Err(OutOfMemory));
    };
    Ok(Some(quantified(alloc, Binder::Exists, types, body)?))
}

/// A negated existential quantifier, `¬(∃x·P)`: `∀x·¬P`.
pub fn negated_exists(alloc: Global, f: &Formula) -> Result<Option<Formula>, OutOfMemory>
    ensures law { IfOk result (λ o. o ≡ negated_exists f.now) }
{
    let Some(g) = operand(Op::Not, f) else {
        return Ok(None);
    };
    let Some((types, p)) = one_bound(Binder::Exists, g) else {
        return Ok(None);
    };
    let body = negation(alloc, p.copy(alloc)?)?;
    let Ok(types) = copy_types(alloc, types) else {
        return instead_of(body, Err(OutOfMemory));
    };
    Ok(Some(quantified(alloc, Binder::ForAll, types, body)?))
}

/// A boolean that is true, `bool(P) = TRUE`: `P`.
pub fn bool_is_true(alloc: Global, f: &Formula) -> Result<Option<Formula>, OutOfMemory>
    ensures law { IfOk result (λ o. o ≡ bool_is_true f.now) }
{
    let Some((e, t)) = two_operands(Op::Equal, f) else {
        return Ok(None);
    };
    let Some(p) = operand(Op::BoolOf, e) else {
        return Ok(None);
    };
    match operands(Op::TrueValue, t) {
        Some([]) => Ok(Some(p.copy(alloc)?)),
        _ => Ok(None),
    }
}

/// A boolean that is false, `bool(P) = FALSE`: `¬P`.
pub fn bool_is_false(alloc: Global, f: &Formula) -> Result<Option<Formula>, OutOfMemory>
    ensures law { IfOk result (λ o. o ≡ bool_is_false f.now) }
{
    let Some((e, t)) = two_operands(Op::Equal, f) else {
        return Ok(None);
    };
    let Some(p) = operand(Op::BoolOf, e) else {
        return Ok(None);
    };
    match operands(Op::FalseValue, t) {
        Some([]) => Ok(Some(negation(alloc, p.copy(alloc)?)?)),
        _ => Ok(None),
    }
}

/// Equality turned round, `E = F`: `F = E`.
pub fn equal_turned(alloc: Global, f: &Formula) -> Result<Option<Formula>, OutOfMemory>
    ensures law { IfOk result (λ o. o ≡ equal_turned f.now) }
{
    let Some((e, g)) = two_operands(Op::Equal, f) else {
        return Ok(None);
    };
    Ok(Some(predicate(alloc, Op::Equal, g, e)?))
}
