//! The laws of arithmetic, from the left side to the right side.
ghost use Rattle.std.specs.Prelude.{◌≡◌, IfOk};
ghost use Rattle.std.specs.Option.{option_map};
ghost use Rattle.rule_table.specs.Shapes.{plus_one, minus_one, equal};
ghost use Rattle.rule_table.specs.ArithmeticLaws.{member_of_naturals, member_of_positive_naturals, member_of_interval, member_of_successor, member_of_predecessor, negated_less, negated_at_most, equal_integers, less_is_at_most};

use formula_core::{Formula, Op, OutOfMemory, Ty};
use rule_table::{binary, operand, operands, predicate, two, two_operands};
use std::alloc::Global;

/// `E ∈ ℕ`: `0 ≤ E`
pub fn member_of_naturals(alloc: Global, f: &Formula) -> Result<Option<Formula>, OutOfMemory>
    ensures right { IfOk result (λ o. o ≡ member_of_naturals f.now) }
{
    let Some((e, set)) = two_operands(Op::Member, f) else {
        return Ok(None);
    };
    match operands(Op::Naturals, set) {
        Some([]) => Ok(Some(binary(alloc, Op::LessOrEqual, Formula::Int(0), e.copy(alloc)?)?)),
        _ => Ok(None),
    }
}

/// `E ∈ ℕ1`: `1 ≤ E`
pub fn member_of_positive_naturals(
    alloc: Global,
    f: &Formula,
) -> Result<Option<Formula>, OutOfMemory>
    ensures right { IfOk result (λ o. o ≡ member_of_positive_naturals f.now) }
{
    let Some((e, set)) = two_operands(Op::Member, f) else {
        return Ok(None);
    };
    match operands(Op::PositiveNaturals, set) {
        Some([]) => Ok(Some(binary(alloc, Op::LessOrEqual, Formula::Int(1), e.copy(alloc)?)?)),
        _ => Ok(None),
    }
}

/// `E ∈ a ‥ b`: `a ≤ E ∧ E ≤ b`
pub fn member_of_interval(alloc: Global, f: &Formula) -> Result<Option<Formula>, OutOfMemory>
    ensures right { IfOk result (λ o. o ≡ member_of_interval f.now) }
{
    let Some((e, set)) = two_operands(Op::Member, f) else {
        return Ok(None);
    };
    let Some((a, b)) = two_operands(Op::Interval, set) else {
        return Ok(None);
    };
    let left = predicate(alloc, Op::LessOrEqual, a, e)?;
    let right = predicate(alloc, Op::LessOrEqual, e, b)?;
    Ok(Some(binary(alloc, Op::And, left, right)?))
}

/// `E + 1`
fn plus_one(alloc: Global, e: &Formula) -> Result<Formula, OutOfMemory>
    ensures { IfOk result (λ f. f ≡ plus_one e.now) }
{
    Ok(Formula::Node(
        Op::Plus,
        two(alloc, e.copy(alloc)?, Formula::Int(1))?,
        Ty::Int,
    ))
}

/// `E − 1`
fn minus_one(alloc: Global, e: &Formula) -> Result<Formula, OutOfMemory>
    ensures { IfOk result (λ f. f ≡ minus_one e.now) }
{
    Ok(Formula::Node(
        Op::Minus,
        two(alloc, e.copy(alloc)?, Formula::Int(1))?,
        Ty::Int,
    ))
}

/// `E ↦ F ∈ succ`: `F = E + 1`
pub fn member_of_successor(alloc: Global, f: &Formula) -> Result<Option<Formula>, OutOfMemory>
    ensures right { IfOk result (λ o. o ≡ member_of_successor f.now) }
{
    let Some((pair, set)) = two_operands(Op::Member, f) else {
        return Ok(None);
    };
    let Some([]) = operands(Op::Successor, set) else {
        return Ok(None);
    };
    let Some((e, next)) = two_operands(Op::Maplet, pair) else {
        return Ok(None);
    };
    let value = plus_one(alloc, e)?;
    Ok(Some(binary(alloc, Op::Equal, next.copy(alloc)?, value)?))
}

/// `E ↦ F ∈ pred`: `F = E − 1`
pub fn member_of_predecessor(alloc: Global, f: &Formula) -> Result<Option<Formula>, OutOfMemory>
    ensures right { IfOk result (λ o. o ≡ member_of_predecessor f.now) }
{
    let Some((pair, set)) = two_operands(Op::Member, f) else {
        return Ok(None);
    };
    let Some([]) = operands(Op::Predecessor, set) else {
        return Ok(None);
    };
    let Some((e, next)) = two_operands(Op::Maplet, pair) else {
        return Ok(None);
    };
    let value = minus_one(alloc, e)?;
    Ok(Some(binary(alloc, Op::Equal, next.copy(alloc)?, value)?))
}

/// `¬ E < F`: `F ≤ E`
pub fn negated_less(alloc: Global, f: &Formula) -> Result<Option<Formula>, OutOfMemory>
    ensures right { IfOk result (λ o. o ≡ negated_less f.now) }
{
    let Some(inner) = operand(Op::Not, f) else {
        return Ok(None);
    };
    let Some((left, right)) = two_operands(Op::Less, inner) else {
        return Ok(None);
    };
    Ok(Some(predicate(alloc, Op::LessOrEqual, right, left)?))
}

/// `¬ E ≤ F`: `F < E`
pub fn negated_at_most(alloc: Global, f: &Formula) -> Result<Option<Formula>, OutOfMemory>
    ensures right { IfOk result (λ o. o ≡ negated_at_most f.now) }
{
    let Some(inner) = operand(Op::Not, f) else {
        return Ok(None);
    };
    let Some((left, right)) = two_operands(Op::LessOrEqual, inner) else {
        return Ok(None);
    };
    Ok(Some(predicate(alloc, Op::Less, right, left)?))
}

/// `E = F` of integers: `E ≤ F ∧ F ≤ E`
pub fn equal_integers(alloc: Global, f: &Formula) -> Result<Option<Formula>, OutOfMemory>
    ensures right { IfOk result (λ o. o ≡ equal_integers f.now) }
{
    let Some((left, right)) = two_operands(Op::Equal, f) else {
        return Ok(None);
    };
    let integer = Ty::Int;
    if !left.type_of(&integer).is_integer() {
        return Ok(None);
    }
    let first = predicate(alloc, Op::LessOrEqual, left, right)?;
    let second = predicate(alloc, Op::LessOrEqual, right, left)?;
    Ok(Some(binary(alloc, Op::And, first, second)?))
}

/// `E < F`: `E + 1 ≤ F`
pub fn less_is_at_most(alloc: Global, f: &Formula) -> Result<Option<Formula>, OutOfMemory>
    ensures right { IfOk result (λ o. o ≡ less_is_at_most f.now) }
{
    let Some((left, right)) = two_operands(Op::Less, f) else {
        return Ok(None);
    };
    let next = plus_one(alloc, left)?;
    Ok(Some(binary(alloc, Op::LessOrEqual, next, right.copy(alloc)?)?))
}
