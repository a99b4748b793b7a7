//! The laws of sets, from the left side to the right side.
ghost use Rattle.std.specs.Prelude.{◌≡◌, IfOk, fold};
ghost use Rattle.formula_core.specs.Wellness.{type_of};
ghost use Rattle.rule_table.specs.SetLaws.{equal_sets, equal_to_empty, equal_to_one_of, finite_empty};
ghost use Rattle.rule_table.specs.SetLaws.{finite_extension, finite_interval, finite_union, inclusion};
ghost use Rattle.rule_table.specs.SetLaws.{member_of_difference, member_of_empty, member_of_extension};
ghost use Rattle.rule_table.specs.SetLaws.{member_of_intersection, member_of_non_empty_power_set};
ghost use Rattle.rule_table.specs.SetLaws.{member_of_power_set, member_of_union, member_of_whole};
ghost use Rattle.rule_table.specs.SetLaws.{or_equal, proper_inclusion};
ghost use Rattle.rule_table.specs.Shapes.{empty, equal, negation};
ghost use Rattle.rules_sets.specs.Private.{in_both};
ghost use Rattle.well_defined.specs.Predicates.{finite};

use crate::words::{bottom, denied, instead_of, member_type, new_member};
use formula_core::{Binder, Formula, List, Op, OutOfMemory, Ty};
use rule_table::{
    binary, negation, one, operand, operands, predicate, quantified_one, top, two_operands,
};
use std::alloc::Global;

/// `E ∈ S`, where S is this operator on T and U: `E ∈ T` and `E ∈ U`, connected.
fn in_both(
    alloc: Global,
    op: Op,
    connective: Op,
    f: &Formula,
) -> Result<Option<Formula>, OutOfMemory>
    ensures { IfOk result (λ o. o ≡ in_both op connective f.now) }
{
    let Some((e, set)) = two_operands(Op::Member, f) else {
        return Ok(None);
    };
    let Some((s, t)) = two_operands(op, set) else {
        return Ok(None);
    };
    let left = predicate(alloc, Op::Member, e, s)?;
    let Ok(right) = predicate(alloc, Op::Member, e, t) else {
        return instead_of(left, Err(OutOfMemory));
    };
    Ok(Some(binary(alloc, connective, left, right)?))
}

/// A member of a union, `E ∈ S ∪ T`: `E ∈ S ∨ E ∈ T`.
pub fn member_of_union(alloc: Global, f: &Formula) -> Result<Option<Formula>, OutOfMemory>
    ensures right { IfOk result (λ o. o ≡ member_of_union f.now) }
{
    in_both(alloc, Op::Union, Op::Or, f)
}

/// A member of an intersection, `E ∈ S ∩ T`: `E ∈ S ∧ E ∈ T`.
pub fn member_of_intersection(alloc: Global, f: &Formula) -> Result<Option<Formula>, OutOfMemory>
    ensures right { IfOk result (λ o. o ≡ member_of_intersection f.now) }
{
    in_both(alloc, Op::Intersection, Op::And, f)
}

/// A member of a difference, `E ∈ S ∖ T`: `E ∈ S ∧ ¬ E ∈ T`.
pub fn member_of_difference(alloc: Global, f: &Formula) -> Result<Option<Formula>, OutOfMemory>
    ensures right { IfOk result (λ o. o ≡ member_of_difference f.now) }
{
    let Some((e, set)) = two_operands(Op::Member, f) else {
        return Ok(None);
    };
    let Some((s, t)) = two_operands(Op::Difference, set) else {
        return Ok(None);
    };
    let left = predicate(alloc, Op::Member, e, s)?;
    let Ok(right) = denied(alloc, Op::Member, e, t) else {
        return instead_of(left, Err(OutOfMemory));
    };
    Ok(Some(binary(alloc, Op::And, left, right)?))
}

/// A listed member, `E ∈ {F1, .., Fn}`: `E = F1 ∨ .. ∨ E = Fn`.
pub fn member_of_extension(alloc: Global, f: &Formula) -> Result<Option<Formula>, OutOfMemory>
    ensures right { IfOk result (λ o. o ≡ member_of_extension f.now) }
{
    let Some((e, set)) = two_operands(Op::Member, f) else {
        return Ok(None);
    };
    let Some(members) = operands(Op::SetExtension, set) else {
        return Ok(None);
    };
    equal_to_one_of(alloc, e, members)
}

fn equal_to_one_of(
    alloc: Global,
    e: &Formula,
    members: &[Formula],
) -> Result<Option<Formula>, OutOfMemory>
    ensures { IfOk result (λ o. o ≡ equal_to_one_of e.now members.now) }
{
    match members {
        [] => Ok(None),
        [first, rest @ ..] => {
            let equal = predicate(alloc, Op::Equal, e, first)?;
            Ok(Some(or_equal_to(alloc, e, equal, rest)?))
        }
    }
}

fn or_equal_to(
    alloc: Global,
    e: &Formula,
    first: Formula,
    rest: &[Formula],
) -> Result<Formula, OutOfMemory>
    ensures { IfOk result (λ f. f ≡ fold (or_equal e.now) first rest.now) }
{
    let mut any = first;
    for member in rest {
        let Ok(equal) = predicate(alloc, Op::Equal, e, member) else {
            return instead_of(any, Err(OutOfMemory));
        };
        any = binary(alloc, Op::Or, any, equal)?;
    }
    Ok(any)
}

/// A member of the empty set, `E ∈ ∅`: `⊥`.
pub fn member_of_empty(alloc: Global, f: &Formula) -> Result<Option<Formula>, OutOfMemory>
    ensures right { IfOk result (λ o. o ≡ member_of_empty f.now) }
{
    let Some((_, set)) = two_operands(Op::Member, f) else {
        return Ok(None);
    };
    match operands(Op::EmptySet, set) {
        Some([]) => Ok(Some(bottom(alloc))),
        _ => Ok(None),
    }
}

/// Inclusion, `S ⊆ T`: `∀x·x ∈ S ⇒ x ∈ T`.
pub fn inclusion(alloc: Global, f: &Formula) -> Result<Option<Formula>, OutOfMemory>
    ensures right { IfOk result (λ o. o ≡ inclusion f.now) }
{
    let Some((s, t)) = two_operands(Op::Subset, f) else {
        return Ok(None);
    };
    let Some(ty) = member_type(s) else {
        return Ok(None);
    };
    let inside = new_member(alloc, ty, s)?;
    let Ok(also) = new_member(alloc, ty, t) else {
        return instead_of(inside, Err(OutOfMemory));
    };
    let body = binary(alloc, Op::Implies, inside, also)?;
    let Ok(ty) = ty.copy(alloc) else {
        return instead_of(body, Err(OutOfMemory));
    };
    Ok(Some(quantified_one(alloc, Binder::ForAll, ty, body)?))
}

/// Proper inclusion, `S ⊂ T`: `S ⊆ T ∧ ¬ S = T`.
pub fn proper_inclusion(alloc: Global, f: &Formula) -> Result<Option<Formula>, OutOfMemory>
    ensures right { IfOk result (λ o. o ≡ proper_inclusion f.now) }
{
    let Some((s, t)) = two_operands(Op::ProperSubset, f) else {
        return Ok(None);
    };
    let left = predicate(alloc, Op::Subset, s, t)?;
    let Ok(right) = denied(alloc, Op::Equal, s, t) else {
        return instead_of(left, Err(OutOfMemory));
    };
    Ok(Some(binary(alloc, Op::And, left, right)?))
}

/// Equal sets, `S = T`: `S ⊆ T ∧ T ⊆ S`.
pub fn equal_sets(alloc: Global, f: &Formula) -> Result<Option<Formula>, OutOfMemory>
    ensures right { IfOk result (λ o. o ≡ equal_sets f.now) }
{
    let Some((s, t)) = two_operands(Op::Equal, f) else {
        return Ok(None);
    };
    let Some(_) = member_type(s) else {
        return Ok(None);
    };
    let left = predicate(alloc, Op::Subset, s, t)?;
    let Ok(right) = predicate(alloc, Op::Subset, t, s) else {
        return instead_of(left, Err(OutOfMemory));
    };
    Ok(Some(binary(alloc, Op::And, left, right)?))
}

/// An empty set, `S = ∅`: `∀x·¬ x ∈ S`.
pub fn equal_to_empty(alloc: Global, f: &Formula) -> Result<Option<Formula>, OutOfMemory>
    ensures right { IfOk result (λ o. o ≡ equal_to_empty f.now) }
{
    let Some((s, t)) = two_operands(Op::Equal, f) else {
        return Ok(None);
    };
    let Some([]) = operands(Op::EmptySet, t) else {
        return Ok(None);
    };
    let Some(ty) = member_type(s) else {
        return Ok(None);
    };
    let body = negation(alloc, new_member(alloc, ty, s)?)?;
    let Ok(ty) = ty.copy(alloc) else {
        return instead_of(body, Err(OutOfMemory));
    };
    Ok(Some(quantified_one(alloc, Binder::ForAll, ty, body)?))
}

/// A set of members of S, `E ∈ ℙ(S)`: `E ⊆ S`.
pub fn member_of_power_set(alloc: Global, f: &Formula) -> Result<Option<Formula>, OutOfMemory>
    ensures right { IfOk result (λ o. o ≡ member_of_power_set f.now) }
{
    let Some((e, set)) = two_operands(Op::Member, f) else {
        return Ok(None);
    };
    let Some(s) = operand(Op::PowerSet, set) else {
        return Ok(None);
    };
    Ok(Some(predicate(alloc, Op::Subset, e, s)?))
}

/// `¬ E = ∅`
fn is_not_empty(alloc: Global, e: &Formula) -> Result<Formula, OutOfMemory>
    ensures { IfOk result (λ f. f ≡ negation (equal e.now (empty (type_of e.now)))) }
{
    let integer = Ty::Int;
    let ty = e.type_of(&integer).copy(alloc)?;
    let empty = Formula::Node(Op::EmptySet, List::of(Vec::new(alloc)), ty);
    let Ok(e) = e.copy(alloc) else {
        return instead_of(empty, Err(OutOfMemory));
    };
    negation(alloc, binary(alloc, Op::Equal, e, empty)?)
}

/// A set of members of S that has some, `E ∈ ℙ1(S)`: `E ⊆ S ∧ ¬ E = ∅`.
pub fn member_of_non_empty_power_set(
    alloc: Global,
    f: &Formula,
) -> Result<Option<Formula>, OutOfMemory>
    ensures right { IfOk result (λ o. o ≡ member_of_non_empty_power_set f.now) }
{
    let Some((e, set)) = two_operands(Op::Member, f) else {
        return Ok(None);
    };
    let Some(s) = operand(Op::NonEmptyPowerSet, set) else {
        return Ok(None);
    };
    let left = predicate(alloc, Op::Subset, e, s)?;
    let Ok(right) = is_not_empty(alloc, e) else {
        return instead_of(left, Err(OutOfMemory));
    };
    Ok(Some(binary(alloc, Op::And, left, right)?))
}

/// A member of all values of its type, `E ∈ T`: `⊤`.
pub fn member_of_whole(alloc: Global, f: &Formula) -> Result<Option<Formula>, OutOfMemory>
    ensures right { IfOk result (λ o. o ≡ member_of_whole f.now) }
{
    let Some((e, t)) = two_operands(Op::Member, f) else {
        return Ok(None);
    };
    let integer = Ty::Int;
    let whole = e.type_of(&integer).whole_set(alloc)?;
    let same = t.same(&whole);
    if !instead_of(whole, same) {
        return Ok(None);
    }
    Ok(Some(top(alloc)))
}

/// The empty set is finite, `finite(∅)`: `⊤`.
pub fn finite_empty(alloc: Global, f: &Formula) -> Result<Option<Formula>, OutOfMemory>
    ensures right { IfOk result (λ o. o ≡ finite_empty f.now) }
{
    let Some(s) = operand(Op::Finite, f) else {
        return Ok(None);
    };
    match operands(Op::EmptySet, s) {
        Some([]) => Ok(Some(top(alloc))),
        _ => Ok(None),
    }
}

/// Listed members are finitely many, `finite({F1, .., Fn})`: `⊤`.
pub fn finite_extension(alloc: Global, f: &Formula) -> Result<Option<Formula>, OutOfMemory>
    ensures right { IfOk result (λ o. o ≡ finite_extension f.now) }
{
    let Some(s) = operand(Op::Finite, f) else {
        return Ok(None);
    };
    match operands(Op::SetExtension, s) {
        Some(_) => Ok(Some(top(alloc))),
        None => Ok(None),
    }
}

/// `finite(S)`
pub(crate) fn finite(alloc: Global, s: &Formula) -> Result<Formula, OutOfMemory>
    ensures { IfOk result (λ f. f ≡ finite s.now) }
{
    Ok(Formula::Node(Op::Finite, one(alloc, s.copy(alloc)?)?, Ty::Truth))
}

/// A finite union, `finite(S ∪ T)`: `finite(S) ∧ finite(T)`.
pub fn finite_union(alloc: Global, f: &Formula) -> Result<Option<Formula>, OutOfMemory>
    ensures right { IfOk result (λ o. o ≡ finite_union f.now) }
{
    let Some(u) = operand(Op::Finite, f) else {
        return Ok(None);
    };
    let Some((s, t)) = two_operands(Op::Union, u) else {
        return Ok(None);
    };
    let left = finite(alloc, s)?;
    let Ok(right) = finite(alloc, t) else {
        return instead_of(left, Err(OutOfMemory));
    };
    Ok(Some(binary(alloc, Op::And, left, right)?))
}

/// An interval is finite, `finite(a ‥ b)`: `⊤`.
pub fn finite_interval(alloc: Global, f: &Formula) -> Result<Option<Formula>, OutOfMemory>
    ensures right { IfOk result (λ o. o ≡ finite_interval f.now) }
{
    let Some(s) = operand(Op::Finite, f) else {
        return Ok(None);
    };
    match two_operands(Op::Interval, s) {
        Some(_) => Ok(Some(top(alloc))),
        None => Ok(None),
    }
}
