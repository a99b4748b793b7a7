//! The laws of general and quantified unions and intersections, and of sets by comprehension.
ghost use Rattle.std.specs.Prelude.{◌≡◌, IfOk};
ghost use Rattle.rule_table.specs.SetLaws.{below, member_of_comprehension, member_of_general_intersection};
ghost use Rattle.rule_table.specs.SetLaws.{member_of_general_union, member_of_quantified_intersection};
ghost use Rattle.rule_table.specs.SetLaws.{member_of_quantified_union, new};
ghost use Rattle.rules_sets.specs.Private.{over_bound, over_members};
ghost use Rattle.well_defined.specs.Predicates.{member};

use crate::words::{below, below_all, instead_of, member_type, new_member};
use formula_core::{Binder, Formula, Op, OutOfMemory, Ty, copy_types};
use rule_table::{binary, operand, quantified, quantified_one, two_bound, two_operands};
use std::alloc::Global;

/// `E ∈ s` for the new identifier s of a type.
fn in_new(alloc: Global, e: &Formula, ty: &Ty) -> Result<Formula, OutOfMemory>
    ensures { IfOk result (λ f. f ≡ member (below e.now) (new ty.now)) }
{
    let s = Formula::Bound(0, ty.copy(alloc)?);
    let Ok(e) = below(alloc, e) else {
        return instead_of(s, Err(OutOfMemory));
    };
    binary(alloc, Op::Member, e, s)
}

/// `E ∈ S`, where S is this operator on U: a quantifier over s, with `s ∈ U` and `E ∈ s` connected.
fn over_members(
    alloc: Global,
    op: Op,
    quantifier: Binder,
    connective: Op,
    f: &Formula,
) -> Result<Option<Formula>, OutOfMemory>
    ensures { IfOk result (λ o. o ≡ over_members op quantifier connective f.now) }
{
    let Some((e, set)) = two_operands(Op::Member, f) else {
        return Ok(None);
    };
    let Some(u) = operand(op, set) else {
        return Ok(None);
    };
    let Some(ty) = member_type(u) else {
        return Ok(None);
    };
    let one_of_them = new_member(alloc, ty, u)?;
    let Ok(inside) = in_new(alloc, e, ty) else {
        return instead_of(one_of_them, Err(OutOfMemory));
    };
    let body = binary(alloc, connective, one_of_them, inside)?;
    let Ok(ty) = ty.copy(alloc) else {
        return instead_of(body, Err(OutOfMemory));
    };
    Ok(Some(quantified_one(alloc, quantifier, ty, body)?))
}

/// A member of a general union, `E ∈ union(U)`: `∃s·s ∈ U ∧ E ∈ s`.
pub fn member_of_general_union(alloc: Global, f: &Formula) -> Result<Option<Formula>, OutOfMemory>
    ensures right { IfOk result (λ o. o ≡ member_of_general_union f.now) }
{
    over_members(alloc, Op::GeneralUnion, Binder::Exists, Op::And, f)
}

/// A member of a general intersection, `E ∈ inter(U)`: `∀s·s ∈ U ⇒ E ∈ s`.
pub fn member_of_general_intersection(
    alloc: Global,
    f: &Formula,
) -> Result<Option<Formula>, OutOfMemory>
    ensures right { IfOk result (λ o. o ≡ member_of_general_intersection f.now) }
{
    over_members(
        alloc,
        Op::GeneralIntersection,
        Binder::ForAll,
        Op::Implies,
        f,
    )
}

/// `E ∈ S`, where S is this binder over P and F: a quantifier over its identifiers, with P and `E r F` connected.
fn over_bound(
    alloc: Global,
    binder: Binder,
    quantifier: Binder,
    connective: Op,
    r: Op,
    f: &Formula,
) -> Result<Option<Formula>, OutOfMemory>
    ensures { IfOk result (λ o. o ≡ over_bound binder quantifier connective r f.now) }
{
    let Some((e, set)) = two_operands(Op::Member, f) else {
        return Ok(None);
    };
    let Some((types, p, g)) = two_bound(binder, set) else {
        return Ok(None);
    };
    let inner = below_all(alloc, types, e)?;
    let Ok(g) = g.copy(alloc) else {
        return instead_of(inner, Err(OutOfMemory));
    };
    let related = binary(alloc, r, inner, g)?;
    let Ok(p) = p.copy(alloc) else {
        return instead_of(related, Err(OutOfMemory));
    };
    let body = binary(alloc, connective, p, related)?;
    let Ok(types) = copy_types(alloc, types) else {
        return instead_of(body, Err(OutOfMemory));
    };
    Ok(Some(quantified(alloc, quantifier, types, body)?))
}

/// A member by comprehension, `E ∈ {x·P ∣ F}`: `∃x·P ∧ E = F`.
pub fn member_of_comprehension(alloc: Global, f: &Formula) -> Result<Option<Formula>, OutOfMemory>
    ensures right { IfOk result (λ o. o ≡ member_of_comprehension f.now) }
{
    over_bound(
        alloc,
        Binder::Comprehension,
        Binder::Exists,
        Op::And,
        Op::Equal,
        f,
    )
}

/// A member of a quantified union, `E ∈ ⋃x·P ∣ F`: `∃x·P ∧ E ∈ F`.
pub fn member_of_quantified_union(
    alloc: Global,
    f: &Formula,
) -> Result<Option<Formula>, OutOfMemory>
    ensures right { IfOk result (λ o. o ≡ member_of_quantified_union f.now) }
{
    over_bound(
        alloc,
        Binder::QuantifiedUnion,
        Binder::Exists,
        Op::And,
        Op::Member,
        f,
    )
}

/// A member of a quantified intersection, `E ∈ ⋂x·P ∣ F`: `∀x·P ⇒ E ∈ F`.
pub fn member_of_quantified_intersection(
    alloc: Global,
    f: &Formula,
) -> Result<Option<Formula>, OutOfMemory>
    ensures right { IfOk result (λ o. o ≡ member_of_quantified_intersection f.now) }
{
    over_bound(
        alloc,
        Binder::QuantifiedIntersection,
        Binder::ForAll,
        Op::Implies,
        Op::Member,
        f,
    )
}
