//! The laws of relations and pairs, from the left side to the right side.
ghost use Rattle.std.specs.Prelude.{◌≡◌, IfOk};
ghost use Rattle.formula_core.specs.Wellness.{type_of};
ghost use Rattle.rule_table.specs.SetLaws.{equal_pairs, member_of_composition, member_of_converse};
ghost use Rattle.rule_table.specs.SetLaws.{member_of_direct_product, member_of_domain};
ghost use Rattle.rule_table.specs.SetLaws.{member_of_domain_restriction, member_of_domain_subtraction};
ghost use Rattle.rule_table.specs.SetLaws.{member_of_first_projection, member_of_identity};
ghost use Rattle.rule_table.specs.SetLaws.{member_of_image, member_of_overriding};
ghost use Rattle.rule_table.specs.SetLaws.{member_of_parallel_product, member_of_product};
ghost use Rattle.rule_table.specs.SetLaws.{member_of_range, member_of_range_restriction};
ghost use Rattle.rule_table.specs.SetLaws.{member_of_range_subtraction, member_of_second_projection};
ghost use Rattle.rule_table.specs.SetLaws.{overridden_at};
ghost use Rattle.rule_table.specs.Shapes.{negation};
ghost use Rattle.well_defined.specs.Predicates.{conjunction, domain, member};

use crate::words::{
    denied, in_domain, instead_of, leads_from, leads_to, new_member, pair_in, relation_types,
};
use formula_core::{Binder, Formula, Op, OutOfMemory, Ty};
use rule_table::{binary, negation, operand, operands, predicate, quantified_one, two_operands};
use std::alloc::Global;

/// A pair in a product, `E ↦ F ∈ S × T`: `E ∈ S ∧ F ∈ T`.
pub fn member_of_product(alloc: Global, f: &Formula) -> Result<Option<Formula>, OutOfMemory>
    ensures right { IfOk result (λ o. o ≡ member_of_product f.now) }
{
    let Some((p, set)) = two_operands(Op::Member, f) else {
        return Ok(None);
    };
    let Some((s, t)) = two_operands(Op::Product, set) else {
        return Ok(None);
    };
    let Some((e, v)) = two_operands(Op::Maplet, p) else {
        return Ok(None);
    };
    let left = predicate(alloc, Op::Member, e, s)?;
    let Ok(right) = predicate(alloc, Op::Member, v, t) else {
        return instead_of(left, Err(OutOfMemory));
    };
    Ok(Some(binary(alloc, Op::And, left, right)?))
}

/// A member of a domain, `E ∈ dom(r)`: `∃y·E ↦ y ∈ r`.
pub fn member_of_domain(alloc: Global, f: &Formula) -> Result<Option<Formula>, OutOfMemory>
    ensures right { IfOk result (λ o. o ≡ member_of_domain f.now) }
{
    let Some((e, set)) = two_operands(Op::Member, f) else {
        return Ok(None);
    };
    let Some(r) = operand(Op::Domain, set) else {
        return Ok(None);
    };
    let Some((_, to)) = relation_types(r) else {
        return Ok(None);
    };
    let body = leads_from(alloc, e, to, r)?;
    let Ok(to) = to.copy(alloc) else {
        return instead_of(body, Err(OutOfMemory));
    };
    Ok(Some(quantified_one(alloc, Binder::Exists, to, body)?))
}

/// A member of a range, `E ∈ ran(r)`: `∃x·x ↦ E ∈ r`.
pub fn member_of_range(alloc: Global, f: &Formula) -> Result<Option<Formula>, OutOfMemory>
    ensures right { IfOk result (λ o. o ≡ member_of_range f.now) }
{
    let Some((e, set)) = two_operands(Op::Member, f) else {
        return Ok(None);
    };
    let Some(r) = operand(Op::Range, set) else {
        return Ok(None);
    };
    let Some((from, _)) = relation_types(r) else {
        return Ok(None);
    };
    let body = leads_to(alloc, from, e, r)?;
    let Ok(from) = from.copy(alloc) else {
        return instead_of(body, Err(OutOfMemory));
    };
    Ok(Some(quantified_one(alloc, Binder::Exists, from, body)?))
}

/// A pair in a converse, `E ↦ F ∈ r∼`: `F ↦ E ∈ r`.
pub fn member_of_converse(alloc: Global, f: &Formula) -> Result<Option<Formula>, OutOfMemory>
    ensures right { IfOk result (λ o. o ≡ member_of_converse f.now) }
{
    let Some((p, set)) = two_operands(Op::Member, f) else {
        return Ok(None);
    };
    let Some(r) = operand(Op::Converse, set) else {
        return Ok(None);
    };
    let Some((e, v)) = two_operands(Op::Maplet, p) else {
        return Ok(None);
    };
    Ok(Some(pair_in(alloc, v, e, r)?))
}

/// A pair in a domain restriction, `E ↦ F ∈ S ◁ r`: `E ∈ S ∧ E ↦ F ∈ r`.
pub fn member_of_domain_restriction(
    alloc: Global,
    f: &Formula,
) -> Result<Option<Formula>, OutOfMemory>
    ensures right { IfOk result (λ o. o ≡ member_of_domain_restriction f.now) }
{
    let Some((p, set)) = two_operands(Op::Member, f) else {
        return Ok(None);
    };
    let Some((s, r)) = two_operands(Op::DomainRestriction, set) else {
        return Ok(None);
    };
    let Some((e, _)) = two_operands(Op::Maplet, p) else {
        return Ok(None);
    };
    let left = predicate(alloc, Op::Member, e, s)?;
    let Ok(right) = predicate(alloc, Op::Member, p, r) else {
        return instead_of(left, Err(OutOfMemory));
    };
    Ok(Some(binary(alloc, Op::And, left, right)?))
}

/// A pair in a domain subtraction, `E ↦ F ∈ S ⩤ r`: `¬ E ∈ S ∧ E ↦ F ∈ r`.
pub fn member_of_domain_subtraction(
    alloc: Global,
    f: &Formula,
) -> Result<Option<Formula>, OutOfMemory>
    ensures right { IfOk result (λ o. o ≡ member_of_domain_subtraction f.now) }
{
    let Some((p, set)) = two_operands(Op::Member, f) else {
        return Ok(None);
    };
    let Some((s, r)) = two_operands(Op::DomainSubtraction, set) else {
        return Ok(None);
    };
    let Some((e, _)) = two_operands(Op::Maplet, p) else {
        return Ok(None);
    };
    let left = denied(alloc, Op::Member, e, s)?;
    let Ok(right) = predicate(alloc, Op::Member, p, r) else {
        return instead_of(left, Err(OutOfMemory));
    };
    Ok(Some(binary(alloc, Op::And, left, right)?))
}

/// A pair in a range restriction, `E ↦ F ∈ r ▷ S`: `E ↦ F ∈ r ∧ F ∈ S`.
pub fn member_of_range_restriction(
    alloc: Global,
    f: &Formula,
) -> Result<Option<Formula>, OutOfMemory>
    ensures right { IfOk result (λ o. o ≡ member_of_range_restriction f.now) }
{
    let Some((p, set)) = two_operands(Op::Member, f) else {
        return Ok(None);
    };
    let Some((r, s)) = two_operands(Op::RangeRestriction, set) else {
        return Ok(None);
    };
    let Some((_, v)) = two_operands(Op::Maplet, p) else {
        return Ok(None);
    };
    let left = predicate(alloc, Op::Member, p, r)?;
    let Ok(right) = predicate(alloc, Op::Member, v, s) else {
        return instead_of(left, Err(OutOfMemory));
    };
    Ok(Some(binary(alloc, Op::And, left, right)?))
}

/// A pair in a range subtraction, `E ↦ F ∈ r ⩥ S`: `E ↦ F ∈ r ∧ ¬ F ∈ S`.
pub fn member_of_range_subtraction(
    alloc: Global,
    f: &Formula,
) -> Result<Option<Formula>, OutOfMemory>
    ensures right { IfOk result (λ o. o ≡ member_of_range_subtraction f.now) }
{
    let Some((p, set)) = two_operands(Op::Member, f) else {
        return Ok(None);
    };
    let Some((r, s)) = two_operands(Op::RangeSubtraction, set) else {
        return Ok(None);
    };
    let Some((_, v)) = two_operands(Op::Maplet, p) else {
        return Ok(None);
    };
    let left = predicate(alloc, Op::Member, p, r)?;
    let Ok(right) = denied(alloc, Op::Member, v, s) else {
        return instead_of(left, Err(OutOfMemory));
    };
    Ok(Some(binary(alloc, Op::And, left, right)?))
}

/// `P ∈ r ∧ ¬ E ∈ dom(s)`
fn kept(
    alloc: Global,
    p: &Formula,
    r: &Formula,
    e: &Formula,
    s: &Formula,
) -> Result<Formula, OutOfMemory>
    ensures { IfOk result (λ f.
        f ≡ conjunction (member p.now r.now) (negation (member e.now (domain s.now (type_of e.now))))) }
{
    let integer = Ty::Int;
    let inside = predicate(alloc, Op::Member, p, r)?;
    let Ok(elsewhere) = negation(alloc, in_domain(alloc, e, s, e.type_of(&integer))?) else {
        return instead_of(inside, Err(OutOfMemory));
    };
    binary(alloc, Op::And, inside, elsewhere)
}

/// A pair in an overriding, `E ↦ F ∈ r <+ s`: `E ↦ F ∈ s ∨ (E ↦ F ∈ r ∧ ¬ E ∈ dom(s))`.
pub fn member_of_overriding(alloc: Global, f: &Formula) -> Result<Option<Formula>, OutOfMemory>
    ensures right { IfOk result (λ o. o ≡ member_of_overriding f.now) }
{
    let Some((p, set)) = two_operands(Op::Member, f) else {
        return Ok(None);
    };
    let Some((r, s)) = two_operands(Op::Overriding, set) else {
        return Ok(None);
    };
    let Some((e, _)) = two_operands(Op::Maplet, p) else {
        return Ok(None);
    };
    let new = predicate(alloc, Op::Member, p, s)?;
    let Ok(old) = kept(alloc, p, r, e, s) else {
        return instead_of(new, Err(OutOfMemory));
    };
    Ok(Some(binary(alloc, Op::Or, new, old)?))
}

/// A member of an image, `F ∈ r[S]`: `∃x·x ∈ S ∧ x ↦ F ∈ r`.
pub fn member_of_image(alloc: Global, f: &Formula) -> Result<Option<Formula>, OutOfMemory>
    ensures right { IfOk result (λ o. o ≡ member_of_image f.now) }
{
    let Some((v, set)) = two_operands(Op::Member, f) else {
        return Ok(None);
    };
    let Some((r, s)) = two_operands(Op::Image, set) else {
        return Ok(None);
    };
    let Some((from, _)) = relation_types(r) else {
        return Ok(None);
    };
    let inside = new_member(alloc, from, s)?;
    let Ok(related) = leads_to(alloc, from, v, r) else {
        return instead_of(inside, Err(OutOfMemory));
    };
    let body = binary(alloc, Op::And, inside, related)?;
    let Ok(from) = from.copy(alloc) else {
        return instead_of(body, Err(OutOfMemory));
    };
    Ok(Some(quantified_one(alloc, Binder::Exists, from, body)?))
}

/// A pair in a composition, `E ↦ F ∈ p ; q`: `∃z·E ↦ z ∈ p ∧ z ↦ F ∈ q`.
pub fn member_of_composition(alloc: Global, f: &Formula) -> Result<Option<Formula>, OutOfMemory>
    ensures right { IfOk result (λ o. o ≡ member_of_composition f.now) }
{
    let Some((m, set)) = two_operands(Op::Member, f) else {
        return Ok(None);
    };
    let Some((p, q)) = two_operands(Op::Composition, set) else {
        return Ok(None);
    };
    let Some((e, v)) = two_operands(Op::Maplet, m) else {
        return Ok(None);
    };
    let Some((_, to)) = relation_types(p) else {
        return Ok(None);
    };
    let first = leads_from(alloc, e, to, p)?;
    let Ok(second) = leads_to(alloc, to, v, q) else {
        return instead_of(first, Err(OutOfMemory));
    };
    let body = binary(alloc, Op::And, first, second)?;
    let Ok(to) = to.copy(alloc) else {
        return instead_of(body, Err(OutOfMemory));
    };
    Ok(Some(quantified_one(alloc, Binder::Exists, to, body)?))
}

/// A pair in a direct product, `E ↦ (F ↦ G) ∈ p ⊗ q`: `E ↦ F ∈ p ∧ E ↦ G ∈ q`.
pub fn member_of_direct_product(alloc: Global, f: &Formula) -> Result<Option<Formula>, OutOfMemory>
    ensures right { IfOk result (λ o. o ≡ member_of_direct_product f.now) }
{
    let Some((m, set)) = two_operands(Op::Member, f) else {
        return Ok(None);
    };
    let Some((p, q)) = two_operands(Op::DirectProduct, set) else {
        return Ok(None);
    };
    let Some((e, n)) = two_operands(Op::Maplet, m) else {
        return Ok(None);
    };
    let Some((v, w)) = two_operands(Op::Maplet, n) else {
        return Ok(None);
    };
    let left = pair_in(alloc, e, v, p)?;
    let Ok(right) = pair_in(alloc, e, w, q) else {
        return instead_of(left, Err(OutOfMemory));
    };
    Ok(Some(binary(alloc, Op::And, left, right)?))
}

/// A pair in a parallel product, `(E ↦ F) ↦ (G ↦ H) ∈ p ∥ q`: `E ↦ G ∈ p ∧ F ↦ H ∈ q`.
pub fn member_of_parallel_product(
    alloc: Global,
    f: &Formula,
) -> Result<Option<Formula>, OutOfMemory>
    ensures right { IfOk result (λ o. o ≡ member_of_parallel_product f.now) }
{
    let Some((m, set)) = two_operands(Op::Member, f) else {
        return Ok(None);
    };
    let Some((p, q)) = two_operands(Op::ParallelProduct, set) else {
        return Ok(None);
    };
    let Some((a, b)) = two_operands(Op::Maplet, m) else {
        return Ok(None);
    };
    let Some((e, v)) = two_operands(Op::Maplet, a) else {
        return Ok(None);
    };
    let Some((g, w)) = two_operands(Op::Maplet, b) else {
        return Ok(None);
    };
    let left = pair_in(alloc, e, g, p)?;
    let Ok(right) = pair_in(alloc, v, w, q) else {
        return instead_of(left, Err(OutOfMemory));
    };
    Ok(Some(binary(alloc, Op::And, left, right)?))
}

/// A pair in the identity, `E ↦ F ∈ id`: `E = F`.
pub fn member_of_identity(alloc: Global, f: &Formula) -> Result<Option<Formula>, OutOfMemory>
    ensures right { IfOk result (λ o. o ≡ member_of_identity f.now) }
{
    let Some((p, set)) = two_operands(Op::Member, f) else {
        return Ok(None);
    };
    let Some([]) = operands(Op::Identity, set) else {
        return Ok(None);
    };
    let Some((e, v)) = two_operands(Op::Maplet, p) else {
        return Ok(None);
    };
    Ok(Some(predicate(alloc, Op::Equal, e, v)?))
}

/// A pair in the first projection, `(E ↦ F) ↦ G ∈ prj1`: `G = E`.
pub fn member_of_first_projection(
    alloc: Global,
    f: &Formula,
) -> Result<Option<Formula>, OutOfMemory>
    ensures right { IfOk result (λ o. o ≡ member_of_first_projection f.now) }
{
    let Some((p, set)) = two_operands(Op::Member, f) else {
        return Ok(None);
    };
    let Some([]) = operands(Op::FirstProjection, set) else {
        return Ok(None);
    };
    let Some((q, g)) = two_operands(Op::Maplet, p) else {
        return Ok(None);
    };
    let Some((e, _)) = two_operands(Op::Maplet, q) else {
        return Ok(None);
    };
    Ok(Some(predicate(alloc, Op::Equal, g, e)?))
}

/// A pair in the second projection, `(E ↦ F) ↦ G ∈ prj2`: `G = F`.
pub fn member_of_second_projection(
    alloc: Global,
    f: &Formula,
) -> Result<Option<Formula>, OutOfMemory>
    ensures right { IfOk result (λ o. o ≡ member_of_second_projection f.now) }
{
    let Some((p, set)) = two_operands(Op::Member, f) else {
        return Ok(None);
    };
    let Some([]) = operands(Op::SecondProjection, set) else {
        return Ok(None);
    };
    let Some((q, g)) = two_operands(Op::Maplet, p) else {
        return Ok(None);
    };
    let Some((_, v)) = two_operands(Op::Maplet, q) else {
        return Ok(None);
    };
    Ok(Some(predicate(alloc, Op::Equal, g, v)?))
}

/// Equal pairs, `E ↦ F = G ↦ H`: `E = G ∧ F = H`.
pub fn equal_pairs(alloc: Global, f: &Formula) -> Result<Option<Formula>, OutOfMemory>
    ensures right { IfOk result (λ o. o ≡ equal_pairs f.now) }
{
    let Some((a, b)) = two_operands(Op::Equal, f) else {
        return Ok(None);
    };
    let Some((e, v)) = two_operands(Op::Maplet, a) else {
        return Ok(None);
    };
    let Some((g, w)) = two_operands(Op::Maplet, b) else {
        return Ok(None);
    };
    let left = predicate(alloc, Op::Equal, e, g)?;
    let Ok(right) = predicate(alloc, Op::Equal, v, w) else {
        return instead_of(left, Err(OutOfMemory));
    };
    Ok(Some(binary(alloc, Op::And, left, right)?))
}

/// An overridden function at the changed argument, `(f <+ {E ↦ F})(E)`: `F`.
pub fn overridden_at(alloc: Global, f: &Formula) -> Result<Option<Formula>, OutOfMemory>
    ensures right { IfOk result (λ o. o ≡ overridden_at f.now) }
{
    let Some((g, z)) = two_operands(Op::Apply, f) else {
        return Ok(None);
    };
    let Some((_, s)) = two_operands(Op::Overriding, g) else {
        return Ok(None);
    };
    let Some(p) = operand(Op::SetExtension, s) else {
        return Ok(None);
    };
    let Some((e, v)) = two_operands(Op::Maplet, p) else {
        return Ok(None);
    };
    if !e.same(z) {
        return Ok(None);
    }
    Ok(Some(v.copy(alloc)?))
}
