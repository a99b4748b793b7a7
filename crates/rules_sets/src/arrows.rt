//! The laws of sets of relations and functions, from the left side to the right side.
ghost use Rattle.std.specs.Prelude.{◌≡◌, IfOk, [], ◌∷◌};
ghost use Rattle.formula_core.specs.declared.Formula.{Formula};
ghost use Rattle.formula_core.specs.Shifting.{shifted};
ghost use Rattle.rule_table.specs.SetLaws.{goes_back, is_functional, is_in, is_onto, totality};
ghost use Rattle.rule_table.specs.SetLaws.{member_of_bijections, member_of_partial_functions};
ghost use Rattle.rule_table.specs.SetLaws.{member_of_partial_injections, member_of_partial_surjections};
ghost use Rattle.rule_table.specs.SetLaws.{member_of_relations, member_of_surjective_relations};
ghost use Rattle.rule_table.specs.SetLaws.{member_of_total_functions, member_of_total_injections};
ghost use Rattle.rule_table.specs.SetLaws.{member_of_total_relations, member_of_total_surjections};
ghost use Rattle.rule_table.specs.SetLaws.{member_of_total_surjective_relations};
ghost use Rattle.rule_table.specs.Shapes.{converse, equal, maplet, product, relations};
ghost use Rattle.rules_sets.specs.Private.{in_and_back, in_and_onto, in_and_total};
ghost use Rattle.well_defined.specs.Predicates.{conjunction, member};

use crate::words::{instead_of, maplet, relation_types, two_copies};
use formula_core::{Binder, Boxed, Formula, List, Op, OutOfMemory, Ty};
use rule_table::{binary, one, quantified, two_operands};
use std::alloc::Global;

/// `ℙ(α×β)`
fn relation_type(alloc: Global, from: &Ty, to: &Ty) -> Result<Ty, OutOfMemory>
    ensures { IfOk result (λ t. t ≡ Ty.Pow (Ty.Pair from.now to.now)) }
{
    let from = Boxed::new(alloc, from.copy(alloc)?)?;
    let to = Boxed::new(alloc, to.copy(alloc)?)?;
    Ok(Ty::Pow(Boxed::new(alloc, Ty::Pair(from, to))?))
}

/// `S a T`, of sets of these types.
fn relations(
    alloc: Global,
    arrow: Op,
    s: &Formula,
    t: &Formula,
    from: &Ty,
    to: &Ty,
) -> Result<Formula, OutOfMemory>
    ensures { IfOk result (λ f. f ≡ relations arrow s.now t.now from.now to.now) }
{
    let parts = two_copies(alloc, s, t)?;
    let ty = Ty::Pow(Boxed::new(alloc, relation_type(alloc, from, to)?)?);
    Ok(Formula::Node(arrow, parts, ty))
}

/// `r ∈ S a T`
fn is_in(
    alloc: Global,
    arrow: Op,
    r: &Formula,
    s: &Formula,
    t: &Formula,
    from: &Ty,
    to: &Ty,
) -> Result<Formula, OutOfMemory>
    ensures { IfOk result (λ f. f ≡ is_in arrow r.now s.now t.now from.now to.now) }
{
    let set = relations(alloc, arrow, s, t, from, to)?;
    let Ok(r) = r.copy(alloc) else {
        return instead_of(set, Err(OutOfMemory));
    };
    binary(alloc, Op::Member, r, set)
}

/// `dom(r) = S`
fn is_total(alloc: Global, r: &Formula, s: &Formula, from: &Ty) -> Result<Formula, OutOfMemory>
    ensures { IfOk result (λ f. f ≡ totality r.now s.now from.now) }
{
    let parts = one(alloc, r.copy(alloc)?)?;
    let ty = Ty::Pow(Boxed::new(alloc, from.copy(alloc)?)?);
    let set = Formula::Node(Op::Domain, parts, ty);
    let Ok(s) = s.copy(alloc) else {
        return instead_of(set, Err(OutOfMemory));
    };
    binary(alloc, Op::Equal, set, s)
}

/// `ran(r) = T`
fn is_onto(alloc: Global, r: &Formula, t: &Formula, to: &Ty) -> Result<Formula, OutOfMemory>
    ensures { IfOk result (λ f. f ≡ is_onto r.now t.now to.now) }
{
    let parts = one(alloc, r.copy(alloc)?)?;
    let ty = Ty::Pow(Boxed::new(alloc, to.copy(alloc)?)?);
    let set = Formula::Node(Op::Range, parts, ty);
    let Ok(t) = t.copy(alloc) else {
        return instead_of(set, Err(OutOfMemory));
    };
    binary(alloc, Op::Equal, set, t)
}

/// `r∼`, of a relation between these types.
fn converse(alloc: Global, r: &Formula, from: &Ty, to: &Ty) -> Result<Formula, OutOfMemory>
    ensures { IfOk result (λ f. f ≡ converse r.now from.now to.now) }
{
    let parts = one(alloc, r.copy(alloc)?)?;
    let ty = relation_type(alloc, to, from)?;
    Ok(Formula::Node(Op::Converse, parts, ty))
}

/// `r∼ ∈ T ⇸ S`
fn goes_back(
    alloc: Global,
    r: &Formula,
    s: &Formula,
    t: &Formula,
    from: &Ty,
    to: &Ty,
) -> Result<Formula, OutOfMemory>
    ensures { IfOk result (λ f. f ≡ goes_back r.now s.now t.now from.now to.now) }
{
    let back = converse(alloc, r, from, to)?;
    let made = is_in(alloc, Op::PartialFunctions, &back, t, s, to, from);
    instead_of(back, made)
}

/// A relation, `r ∈ S ↔ T`: `r ⊆ S × T`.
pub fn member_of_relations(alloc: Global, f: &Formula) -> Result<Option<Formula>, OutOfMemory>
    ensures right { IfOk result (λ o. o ≡ member_of_relations f.now) }
{
    let Some((r, set)) = two_operands(Op::Member, f) else {
        return Ok(None);
    };
    let Some((s, t)) = two_operands(Op::Relations, set) else {
        return Ok(None);
    };
    let Some((from, to)) = relation_types(r) else {
        return Ok(None);
    };
    let whole = product(alloc, s, t, from, to)?;
    let Ok(r) = r.copy(alloc) else {
        return instead_of(whole, Err(OutOfMemory));
    };
    Ok(Some(binary(alloc, Op::Subset, r, whole)?))
}

/// `S × T`, of sets of these types.
fn product(
    alloc: Global,
    s: &Formula,
    t: &Formula,
    from: &Ty,
    to: &Ty,
) -> Result<Formula, OutOfMemory>
    ensures { IfOk result (λ f. f ≡ product s.now t.now from.now to.now) }
{
    let parts = two_copies(alloc, s, t)?;
    let ty = relation_type(alloc, from, to)?;
    Ok(Formula::Node(Op::Product, parts, ty))
}

/// `r ∈ S a T`: `r ∈ S b T ∧ dom(r) = S`.
fn in_and_total(
    alloc: Global,
    arrow: Op,
    within: Op,
    f: &Formula,
) -> Result<Option<Formula>, OutOfMemory>
    ensures { IfOk result (λ o. o ≡ in_and_total arrow within f.now) }
{
    let Some((r, set)) = two_operands(Op::Member, f) else {
        return Ok(None);
    };
    let Some((s, t)) = two_operands(arrow, set) else {
        return Ok(None);
    };
    let Some((from, to)) = relation_types(r) else {
        return Ok(None);
    };
    let left = is_in(alloc, within, r, s, t, from, to)?;
    let Ok(right) = is_total(alloc, r, s, from) else {
        return instead_of(left, Err(OutOfMemory));
    };
    Ok(Some(binary(alloc, Op::And, left, right)?))
}

/// `r ∈ S a T`: `r ∈ S b T ∧ ran(r) = T`.
fn in_and_onto(
    alloc: Global,
    arrow: Op,
    within: Op,
    f: &Formula,
) -> Result<Option<Formula>, OutOfMemory>
    ensures { IfOk result (λ o. o ≡ in_and_onto arrow within f.now) }
{
    let Some((r, set)) = two_operands(Op::Member, f) else {
        return Ok(None);
    };
    let Some((s, t)) = two_operands(arrow, set) else {
        return Ok(None);
    };
    let Some((from, to)) = relation_types(r) else {
        return Ok(None);
    };
    let left = is_in(alloc, within, r, s, t, from, to)?;
    let Ok(right) = is_onto(alloc, r, t, to) else {
        return instead_of(left, Err(OutOfMemory));
    };
    Ok(Some(binary(alloc, Op::And, left, right)?))
}

/// `r ∈ S a T`: `r ∈ S b T ∧ r∼ ∈ T ⇸ S`.
fn in_and_back(
    alloc: Global,
    arrow: Op,
    within: Op,
    f: &Formula,
) -> Result<Option<Formula>, OutOfMemory>
    ensures { IfOk result (λ o. o ≡ in_and_back arrow within f.now) }
{
    let Some((r, set)) = two_operands(Op::Member, f) else {
        return Ok(None);
    };
    let Some((s, t)) = two_operands(arrow, set) else {
        return Ok(None);
    };
    let Some((from, to)) = relation_types(r) else {
        return Ok(None);
    };
    let left = is_in(alloc, within, r, s, t, from, to)?;
    let Ok(right) = goes_back(alloc, r, s, t, from, to) else {
        return instead_of(left, Err(OutOfMemory));
    };
    Ok(Some(binary(alloc, Op::And, left, right)?))
}

/// A total relation, `r ∈ S <<-> T`: `r ∈ S ↔ T ∧ dom(r) = S`.
pub fn member_of_total_relations(alloc: Global, f: &Formula) -> Result<Option<Formula>, OutOfMemory>
    ensures right { IfOk result (λ o. o ≡ member_of_total_relations f.now) }
{
    in_and_total(alloc, Op::TotalRelations, Op::Relations, f)
}

/// A surjective relation, `r ∈ S <->> T`: `r ∈ S ↔ T ∧ ran(r) = T`.
pub fn member_of_surjective_relations(
    alloc: Global,
    f: &Formula,
) -> Result<Option<Formula>, OutOfMemory>
    ensures right { IfOk result (λ o. o ≡ member_of_surjective_relations f.now) }
{
    in_and_onto(alloc, Op::SurjectiveRelations, Op::Relations, f)
}

/// `r ∈ S ↔ T ∧ dom(r) = S`
fn is_total_relation(
    alloc: Global,
    r: &Formula,
    s: &Formula,
    t: &Formula,
    from: &Ty,
    to: &Ty,
) -> Result<Formula, OutOfMemory>
    ensures { IfOk result (λ f.
        f ≡ conjunction (is_in Op.Relations r.now s.now t.now from.now to.now) (totality r.now s.now from.now)) }
{
    let left = is_in(alloc, Op::Relations, r, s, t, from, to)?;
    let Ok(right) = is_total(alloc, r, s, from) else {
        return instead_of(left, Err(OutOfMemory));
    };
    binary(alloc, Op::And, left, right)
}

/// A total surjective relation, `r ∈ S <<->> T`: `r ∈ S ↔ T ∧ dom(r) = S ∧ ran(r) = T`.
pub fn member_of_total_surjective_relations(
    alloc: Global,
    f: &Formula,
) -> Result<Option<Formula>, OutOfMemory>
    ensures right { IfOk result (λ o. o ≡ member_of_total_surjective_relations f.now) }
{
    let Some((r, set)) = two_operands(Op::Member, f) else {
        return Ok(None);
    };
    let Some((s, t)) = two_operands(Op::TotalSurjectiveRelations, set) else {
        return Ok(None);
    };
    let Some((from, to)) = relation_types(r) else {
        return Ok(None);
    };
    let left = is_total_relation(alloc, r, s, t, from, to)?;
    let Ok(right) = is_onto(alloc, r, t, to) else {
        return instead_of(left, Err(OutOfMemory));
    };
    Ok(Some(binary(alloc, Op::And, left, right)?))
}

/// The types of x, y and z below `∀x,y,z·`.
fn three(alloc: Global, from: &Ty, to: &Ty) -> Result<List<Ty>, OutOfMemory>
    ensures { IfOk result (λ types. types ≡ from.now ∷ to.now ∷ to.now ∷ []) }
{
    let mut types = Vec::new(alloc);
    types.push(from.copy(alloc)?)?;
    types.push(to.copy(alloc)?)?;
    types.push(to.copy(alloc)?)?;
    Ok(List::of(types))
}

/// `y = z` below them.
fn are_equal(alloc: Global, to: &Ty) -> Result<Formula, OutOfMemory>
    ensures { IfOk result (λ f. f ≡ equal (Formula.Bound 1 to.now) (Formula.Bound 0 to.now)) }
{
    let y = Formula::Bound(1, to.copy(alloc)?);
    let Ok(to) = to.copy(alloc) else {
        return instead_of(y, Err(OutOfMemory));
    };
    binary(alloc, Op::Equal, y, Formula::Bound(0, to))
}

/// `x ↦ y` below them, where the second has this index.
fn pair_at(alloc: Global, from: &Ty, to: &Ty, at: u32) -> Result<Formula, OutOfMemory>
    ensures { IfOk result (λ f. f ≡ maplet (Formula.Bound 2 from.now) (Formula.Bound at to.now)) }
{
    let x = Formula::Bound(2, from.copy(alloc)?);
    let Ok(to) = to.copy(alloc) else {
        return instead_of(x, Err(OutOfMemory));
    };
    maplet(alloc, x, Formula::Bound(at, to))
}

/// `x ↦ y ∈ r` below them.
fn pair_at_in(
    alloc: Global,
    from: &Ty,
    to: &Ty,
    at: u32,
    r: &Formula,
) -> Result<Formula, OutOfMemory>
    ensures { IfOk result (λ f.
        f ≡ member (maplet (Formula.Bound 2 from.now) (Formula.Bound at to.now)) (shifted 3 0 r.now)) }
{
    let pair = pair_at(alloc, from, to, at)?;
    let Ok(r) = r.shift(alloc, 3, 0) else {
        return instead_of(pair, Err(OutOfMemory));
    };
    binary(alloc, Op::Member, pair, r)
}

/// `x ↦ y ∈ r ∧ x ↦ z ∈ r` below them.
fn lead_to_both(alloc: Global, r: &Formula, from: &Ty, to: &Ty) -> Result<Formula, OutOfMemory>
    ensures { IfOk result (λ f.
        f ≡ conjunction (member (maplet (Formula.Bound 2 from.now) (Formula.Bound 1 to.now)) (shifted 3 0 r.now))
        (member (maplet (Formula.Bound 2 from.now) (Formula.Bound 0 to.now)) (shifted 3 0 r.now))) }
{
    let first = pair_at_in(alloc, from, to, 1, r)?;
    let Ok(second) = pair_at_in(alloc, from, to, 0, r) else {
        return instead_of(first, Err(OutOfMemory));
    };
    binary(alloc, Op::And, first, second)
}

/// `∀x,y,z·x ↦ y ∈ r ∧ x ↦ z ∈ r ⇒ y = z`
fn is_functional(alloc: Global, r: &Formula, from: &Ty, to: &Ty) -> Result<Formula, OutOfMemory>
    ensures { IfOk result (λ f. f ≡ is_functional r.now from.now to.now) }
{
    let both = lead_to_both(alloc, r, from, to)?;
    let Ok(equal) = are_equal(alloc, to) else {
        return instead_of(both, Err(OutOfMemory));
    };
    let body = binary(alloc, Op::Implies, both, equal)?;
    let Ok(types) = three(alloc, from, to) else {
        return instead_of(body, Err(OutOfMemory));
    };
    quantified(alloc, Binder::ForAll, types, body)
}

/// A partial function, `r ∈ S ⇸ T`: `r ∈ S ↔ T ∧ (∀x,y,z·x ↦ y ∈ r ∧ x ↦ z ∈ r ⇒ y = z)`.
pub fn member_of_partial_functions(
    alloc: Global,
    f: &Formula,
) -> Result<Option<Formula>, OutOfMemory>
    ensures right { IfOk result (λ o. o ≡ member_of_partial_functions f.now) }
{
    let Some((r, set)) = two_operands(Op::Member, f) else {
        return Ok(None);
    };
    let Some((s, t)) = two_operands(Op::PartialFunctions, set) else {
        return Ok(None);
    };
    let Some((from, to)) = relation_types(r) else {
        return Ok(None);
    };
    let left = is_in(alloc, Op::Relations, r, s, t, from, to)?;
    let Ok(right) = is_functional(alloc, r, from, to) else {
        return instead_of(left, Err(OutOfMemory));
    };
    Ok(Some(binary(alloc, Op::And, left, right)?))
}

/// A total function, `r ∈ S → T`: `r ∈ S ⇸ T ∧ dom(r) = S`.
pub fn member_of_total_functions(alloc: Global, f: &Formula) -> Result<Option<Formula>, OutOfMemory>
    ensures right { IfOk result (λ o. o ≡ member_of_total_functions f.now) }
{
    in_and_total(alloc, Op::TotalFunctions, Op::PartialFunctions, f)
}

/// A partial injection, `r ∈ S ⤔ T`: `r ∈ S ⇸ T ∧ r∼ ∈ T ⇸ S`.
pub fn member_of_partial_injections(
    alloc: Global,
    f: &Formula,
) -> Result<Option<Formula>, OutOfMemory>
    ensures right { IfOk result (λ o. o ≡ member_of_partial_injections f.now) }
{
    in_and_back(alloc, Op::PartialInjections, Op::PartialFunctions, f)
}

/// A total injection, `r ∈ S ↣ T`: `r ∈ S → T ∧ r∼ ∈ T ⇸ S`.
pub fn member_of_total_injections(
    alloc: Global,
    f: &Formula,
) -> Result<Option<Formula>, OutOfMemory>
    ensures right { IfOk result (λ o. o ≡ member_of_total_injections f.now) }
{
    in_and_back(alloc, Op::TotalInjections, Op::TotalFunctions, f)
}

/// A partial surjection, `r ∈ S ⤀ T`: `r ∈ S ⇸ T ∧ ran(r) = T`.
pub fn member_of_partial_surjections(
    alloc: Global,
    f: &Formula,
) -> Result<Option<Formula>, OutOfMemory>
    ensures right { IfOk result (λ o. o ≡ member_of_partial_surjections f.now) }
{
    in_and_onto(alloc, Op::PartialSurjections, Op::PartialFunctions, f)
}

/// A total surjection, `r ∈ S ↠ T`: `r ∈ S → T ∧ ran(r) = T`.
pub fn member_of_total_surjections(
    alloc: Global,
    f: &Formula,
) -> Result<Option<Formula>, OutOfMemory>
    ensures right { IfOk result (λ o. o ≡ member_of_total_surjections f.now) }
{
    in_and_onto(alloc, Op::TotalSurjections, Op::TotalFunctions, f)
}

/// A bijection, `r ∈ S ⤖ T`: `r ∈ S ↣ T ∧ ran(r) = T`.
pub fn member_of_bijections(alloc: Global, f: &Formula) -> Result<Option<Formula>, OutOfMemory>
    ensures right { IfOk result (λ o. o ≡ member_of_bijections f.now) }
{
    in_and_onto(alloc, Op::Bijections, Op::TotalInjections, f)
}
