//! What the rows and the laws take apart and put together.
ghost use Rattle.std.specs.Prelude.{◌≡◌, IfOk, [], ◌∷◌};
ghost use Rattle.std.specs.Option.{option_copied, option_map};
ghost use Rattle.formula_core.specs.Types.{members, relation};
ghost use Rattle.formula_core.specs.Wellness.{type_of};
ghost use Rattle.rule_table.specs.SetLaws.{below, below_all, new};
ghost use Rattle.rule_table.specs.Shapes.{binary, bottom, maplet, negation};
ghost use Rattle.well_defined.specs.Predicates.{domain, member};

use formula_core::{Boxed, Formula, List, Op, OutOfMemory, Ty};
use rule_table::{binary, negation, one, predicate, two};
use std::alloc::Global;

/// The type of the members of a set.
pub(crate) fn member_type(f: &Formula) -> Option<&Ty>
    ensures { option_copied result ≡ members (type_of f.now) }
{
    match f {
        Formula::Int(_) => None,
        Formula::Free(_, ty) => ty.members(),
        Formula::Bound(_, ty) => ty.members(),
        Formula::Node(_, _, ty) => ty.members(),
        Formula::Bind(_, _, _, ty) => ty.members(),
    }
}

/// The types between which a relation stands.
pub(crate) fn relation_types(f: &Formula) -> Option<(&Ty, &Ty)>
    ensures { option_map (λ t. (t.0.now, t.1.now)) result ≡ relation (type_of f.now) }
{
    match f {
        Formula::Int(_) => None,
        Formula::Free(_, ty) => ty.relation(),
        Formula::Bound(_, ty) => ty.relation(),
        Formula::Node(_, _, ty) => ty.relation(),
        Formula::Bind(_, _, _, ty) => ty.relation(),
    }
}

/// An answer with which a formula is no longer needed: the one place that drops it, as each such place is long to prove.
pub(crate) fn instead_of<T>(_unneeded: Formula, answer: T) -> T
    ensures { result ≡ answer }
{
    answer
}

/// Copies of two formulas.
pub(crate) fn two_copies(
    alloc: Global,
    e: &Formula,
    f: &Formula,
) -> Result<List<Formula>, OutOfMemory>
    ensures { IfOk result (λ parts. parts ≡ e.now ∷ f.now ∷ []) }
{
    let e = e.copy(alloc)?;
    let Ok(f) = f.copy(alloc) else {
        return instead_of(e, Err(OutOfMemory));
    };
    Ok(two(alloc, e, f)?)
}

/// `⊥`
pub(crate) fn bottom(alloc: Global) -> Formula
    ensures { result ≡ bottom }
{
    Formula::Node(Op::Bottom, List::of(Vec::new(alloc)), Ty::Truth)
}

/// A negated operator on copies of two parts.
pub(crate) fn denied(
    alloc: Global,
    op: Op,
    e: &Formula,
    f: &Formula,
) -> Result<Formula, OutOfMemory>
    ensures { IfOk result (λ g. g ≡ negation (binary op e.now f.now)) }
{
    negation(alloc, predicate(alloc, op, e, f)?)
}

/// The type of `E ↦ F`.
fn pair_type(alloc: Global, e: &Formula, f: &Formula) -> Result<Ty, OutOfMemory>
    ensures { IfOk result (λ t. t ≡ Ty.Pair (type_of e.now) (type_of f.now)) }
{
    let integer = Ty::Int;
    let left = Boxed::new(alloc, e.type_of(&integer).copy(alloc)?)?;
    let right = Boxed::new(alloc, f.type_of(&integer).copy(alloc)?)?;
    Ok(Ty::Pair(left, right))
}

/// `E ↦ F`
pub(crate) fn maplet(alloc: Global, e: Formula, f: Formula) -> Result<Formula, OutOfMemory>
    ensures { IfOk result (λ g. g ≡ maplet e f) }
{
    let Ok(ty) = pair_type(alloc, &e, &f) else {
        return instead_of(e, instead_of(f, Err(OutOfMemory)));
    };
    Ok(Formula::Node(Op::Maplet, two(alloc, e, f)?, ty))
}

/// `E ↦ F ∈ r`, of copies.
pub(crate) fn pair_in(
    alloc: Global,
    e: &Formula,
    f: &Formula,
    r: &Formula,
) -> Result<Formula, OutOfMemory>
    ensures { IfOk result (λ g. g ≡ member (maplet e.now f.now) r.now) }
{
    let e = e.copy(alloc)?;
    let Ok(f) = f.copy(alloc) else {
        return instead_of(e, Err(OutOfMemory));
    };
    let pair = maplet(alloc, e, f)?;
    let Ok(r) = r.copy(alloc) else {
        return instead_of(pair, Err(OutOfMemory));
    };
    binary(alloc, Op::Member, pair, r)
}

/// `E ∈ dom(f)`, where the arguments of f have this type.
pub(crate) fn in_domain(
    alloc: Global,
    e: &Formula,
    f: &Formula,
    from: &Ty,
) -> Result<Formula, OutOfMemory>
    ensures { IfOk result (λ g. g ≡ member e.now (domain f.now from.now)) }
{
    let parts = one(alloc, f.copy(alloc)?)?;
    let ty = Ty::Pow(Boxed::new(alloc, from.copy(alloc)?)?);
    let domain = Formula::Node(Op::Domain, parts, ty);
    let Ok(e) = e.copy(alloc) else {
        return instead_of(domain, Err(OutOfMemory));
    };
    binary(alloc, Op::Member, e, domain)
}

/// A formula below one more bound identifier.
pub(crate) fn below(alloc: Global, f: &Formula) -> Result<Formula, OutOfMemory>
    ensures { IfOk result (λ g. g ≡ below f.now) }
{
    f.shift(alloc, 1, 0)
}

/// A formula below so many bound identifiers.
pub(crate) fn below_all(alloc: Global, types: &[Ty], f: &Formula) -> Result<Formula, OutOfMemory>
    ensures { IfOk result (λ g. g ≡ below_all types.now f.now) }
{
    match u32::try_from(types.len()) {
        Ok(by) => f.shift(alloc, by, 0),
        Err(_) => Err(OutOfMemory),
    }
}

/// `x ∈ S` for the new identifier x of a type.
pub(crate) fn new_member(alloc: Global, ty: &Ty, s: &Formula) -> Result<Formula, OutOfMemory>
    ensures { IfOk result (λ f. f ≡ member (new ty.now) (below s.now)) }
{
    let x = Formula::Bound(0, ty.copy(alloc)?);
    let Ok(s) = below(alloc, s) else {
        return instead_of(x, Err(OutOfMemory));
    };
    binary(alloc, Op::Member, x, s)
}

/// `x ↦ E ∈ r` for the new identifier x of a type.
pub(crate) fn leads_to(
    alloc: Global,
    ty: &Ty,
    e: &Formula,
    r: &Formula,
) -> Result<Formula, OutOfMemory>
    ensures { IfOk result (λ f. f ≡ member (maplet (new ty.now) (below e.now)) (below r.now)) }
{
    let x = Formula::Bound(0, ty.copy(alloc)?);
    let Ok(e) = below(alloc, e) else {
        return instead_of(x, Err(OutOfMemory));
    };
    let pair = maplet(alloc, x, e)?;
    let Ok(r) = below(alloc, r) else {
        return instead_of(pair, Err(OutOfMemory));
    };
    binary(alloc, Op::Member, pair, r)
}

/// `E ↦ y ∈ r` for the new identifier y of a type.
pub(crate) fn leads_from(
    alloc: Global,
    e: &Formula,
    ty: &Ty,
    r: &Formula,
) -> Result<Formula, OutOfMemory>
    ensures { IfOk result (λ f. f ≡ member (maplet (below e.now) (new ty.now)) (below r.now)) }
{
    let y = Formula::Bound(0, ty.copy(alloc)?);
    let Ok(e) = below(alloc, e) else {
        return instead_of(y, Err(OutOfMemory));
    };
    let pair = maplet(alloc, e, y)?;
    let Ok(r) = below(alloc, r) else {
        return instead_of(pair, Err(OutOfMemory));
    };
    binary(alloc, Op::Member, pair, r)
}
