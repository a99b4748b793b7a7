//! Rules of functions and of cardinality.
ghost use Rattle.std.specs.Prelude.{◌≡◌, IfOk, [], ◌∷◌, Some};
ghost use Rattle.std.specs.Option.{option_map};
ghost use Rattle.formula_core.specs.declared.Formula.{out-Formula};
ghost use Rattle.formula_core.specs.Types.{same_type};
ghost use Rattle.formula_core.specs.Wellness.{type_of};
ghost use Rattle.rule_table.specs.Rows.{adds, arrow_at, card_nat, fun_eq, fun_in, function_in, is_function_arrow, over_other};
ghost use Rattle.rule_table.specs.Shapes.{applied, cardinality};
ghost use Rattle.well_defined.specs.Predicates.{at_most, member, zero};

use crate::equality::both_of;
use crate::over::replaced_over;
use crate::sets::finite;
use crate::words::{in_domain, instead_of, member_type, relation_types, two_copies};
use formula_core::{Formula, List, Op, OutOfMemory, Ty};
use rule_table::{
    Antecedent, Body, adds_one, binary, condition_first, forward, forward_one, one, one_left,
    operand, predicate, proves, two, two_operands,
};
use std::alloc::Global;
use well_defined::wd;

/// Adds `0 ≤ card(S)`.
fn adds_size(alloc: Global, s: &Formula) -> Result<Antecedent, OutOfMemory>
    ensures { IfOk result (λ a. a ≡ adds (at_most zero (cardinality s.now) ∷ [])) }
{
    let parts = one(alloc, s.copy(alloc)?)?;
    let size = Formula::Node(Op::Cardinality, parts, Ty::Int);
    adds_one(
        alloc,
        binary(alloc, Op::LessOrEqual, Formula::Int(0), size)?,
    )
}

/// Cardinality: S is well defined and finite, and then `0 ≤ card(S)` is there.
#[tactic(auto, using(rule_table::proofs::Conditions::two_more))]
pub fn card_nat(alloc: Global, s: &Formula) -> Result<Option<Body>, OutOfMemory>
    ensures row { IfOk result (λ o. o ≡ card_nat s.now) }
{
    let Some(_) = member_type(s) else {
        return Ok(None);
    };
    let mut left = condition_first(alloc, wd(alloc, s)?)?;
    left.push(proves(alloc, finite(alloc, s)?))?;
    left.push(adds_size(alloc, s)?)?;
    Ok(Some(forward(List::of(Vec::new(alloc)), List::of(left))))
}

fn is_function_arrow(op: Op) -> bool
    ensures { result ≡ is_function_arrow op }
{
    31 <= op.number() && op.number() <= 37
}

/// S and T of `S a T`, for an arrow a from ⇸ to ⤖.
fn arrow(set: &Formula) -> Option<(&Formula, &Formula)>
    ensures { option_map (λ x. (x.0.now, x.1.now)) result ≡ arrow_at (out-Formula set.now) }
{
    match set {
        Formula::Node(op, parts, _) => {
            if !is_function_arrow(*op) {
                return None;
            }
            match parts.items() {
                [s, t] => Some((s, t)),
                _ => None,
            }
        }
        _ => None,
    }
}

/// f and T of `f ∈ S a T`, for such an arrow a.
fn function_in(h: &Formula) -> Option<(&Formula, &Formula)>
    ensures { option_map (λ x. (x.0.now, x.1.now)) result ≡ function_in h.now }
{
    let (f, set) = two_operands(Op::Member, h)?;
    let (_, t) = arrow(set)?;
    Some((f, t))
}

/// `f(E)`, of this type.
fn applied(alloc: Global, f: &Formula, e: &Formula, ty: &Ty) -> Result<Formula, OutOfMemory>
    ensures { IfOk result (λ g. g ≡ applied f.now e.now ty.now) }
{
    let parts = two_copies(alloc, f, e)?;
    Ok(Formula::Node(Op::Apply, parts, ty.copy(alloc)?))
}

/// `f(E) ∈ T`, where the values of f have this type.
fn value_in(
    alloc: Global,
    f: &Formula,
    e: &Formula,
    ty: &Ty,
    t: &Formula,
) -> Result<Formula, OutOfMemory>
    ensures { IfOk result (λ g. g ≡ member (applied f.now e.now ty.now) t.now) }
{
    let value = applied(alloc, f, e, ty)?;
    let Ok(t) = t.copy(alloc) else {
        return instead_of(value, Err(OutOfMemory));
    };
    binary(alloc, Op::Member, value, t)
}

/// Whether a term has this type.
fn has_type(term: &Formula, ty: &Ty) -> bool
    ensures { result ≡ same_type (type_of term.now) ty.now }
{
    let integer = Ty::Int;
    term.type_of(&integer).same(ty)
}

/// A function's value: for `f ∈ S a T`, E is well defined and in the domain of f, and then `f(E) ∈ T` is there.
#[tactic(auto, using(rule_table::proofs::Conditions::two_more))]
pub fn fun_in(alloc: Global, h: &Formula, e: &Formula) -> Result<Option<Body>, OutOfMemory>
    ensures row { IfOk result (λ o. o ≡ fun_in h.now e.now) }
{
    let Some((f, t)) = function_in(h) else {
        return Ok(None);
    };
    let Some((from, to)) = relation_types(f) else {
        return Ok(None);
    };
    if !has_type(e, from) {
        return Ok(None);
    }
    let mut left = condition_first(alloc, wd(alloc, e)?)?;
    left.push(proves(alloc, in_domain(alloc, e, f, from)?))?;
    left.push(adds_one(alloc, value_in(alloc, f, e, to, t)?)?)?;
    Ok(Some(forward_one(alloc, h, List::of(left))?))
}

/// A pair in a function: `E ↦ F ∈ f` and `f ∈ S a T` give `f(E) = F`.
pub fn fun_eq(alloc: Global, h: &Formula, k: &Formula) -> Result<Option<Body>, OutOfMemory>
    ensures row { IfOk result (λ o. o ≡ fun_eq h.now k.now) }
{
    let Some((f, _)) = function_in(k) else {
        return Ok(None);
    };
    let Some((_, to)) = relation_types(f) else {
        return Ok(None);
    };
    let Some((p, _)) = two_operands(Op::Member, h) else {
        return Ok(None);
    };
    let Some((e, v)) = two_operands(Op::Maplet, p) else {
        return Ok(None);
    };
    let value = applied(alloc, f, e, to)?;
    let Ok(v) = v.copy(alloc) else {
        return instead_of(value, Err(OutOfMemory));
    };
    let added = adds_one(alloc, binary(alloc, Op::Equal, value, v)?)?;
    let left = one_left(alloc, added)?;
    let pair = predicate(alloc, Op::Member, p, f)?;
    let Ok(k) = k.copy(alloc) else {
        return instead_of(pair, Err(OutOfMemory));
    };
    let hyps = two(alloc, pair, k)?;
    Ok(Some(forward(hyps, left)))
}

/// Overriding elsewhere: for a hypothesis `¬ z = x`, the goal is proved with `f(z)` in the place of `(f <+ {x ↦ y})(z)`.
pub fn over_other(alloc: Global, g: &Formula, h: &Formula) -> Result<Option<Body>, OutOfMemory>
    ensures row { IfOk result (λ o. o ≡ over_other g.now h.now) }
{
    let Some(q) = operand(Op::Not, h) else {
        return Ok(None);
    };
    let Some((z, x)) = two_operands(Op::Equal, q) else {
        return Ok(None);
    };
    let new = replaced_over(alloc, z, x, g)?;
    let left = one_left(alloc, proves(alloc, new))?;
    Ok(Some(both_of(alloc, g, h, left)?))
}
