//! Forms of formulas: taken apart, and put together.
ghost use Rattle.std.specs.Prelude.{◌≡◌, ◌↔◌, IsTrue, IfOk, IsTrue, [], ◌∷◌, Option};
ghost use Rattle.std.specs.Option.{option_map, option_copied};
ghost use Rattle.formula_core.specs.declared.Formula.{Formula};
ghost use Rattle.rule_table.specs.Shapes.{operands, operand, two_operands, two_of, one_of, parts_of_binder, one_bound, two_bound, binary, negation, maplet, empty, range, converse, product, relations, applied, numeral, as_numeral};
ghost use Rattle.well_defined.specs.Predicates.{predicate, quantified, top, domain};

use formula_core::{Binder, Boxed, Formula, List, Op, OutOfMemory, Ty};
use std::alloc::Global;

/// The operands of a node of this operator.
pub fn operands(wanted: Op, f: &Formula) -> Option<&[Formula]>
    ensures parts { option_map (λ parts. parts.now) result ≡ operands wanted f.now }
{
    match f {
        Formula::Node(op, parts, _) => {
            if op.number() == wanted.number() {
                Some(parts.items())
            } else {
                None
            }
        }
        _ => None,
    }
}

/// The operand of a node of this operator on one.
pub fn operand(wanted: Op, f: &Formula) -> Option<&Formula>
    ensures part { option_copied result ≡ operand wanted f.now }
{
    match operands(wanted, f) {
        Some(parts) => match parts {
            [p] => Some(p),
            _ => None,
        },
        None => None,
    }
}

/// The operands of a node of this operator on two.
pub fn two_operands(wanted: Op, f: &Formula) -> Option<(&Formula, &Formula)>
    ensures parts { option_map (λ p. (p.0.now, p.1.now)) result ≡ two_operands wanted f.now }
{
    match operands(wanted, f) {
        Some(parts) => match parts {
            [p, q] => Some((p, q)),
            _ => None,
        },
        None => None,
    }
}

/// The types of the identifiers and the parts of a binder.
pub(crate) fn bound_of(wanted: Binder, f: &Formula) -> Option<(&[Ty], &[Formula])>
    ensures parts { option_map (λ p. (p.0.now, p.1.now)) result ≡ parts_of_binder wanted f.now }
{
    match f {
        Formula::Bind(binder, types, parts, _) => {
            if binder.number() == wanted.number() {
                Some((types.items(), parts.items()))
            } else {
                None
            }
        }
        _ => None,
    }
}

/// The types of the identifiers and the part of a binder with one.
pub fn one_bound(wanted: Binder, f: &Formula) -> Option<(&[Ty], &Formula)>
    ensures parts { option_map (λ b. (b.0.now, b.1.now)) result ≡ one_bound wanted f.now }
{
    match bound_of(wanted, f) {
        Some((types, parts)) => match parts {
            [p] => Some((types, p)),
            _ => None,
        },
        None => None,
    }
}

/// The types of the identifiers and the parts of a binder with two.
pub fn two_bound(wanted: Binder, f: &Formula) -> Option<(&[Ty], &Formula, &Formula)>
    ensures parts { option_map (λ b. (b.0.now, b.1.now, b.2.now)) result ≡ two_bound wanted f.now }
{
    match bound_of(wanted, f) {
        Some((types, parts)) => match parts {
            [p, q] => Some((types, p, q)),
            _ => None,
        },
        None => None,
    }
}

/// A list of one formula.
pub fn one(alloc: Global, f: Formula) -> Result<List<Formula>, OutOfMemory>
    ensures list { IfOk result (λ fs. fs ≡ f ∷ []) }
{
    let mut fs = Vec::new(alloc);
    fs.push(f)?;
    Ok(List::of(fs))
}

/// A list of two formulas.
pub fn two(alloc: Global, f: Formula, g: Formula) -> Result<List<Formula>, OutOfMemory>
    ensures list { IfOk result (λ fs. fs ≡ f ∷ g ∷ []) }
{
    let mut fs = Vec::new(alloc);
    fs.push(f)?;
    fs.push(g)?;
    Ok(List::of(fs))
}

/// An operator on two parts, as a predicate.
pub fn binary(alloc: Global, op: Op, p: Formula, q: Formula) -> Result<Formula, OutOfMemory>
    ensures formula { IfOk result (λ f. f ≡ binary op p q) }
{
    Ok(Formula::Node(op, two(alloc, p, q)?, Ty::Truth))
}

/// An operator on copies of two parts, as a predicate.
pub fn predicate(alloc: Global, op: Op, e: &Formula, f: &Formula) -> Result<Formula, OutOfMemory>
    ensures formula { IfOk result (λ g. g ≡ binary op e.now f.now) }
{
    binary(alloc, op, e.copy(alloc)?, f.copy(alloc)?)
}

/// `¬P`
pub fn negation(alloc: Global, p: Formula) -> Result<Formula, OutOfMemory>
    ensures formula { IfOk result (λ f. f ≡ negation p) }
{
    Ok(Formula::Node(Op::Not, one(alloc, p)?, Ty::Truth))
}

/// `⊤`
pub fn top(alloc: Global) -> Formula
    ensures formula { result ≡ top }
{
    Formula::Node(Op::Top, List::of(Vec::new(alloc)), Ty::Truth)
}

/// A quantifier over one identifier.
pub fn quantified_one(
    alloc: Global,
    binder: Binder,
    ty: Ty,
    p: Formula,
) -> Result<Formula, OutOfMemory>
    ensures formula { IfOk result (λ f. f ≡ quantified binder (ty ∷ []) p) }
{
    let mut types = Vec::new(alloc);
    types.push(ty)?;
    quantified(alloc, binder, List::of(types), p)
}

/// A quantifier over identifiers of these types.
pub fn quantified(
    alloc: Global,
    binder: Binder,
    types: List<Ty>,
    p: Formula,
) -> Result<Formula, OutOfMemory>
    ensures formula { IfOk result (λ f. f ≡ quantified binder types p) }
{
    Ok(Formula::Bind(binder, types, one(alloc, p)?, Ty::Truth))
}
