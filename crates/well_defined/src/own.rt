//! The conditions of the forms themselves.
ghost use Rattle.std.specs.Prelude.{◌≡◌, ◌∷◌, [], IfOk};
ghost use Rattle.formula_core.specs.declared.formula.Formula.{Formula};
ghost use Rattle.formula_core.specs.declared.formula.Formula.TheVariants as formula;
ghost use Rattle.formula_core.specs.Shifting.{shifted};
ghost use Rattle.well_defined.specs.Predicates.{predicate, unequal, zero, at_most, less, finite, not_empty, bound_b, bound_x, bounded, domain, partial_functions, applicable, conjunction, member, quantified};
ghost use Rattle.well_defined.specs.Conditions.{unary_condition, binary_condition, own_condition};

use crate::predicate::{of_one, of_two, quantified, top};
use formula_core::{Binder, Boxed, Formula, List, Op, OutOfMemory, Ty};
use std::alloc::Global;

/// What a form itself asks of its parts.
pub(crate) fn own_condition(
    alloc: Global,
    op: Op,
    parts: &[Formula],
) -> Result<Formula, OutOfMemory>
    ensures { IfOk result (λ f. f ≡ own_condition op parts.now) }
{
    match parts {
        [s] => unary_condition(alloc, op, s),
        [e, f] => binary_condition(alloc, op, e, f),
        _ => Ok(top(alloc)),
    }
}

fn unary_condition(alloc: Global, op: Op, s: &Formula) -> Result<Formula, OutOfMemory>
    ensures { IfOk result (λ f. f ≡ unary_condition op s.now) }
{
    match op {
        Op::Cardinality => of_one(alloc, Op::Finite, s.copy(alloc)?),
        Op::Minimum => has_extremum(alloc, s, 1, 0),
        Op::Maximum => has_extremum(alloc, s, 0, 1),
        Op::GeneralIntersection => not_empty(alloc, s),
        _ => Ok(top(alloc)),
    }
}

fn binary_condition(alloc: Global, op: Op, e: &Formula, f: &Formula) -> Result<Formula, OutOfMemory>
    ensures { IfOk result (λ g. g ≡ binary_condition op e.now f.now) }
{
    match op {
        Op::Divide => unequal(alloc, f.copy(alloc)?, Formula::Int(0)),
        Op::Modulo => above_zero(alloc, e, Op::Less, f),
        Op::Power => above_zero(alloc, e, Op::LessOrEqual, f),
        Op::Apply => applicable(alloc, e, f),
        _ => Ok(top(alloc)),
    }
}

/// `E ≠ F`
fn unequal(alloc: Global, e: Formula, f: Formula) -> Result<Formula, OutOfMemory>
    ensures { IfOk result (λ g. g ≡ unequal e f) }
{
    let equal = of_two(alloc, Op::Equal, e, f)?;
    of_one(alloc, Op::Not, equal)
}

/// `0 ≤ E`, and F compared with 0.
fn above_zero(
    alloc: Global,
    e: &Formula,
    comparison: Op,
    f: &Formula,
) -> Result<Formula, OutOfMemory>
    ensures { IfOk result (λ g. g ≡ conjunction (at_most zero e.now) (predicate comparison (zero ∷ f.now ∷ []))) }
{
    let first = of_two(alloc, Op::LessOrEqual, Formula::Int(0), e.copy(alloc)?)?;
    let second = of_two(alloc, comparison, Formula::Int(0), f.copy(alloc)?)?;
    of_two(alloc, Op::And, first, second)
}

/// `S ≠ ∅`
fn not_empty(alloc: Global, s: &Formula) -> Result<Formula, OutOfMemory>
    ensures { IfOk result (λ f. f ≡ not_empty s.now) }
{
    let integer = Ty::Int;
    let ty = s.type_of(&integer).copy(alloc)?;
    let empty = Formula::Node(Op::EmptySet, List::of(Vec::new(alloc)), ty);
    unequal(alloc, s.copy(alloc)?, empty)
}

/// `S ≠ ∅ ∧ (∃b·∀x·x ∈ S ⇒ low ≤ high)`, where b has the index 1 and x the index 0.
fn has_extremum(alloc: Global, s: &Formula, low: u32, high: u32) -> Result<Formula, OutOfMemory>
    ensures { IfOk result (λ f. f ≡ conjunction
        (not_empty s.now) (bounded s.now (at_most (Formula.Bound low Ty.Int) (Formula.Bound high Ty.Int)))) }
{
    let members = not_empty(alloc, s)?;
    let compared = of_two(
        alloc,
        Op::LessOrEqual,
        Formula::Bound(low, Ty::Int),
        Formula::Bound(high, Ty::Int),
    )?;
    let bounded = bounded(alloc, s, compared)?;
    of_two(alloc, Op::And, members, bounded)
}

/// `∃b·∀x·x ∈ S ⇒ P`
fn bounded(alloc: Global, s: &Formula, p: Formula) -> Result<Formula, OutOfMemory>
    ensures { IfOk result (λ f. f ≡ bounded s.now p) }
{
    let inside = s.shift(alloc, 2, 0)?;
    let member = of_two(alloc, Op::Member, Formula::Bound(0, Ty::Int), inside)?;
    let each = of_two(alloc, Op::Implies, member, p)?;
    let all = over_an_integer(alloc, Binder::ForAll, each)?;
    over_an_integer(alloc, Binder::Exists, all)
}

fn over_an_integer(alloc: Global, binder: Binder, p: Formula) -> Result<Formula, OutOfMemory>
    ensures { IfOk result (λ f. f ≡ quantified binder (Ty.Int ∷ []) p) }
{
    let mut types = Vec::new(alloc);
    types.push(Ty::Int)?;
    quantified(alloc, binder, List::of(types), p)
}

/// `E ∈ dom(F) ∧ F ∈ A ⇸ B`
fn applicable(alloc: Global, f: &Formula, e: &Formula) -> Result<Formula, OutOfMemory>
    ensures { IfOk result (λ g. g ≡ applicable f.now e.now) }
{
    let integer = Ty::Int;
    match f.type_of(&integer).relation() {
        Some((from, to)) => {
            let within = in_domain(alloc, f, from, e)?;
            let function = is_function(alloc, f, from, to)?;
            of_two(alloc, Op::And, within, function)
        }
        None => Ok(top(alloc)),
    }
}

/// `E ∈ dom(F)`
fn in_domain(alloc: Global, f: &Formula, from: &Ty, e: &Formula) -> Result<Formula, OutOfMemory>
    ensures { IfOk result (λ g. g ≡ member e.now (domain f.now from.now)) }
{
    let mut parts = Vec::new(alloc);
    parts.push(f.copy(alloc)?)?;
    let ty = Ty::Pow(Boxed::new(alloc, from.copy(alloc)?)?);
    let domain = Formula::Node(Op::Domain, List::of(parts), ty);
    of_two(alloc, Op::Member, e.copy(alloc)?, domain)
}

/// `F ∈ A ⇸ B`
fn is_function(alloc: Global, f: &Formula, from: &Ty, to: &Ty) -> Result<Formula, OutOfMemory>
    ensures { IfOk result (λ g. g ≡ member f.now (partial_functions from.now to.now)) }
{
    let functions = partial_functions(alloc, from, to)?;
    of_two(alloc, Op::Member, f.copy(alloc)?, functions)
}

/// `A ⇸ B`
fn partial_functions(alloc: Global, from: &Ty, to: &Ty) -> Result<Formula, OutOfMemory>
    ensures { IfOk result (λ g. g ≡ partial_functions from.now to.now) }
{
    let mut parts = Vec::new(alloc);
    parts.push(from.whole_set(alloc)?)?;
    parts.push(to.whole_set(alloc)?)?;
    let ty = set_of_relations(alloc, from, to)?;
    Ok(Formula::Node(Op::PartialFunctions, List::of(parts), ty))
}

/// `ℙ(ℙ(α×β))`
fn set_of_relations(alloc: Global, from: &Ty, to: &Ty) -> Result<Ty, OutOfMemory>
    ensures { IfOk result (λ t. t ≡ Ty.Pow (Ty.Pow (Ty.Pair from.now to.now))) }
{
    let from = Boxed::new(alloc, from.copy(alloc)?)?;
    let to = Boxed::new(alloc, to.copy(alloc)?)?;
    let relation = Ty::Pow(Boxed::new(alloc, Ty::Pair(from, to))?);
    Ok(Ty::Pow(Boxed::new(alloc, relation)?))
}
