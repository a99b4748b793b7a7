//! The predicates that obligations are made of.
ghost use Rattle.std.specs.Prelude.{◌≡◌, [], ◌∷◌, IfOk, map};
ghost use Rattle.well_defined.specs.Connectives.{conjoined, for_every, is_top};
ghost use Rattle.well_defined.specs.Predicates.{member, not_empty, predicate, quantified, top};
ghost use Rattle.po_rules.specs.Rows.{for_every_of, for_some_of, naturals};

use formula_core::{Binder, Boxed, Formula, List, Name, Op, OutOfMemory, Ty};
use std::alloc::Global;

/// An answer with which a formula is no longer needed: the one place that drops it, as each such place is long to prove.
pub(crate) fn instead_of<T>(_unneeded: Formula, answer: T) -> T
    ensures { result ≡ answer }
{
    answer
}

pub(crate) fn is_top(formula: &Formula) -> bool
    ensures { result ≡ is_top formula.now }
{
    match formula {
        Formula::Node(op, _, _) => *op == Op::Top,
        _ => false,
    }
}

/// `⊤`
pub fn top(alloc: Global) -> Formula
    ensures { result ≡ top }
{
    Formula::Node(Op::Top, List::of(Vec::new(alloc)), Ty::Truth)
}

/// An operator on one part, as a predicate.
pub(crate) fn of_one(alloc: Global, op: Op, part: Formula) -> Result<Formula, OutOfMemory>
    ensures { IfOk result (λ f. f ≡ predicate op (part ∷ [])) }
{
    let mut parts = Vec::new(alloc);
    parts.push(part)?;
    Ok(Formula::Node(op, List::of(parts), Ty::Truth))
}

/// An operator on two parts, as a predicate.
pub fn of_two(
    alloc: Global,
    op: Op,
    first: Formula,
    second: Formula,
) -> Result<Formula, OutOfMemory>
    ensures { IfOk result (λ f. f ≡ predicate op (first ∷ second ∷ [])) }
{
    let parts = vec![in alloc; first, second]?;
    Ok(Formula::Node(op, List::of(parts), Ty::Truth))
}

/// P ∧ Q, without a side that is ⊤.
pub(crate) fn conjoined(alloc: Global, p: Formula, q: Formula) -> Result<Formula, OutOfMemory>
    ensures { IfOk result (λ f. f ≡ conjoined p q) }
{
    if is_top(&p) {
        return Ok(instead_of(p, q));
    }
    if is_top(&q) {
        return Ok(instead_of(q, p));
    }
    of_two(alloc, Op::And, p, q)
}

fn types_of(alloc: Global, identifiers: &[(Name, Ty)]) -> Result<List<Ty>, OutOfMemory>
    ensures { IfOk result (λ types. types ≡ map (λ x. x.1) identifiers.now) }
{
    let mut types = Vec::new(alloc);
    for identifier in identifiers {
        types.push(identifier.1.copy(alloc)?)?;
    }
    Ok(List::of(types))
}

fn quantified(
    alloc: Global,
    binder: Binder,
    types: List<Ty>,
    body: Formula,
) -> Result<Formula, OutOfMemory>
    ensures { IfOk result (λ f. f ≡ quantified binder types body) }
{
    let mut parts = Vec::new(alloc);
    parts.push(body)?;
    Ok(Formula::Bind(binder, types, List::of(parts), Ty::Truth))
}

/// `∃x·P` of free identifiers.
pub fn for_some_of(
    alloc: Global,
    identifiers: &[(Name, Ty)],
    predicate: &Formula,
) -> Result<Formula, OutOfMemory>
    ensures { IfOk result (λ f. f ≡ for_some_of identifiers.now predicate.now) }
{
    let types = types_of(alloc, identifiers)?;
    let body = predicate.bind_free(alloc, identifiers)?;
    quantified(alloc, Binder::Exists, types, body)
}

/// `∀x·P`, or ⊤ where P is.
fn for_every(alloc: Global, types: List<Ty>, body: Formula) -> Result<Formula, OutOfMemory>
    ensures { IfOk result (λ f. f ≡ for_every types body) }
{
    if is_top(&body) {
        return Ok(instead_of(body, top(alloc)));
    }
    quantified(alloc, Binder::ForAll, types, body)
}

/// `∀x·P` of free identifiers, or ⊤ where P is.
pub(crate) fn for_every_of(
    alloc: Global,
    identifiers: &[(Name, Ty)],
    predicate: &Formula,
) -> Result<Formula, OutOfMemory>
    ensures { IfOk result (λ f. f ≡ for_every_of identifiers.now predicate.now) }
{
    let types = types_of(alloc, identifiers)?;
    let body = predicate.bind_free(alloc, identifiers)?;
    for_every(alloc, types, body)
}

/// `S ≠ ∅`
pub(crate) fn not_empty(alloc: Global, set: &Formula) -> Result<Formula, OutOfMemory>
    ensures { IfOk result (λ f. f ≡ not_empty set.now) }
{
    let integer = Ty::Int;
    let ty = set.type_of(&integer).copy(alloc)?;
    let set = set.copy(alloc)?;
    let empty = Formula::Node(Op::EmptySet, List::of(Vec::new(alloc)), ty);
    let equal = of_two(alloc, Op::Equal, set, empty)?;
    of_one(alloc, Op::Not, equal)
}

/// `E ∈ ℕ`
pub(crate) fn natural(alloc: Global, number: &Formula) -> Result<Formula, OutOfMemory>
    ensures { IfOk result (λ f. f ≡ member number.now naturals) }
{
    let integers = Boxed::new(alloc, Ty::Int)?;
    let number = number.copy(alloc)?;
    let ty = Ty::Pow(integers);
    let naturals = Formula::Node(Op::Naturals, List::of(Vec::new(alloc)), ty);
    of_two(alloc, Op::Member, number, naturals)
}
