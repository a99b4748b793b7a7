//! The predicates that conditions are made of.
ghost use Rattle.std.specs.Prelude.{◌≡◌, [], ◌∷◌, IfOk};
ghost use Rattle.well_defined.specs.Predicates.{predicate, quantified, top};

use formula_core::{Binder, Formula, List, Op, OutOfMemory, Ty};
use std::alloc::Global;

pub(crate) fn top(alloc: Global) -> Formula
    ensures { result ≡ top }
{
    Formula::Node(Op::Top, List::of(Vec::new(alloc)), Ty::Truth)
}

/// An operator on one part, as a predicate.
pub(crate) fn of_one(alloc: Global, op: Op, part: Formula) -> Result<Formula, OutOfMemory>
    ensures { IfOk result (λ f. f ≡ predicate op (part ∷ [])) }
{
    let mut parts = Vec::new(alloc);
    parts.push(part)?;
    Ok(Formula::Node(op, List::of(parts), Ty::Truth))
}

/// An operator on two parts, as a predicate.
pub(crate) fn of_two(
    alloc: Global,
    op: Op,
    first: Formula,
    second: Formula,
) -> Result<Formula, OutOfMemory>
    ensures { IfOk result (λ f. f ≡ predicate op (first ∷ second ∷ [])) }
{
    let mut parts = Vec::new(alloc);
    parts.push(first)?;
    parts.push(second)?;
    Ok(Formula::Node(op, List::of(parts), Ty::Truth))
}

/// A quantifier over identifiers of these types.
pub(crate) fn quantified(
    alloc: Global,
    binder: Binder,
    types: List<Ty>,
    body: Formula,
) -> Result<Formula, OutOfMemory>
    ensures { IfOk result (λ f. f ≡ quantified binder types body) }
{
    let mut parts = Vec::new(alloc);
    parts.push(body)?;
    Ok(Formula::Bind(binder, types, List::of(parts), Ty::Truth))
}
