//! The connectives that a condition adds, without what ⊤ makes idle.
ghost use Rattle.std.specs.Prelude.{◌≡◌, ◌∷◌, [], IfOk, fold};
ghost use Rattle.well_defined.specs.Connectives.{is_top, conjoined, implied, alternative, for_every};
ghost use Rattle.well_defined.specs.Predicates.{top};

use crate::predicate::{of_two, quantified, top};
use formula_core::{Binder, Formula, Op, OutOfMemory, Ty, copy_types};
use std::alloc::Global;

fn is_top(formula: &Formula) -> bool
    ensures { result ≡ is_top formula.now }
{
    match formula {
        Formula::Node(op, _, _) => *op == Op::Top,
        _ => false,
    }
}

/// P ∧ Q, without a side that is ⊤.
pub(crate) fn conjoined(alloc: Global, p: Formula, q: Formula) -> Result<Formula, OutOfMemory>
    ensures { IfOk result (λ f. f ≡ conjoined p q) }
{
    if is_top(&p) {
        return Ok(q);
    }
    if is_top(&q) {
        return Ok(p);
    }
    of_two(alloc, Op::And, p, q)
}

/// P ⇒ Q, without P where one of them is ⊤.
pub(crate) fn implied(alloc: Global, p: &Formula, q: Formula) -> Result<Formula, OutOfMemory>
    ensures { IfOk result (λ f. f ≡ implied p.now q) }
{
    if is_top(&q) {
        return Ok(top(alloc));
    }
    if is_top(p) {
        return Ok(q);
    }
    of_two(alloc, Op::Implies, p.copy(alloc)?, q)
}

/// P ∨ Q, or ⊤ where one of them is.
pub(crate) fn alternative(alloc: Global, p: &Formula, q: Formula) -> Result<Formula, OutOfMemory>
    ensures { IfOk result (λ f. f ≡ alternative p.now q) }
{
    if is_top(p) || is_top(&q) {
        return Ok(top(alloc));
    }
    of_two(alloc, Op::Or, p.copy(alloc)?, q)
}

/// ∀x·P, or ⊤ where P is.
pub(crate) fn for_every(alloc: Global, types: &[Ty], p: Formula) -> Result<Formula, OutOfMemory>
    ensures { IfOk result (λ f. f ≡ for_every types.now p) }
{
    if is_top(&p) {
        return Ok(top(alloc));
    }
    quantified(alloc, Binder::ForAll, copy_types(alloc, types)?, p)
}

/// The conjunction of all, from left to right.
pub(crate) fn all(alloc: Global, conditions: Vec<Formula>) -> Result<Formula, OutOfMemory>
    ensures { IfOk result (λ f. f ≡ fold conjoined top conditions.items) }
{
    let mut conjunction = top(alloc);
    for condition in conditions {
        conjunction = conjoined(alloc, conjunction, condition)?;
    }
    Ok(conjunction)
}
