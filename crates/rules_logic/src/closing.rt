//! Rules that leave nothing to prove.
ghost use Rattle.std.specs.Prelude.{◌≡◌, IfOk, [], ◌∷◌, Some};
ghost use Rattle.rule_table.specs.Rows.{backward, both, forward, contr, hyp};
ghost use Rattle.rule_table.specs.Shapes.{bottom};
ghost use Rattle.well_defined.specs.Predicates.{top};

use formula_core::{Formula, List, Op, OutOfMemory, Ty};
use rule_table::{Body, both, forward, negation, none_left, one, two};
use std::alloc::Global;

/// Hypothesis: the goal is one of the hypotheses.
pub fn hyp(alloc: Global, g: &Formula) -> Result<Option<Body>, OutOfMemory>
    ensures row { IfOk result (λ o. o ≡ hyp g.now) }
{
    let hyps = one(alloc, g.copy(alloc)?)?;
    Ok(Some(both(alloc, g, hyps.items(), none_left(alloc))?))
}

/// True goal: the goal is `⊤`.
pub fn top(alloc: Global) -> Result<Option<Body>, OutOfMemory>
    ensures row { IfOk result (λ o. o ≡ Some (backward top [])) }
{
    Ok(Some(Body {
        goal: Some(rule_table::top(alloc)),
        hyps: List::of(Vec::new(alloc)),
        antecedents: none_left(alloc),
    }))
}

/// An answer with which something is no longer needed: what drops it is here alone, as each such place is long to prove.
pub(crate) fn instead_of<T: Drop, A>(_unneeded: T, answer: A) -> A
    ensures { result ≡ answer }
{
    answer
}

/// Copies of two formulas.
pub(crate) fn two_copies(
    alloc: Global,
    p: &Formula,
    q: &Formula,
) -> Result<List<Formula>, OutOfMemory>
    ensures { IfOk result (λ parts. parts ≡ p.now ∷ q.now ∷ []) }
{
    let p = p.copy(alloc)?;
    let Ok(q) = q.copy(alloc) else {
        return instead_of(p, Err(OutOfMemory));
    };
    Ok(two(alloc, p, q)?)
}

/// `⊥`
pub(crate) fn bottom(alloc: Global) -> Formula
    ensures { result ≡ bottom }
{
    Formula::Node(Op::Bottom, List::of(Vec::new(alloc)), Ty::Truth)
}

/// False hypothesis: `⊥` is one of the hypotheses.
pub fn bot(alloc: Global) -> Result<Option<Body>, OutOfMemory>
    ensures row { IfOk result (λ o. o ≡ Some (forward (bottom ∷ []) [])) }
{
    let hyps = one(alloc, bottom(alloc))?;
    Ok(Some(forward(hyps, none_left(alloc))))
}

/// Contradictory hypotheses: P and `¬P` are among them.
pub fn contr(alloc: Global, p: &Formula) -> Result<Option<Body>, OutOfMemory>
    ensures row { IfOk result (λ o. o ≡ contr p.now) }
{
    let denied = negation(alloc, p.copy(alloc)?)?;
    let Ok(p) = p.copy(alloc) else {
        return instead_of(denied, Err(OutOfMemory));
    };
    let hyps = two(alloc, p, denied)?;
    Ok(Some(forward(hyps, none_left(alloc))))
}

/// Reviewed: the goal is taken to follow from these hypotheses, on the word of a person.
pub fn review(alloc: Global, g: &Formula, hyps: &[Formula]) -> Result<Option<Body>, OutOfMemory>
    ensures row { IfOk result (λ o. o ≡ Some (both g.now hyps.now [])) }
{
    Ok(Some(both(alloc, g, hyps, none_left(alloc))?))
}
