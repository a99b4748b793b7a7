//! Rules of the connectives: in the goal, which is replaced, and in a hypothesis.
ghost use Rattle.std.specs.Prelude.{◌≡◌, IfOk};
ghost use Rattle.rule_table.specs.Rows.{and_l, and_r, contra, iff_l, iff_r, imp_l, imp_r, mp, not_l, not_r, or_l, or_r};

use crate::closing::{bottom, instead_of, two_copies};
use formula_core::{Formula, Op, OutOfMemory};
use rule_table::{
    Body, adds, adds_one, assumes, backward, forward, forward_one, negation, one_left, operand,
    predicate, proves, two, two_left, two_operands,
};
use std::alloc::Global;

/// Conjunction in the goal: for `P ∧ Q`, P and Q are proved.
pub fn and_r(alloc: Global, g: &Formula) -> Result<Option<Body>, OutOfMemory>
    ensures row { IfOk result (λ o. o ≡ and_r g.now) }
{
    let Some((p, q)) = two_operands(Op::And, g) else {
        return Ok(None);
    };
    let first = proves(alloc, p.copy(alloc)?);
    let Ok(q) = q.copy(alloc) else {
        return instead_of(first, Err(OutOfMemory));
    };
    let second = proves(alloc, q);
    let left = two_left(alloc, first, second)?;
    Ok(Some(backward(alloc, g, left)?))
}

/// Conjunction in a hypothesis: `P ∧ Q` gives P and Q.
pub fn and_l(alloc: Global, h: &Formula) -> Result<Option<Body>, OutOfMemory>
    ensures row { IfOk result (λ o. o ≡ and_l h.now) }
{
    let Some((p, q)) = two_operands(Op::And, h) else {
        return Ok(None);
    };
    let added = adds(alloc, two_copies(alloc, p, q)?);
    let left = one_left(alloc, added)?;
    Ok(Some(forward_one(alloc, h, left)?))
}

/// Disjunction in the goal: for `P ∨ Q`, Q is proved from `¬P`.
pub fn or_r(alloc: Global, g: &Formula) -> Result<Option<Body>, OutOfMemory>
    ensures row { IfOk result (λ o. o ≡ or_r g.now) }
{
    let Some((p, q)) = two_operands(Op::Or, g) else {
        return Ok(None);
    };
    let denied = negation(alloc, p.copy(alloc)?)?;
    let Ok(q) = q.copy(alloc) else {
        return instead_of(denied, Err(OutOfMemory));
    };
    let assumed = assumes(alloc, denied, q)?;
    let left = one_left(alloc, assumed)?;
    Ok(Some(backward(alloc, g, left)?))
}

/// Case distinction: a hypothesis `P ∨ Q` leaves the case of P and that of Q.
pub fn or_l(alloc: Global, h: &Formula) -> Result<Option<Body>, OutOfMemory>
    ensures row { IfOk result (λ o. o ≡ or_l h.now) }
{
    let Some((p, q)) = two_operands(Op::Or, h) else {
        return Ok(None);
    };
    let first = adds_one(alloc, p.copy(alloc)?)?;
    let Ok(q) = q.copy(alloc) else {
        return instead_of(first, Err(OutOfMemory));
    };
    let Ok(second) = adds_one(alloc, q) else {
        return instead_of(first, Err(OutOfMemory));
    };
    let left = two_left(alloc, first, second)?;
    Ok(Some(forward_one(alloc, h, left)?))
}

/// Deduction: for a goal `P ⇒ Q`, Q is proved from P.
pub fn imp_r(alloc: Global, g: &Formula) -> Result<Option<Body>, OutOfMemory>
    ensures row { IfOk result (λ o. o ≡ imp_r g.now) }
{
    let Some((p, q)) = two_operands(Op::Implies, g) else {
        return Ok(None);
    };
    let p = p.copy(alloc)?;
    let Ok(q) = q.copy(alloc) else {
        return instead_of(p, Err(OutOfMemory));
    };
    let assumed = assumes(alloc, p, q)?;
    let left = one_left(alloc, assumed)?;
    Ok(Some(backward(alloc, g, left)?))
}

/// Modus ponens on a hypothesis: for `P ⇒ Q`, P is proved, and then Q is there.
pub fn imp_l(alloc: Global, h: &Formula) -> Result<Option<Body>, OutOfMemory>
    ensures row { IfOk result (λ o. o ≡ imp_l h.now) }
{
    let Some((p, q)) = two_operands(Op::Implies, h) else {
        return Ok(None);
    };
    let first = proves(alloc, p.copy(alloc)?);
    let Ok(q) = q.copy(alloc) else {
        return instead_of(first, Err(OutOfMemory));
    };
    let Ok(second) = adds_one(alloc, q) else {
        return instead_of(first, Err(OutOfMemory));
    };
    let left = two_left(alloc, first, second)?;
    Ok(Some(forward_one(alloc, h, left)?))
}

/// Modus ponens: the hypotheses `P ⇒ Q` and P give Q.
pub fn mp(alloc: Global, h: &Formula) -> Result<Option<Body>, OutOfMemory>
    ensures row { IfOk result (λ o. o ≡ mp h.now) }
{
    let Some((p, q)) = two_operands(Op::Implies, h) else {
        return Ok(None);
    };
    let added = adds_one(alloc, q.copy(alloc)?)?;
    let left = one_left(alloc, added)?;
    let hyps = two_copies(alloc, h, p)?;
    Ok(Some(forward(hyps, left)))
}

/// Equivalence in the goal: for `P ⇔ Q`, `P ⇒ Q` and `Q ⇒ P` are proved.
pub fn iff_r(alloc: Global, g: &Formula) -> Result<Option<Body>, OutOfMemory>
    ensures row { IfOk result (λ o. o ≡ iff_r g.now) }
{
    let Some((p, q)) = two_operands(Op::Equivalent, g) else {
        return Ok(None);
    };
    let there = proves(alloc, predicate(alloc, Op::Implies, p, q)?);
    let Ok(back) = predicate(alloc, Op::Implies, q, p) else {
        return instead_of(there, Err(OutOfMemory));
    };
    let back = proves(alloc, back);
    let left = two_left(alloc, there, back)?;
    Ok(Some(backward(alloc, g, left)?))
}

/// Equivalence in a hypothesis: `P ⇔ Q` gives `P ⇒ Q` and `Q ⇒ P`.
pub fn iff_l(alloc: Global, h: &Formula) -> Result<Option<Body>, OutOfMemory>
    ensures row { IfOk result (λ o. o ≡ iff_l h.now) }
{
    let Some((p, q)) = two_operands(Op::Equivalent, h) else {
        return Ok(None);
    };
    let there = predicate(alloc, Op::Implies, p, q)?;
    let Ok(back) = predicate(alloc, Op::Implies, q, p) else {
        return instead_of(there, Err(OutOfMemory));
    };
    let added = adds(alloc, two(alloc, there, back)?);
    let left = one_left(alloc, added)?;
    Ok(Some(forward_one(alloc, h, left)?))
}

/// Negation in the goal: for `¬P`, `⊥` is proved from P.
pub fn not_r(alloc: Global, g: &Formula) -> Result<Option<Body>, OutOfMemory>
    ensures row { IfOk result (λ o. o ≡ not_r g.now) }
{
    let Some(p) = operand(Op::Not, g) else {
        return Ok(None);
    };
    let assumed = assumes(alloc, p.copy(alloc)?, bottom(alloc))?;
    let left = one_left(alloc, assumed)?;
    Ok(Some(backward(alloc, g, left)?))
}

/// Contradiction of a hypothesis: for `¬P`, P is proved.
pub fn not_l(alloc: Global, h: &Formula) -> Result<Option<Body>, OutOfMemory>
    ensures row { IfOk result (λ o. o ≡ not_l h.now) }
{
    let Some(p) = operand(Op::Not, h) else {
        return Ok(None);
    };
    let left = one_left(alloc, proves(alloc, p.copy(alloc)?))?;
    Ok(Some(forward_one(alloc, h, left)?))
}

/// Proof by contradiction: `⊥` is proved from the negated goal.
pub fn contra(alloc: Global, g: &Formula) -> Result<Option<Body>, OutOfMemory>
    ensures row { IfOk result (λ o. o ≡ contra g.now) }
{
    let denied = negation(alloc, g.copy(alloc)?)?;
    let assumed = assumes(alloc, denied, bottom(alloc))?;
    let left = one_left(alloc, assumed)?;
    Ok(Some(backward(alloc, g, left)?))
}
