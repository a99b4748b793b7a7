//! What a rule leaves to prove, and what it needs.
ghost use Rattle.std.specs.Prelude.{◌≡◌, IfOk, [], ◌∷◌, map, fold};
ghost use Rattle.rule_table.specs.Rows.{proves, adds, assumes, after_condition, wd_of_all, backward, forward, both};
ghost use Rattle.well_defined.specs.Connectives.{is_top, conjoined};
ghost use Rattle.well_defined.specs.Conditions.{wd_of};
ghost use Rattle.well_defined.specs.Predicates.{top};

use crate::rule::{Antecedent, Body};
use crate::shapes::{binary, one, top};
use formula_core::{Formula, List, Op, OutOfMemory, copy_formulas};
use std::alloc::Global;
use well_defined::wd;

/// An antecedent that proves P.
pub fn proves(alloc: Global, p: Formula) -> Antecedent
    ensures antecedent { result ≡ proves p }
{
    Antecedent {
        idents: List::of(Vec::new(alloc)),
        hyps: List::of(Vec::new(alloc)),
        goal: Some(p),
    }
}

/// An antecedent that adds hypotheses.
pub fn adds(alloc: Global, hyps: List<Formula>) -> Antecedent
    ensures antecedent { result ≡ adds hyps }
{
    Antecedent {
        idents: List::of(Vec::new(alloc)),
        hyps,
        goal: None,
    }
}

/// An antecedent that adds P.
pub fn adds_one(alloc: Global, p: Formula) -> Result<Antecedent, OutOfMemory>
    ensures antecedent { IfOk result (λ a. a ≡ adds (p ∷ [])) }
{
    let hyps = one(alloc, p)?;
    Ok(adds(alloc, hyps))
}

/// An antecedent that adds P and proves Q.
pub fn assumes(alloc: Global, p: Formula, q: Formula) -> Result<Antecedent, OutOfMemory>
    ensures antecedent { IfOk result (λ a. a ≡ assumes p q) }
{
    let hyps = one(alloc, p)?;
    Ok(Antecedent {
        idents: List::of(Vec::new(alloc)),
        hyps,
        goal: Some(q),
    })
}

/// No antecedents.
pub fn none_left(alloc: Global) -> List<Antecedent>
    ensures left { result ≡ [] }
{
    List::of(Vec::new(alloc))
}

/// One antecedent.
pub fn one_left(alloc: Global, a: Antecedent) -> Result<List<Antecedent>, OutOfMemory>
    ensures left { IfOk result (λ left. left ≡ a ∷ []) }
{
    let mut left = Vec::new(alloc);
    left.push(a)?;
    Ok(List::of(left))
}

/// Two antecedents, in order.
pub fn two_left(
    alloc: Global,
    a: Antecedent,
    b: Antecedent,
) -> Result<List<Antecedent>, OutOfMemory>
    ensures left { IfOk result (λ left. left ≡ a ∷ b ∷ []) }
{
    let mut left = Vec::new(alloc);
    left.push(a)?;
    left.push(b)?;
    Ok(List::of(left))
}

fn is_top(f: &Formula) -> bool
    ensures { result ≡ is_top f.now }
{
    match f {
        Formula::Node(op, _, _) => *op == Op::Top,
        _ => false,
    }
}

/// The antecedent of a condition, where it isn't ⊤.
pub fn condition_first(alloc: Global, condition: Formula) -> Result<Vec<Antecedent>, OutOfMemory>
    ensures left { IfOk result (λ left. left.items ≡ after_condition condition []) }
{
    let mut left = Vec::new(alloc);
    if is_top(&condition) {
        return Ok(left);
    }
    left.push(proves(alloc, condition))?;
    Ok(left)
}

/// One antecedent, after that of a condition where it isn't ⊤.
#[tactic(auto, using(crate::proofs::Conditions::one_more))]
pub fn one_after(
    alloc: Global,
    condition: Formula,
    a: Antecedent,
) -> Result<List<Antecedent>, OutOfMemory>
    ensures left { IfOk result (λ left. left ≡ after_condition condition (a ∷ [])) }
{
    let mut left = condition_first(alloc, condition)?;
    left.push(a)?;
    Ok(List::of(left))
}

/// Two antecedents, after that of a condition where it isn't ⊤.
#[tactic(auto, using(crate::proofs::Conditions::two_more))]
pub fn two_after(
    alloc: Global,
    condition: Formula,
    a: Antecedent,
    b: Antecedent,
) -> Result<List<Antecedent>, OutOfMemory>
    ensures left { IfOk result (λ left. left ≡ after_condition condition (a ∷ b ∷ [])) }
{
    let mut left = condition_first(alloc, condition)?;
    left.push(a)?;
    left.push(b)?;
    Ok(List::of(left))
}

/// The condition under which several terms have values.
pub fn wd_of_all(alloc: Global, terms: &[Formula]) -> Result<Formula, OutOfMemory>
    ensures condition { IfOk result (λ f. f ≡ wd_of_all terms.now) }
{
    let mut all = top(alloc);
    for term in terms {
        all = conjoined(alloc, all, wd(alloc, term)?)?;
    }
    Ok(all)
}

fn conjoined(alloc: Global, p: Formula, q: Formula) -> Result<Formula, OutOfMemory>
    ensures { IfOk result (λ f. f ≡ conjoined p q) }
{
    if is_top(&p) {
        return Ok(q);
    }
    if is_top(&q) {
        return Ok(p);
    }
    binary(alloc, Op::And, p, q)
}

/// What needs this goal.
pub fn backward(alloc: Global, goal: &Formula, left: List<Antecedent>) -> Result<Body, OutOfMemory>
    ensures body { IfOk result (λ b. b ≡ backward goal.now left) }
{
    Ok(Body {
        goal: Some(goal.copy(alloc)?),
        hyps: List::of(Vec::new(alloc)),
        antecedents: left,
    })
}

/// What needs these hypotheses.
pub fn forward(hyps: List<Formula>, left: List<Antecedent>) -> Body
    ensures body { result ≡ forward hyps left }
{
    Body {
        goal: None,
        hyps,
        antecedents: left,
    }
}

/// What needs this hypothesis.
pub fn forward_one(
    alloc: Global,
    hyp: &Formula,
    left: List<Antecedent>,
) -> Result<Body, OutOfMemory>
    ensures body { IfOk result (λ b. b ≡ forward (hyp.now ∷ []) left) }
{
    let hyps = one(alloc, hyp.copy(alloc)?)?;
    Ok(forward(hyps, left))
}

/// What needs this goal and these hypotheses.
pub fn both(
    alloc: Global,
    goal: &Formula,
    hyps: &[Formula],
    left: List<Antecedent>,
) -> Result<Body, OutOfMemory>
    ensures body { IfOk result (λ b. b ≡ both goal.now hyps.now left) }
{
    Ok(Body {
        goal: Some(goal.copy(alloc)?),
        hyps: copy_formulas(alloc, hyps)?,
        antecedents: left,
    })
}
