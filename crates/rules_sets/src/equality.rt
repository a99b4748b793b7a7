//! Rules of equality and of booleans.
ghost use Rattle.std.specs.Prelude.{◌≡◌, IfOk, [], ◌∷◌, Some};
ghost use Rattle.formula_core.specs.Types.{is_boolean};
ghost use Rattle.formula_core.specs.Wellness.{type_of};
ghost use Rattle.rule_table.specs.Rows.{adds, bool_cases, both, eq_goal, eq_hyp, eq_refl, forward};
ghost use Rattle.rule_table.specs.Shapes.{equal, false_value, true_value};
ghost use Rattle.formula_core.specs.declared.Formula.{Formula};

use crate::replace::replaced;
use crate::words::two_copies;
use formula_core::{Formula, List, Op, OutOfMemory, Ty};
use rule_table::{
    Antecedent, Body, adds_one, binary, condition_first, forward, none_left, one, one_left,
    predicate, proves, two_operands,
};
use std::alloc::Global;
use well_defined::wd;

/// Reflexivity: a goal `E = E`.
pub fn eq_refl(alloc: Global, g: &Formula) -> Result<Option<Body>, OutOfMemory>
    ensures row { IfOk result (λ o. o ≡ eq_refl g.now) }
{
    let Some((e, _)) = two_operands(Op::Equal, g) else {
        return Ok(None);
    };
    Ok(Some(Body {
        goal: Some(predicate(alloc, Op::Equal, e, e)?),
        hyps: List::of(Vec::new(alloc)),
        antecedents: none_left(alloc),
    }))
}

/// What needs a goal and a hypothesis.
pub(crate) fn both_of(
    alloc: Global,
    goal: &Formula,
    hyp: &Formula,
    left: List<Antecedent>,
) -> Result<Body, OutOfMemory>
    ensures { IfOk result (λ b. b ≡ both goal.now (hyp.now ∷ []) left) }
{
    let hyps = one(alloc, hyp.copy(alloc)?)?;
    let goal = goal.copy(alloc)?;
    Ok(Body {
        goal: Some(goal),
        hyps,
        antecedents: left,
    })
}

/// Equality in the goal: for a hypothesis `E = F`, the goal is proved with F in the place of E.
pub fn eq_goal(alloc: Global, g: &Formula, h: &Formula) -> Result<Option<Body>, OutOfMemory>
    ensures row { IfOk result (λ o. o ≡ eq_goal g.now h.now) }
{
    let Some((e, f)) = two_operands(Op::Equal, h) else {
        return Ok(None);
    };
    let new = replaced(alloc, e, f, g)?;
    let left = one_left(alloc, proves(alloc, new))?;
    Ok(Some(both_of(alloc, g, h, left)?))
}

/// Equality in a hypothesis: for a hypothesis `E = F`, another is there with F in the place of E.
pub fn eq_hyp(alloc: Global, h: &Formula, k: &Formula) -> Result<Option<Body>, OutOfMemory>
    ensures row { IfOk result (λ o. o ≡ eq_hyp h.now k.now) }
{
    let Some((e, f)) = two_operands(Op::Equal, h) else {
        return Ok(None);
    };
    let new = replaced(alloc, e, f, k)?;
    let left = one_left(alloc, adds_one(alloc, new)?)?;
    let hyps = two_copies(alloc, h, k)?;
    Ok(Some(forward(hyps, left)))
}

/// `TRUE` or `FALSE`
fn value(alloc: Global, op: Op) -> Formula
    ensures { result ≡ Formula.Node op [] Ty.Bool }
{
    Formula::Node(op, List::of(Vec::new(alloc)), Ty::Bool)
}

/// Adds that an expression is this value.
fn adds_value(alloc: Global, e: &Formula, op: Op) -> Result<Antecedent, OutOfMemory>
    ensures { IfOk result (λ a. a ≡ adds (equal e.now (Formula.Node op [] Ty.Bool) ∷ [])) }
{
    adds_one(
        alloc,
        binary(alloc, Op::Equal, e.copy(alloc)?, value(alloc, op))?,
    )
}

/// Whether an expression is a boolean.
fn is_boolean(e: &Formula) -> bool
    ensures { result ≡ is_boolean (type_of e.now) }
{
    let integer = Ty::Int;
    e.type_of(&integer).is_boolean()
}

/// Boolean cases: E is well defined, and there is the case of `E = TRUE` and that of `E = FALSE`.
#[tactic(auto, using(rule_table::proofs::Conditions::two_more))]
pub fn bool_cases(alloc: Global, e: &Formula) -> Result<Option<Body>, OutOfMemory>
    ensures row { IfOk result (λ o. o ≡ bool_cases e.now) }
{
    if !is_boolean(e) {
        return Ok(None);
    }
    let mut left = condition_first(alloc, wd(alloc, e)?)?;
    left.push(adds_value(alloc, e, Op::TrueValue)?)?;
    left.push(adds_value(alloc, e, Op::FalseValue)?)?;
    Ok(Some(forward(List::of(Vec::new(alloc)), List::of(left))))
}

/// Different booleans: a hypothesis `TRUE = FALSE`.
pub fn bool_diff(alloc: Global) -> Result<Option<Body>, OutOfMemory>
    ensures row { IfOk result (λ o. o ≡ Some (forward (equal true_value false_value ∷ []) [])) }
{
    let equal = binary(
        alloc,
        Op::Equal,
        value(alloc, Op::TrueValue),
        value(alloc, Op::FalseValue),
    )?;
    Ok(Some(forward(one(alloc, equal)?, none_left(alloc))))
}
