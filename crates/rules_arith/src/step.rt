//! The linear step: hypotheses, each with its multiplier, that together contradict the negated goal.
ghost use Rattle.std.specs.Prelude.{◌≡◌, ◌+◌, ◌<◌, drop, length, IfOk};
ghost use Rattle.formula_core.specs.declared.Ty.{Ty};
ghost use Rattle.formula_core.specs.declared.Formula.TheOpen.{Node as NodeShape};
ghost use Rattle.rule_table.specs.Linear.{linear, difference, plus_one_form, shape_of_two, shape_of_none, shape_at, shape, may_be_goal, may_be_multiplied, goal_form, hypothesis_form, is_formula_among, are_multiplied, has_linear_form, added, linear_sum, is_positive_constant, first_overflow, then_do, times_form, joined_by, plus};
ghost use Rattle.rules_arith.specs.Private.{shape_of, with_hypothesis};
ghost use Rattle.rule_table.specs.Rows.{linear_step_of};
ghost use Rattle.rule_table.specs.Rules.{linear_width};

use crate::form::linear;
use crate::joining::{
    Checked, Joining, LinearForm, constant_of, is_constant, joined_forms, of_number, times_form,
};
use formula_core::{Formula, Op, OutOfMemory, Ty};
use rule_table::{Body, both, none_left};
use std::alloc::Global;

/// What a formula says of two integers, or that it is `⊥`.
#[derive(Clone, Copy)]
pub(crate) enum Comparison<'a> {
    AtMost(&'a Formula, &'a Formula),
    Less(&'a Formula, &'a Formula),
    Equation(&'a Formula, &'a Formula),
    Falsum,
    Other,
}

fn shape(f: &Formula) -> Comparison<'_>
    ensures { shape_of result ≡ shape f.now }
{
    match f {
        Formula::Node(op, parts, _) => shape_of_parts(*op, parts.items()),
        _ => Comparison::Other,
    }
}

fn shape_of_parts(op: Op, parts: &[Formula]) -> Comparison<'_>
    ensures { (t : Ty) → shape_of result ≡ shape_at (NodeShape op parts.now t) }
{
    match parts {
        [] => shape_of_none(op),
        [e, f] => shape_of_two(op, e, f),
        _ => Comparison::Other,
    }
}

fn shape_of_none<'a>(op: Op) -> Comparison<'a>
    ensures { shape_of result ≡ shape_of_none op }
{
    match op {
        Op::Bottom => Comparison::Falsum,
        _ => Comparison::Other,
    }
}

fn shape_of_two<'a>(op: Op, e: &'a Formula, f: &'a Formula) -> Comparison<'a>
    ensures { shape_of result ≡ shape_of_two op e.now f.now }
{
    match op {
        Op::LessOrEqual => Comparison::AtMost(e, f),
        Op::Less => Comparison::Less(e, f),
        Op::Equal => {
            let integer = Ty::Int;
            if e.type_of(&integer).is_integer() {
                Comparison::Equation(e, f)
            } else {
                Comparison::Other
            }
        }
        _ => Comparison::Other,
    }
}

fn may_be_goal(comparison: Comparison<'_>) -> bool
    ensures { result ≡ may_be_goal (shape_of comparison.entry) }
{
    match comparison {
        Comparison::AtMost(_, _) | Comparison::Less(_, _) | Comparison::Falsum => true,
        _ => false,
    }
}

fn may_be_multiplied(comparison: Comparison<'_>, multiplier: i128) -> bool
    ensures { result ≡ may_be_multiplied (shape_of comparison.entry) multiplier }
{
    match comparison {
        Comparison::AtMost(_, _) | Comparison::Less(_, _) => 0 <= multiplier,
        Comparison::Equation(_, _) => true,
        _ => false,
    }
}

/// The form of `E − F`.
fn difference<'a>(
    alloc: Global,
    e: &'a Formula,
    f: &'a Formula,
) -> Result<Checked<LinearForm<'a>>, OutOfMemory>
    ensures { IfOk result (λ o. o ≡ difference e.now f.now) }
{
    let first = linear(alloc, e)?;
    let second = linear(alloc, f)?;
    joined_forms(alloc, Joining::Difference, first, second)
}

fn plus_one<'a>(
    alloc: Global,
    a: Checked<LinearForm<'a>>,
) -> Result<Checked<LinearForm<'a>>, OutOfMemory>
    ensures { IfOk result (λ o. o ≡ plus_one_form a.entry) }
{
    joined_forms(alloc, Joining::Sum, a, Ok(of_number(alloc, 1)))
}

/// What is at least 1 where the goal doesn't hold.
fn goal_form<'a>(
    alloc: Global,
    goal: Comparison<'a>,
) -> Result<Checked<LinearForm<'a>>, OutOfMemory>
    ensures { IfOk result (λ o. o ≡ goal_form (shape_of goal.entry)) }
{
    match goal {
        Comparison::AtMost(e, f) => plus_one(alloc, difference(alloc, f, e)?),
        Comparison::Less(e, f) => difference(alloc, f, e),
        _ => Ok(Ok(of_number(alloc, 0))),
    }
}

/// What is at most 0, or 0, where the hypothesis holds.
fn hypothesis_form<'a>(
    alloc: Global,
    hypothesis: Comparison<'a>,
) -> Result<Checked<LinearForm<'a>>, OutOfMemory>
    ensures { IfOk result (λ o. o ≡ hypothesis_form (shape_of hypothesis.entry)) }
{
    match hypothesis {
        Comparison::AtMost(e, f) => difference(alloc, e, f),
        Comparison::Less(e, f) => plus_one(alloc, difference(alloc, e, f)?),
        Comparison::Equation(e, f) => difference(alloc, e, f),
        _ => Ok(Ok(of_number(alloc, 0))),
    }
}

/// Whether a formula is one of these.
fn is_among(formulas: &[Formula], f: &Formula) -> bool
    ensures { result ≡ is_formula_among formulas.now f.now }
{
    for formula in formulas {
        if formula.same(f) {
            return true;
        }
    }
    false
}

/// The formulas after a place.
fn after(formulas: &[Formula], i: usize) -> &[Formula]
    requires { i < length formulas.now }
    ensures { result.now ≡ drop (i + 1) formulas.now }
{
    &formulas[i + 1..]
}

/// Whether the hypotheses are distinct, and each has a multiplier that it may have.
#[tactic(auto, using(crate::proofs::Steps::multiplied))]
fn are_multiplied(hyps: &[Formula], multipliers: &[i128]) -> bool
    ensures { result ≡ are_multiplied hyps.now multipliers.now }
{
    for i in 0..hyps.len() {
        if multipliers.len() <= i {
            return false;
        }
        if !may_be_multiplied(shape(&hyps[i]), multipliers[i]) {
            return false;
        }
        if is_among(after(hyps, i), &hyps[i]) {
            return false;
        }
    }
    multipliers.len() <= hyps.len()
}

/// Whether these are a goal, hypotheses and multipliers of a linear step, whatever their sum is.
fn has_linear_form(goal: &Formula, hyps: &[Formula], multipliers: &[i128]) -> bool
    ensures { result ≡ has_linear_form goal.now hyps.now multipliers.now }
{
    may_be_goal(shape(goal)) && are_multiplied(hyps, multipliers)
}

/// A multiplied hypothesis more in a sum.
fn with_hypothesis<'a>(
    alloc: Global,
    total: Checked<LinearForm<'a>>,
    hyp: &'a Formula,
    multiplier: i128,
) -> Result<Checked<LinearForm<'a>>, OutOfMemory>
    ensures { IfOk result (λ o. o ≡ with_hypothesis total.entry hyp.now multiplier) }
{
    let total = match total {
        Ok(total) => total,
        Err(operands) => return Ok(Err(operands)),
    };
    let form = match hypothesis_form(alloc, shape(hyp))? {
        Ok(form) => form,
        Err(operands) => return Ok(Err(operands)),
    };
    let multiplied = times_form(alloc, multiplier, Ok(form))?;
    joined_forms(alloc, Joining::Sum, Ok(total), multiplied)
}

/// The goal's form and the multiplied hypotheses, added in order.
#[tactic(auto, using(crate::proofs::Steps::added_steps))]
fn linear_sum<'a>(
    alloc: Global,
    goal: &'a Formula,
    hyps: &'a [Formula],
    multipliers: &[i128],
) -> Result<Checked<LinearForm<'a>>, OutOfMemory>
    ensures { IfOk result (λ o. o ≡ linear_sum goal.now hyps.now multipliers.now) }
{
    let mut total = goal_form(alloc, shape(goal))?;
    for i in 0..hyps.len() {
        if multipliers.len() <= i {
            return Ok(total);
        }
        total = with_hypothesis(alloc, total, &hyps[i], multipliers[i])?;
    }
    Ok(total)
}

fn is_positive_constant(sum: &Checked<LinearForm<'_>>) -> bool
    ensures { result ≡ is_positive_constant sum.now }
{
    match sum {
        Ok(form) => is_constant(form) && 1 <= constant_of(form),
        Err(_) => false,
    }
}

fn first_overflow(sum: &Checked<LinearForm<'_>>) -> Option<(i128, i128)>
    ensures { result ≡ first_overflow sum.now }
{
    match sum {
        Ok(_) => None,
        Err(operands) => Some(*operands),
    }
}

/// The operands of the first operation of the sum that leaves i128.
pub fn linear_width(
    alloc: Global,
    multipliers: &[i128],
    hyps: &[Formula],
    goal: &Formula,
) -> Result<Option<(i128, i128)>, OutOfMemory>
    ensures width { IfOk result (λ o. o ≡ linear_width multipliers.now hyps.now goal.now) }
{
    if !has_linear_form(goal, hyps, multipliers) {
        return Ok(None);
    }
    let sum = linear_sum(alloc, goal, hyps, multipliers)?;
    Ok(first_overflow(&sum))
}
/// The goal holds where the goal's form and the multiplied hypotheses add up to a constant of at least 1.
pub fn linear_step_of(
    alloc: Global,
    multipliers: &[i128],
    hyps: &[Formula],
    goal: &Formula,
) -> Result<Option<Body>, OutOfMemory>
    ensures row { IfOk result (λ o. o ≡ linear_step_of multipliers.now hyps.now goal.now) }
{
    if !has_linear_form(goal, hyps, multipliers) {
        return Ok(None);
    }
    let sum = linear_sum(alloc, goal, hyps, multipliers)?;
    if !is_positive_constant(&sum) {
        return Ok(None);
    }
    Ok(Some(both(alloc, goal, hyps, none_left(alloc))?))
}
