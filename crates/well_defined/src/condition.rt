//! The condition under which a formula has a value.
ghost use Rattle.std.specs.Prelude.{◌≡◌, ◌++◌, ◌∷◌, [], IsTrue, IfOk, OnOk, Contains, map, length};
ghost use Rattle.std.specs.List.{AllByRecursion};
ghost use Rattle.formula_core.specs.Identifiers.{identifiers};
ghost use Rattle.formula_core.specs.Wellness.{is_well, type_of};
ghost use Rattle.formula_core.specs.declared.formula.Formula.{Formula};
ghost use Rattle.well_defined.specs.Predicates.{top};
ghost use Rattle.well_defined.specs.Connectives.{conjoined, implied, for_every};
ghost use Rattle.well_defined.specs.Conditions.{wd_of, own_condition, operands_condition, second_guarded, quantified_condition, binder_condition};

use crate::connective::{all, alternative, conjoined, for_every, implied};
use crate::own::own_condition;
use crate::predicate::{quantified, top};
use formula_core::{Binder, Formula, Op, OutOfMemory, Ty, copy_types};
use std::alloc::Global;

/// The condition under which a formula has a value, L of the formula.
/// Also an index that would pass 2^32 - 1 is answered by `OutOfMemory`.
#[tactic(auto, using(crate::proofs::Wellness::laws, crate::proofs::Identifiers::laws))]
pub fn wd(alloc: Global, formula: &Formula) -> Result<Formula, OutOfMemory>
    ensures value { IfOk result (λ l. l ≡ wd_of formula.now) }
    ensures well { IsTrue (is_well formula.now) → IfOk result (λ l. IsTrue (is_well l)) }
    ensures predicate { IsTrue (is_well formula.now) → IfOk result (λ l. type_of l ≡ Ty.Truth) }
    ensures identifiers { IfOk result (λ l. AllByRecursion (Contains (identifiers formula.now)) (identifiers l)) }
{
    let mut out = Vec::new(alloc);
    add_condition(formula, alloc, &mut out)?;
    Ok(one_of(out))
}

// The recursion adds each condition at the end of a list, by a call after it has come back: so its own frame is small, and high formulas need little stack.

/// Adds the condition of a formula at the end of a list.
#[cycle(conditions)]
#[tactic(auto, using(crate::proofs::Equations::equations, crate::proofs::Equations::lengths))]
fn add_condition(
    formula: &Formula,
    alloc: Global,
    out: &mut Vec<Formula>,
) -> Result<(), OutOfMemory>
    ensures { OnOk result (out.new.items ≡ out.old.items ++ wd_of formula.now ∷ []) }
{
    match formula {
        Formula::Int(_) | Formula::Free(_, _) | Formula::Bound(_, _) => add_top(alloc, out),
        Formula::Node(op, parts, _) => {
            let mut conditions = Vec::new(alloc);
            add_conditions(parts.items(), alloc, &mut conditions)?;
            add_node_condition(alloc, *op, parts.items(), conditions, out)
        }
        Formula::Bind(binder, types, parts, _) => {
            let mut conditions = Vec::new(alloc);
            add_conditions(parts.items(), alloc, &mut conditions)?;
            add_binder_condition(
                alloc,
                *binder,
                types.items(),
                parts.items(),
                conditions,
                out,
            )
        }
    }
}

#[cycle(conditions)]
fn add_conditions(
    items: &[Formula],
    alloc: Global,
    out: &mut Vec<Formula>,
) -> Result<(), OutOfMemory>
    ensures { OnOk result (out.new.items ≡ out.old.items ++ map wd_of items.now) }
{
    for item in items {
        add_condition(item, alloc, out)?;
    }
    Ok(())
}

fn add_top(alloc: Global, out: &mut Vec<Formula>) -> Result<(), OutOfMemory>
    ensures { OnOk result (out.new.items ≡ out.old.items ++ top ∷ []) }
{
    out.push(top(alloc))?;
    Ok(())
}

/// Adds the condition of an operator on parts with these conditions.
fn add_node_condition(
    alloc: Global,
    op: Op,
    parts: &[Formula],
    conditions: Vec<Formula>,
    out: &mut Vec<Formula>,
) -> Result<(), OutOfMemory>
    requires { length conditions.items ≡ length parts.now }
    ensures { OnOk result (out.new.items ≡ out.old.items
        ++ conjoined (operands_condition op parts.now conditions.items) (own_condition op parts.now) ∷ []) }
{
    let operands = operands_condition(alloc, op, parts, conditions)?;
    let own = own_condition(alloc, op, parts)?;
    out.push(conjoined(alloc, operands, own)?)?;
    Ok(())
}

/// Adds the condition of a binder on parts with these conditions.
fn add_binder_condition(
    alloc: Global,
    binder: Binder,
    types: &[Ty],
    parts: &[Formula],
    conditions: Vec<Formula>,
    out: &mut Vec<Formula>,
) -> Result<(), OutOfMemory>
    requires { length conditions.items ≡ length parts.now }
    ensures { OnOk result (out.new.items
        ≡ out.old.items ++ binder_condition binder types.now parts.now conditions.items ∷ []) }
{
    out.push(binder_condition(alloc, binder, types, parts, conditions)?)?;
    Ok(())
}

/// The formula of a list of one.
fn one_of(list: Vec<Formula>) -> Formula
    requires { length list.items ≡ 1 }
    ensures { list.items ≡ result ∷ [] }
{
    let mut list = list;
    match list.pop() {
        Some(f) => f,
        None => unreachable!(),
    }
}

/// The formulas of a list of two.
fn two_of(list: Vec<Formula>) -> (Formula, Formula)
    requires { length list.items ≡ 2 }
    ensures { list.items ≡ result.0 ∷ result.1 ∷ [] }
{
    let mut list = list;
    match list.pop() {
        Some(second) => (one_of(list), second),
        None => unreachable!(),
    }
}

/// What the operands of an operator ask.
fn operands_condition(
    alloc: Global,
    op: Op,
    parts: &[Formula],
    conditions: Vec<Formula>,
) -> Result<Formula, OutOfMemory>
    requires { length conditions.items ≡ length parts.now }
    ensures { IfOk result (λ f. f ≡ operands_condition op parts.now conditions.items) }
{
    match parts {
        [p, _] => {
            let (l, m) = two_of(conditions);
            second_guarded(alloc, op, p, l, m)
        }
        _ => all(alloc, conditions),
    }
}

/// What two operands ask, of which p is the first, and of which these are the conditions.
fn second_guarded(
    alloc: Global,
    op: Op,
    p: &Formula,
    l: Formula,
    m: Formula,
) -> Result<Formula, OutOfMemory>
    ensures { IfOk result (λ f. f ≡ second_guarded op p.now l m) }
{
    let second = match op {
        Op::And | Op::Implies => implied(alloc, p, m)?,
        Op::Or => alternative(alloc, p, m)?,
        _ => m,
    };
    conjoined(alloc, l, second)
}

/// What a binder asks.
fn binder_condition(
    alloc: Global,
    binder: Binder,
    types: &[Ty],
    parts: &[Formula],
    conditions: Vec<Formula>,
) -> Result<Formula, OutOfMemory>
    requires { length conditions.items ≡ length parts.now }
    ensures { IfOk result (λ f. f ≡ binder_condition binder types.now parts.now conditions.items) }
{
    match parts {
        [_] => for_every(alloc, types, one_of(conditions)),
        [p, _] => {
            let (l, m) = two_of(conditions);
            guarded_below(alloc, binder, types, p, l, m)
        }
        _ => Ok(top(alloc)),
    }
}

/// What a binder with two parts asks, of which p is the first, and of which these are the conditions.
fn guarded_below(
    alloc: Global,
    binder: Binder,
    types: &[Ty],
    p: &Formula,
    l: Formula,
    m: Formula,
) -> Result<Formula, OutOfMemory>
    ensures { IfOk result (λ f. f ≡ conjoined
        (for_every types.now (conjoined l (implied p.now m))) (quantified_condition binder types.now p.now)) }
{
    let second = implied(alloc, p, m)?;
    let both = conjoined(alloc, l, second)?;
    let each = for_every(alloc, types, both)?;
    let own = quantified_condition(alloc, binder, types, p)?;
    conjoined(alloc, each, own)
}

/// `∃x·P` of `⋂x·P ∣ E`.
fn quantified_condition(
    alloc: Global,
    binder: Binder,
    types: &[Ty],
    p: &Formula,
) -> Result<Formula, OutOfMemory>
    ensures { IfOk result (λ f. f ≡ quantified_condition binder types.now p.now) }
{
    match binder {
        Binder::QuantifiedIntersection => {
            let types = copy_types(alloc, types)?;
            quantified(alloc, Binder::Exists, types, p.copy(alloc)?)
        }
        _ => Ok(top(alloc)),
    }
}
