//! The value of a formula.
ghost use Rattle.std.specs.Prelude.{◌≡◌, ◌↔◌, [], IsTrue, map};
ghost use Rattle.formula_core.specs.declared.formula.Formula.{out-Formula};
ghost use Rattle.value_sets.specs.Sets.{IsTold};
ghost use Rattle.formula_values.specs.Means.{Means, NodeMeans, AllMean, ByOperands, decided, least_at};
ghost use Rattle.formula_values.specs.Private.{BindMeans, IsFrom, listed, held, answered, is_connective, is_member, second_least};

use crate::giving::gives;
use crate::names::named;
use crate::operand::{Operand, add, made, number, owned, truth};
use crate::values::Values;
use event_values::Value;
use formula_core::{Formula, Op};
use std::alloc::Global;
use value_sets::ValueFault;

/// The value of a formula, or the first fault in the order of evaluation.
#[tactic(auto, using(crate::proofs::Meaning::wholes))]
pub fn evaluate(alloc: Global, formula: &Formula, values: &Values) -> Result<Value, ValueFault>
    ensures means { IsTold (Means values.now formula.now) result }
{
    owned(alloc, operand_of(alloc, formula, values))
}

#[cycle(evaluate)]
#[tactic(auto, using(crate::proofs::Meaning::variants))]
fn operand_of<'a>(
    alloc: Global,
    formula: &Formula,
    values: &'a Values,
) -> Result<Operand<'a>, ValueFault>
    ensures { IsTold (Means values.now formula.now) (answered result) }
{
    match formula {
        Formula::Int(n) => Ok(Operand::Made(Value::Int(*n))),
        Formula::Free(name, ty) => named(alloc, name, ty, values),
        Formula::Bound(_, _) => Err(ValueFault::NotComputed),
        Formula::Node(op, parts, _) => made(node_value(alloc, *op, parts.items(), values)),
        Formula::Bind(_, _, parts, _) => not_computed(alloc, parts.items(), values),
    }
}

/// Of an operator on parts: the right side of ∧, ∨ and ⇒ is unread where the left one decides.
#[cycle(evaluate)]
#[tactic(auto, using(crate::proofs::Meaning::nodes))]
fn node_value(
    alloc: Global,
    op: Op,
    parts: &[Formula],
    values: &Values,
) -> Result<Value, ValueFault>
    ensures { IsTold (NodeMeans (λ f. f) (Means values.now) op parts.now) result }
{
    if parts.len() != 2 {
        return by_operands(alloc, op, parts, values);
    }
    match parts {
        [p, q] => {
            if is_connective(op) {
                match operand_of(alloc, p, values) {
                    Ok(left) => match decided(op, truth(&left)) {
                        Some(b) => Ok(Value::Truth(b)),
                        None => owned(alloc, operand_of(alloc, q, values)),
                    },
                    Err(fault) => Err(fault),
                }
            } else if is_member(op) {
                match second_least(parts) {
                    Some(least) => match operand_of(alloc, p, values) {
                        Ok(left) => Ok(Value::Truth(is_at_least(least, number(&left)))),
                        Err(fault) => Err(fault),
                    },
                    None => by_operands(alloc, op, parts, values),
                }
            } else {
                by_operands(alloc, op, parts, values)
            }
        }
        _ => unreachable!(),
    }
}

/// Of an operator on the values of its parts.
#[cycle(evaluate)]
#[tactic(auto, using(crate::proofs::Meaning::operands))]
fn by_operands(
    alloc: Global,
    op: Op,
    parts: &[Formula],
    values: &Values,
) -> Result<Value, ValueFault>
    ensures { IsTold (ByOperands (λ f. f) (Means values.now) op parts.now) result }
{
    let mut operands = Vec::new(alloc);
    evaluate_all(alloc, parts, values, &mut operands)?;
    gives(alloc, op, operands.as_slice())
}

/// Of a binder on parts: their faults come first, and it isn't computed.
#[cycle(evaluate)]
#[tactic(auto, using(crate::proofs::Meaning::binders))]
fn not_computed<'a>(
    alloc: Global,
    parts: &[Formula],
    values: &'a Values,
) -> Result<Operand<'a>, ValueFault>
    ensures { IsTold (BindMeans (Means values.now) parts.now) (answered result) }
{
    let mut operands = Vec::new(alloc);
    evaluate_all(alloc, parts, values, &mut operands)?;
    Err(ValueFault::NotComputed)
}

/// The values of the parts, or the first fault.
#[cycle(evaluate)]
#[tactic(auto, using(crate::proofs::Meaning::leads))]
fn evaluate_all<'a>(
    alloc: Global,
    parts: &[Formula],
    values: &'a Values,
    out: &mut Vec<Operand<'a>>,
) -> Result<(), ValueFault>
    requires { map held out.old.items ≡ [] }
    ensures { IsTold (AllMean (λ f. f) (Means values.now) parts.now) (listed result (map held out.new.items)) }
{
    for p in parts {
        match operand_of(alloc, p, values) {
            Ok(v) => add(v, out)?,
            Err(fault) => return Err(fault),
        }
    }
    Ok(())
}

/// Whether the number is at least this.
fn is_at_least(least: Option<i128>, n: i128) -> bool
    ensures { IsTrue result ↔ IsFrom least n }
{
    match least {
        None => true,
        Some(k) => k <= n,
    }
}

fn is_member(op: Op) -> bool
    ensures { result ≡ is_member op }
{
    match op {
        Op::Member => true,
        _ => false,
    }
}

/// The least number of ℕ and ℕ1, and none of ℤ.
fn least_of(set: &Formula) -> Option<Option<i128>>
    ensures { result ≡ least_at (out-Formula set.now) }
{
    match set {
        Formula::Node(op, _, _) => match op {
            Op::Integers => Some(None),
            Op::Naturals => Some(Some(0)),
            Op::PositiveNaturals => Some(Some(1)),
            _ => None,
        },
        _ => None,
    }
}

/// The least number of the set at the right, where that is ℤ, ℕ or ℕ1.
fn second_least(parts: &[Formula]) -> Option<Option<i128>>
    ensures { result ≡ second_least parts.now }
{
    match parts {
        [_, q] => least_of(q),
        _ => None,
    }
}

fn is_connective(op: Op) -> bool
    ensures { result ≡ is_connective op }
{
    match op {
        Op::And | Op::Or | Op::Implies => true,
        _ => false,
    }
}

/// What a connective's left side decides alone.
fn decided(op: Op, left: bool) -> Option<bool>
    ensures { result ≡ decided op left }
{
    match op {
        Op::And => { if left { None } else { Some(false) } }
        Op::Or => { if left { Some(true) } else { None } }
        Op::Implies => { if left { None } else { Some(true) } }
        _ => None,
    }
}
