//! Values of functions.
ghost use Rattle.std.specs.Prelude.{◌≡◌, ◌↔◌, IfOk, IsTrue};
ghost use Rattle.std.specs.Option.{option_copied};
ghost use Rattle.value_sets.specs.Sets.{IsApplied, IsFunctional, IsTold};
ghost use Rattle.value_sets.specs.Private.{lefts_differ, lefts_differ_behind, have_same_left, partner_of};

use crate::collecting::in_order;
use crate::fault::ValueFault;
use crate::lists::members;
use event_values::{Value, ascends};
use formula_core::OutOfMemory;
use std::alloc::Global;
use std::cmp::Ordering;

fn have_same_left(v: &Value, w: &Value) -> bool
    ensures { result ≡ have_same_left v.now w.now }
{
    match v {
        Value::Pair(a, _) => match w {
            Value::Pair(b, _) => match a.get().order(b.get()) {
                Ordering::Equal => true,
                _ => false,
            },
            _ => false,
        },
        _ => false,
    }
}

/// Whether no two neighbours are pairs with one left side.
fn lefts_differ(values: &[Value]) -> bool
    ensures { result ≡ lefts_differ values.now }
{
    match values {
        [] => true,
        [first, others @ ..] => lefts_differ_behind(first, others),
    }
}

fn lefts_differ_behind(first: &Value, others: &[Value]) -> bool
    ensures { result ≡ lefts_differ_behind first.now others.now }
{
    let mut last = first;
    for other in others {
        if have_same_left(last, other) {
            return false;
        }
        last = other;
    }
    true
}

/// Whether no two pairs have one left side. In a set, such pairs are neighbours.
#[tactic(auto, using(crate::proofs::Functions::tests))]
fn is_functional(alloc: Global, r: &Value) -> Result<bool, OutOfMemory>
    ensures { IfOk result (λ b. IsTrue b ↔ IsFunctional r.now) }
{
    let pairs = members(r);
    if ascends(pairs) {
        return Ok(lefts_differ(pairs));
    }
    let set = in_order(alloc, r)?;
    Ok(lefts_differ(set.items()))
}

/// The right side of the first pair with this left side.
fn partner_of<'a>(pairs: &'a [Value], a: &Value) -> Option<&'a Value>
    ensures { option_copied result ≡ partner_of pairs.now a.now }
{
    for pair in pairs {
        match pair {
            Value::Pair(left, right) => match left.get().order(a) {
                Ordering::Equal => return Some(right.get()),
                _ => {}
            },
            _ => {}
        }
    }
    None
}

/// r(a), undefined where a isn't in the domain or two pairs of r have one left side.
#[tactic(auto, using(crate::proofs::Functions::applications))]
pub fn applied(alloc: Global, r: &Value, a: &Value) -> Result<Value, ValueFault>
    ensures { IsTold (IsApplied r.now a.now) result }
{
    match partner_of(members(r), a) {
        Some(b) => {
            if is_functional(alloc, r)? {
                Ok(b.copy(alloc)?)
            } else {
                Err(ValueFault::Undefined)
            }
        }
        None => Err(ValueFault::Undefined),
    }
}
