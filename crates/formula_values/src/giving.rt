//! Forms over the values of their operands.
ghost use Rattle.std.specs.Prelude.{◌≡◌, ◌↔◌, ◌<ℤ◌, ◌≤ℤ◌, IsTrue, IfOk, length, map, pos, []};
ghost use Rattle.event_values.specs.declared.value.Value.TheVariants as value;
ghost use Rattle.value_sets.specs.Sets.{set_members, integer_of, IsMade, IsTold, Within, IsLeast, IsGreatest};
ghost use Rattle.formula_values.specs.Means.{truth_of, constant_of, GivesUnary, GivesBinary, GivesSome, GivesMany, IsEnd};
ghost use Rattle.formula_values.specs.Private.{is_extension, held};

use crate::arithmetic::{difference as minus, power, product as times, quotient, remainder, sum};
use crate::forms::{Binary, Unary, binary_of, unary_of};
use crate::operand::{Operand, copies};
use event_values::Value;
use formula_core::{Boxed, List, Op, OutOfMemory};
use std::alloc::Global;
use value_sets::{
    ValueFault, applied, composition, converse, difference, domain, domain_restriction,
    domain_subtraction, extension, greatest, image, intersection, interval, is_in, is_within,
    least, made, members, number, overriding, product, range, range_restriction, range_subtraction,
    union,
};

/// The truth value that a value is, and false of another value.
pub(crate) fn truth(v: &Value) -> bool
    ensures { result ≡ truth_of v.now }
{
    match v {
        Value::Truth(b) => *b,
        _ => false,
    }
}

fn cardinality(set: &Value) -> Value
    ensures { result ≡ value.Int (pos (length (set_members set.now))) }
{
    Value::Int(members(set).len() as i128)
}

/// The least number of a set, undefined of the empty one.
#[tactic(auto, using(crate::proofs::FormRules::least_ends))]
fn minimum(set: &Value) -> Result<Value, ValueFault>
    ensures { IsEnd (IsLeast set.now) (set_members set.now) result }
{
    match least(set) {
        Some(n) => Ok(Value::Int(n)),
        None => Err(ValueFault::Undefined),
    }
}

/// The greatest number of a set, undefined of the empty one.
#[tactic(auto, using(crate::proofs::FormRules::greatest_ends))]
fn maximum(set: &Value) -> Result<Value, ValueFault>
    ensures { IsEnd (IsGreatest set.now) (set_members set.now) result }
{
    match greatest(set) {
        Some(n) => Ok(Value::Int(n)),
        None => Err(ValueFault::Undefined),
    }
}

/// Whether both are true or both are false.
#[tactic(auto, using(crate::proofs::FormRules::truths))]
fn are_equivalent(v: &Value, w: &Value) -> bool
    ensures { IsTrue result ↔ (truth_of v.now ≡ truth_of w.now) }
{
    if truth(v) { truth(w) } else { !truth(w) }
}

fn is_less(v: &Value, w: &Value) -> bool
    ensures { IsTrue result ↔ (integer_of v.now <ℤ integer_of w.now) }
{
    number(v) < number(w)
}

fn is_at_most(v: &Value, w: &Value) -> bool
    ensures { IsTrue result ↔ (integer_of v.now ≤ℤ integer_of w.now) }
{
    number(v) <= number(w)
}

/// Whether the one set is within the other, and not the other in it.
#[tactic(auto, using(crate::proofs::FormRules::propers))]
fn is_proper(s: &Value, t: &Value) -> bool
    ensures { IsTrue result ↔ (Within s.now t.now × (Within t.now s.now → ⊥)) }
{
    if is_within(s, t) {
        !is_within(t, s)
    } else {
        false
    }
}

fn pair_of(alloc: Global, v: &Value, w: &Value) -> Result<Value, OutOfMemory>
    ensures { IfOk result (λ p. p ≡ value.Pair v.now w.now) }
{
    let left = Boxed::new(alloc, v.copy(alloc)?)?;
    let right = Boxed::new(alloc, w.copy(alloc)?)?;
    Ok(Value::Pair(left, right))
}

/// v ↦ w
fn maplet(alloc: Global, v: &Value, w: &Value) -> Result<Value, ValueFault>
    ensures { IsTold (IsMade (value.Pair v.now w.now)) result }
{
    let pair = pair_of(alloc, v, w)?;
    made(pair)
}

/// A form of one operand.
fn gives_unary(alloc: Global, form: Unary, v: &Value) -> Result<Value, ValueFault>
    ensures { IsTold (GivesUnary form v.now) result }
{
    match form {
        Unary::Not => Ok(Value::Truth(!truth(v))),
        Unary::Finite => Ok(Value::Truth(true)),
        Unary::BoolOf => Ok(Value::Truth(truth(v))),
        Unary::Negate => minus(0, number(v)),
        Unary::Cardinality => Ok(cardinality(v)),
        Unary::Minimum => minimum(v),
        Unary::Maximum => maximum(v),
        Unary::Converse => converse(alloc, v),
        Unary::Domain => domain(alloc, v),
        Unary::Range => range(alloc, v),
    }
}

/// A form of two operands.
fn gives_binary(alloc: Global, form: Binary, v: &Value, w: &Value) -> Result<Value, ValueFault>
    ensures { IsTold (GivesBinary form v.now w.now) result }
{
    match form {
        Binary::Equivalent => Ok(Value::Truth(are_equivalent(v, w))),
        Binary::Equal => Ok(Value::Truth(v.same(w))),
        Binary::Member => Ok(Value::Truth(is_in(v, w))),
        Binary::ProperSubset => Ok(Value::Truth(is_proper(v, w))),
        Binary::Subset => Ok(Value::Truth(is_within(v, w))),
        Binary::Less => Ok(Value::Truth(is_less(v, w))),
        Binary::LessOrEqual => Ok(Value::Truth(is_at_most(v, w))),
        Binary::Maplet => maplet(alloc, v, w),
        Binary::Union => union(alloc, v, w),
        Binary::Intersection => intersection(alloc, v, w),
        Binary::Difference => difference(alloc, v, w),
        Binary::Product => product(alloc, v, w),
        Binary::DomainRestriction => domain_restriction(alloc, v, w),
        Binary::DomainSubtraction => domain_subtraction(alloc, v, w),
        Binary::RangeRestriction => range_restriction(alloc, v, w),
        Binary::RangeSubtraction => range_subtraction(alloc, v, w),
        Binary::Overriding => overriding(alloc, v, w),
        Binary::Composition => composition(alloc, v, w),
        Binary::Interval => interval(alloc, number(v), number(w)),
        Binary::Plus => sum(number(v), number(w)),
        Binary::Minus => minus(number(v), number(w)),
        Binary::Times => times(number(v), number(w)),
        Binary::Divide => quotient(number(v), number(w)),
        Binary::Modulo => remainder(number(v), number(w)),
        Binary::Power => power(number(v), number(w)),
        Binary::Apply => applied(alloc, v, w),
        Binary::Image => image(alloc, v, w),
    }
}

/// A form without operands, where it is computed.
fn constant_of(alloc: Global, op: Op) -> Result<Option<Value>, OutOfMemory>
    ensures { IfOk result (λ o. o ≡ constant_of op) }
{
    match op {
        Op::Top | Op::TrueValue => Ok(Some(Value::Truth(true))),
        Op::Bottom | Op::FalseValue => Ok(Some(Value::Truth(false))),
        Op::Booleans => {
            let mut both = Vec::new(alloc);
            both.push(Value::Truth(false))?;
            both.push(Value::Truth(true))?;
            Ok(Some(Value::Set(List::of(both))))
        }
        Op::EmptySet => Ok(Some(Value::Set(List::of(Vec::new(alloc))))),
        _ => Ok(None),
    }
}

#[tactic(auto, using(crate::proofs::FormRules::constants))]
fn gives_constant(alloc: Global, op: Op) -> Result<Value, ValueFault>
    ensures { IsTold (GivesSome op []) result }
{
    match constant_of(alloc, op)? {
        Some(v) => Ok(v),
        None => Err(ValueFault::NotComputed),
    }
}

/// A form by how many operands there are.
#[tactic(auto, using(crate::proofs::FormRules::counts))]
fn gives_some(alloc: Global, op: Op, operands: &[Operand<'_>]) -> Result<Value, ValueFault>
    ensures { IsTold (GivesSome op (map held operands.now)) result }
{
    match operands {
        [] => gives_constant(alloc, op),
        [v] => match unary_of(op) {
            Some(form) => gives_unary(alloc, form, v.get()),
            None => Err(ValueFault::NotComputed),
        },
        [v, w] => match binary_of(op) {
            Some(form) => gives_binary(alloc, form, v.get(), w.get()),
            None => Err(ValueFault::NotComputed),
        },
        [_, _, _, ..] => Err(ValueFault::NotComputed),
    }
}

fn is_extension(op: Op) -> bool
    ensures { result ≡ is_extension op }
{
    match op {
        Op::SetExtension => true,
        _ => false,
    }
}

/// An operator over the values of its operands.
#[tactic(auto, using(crate::proofs::FormRules::extensions))]
pub(crate) fn gives(alloc: Global, op: Op, operands: &[Operand<'_>]) -> Result<Value, ValueFault>
    ensures { IsTold (GivesMany op (map held operands.now)) result }
{
    if is_extension(op) {
        let members = copies(alloc, operands)?;
        return extension(alloc, members.as_slice());
    }
    gives_some(alloc, op, operands)
}
