//! The value of an operator on two numerals.
ghost use Rattle.std.specs.Prelude.{◌≡◌, ◌+ℤ◌, ◌-ℤ◌, ◌*ℤ◌, ◌^◌, pos, neg_ℤ, int_le, IfOk, IfSome, IsTrue, Some};
ghost use Rattle.std.specs.Option.{option_map};
ghost use Rattle.formula_core.specs.declared.op.Op.TheVariants as op;
ghost use Rattle.rule_table.specs.Shapes.{literal, numeral, as_numeral, not_negative};
ghost use Rattle.rule_table.specs.ArithmeticLaws.{numerals, computed, too_wide, modulo, power};
ghost use Rattle.rule_table.specs.Rewriting.{width_of};
ghost use Rattle.rule_table.specs.Rules.{width_at};
ghost use Rattle.rules_arith.specs.Private.{narrow, narrow_value, two_numerals, negated_literal};

use crate::places::at_place;
use formula_core::{Formula, Op, OutOfMemory, Ty};
use rule_table::{Law, one};
use std::alloc::Global;

/// `m op n` of literals or negated literals: the value, where it is well defined and not too wide.
pub fn computed(alloc: Global, f: &Formula) -> Result<Option<Formula>, OutOfMemory>
    ensures right { IfOk result (λ o. o ≡ computed f.now) }
{
    let Some((op, m, n)) = numerals(f) else {
        return Ok(None);
    };
    match value_of(op, m, n) {
        Some(Some(value)) => Ok(Some(as_numeral(alloc, value)?)),
        _ => Ok(None),
    }
}

/// The two numerals of an operator, where its value is too wide.
pub(crate) fn too_wide(f: &Formula) -> Option<(i128, i128)>
    ensures operands { result ≡ too_wide f.now }
{
    let Some((op, m, n)) = numerals(f) else {
        return None;
    };
    match value_of(op, m, n) {
        Some(None) => Some((m, n)),
        _ => None,
    }
}

/// The two numerals of the operator at a place, where the law with this number computes its value, which is too wide.
pub fn width_at(law: u8, place: &[u32], f: &Formula) -> Option<(i128, i128)>
    ensures width { result ≡ width_at law place.now f.now }
{
    let law = Law::of_number(law)?;
    let Some(part) = at_place(place, f) else {
        return None;
    };
    width_of(law, part)
}

fn width_of(law: Law, f: &Formula) -> Option<(i128, i128)>
    ensures { result ≡ width_of law f.now }
{
    match law {
        Law::Computed => too_wide(f),
        _ => None,
    }
}

/// An operator and the two numerals under it.
fn numerals(f: &Formula) -> Option<(Op, i128, i128)>
    ensures { result ≡ numerals f.now }
{
    match f {
        Formula::Node(op, parts, _) => {
            let (m, n) = two_numerals(parts.items())?;
            Some((*op, m, n))
        }
        _ => None,
    }
}

/// The values of two numerals.
fn two_numerals(parts: &[Formula]) -> Option<(i128, i128)>
    ensures { result ≡ two_numerals parts.now }
{
    match parts {
        [p, q] => {
            let m = numeral(p)?;
            let n = numeral(q)?;
            Some((m, n))
        }
        _ => None,
    }
}

/// The value of a literal or a negated literal.
fn numeral(f: &Formula) -> Option<i128>
    ensures { result ≡ numeral f.now }
{
    match f {
        Formula::Int(n) => not_negative(*n),
        Formula::Node(op, parts, _) => match op {
            Op::Negate => negated(parts.items()),
            _ => None,
        },
        _ => None,
    }
}

/// The value of the negation of a literal.
fn negated(parts: &[Formula]) -> Option<i128>
    ensures { result ≡ negated_literal parts.now }
{
    match parts {
        [p] => {
            let n = literal(p)?;
            Some(-n)
        }
        _ => None,
    }
}

fn literal(f: &Formula) -> Option<i128>
    ensures value { result ≡ literal f.now }
    ensures least { IfSome result (λ n. IsTrue (int_le (pos 0) n)) }
{
    match f {
        Formula::Int(n) => not_negative(*n),
        _ => None,
    }
}

fn not_negative(n: i128) -> Option<i128>
    ensures value { result ≡ not_negative n }
    ensures least { IfSome result (λ n. IsTrue (int_le (pos 0) n)) }
{
    if n < 0 { None } else { Some(n) }
}

/// A number as a literal or a negated literal.
fn as_numeral(alloc: Global, value: i128) -> Result<Formula, OutOfMemory>
    requires { narrow value ≡ Some value }
    ensures { IfOk result (λ f. f ≡ as_numeral value) }
{
    if value < 0 {
        let literal = one(alloc, Formula::Int(-value))?;
        Ok(Formula::Node(Op::Negate, literal, Ty::Int))
    } else {
        Ok(Formula::Int(value))
    }
}

/// The value, where it is well defined; of that None where it is too wide.
fn value_of(op: Op, m: i128, n: i128) -> Option<Option<i128>>
    ensures { result ≡ narrow_value op m n }
{
    match op {
        Op::Plus => Some(sum(m, n)),
        Op::Minus => Some(difference(m, n)),
        Op::Times => Some(product(m, n)),
        Op::Divide => quotient(m, n),
        Op::Modulo => remainder(m, n),
        Op::Power => power(m, n),
        _ => None,
    }
}

#[tactic(auto, using(crate::proofs::Narrow::laws))]
fn narrow(value: i128) -> Option<i128>
    ensures { result ≡ narrow value }
{
    if value == i128::MIN {
        None
    } else {
        Some(value)
    }
}

#[tactic(auto, using(crate::proofs::Narrow::laws))]
fn sum(m: i128, n: i128) -> Option<i128>
    ensures { result ≡ narrow (m +ℤ n) }
{
    match m.checked_add(n) {
        Some(value) => narrow(value),
        None => None,
    }
}

#[tactic(auto, using(crate::proofs::Narrow::laws))]
fn difference(m: i128, n: i128) -> Option<i128>
    ensures { result ≡ narrow (m -ℤ n) }
{
    match m.checked_sub(n) {
        Some(value) => narrow(value),
        None => None,
    }
}

#[tactic(auto, using(crate::proofs::Narrow::laws))]
fn product(m: i128, n: i128) -> Option<i128>
    ensures { result ≡ narrow (m *ℤ n) }
{
    match m.checked_mul(n) {
        Some(value) => narrow(value),
        None => None,
    }
}

/// The quotient, cut towards zero.
#[tactic(auto, using(crate::proofs::Narrow::laws))]
fn quotient(m: i128, n: i128) -> Option<Option<i128>>
    ensures { result ≡ narrow_value op.Divide m n }
{
    if n == 0 {
        return None;
    }
    match m.checked_div(n) {
        Some(value) => Some(narrow(value)),
        None => Some(None),
    }
}

#[tactic(auto, using(crate::proofs::Narrow::laws))]
fn remainder(m: i128, n: i128) -> Option<Option<i128>>
    ensures { result ≡ option_map narrow (modulo m n) }
{
    if m < 0 || n <= 0 {
        return None;
    }
    Some(Some(m % n))
}

fn power(m: i128, n: i128) -> Option<Option<i128>>
    ensures { result ≡ option_map narrow (power m n) }
{
    if m < 0 || n < 0 {
        return None;
    }
    Some(natural_power(m as u128, n as u128))
}

/// The power, where it isn't too wide. A base of 2 or more has none with an exponent of 127 or more.
#[tactic(auto, using(crate::proofs::Narrow::laws))]
fn natural_power(m: u128, n: u128) -> Option<i128>
    ensures { result ≡ narrow (pos (m ^ n)) }
{
    if n == 0 {
        return Some(1);
    }
    if m == 0 {
        return Some(0);
    }
    if m == 1 {
        return Some(1);
    }
    if 127 <= n {
        return None;
    }
    match m.checked_pow(n as u32) {
        Some(value) => as_narrow(value),
        None => None,
    }
}

#[tactic(auto, using(crate::proofs::Narrow::laws))]
fn as_narrow(value: u128) -> Option<i128>
    ensures { result ≡ narrow (pos value) }
{
    if value <= i128::MAX as u128 {
        Some(value as i128)
    } else {
        None
    }
}
