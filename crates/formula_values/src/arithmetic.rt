//! Arithmetic on numbers of 128 bits.
ghost use Rattle.std.specs.Prelude.{◌≡◌, ◌^◌, pos};
ghost use Rattle.formula_core.specs.declared.op.Op.TheVariants as op;
ghost use Rattle.formula_values.specs.Means.{IsComputed, IsNumber};

use event_values::Value;
use value_sets::ValueFault;

/// m + n
#[tactic(auto, using(crate::proofs::Numbers::sums))]
pub(crate) fn sum(m: i128, n: i128) -> Result<Value, ValueFault>
    ensures { IsComputed op.Plus m n result }
{
    match m.checked_add(n) {
        Some(k) => Ok(Value::Int(k)),
        None => Err(ValueFault::TooWide(m, n)),
    }
}

/// m − n
#[tactic(auto, using(crate::proofs::Numbers::sums))]
pub(crate) fn difference(m: i128, n: i128) -> Result<Value, ValueFault>
    ensures { IsComputed op.Minus m n result }
{
    match m.checked_sub(n) {
        Some(k) => Ok(Value::Int(k)),
        None => Err(ValueFault::TooWide(m, n)),
    }
}

/// m ∗ n
#[tactic(auto, using(crate::proofs::Numbers::sums))]
pub(crate) fn product(m: i128, n: i128) -> Result<Value, ValueFault>
    ensures { IsComputed op.Times m n result }
{
    match m.checked_mul(n) {
        Some(k) => Ok(Value::Int(k)),
        None => Err(ValueFault::TooWide(m, n)),
    }
}

/// m ÷ n, cut towards zero
#[tactic(auto, using(crate::proofs::Numbers::quotients))]
pub(crate) fn quotient(m: i128, n: i128) -> Result<Value, ValueFault>
    ensures { IsComputed op.Divide m n result }
{
    if n == 0 {
        return Err(ValueFault::Undefined);
    }
    match m.checked_div(n) {
        Some(k) => Ok(Value::Int(k)),
        None => Err(ValueFault::TooWide(m, n)),
    }
}

/// m mod n
#[tactic(auto, using(crate::proofs::Numbers::remainders))]
pub(crate) fn remainder(m: i128, n: i128) -> Result<Value, ValueFault>
    ensures { IsComputed op.Modulo m n result }
{
    if m < 0 {
        return Err(ValueFault::Undefined);
    }
    if n <= 0 {
        return Err(ValueFault::Undefined);
    }
    Ok(Value::Int(m % n))
}

/// m ^ n
#[tactic(auto, using(crate::proofs::Numbers::powers))]
pub(crate) fn power(m: i128, n: i128) -> Result<Value, ValueFault>
    ensures { IsComputed op.Power m n result }
{
    if m < 0 {
        return Err(ValueFault::Undefined);
    }
    if n < 0 {
        return Err(ValueFault::Undefined);
    }
    natural_power(m as u128, n as u128, ValueFault::TooWide(m, n))
}

/// The power, unless it is too wide. A base of 2 or more has none with an exponent of 127 or more.
#[tactic(auto, using(crate::proofs::Numbers::laws))]
fn natural_power(m: u128, n: u128, wide: ValueFault) -> Result<Value, ValueFault>
    ensures { IsNumber (pos (m ^ n)) wide result }
{
    if n == 0 {
        return Ok(Value::Int(1));
    }
    if m == 0 {
        return Ok(Value::Int(0));
    }
    if m == 1 {
        return Ok(Value::Int(1));
    }
    if 127 <= n {
        return Err(wide);
    }
    match m.checked_pow(n as u32) {
        Some(k) => natural(k, wide),
        None => Err(wide),
    }
}

#[tactic(auto, using(crate::proofs::Numbers::laws))]
fn natural(k: u128, wide: ValueFault) -> Result<Value, ValueFault>
    ensures { IsNumber (pos k) wide result }
{
    if k <= i128::MAX as u128 {
        Ok(Value::Int(k as i128))
    } else {
        Err(wide)
    }
}
