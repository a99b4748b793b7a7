//! The number of an integer expression in a reading.
ghost use Rattle.std.specs.Prelude.{◌≡◌, ◌+ℤ◌, ◌-ℤ◌, ◌*ℤ◌, Ok};
ghost use Rattle.formula_readings.specs.Readings.{values_of};
ghost use Rattle.readings_core.specs.Private.{calculated, checked_number, node_number, operated, opposite};
ghost use Rattle.readings_core.specs.Values.{unless_wide};
ghost use Rattle.readings_core.specs.Widths.{unless_fitting};

use crate::atoms::number_of_atom;
use crate::values::ValueFault;
use formula_core::{Formula, Op};
use formula_readings::{Reading, adds_up, turns_sign};

/// The number, or the operands of the first operation whose value doesn't fit.
#[cycle(numbers)]
pub(crate) fn number(f: &Formula, reading: &Reading) -> Result<i128, ValueFault>
    ensures { result ≡ checked_number (values_of reading.now).number f.now }
{
    match f {
        Formula::Int(n) => Ok(*n),
        Formula::Node(op, parts, _) => number_of_node(parts.items(), *op, f, reading),
        _ => atom(f, reading),
    }
}

#[cycle(numbers)]
fn number_of_node(
    parts: &[Formula],
    op: Op,
    f: &Formula,
    reading: &Reading,
) -> Result<i128, ValueFault>
    ensures { result ≡ node_number (values_of reading.now).number op f.now parts.now }
{
    match parts {
        [e] => {
            if turns_sign(op) {
                opposite(number(e, reading))
            } else {
                atom(f, reading)
            }
        }
        [e, g] => {
            if adds_up(op) {
                operated(op, number(e, reading), number(g, reading))
            } else {
                atom(f, reading)
            }
        }
        _ => atom(f, reading),
    }
}

fn atom(f: &Formula, reading: &Reading) -> Result<i128, ValueFault>
    ensures { result ≡ Ok ((values_of reading.now).number f.now) }
{
    Ok(number_of_atom(f, reading))
}

/// The negation of what was computed.
fn opposite(m: Result<i128, ValueFault>) -> Result<i128, ValueFault>
    ensures { result ≡ opposite m }
{
    match m {
        Ok(m) => difference(0, m),
        Err(fault) => Err(fault),
    }
}

/// An operation on what was computed, of which the left operand was the first.
fn operated(
    op: Op,
    m: Result<i128, ValueFault>,
    n: Result<i128, ValueFault>,
) -> Result<i128, ValueFault>
    ensures { result ≡ operated op m n }
{
    match m {
        Ok(m) => match n {
            Ok(n) => calculated(op, m, n),
            Err(fault) => Err(fault),
        },
        Err(fault) => Err(fault),
    }
}

/// The sum, the difference or the product.
fn calculated(op: Op, m: i128, n: i128) -> Result<i128, ValueFault>
    ensures { result ≡ calculated op m n }
{
    match op {
        Op::Plus => sum(m, n),
        Op::Minus => difference(m, n),
        Op::Times => product(m, n),
        _ => Ok(0),
    }
}

#[tactic(auto, using(crate::proofs::Fitting::laws))]
fn sum(m: i128, n: i128) -> Result<i128, ValueFault>
    ensures { result ≡ unless_wide (unless_fitting (m +ℤ n) m n) (m +ℤ n) }
{
    match m.checked_add(n) {
        Some(value) => Ok(value),
        None => Err(ValueFault::TooWide(m, n)),
    }
}

#[tactic(auto, using(crate::proofs::Fitting::laws))]
fn difference(m: i128, n: i128) -> Result<i128, ValueFault>
    ensures { result ≡ unless_wide (unless_fitting (m -ℤ n) m n) (m -ℤ n) }
{
    match m.checked_sub(n) {
        Some(value) => Ok(value),
        None => Err(ValueFault::TooWide(m, n)),
    }
}

#[tactic(auto, using(crate::proofs::Fitting::laws))]
fn product(m: i128, n: i128) -> Result<i128, ValueFault>
    ensures { result ≡ unless_wide (unless_fitting (m *ℤ n) m n) (m *ℤ n) }
{
    match m.checked_mul(n) {
        Some(value) => Ok(value),
        None => Err(ValueFault::TooWide(m, n)),
    }
}
