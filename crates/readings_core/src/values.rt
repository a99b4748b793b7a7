//! The truth of a predicate in a reading.
ghost use Rattle.std.specs.Prelude.{◌≡◌, false, true};
ghost use Rattle.formula_readings.specs.Readings.{binary_truth, compared, nullary_truth, values_of};
ghost use Rattle.readings_core.specs.Private.{checked_comparison, checked_truth, truth_negated, truths_joined, node_truth, numbers_compared};
ghost use Rattle.readings_core.specs.Values.{value_in};

use crate::atoms::truth_of_atom;
use crate::numbers::number;
use formula_core::{Formula, Op};
use formula_readings::{Reading, compares, joins_two, negates};

/// Why a predicate has no truth value.
#[derive(Clone, Copy, Debug, PartialEq, Eq)]
pub enum ValueFault {
    /// The operands of the first operation whose value leaves i128, where each operand is computed, the left one first. A
    /// negation has 0 as its first operand.
    TooWide(i128, i128),
    /// Out of memory. `value` takes none, so it never answers this.
    OutOfMemory,
}

/// The truth of a predicate in a reading.
pub fn value(formula: &Formula, reading: &Reading) -> Result<bool, ValueFault>
    ensures value { result ≡ value_in reading.now formula.now }
{
    truth(formula, reading)
}

#[cycle(truths)]
fn truth(f: &Formula, reading: &Reading) -> Result<bool, ValueFault>
    ensures { result ≡ checked_truth (values_of reading.now) f.now }
{
    match f {
        Formula::Node(op, parts, _) => truth_of_node(parts.items(), *op, f, reading),
        _ => Ok(truth_of_atom(f, reading)),
    }
}

#[cycle(truths)]
fn truth_of_node(
    parts: &[Formula],
    op: Op,
    f: &Formula,
    reading: &Reading,
) -> Result<bool, ValueFault>
    ensures { result ≡ node_truth (values_of reading.now) op f.now parts.now }
{
    match parts {
        [] => Ok(constant(op, f, reading)),
        [p] => {
            if negates(op) {
                truth_negated(truth(p, reading))
            } else {
                Ok(truth_of_atom(f, reading))
            }
        }
        [p, q] => {
            if joins_two(op) {
                truths_joined(op, truth(p, reading), truth(q, reading))
            } else {
                comparison(op, f, p, q, reading)
            }
        }
        _ => Ok(truth_of_atom(f, reading)),
    }
}

/// `⊤` or `⊥`, or an atom.
fn constant(op: Op, f: &Formula, reading: &Reading) -> bool
    ensures { result ≡ nullary_truth op ((values_of reading.now).truth f.now) }
{
    match op {
        Op::Top => true,
        Op::Bottom => false,
        _ => truth_of_atom(f, reading),
    }
}

fn truth_negated(p: Result<bool, ValueFault>) -> Result<bool, ValueFault>
    ensures { result ≡ truth_negated p }
{
    match p {
        Ok(p) => Ok(!p),
        Err(fault) => Err(fault),
    }
}

/// A connective on what was computed, of which the left operand was the first.
fn truths_joined(
    op: Op,
    p: Result<bool, ValueFault>,
    q: Result<bool, ValueFault>,
) -> Result<bool, ValueFault>
    ensures { result ≡ truths_joined op p q }
{
    match p {
        Ok(p) => match q {
            Ok(q) => Ok(connected(op, p, q)),
            Err(fault) => Err(fault),
        },
        Err(fault) => Err(fault),
    }
}

fn connected(op: Op, p: bool, q: bool) -> bool
    ensures { result ≡ binary_truth op false p q }
{
    match op {
        Op::And => p && q,
        Op::Or => p || q,
        Op::Implies => !p || q,
        Op::Equivalent => p == q,
        _ => false,
    }
}

/// A comparison of integers, or an atom.
fn comparison(
    op: Op,
    f: &Formula,
    e: &Formula,
    g: &Formula,
    reading: &Reading,
) -> Result<bool, ValueFault>
    ensures { result ≡ checked_comparison (values_of reading.now) op f.now e.now g.now }
{
    if compares(op, e, g) {
        compared(op, number(e, reading), number(g, reading))
    } else {
        Ok(truth_of_atom(f, reading))
    }
}

/// A comparison of what was computed, of which the left side was the first.
fn compared(
    op: Op,
    m: Result<i128, ValueFault>,
    n: Result<i128, ValueFault>,
) -> Result<bool, ValueFault>
    ensures { result ≡ numbers_compared op m n }
{
    match m {
        Ok(m) => match n {
            Ok(n) => Ok(is_so(op, m, n)),
            Err(fault) => Err(fault),
        },
        Err(fault) => Err(fault),
    }
}

fn is_so(op: Op, m: i128, n: i128) -> bool
    ensures { result ≡ compared op true false m n }
{
    match op {
        Op::Equal => m == n,
        Op::Less => m < n,
        Op::LessOrEqual => m <= n,
        _ => false,
    }
}
