//! The forms that a reading sees into.
ghost use Rattle.std.specs.Prelude.{◌≡◌};
ghost use Rattle.formula_core.specs.declared.Formula.{out-Formula};
ghost use Rattle.formula_readings.specs.Forms.{adds_up, are_integers, compares, is_arithmetic_at, is_comparison_at, is_connected_at, joins_two, negates, turns_sign};

use formula_core::{Formula, Op, Ty};

/// Whether it is the connective on one predicate.
pub fn negates(op: Op) -> bool
    ensures connective { result ≡ negates op }
{
    match op {
        Op::Not => true,
        _ => false,
    }
}

/// Whether it is a connective on two predicates.
pub fn joins_two(op: Op) -> bool
    ensures connective { result ≡ joins_two op }
{
    match op {
        Op::And | Op::Or | Op::Implies | Op::Equivalent => true,
        _ => false,
    }
}

/// Whether it is the operator of arithmetic on one expression.
pub fn turns_sign(op: Op) -> bool
    ensures operator { result ≡ turns_sign op }
{
    match op {
        Op::Negate => true,
        _ => false,
    }
}

/// Whether it is an operator of arithmetic on two expressions that a reading sees into.
pub fn adds_up(op: Op) -> bool
    ensures operator { result ≡ adds_up op }
{
    match op {
        Op::Plus | Op::Minus | Op::Times => true,
        _ => false,
    }
}

/// Whether the sides of an equation are integers.
pub fn are_integers(e: &Formula, f: &Formula) -> bool
    ensures integers { result ≡ are_integers e.now f.now }
{
    let integer = Ty::Int;
    e.type_of(&integer).is_integer() || f.type_of(&integer).is_integer()
}

/// Whether the operator compares these two as integers.
pub fn compares(op: Op, e: &Formula, f: &Formula) -> bool
    ensures comparison { result ≡ compares op (are_integers e.now f.now) }
{
    match op {
        Op::Equal => are_integers(e, f),
        Op::Less | Op::LessOrEqual => true,
        _ => false,
    }
}

/// Whether a connective heads it.
pub fn is_connected(f: &Formula) -> bool
    ensures connected { result ≡ is_connected_at (out-Formula f.now) }
{
    match f {
        Formula::Node(op, parts, _) => match parts.items() {
            [_] => negates(*op),
            [_, _] => joins_two(*op),
            _ => false,
        },
        _ => false,
    }
}

/// Whether it compares two integers.
pub fn is_comparison(f: &Formula) -> bool
    ensures comparison { result ≡ is_comparison_at (out-Formula f.now) }
{
    match f {
        Formula::Node(op, parts, _) => match parts.items() {
            [e, g] => compares(*op, e, g),
            _ => false,
        },
        _ => false,
    }
}

/// Whether it is a sum, a difference, a product or a negation of expressions.
pub fn is_arithmetic(f: &Formula) -> bool
    ensures arithmetic { result ≡ is_arithmetic_at (out-Formula f.now) }
{
    match f {
        Formula::Node(op, parts, _) => match parts.items() {
            [_] => turns_sign(*op),
            [_, _] => adds_up(*op),
            _ => false,
        },
        _ => false,
    }
}
