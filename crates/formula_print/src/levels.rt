//! How tightly printed forms hold together, and which operands are in parentheses.
ghost use Rattle.std.specs.Prelude.{◌≡◌};
ghost use Rattle.formula_print.specs.Levels.{rank_of, infix_level, form_level, level_of, binder_level_of, formula_level, is_chained, is_same_connective, is_negative, goes_on_with, goes_on_left, is_relation, is_enclosed, needs_parentheses};

use formula_core::{Binder, Formula, Op};
use math_grammar::{Bracket, Form, op_form};

/// The levels of printed forms, loosest first.
#[derive(Clone, Copy)]
pub enum Level {
    /// ∀ and ∃.
    Quantified,
    Implication,
    /// ∧ and ∨.
    Junction,
    /// Relations and ¬.
    Relation,
    /// ⋃ and ⋂ with bound identifiers.
    Reaching,
    Maplet,
    Arrow,
    SetOperator,
    Interval,
    /// +, and − with one operand or two.
    Additive,
    Multiplicative,
    Power,
    /// ∼, and what stands before brackets.
    Postfix,
    /// What needs no parentheses.
    Closed,
}

/// On which side of its operator an operand stands.
#[derive(Clone, Copy)]
pub enum Side {
    Left,
    Right,
}

impl Level {
    fn rank(self) -> u8
        ensures { result ≡ rank_of self }
    {
        match self {
            Level::Quantified => 0,
            Level::Implication => 1,
            Level::Junction => 2,
            Level::Relation => 3,
            Level::Reaching => 4,
            Level::Maplet => 5,
            Level::Arrow => 6,
            Level::SetOperator => 7,
            Level::Interval => 8,
            Level::Additive => 9,
            Level::Multiplicative => 10,
            Level::Power => 11,
            Level::Postfix => 12,
            Level::Closed => 13,
        }
    }

    fn is_chained(self) -> bool
        ensures { result ≡ is_chained self }
    {
        matches!(
            self,
            Level::Maplet | Level::SetOperator | Level::Additive | Level::Multiplicative
        )
    }

    fn is_relation(self) -> bool
        ensures { result ≡ is_relation self }
    {
        matches!(self, Level::Relation)
    }
}

/// The level of an operator between two operands. ⦂ stands in no formula.
fn infix_level(level: math_grammar::Level) -> Level
    ensures { result ≡ infix_level level }
{
    match level {
        math_grammar::Level::Implication => Level::Implication,
        math_grammar::Level::Conjunction | math_grammar::Level::Disjunction => Level::Junction,
        math_grammar::Level::Relation | math_grammar::Level::Typing => Level::Relation,
        math_grammar::Level::Maplet => Level::Maplet,
        math_grammar::Level::Arrow => Level::Arrow,
        math_grammar::Level::SetOperator => Level::SetOperator,
        math_grammar::Level::Interval => Level::Interval,
        math_grammar::Level::Additive => Level::Additive,
        math_grammar::Level::Multiplicative => Level::Multiplicative,
        math_grammar::Level::Power => Level::Power,
    }
}

fn form_level(form: Form) -> Level
    ensures { result ≡ form_level form }
{
    match form {
        Form::Infix(level) => infix_level(level),
        Form::Not => Level::Relation,
        Form::Negation | Form::Minus => Level::Additive,
        Form::Converse | Form::Open(Bracket::Round) | Form::Open(Bracket::Square) => Level::Postfix,
        Form::Open(Bracket::Brace) => Level::Closed,
        Form::Truth | Form::Constant | Form::Call(_) => Level::Closed,
    }
}

fn level_of(op: Op) -> Level
    ensures { result ≡ level_of op }
{
    form_level(op_form(op))
}

fn binder_level_of(binder: Binder) -> Level
    ensures { result ≡ binder_level_of binder }
{
    match binder {
        Binder::ForAll | Binder::Exists => Level::Quantified,
        Binder::Comprehension => Level::Closed,
        Binder::QuantifiedUnion | Binder::QuantifiedIntersection => Level::Reaching,
    }
}

fn formula_level(formula: &Formula) -> Level
    ensures { result ≡ formula_level formula.now }
{
    match formula {
        Formula::Int(_) | Formula::Free(_, _) | Formula::Bound(_, _) => Level::Closed,
        Formula::Node(op, _, _) => level_of(*op),
        Formula::Bind(binder, _, _, _) => binder_level_of(*binder),
    }
}

/// Whether one is ∧ or ∨, and the other is the same.
fn is_same_connective(op: Op, left: Op) -> bool
    ensures { result ≡ is_same_connective op left }
{
    match op {
        Op::And => matches!(left, Op::And),
        Op::Or => matches!(left, Op::Or),
        _ => false,
    }
}

fn is_negative(op: Op) -> bool
    ensures { result ≡ is_negative op }
{
    matches!(op, Op::Negate)
}

/// Whether an operator goes on with one of its own level on its left.
fn goes_on_with(op: Op, left: Op) -> bool
    ensures { result ≡ goes_on_with op left }
{
    is_same_connective(op, left) || (level_of(op).is_chained() && !is_negative(left))
}

fn goes_on(op: Op, side: Side, formula: &Formula) -> bool
    ensures { result ≡ goes_on_left op side formula.now }
{
    match side {
        Side::Left => match formula {
            Formula::Node(left, _, _) => goes_on_with(op, *left),
            _ => false,
        },
        Side::Right => false,
    }
}

fn is_enclosed(own: Level, operand: Level, goes_on: bool) -> bool
    ensures { result ≡ is_enclosed own operand goes_on }
{
    operand.rank() < own.rank() || (operand.rank() == own.rank() && !goes_on)
}

/// Whether an operand is in parentheses.
pub(crate) fn needs_parentheses(op: Op, side: Side, operand: &Formula) -> bool
    ensures { result ≡ needs_parentheses op side operand.now }
{
    let own = level_of(op);
    !own.is_relation() && is_enclosed(own, formula_level(operand), goes_on(op, side, operand))
}
