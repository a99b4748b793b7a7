//! The levels of operators, and the forms that have words or brackets of their own.

ghost use Rattle.std.specs.Prelude.{◌≡◌, None};
ghost use Rattle.math_grammar.specs.Levels.{level, right_of, takes_left, left_of, agrees, prefix_hole, prefix_grade, prefix_op, call_hole, call_grade, call_parts, has_room, binding_grade, binder_of, implicit_of, is_quantified, is_braced};

use crate::holes::{Grade, Hole};
use formula_core::{Binder, Op, RawBinder, RawOp};

/// The levels of the operators between two operands, loosest first.
#[derive(Clone, Copy, Debug)]
pub enum Level {
    Implication,
    Conjunction,
    Disjunction,
    Relation,
    Typing,
    Maplet,
    Arrow,
    SetOperator,
    Interval,
    Additive,
    Multiplicative,
    Power,
}

/// The operators before one operand.
#[derive(Clone, Copy, Debug)]
pub enum Prefix {
    Not,
    Minus,
}

#[derive(Clone, Copy, Debug)]
pub enum Bracket {
    Round,
    Square,
    Brace,
}

/// The words that take their parts in parentheses.
#[derive(Clone, Copy, Debug)]
pub enum Call {
    Finite,
    Partition,
    Bool,
    Function,
}

/// The forms that bind names.
#[derive(Clone, Copy, Debug)]
pub enum Binding {
    /// In braces.
    Set,
    /// ∀ and ∃.
    Quantified(Binder),
    /// ⋃ and ⋂.
    Reaching(Binder),
    Lambda,
}

impl Level {
    /// The grade of a formula with such an operator, the left side being of the grade `left`.
    pub fn grade(self, left: Grade) -> Grade
        ensures { result ≡ level self left }
    {
        match self {
            Level::Implication => Grade::Implication,
            Level::Conjunction => Grade::Conjunction,
            Level::Disjunction => Grade::Disjunction,
            Level::Relation => Grade::Literal,
            Level::Typing => left.typed(),
            Level::Maplet => Grade::Pair,
            Level::Arrow => Grade::Arrow,
            Level::SetOperator => Grade::Set,
            Level::Interval => Grade::Interval,
            Level::Additive => Grade::Sum,
            Level::Multiplicative => Grade::Product,
            Level::Power => Grade::Power,
        }
    }

    /// The place on its right.
    pub fn right(self) -> Hole
        ensures { result ≡ right_of self }
    {
        match self {
            Level::Implication => Hole::Junction,
            Level::Conjunction => Hole::Literal,
            Level::Disjunction => Hole::Literal,
            Level::Relation => Hole::Expression,
            Level::Typing => Hole::Pair,
            Level::Maplet => Hole::Arrow,
            Level::Arrow => Hole::Set,
            Level::SetOperator => Hole::Range,
            Level::Interval => Hole::Sum,
            Level::Additive => Hole::Summand,
            Level::Multiplicative => Hole::Factor,
            Level::Power => Hole::Operand,
        }
    }

    fn least_left(self) -> u8
        ensures { result ≡ left_of self }
    {
        match self {
            Level::Implication => 2,
            Level::Conjunction => 2,
            Level::Disjunction => 2,
            Level::Relation => 4,
            Level::Typing => 5,
            Level::Maplet => 5,
            Level::Arrow => 7,
            Level::SetOperator => 7,
            Level::Interval => 9,
            Level::Additive => 9,
            Level::Multiplicative => 11,
            Level::Power => 13,
        }
    }

    fn agrees(self, left: Grade) -> bool
        ensures { result ≡ agrees self left }
    {
        match self {
            Level::Implication => left.rank() <= 3,
            Level::Conjunction => matches!(left, Grade::Conjunction | Grade::Literal),
            Level::Disjunction => matches!(left, Grade::Disjunction | Grade::Literal),
            _ => true,
        }
    }

    /// Whether a formula of this grade may stand on its left.
    pub fn takes_left(self, left: Grade) -> bool
        ensures { result ≡ takes_left self left }
    {
        self.least_left() <= left.rank() && self.agrees(left)
    }
}

impl Prefix {
    pub fn operand(self) -> Hole
        ensures { result ≡ prefix_hole self }
    {
        match self {
            Prefix::Not => Hole::Literal,
            Prefix::Minus => Hole::Term,
        }
    }

    pub fn grade(self) -> Grade
        ensures { result ≡ prefix_grade self }
    {
        match self {
            Prefix::Not => Grade::Literal,
            Prefix::Minus => Grade::Negative,
        }
    }

    pub fn operator(self) -> RawOp
        ensures { result ≡ prefix_op self }
    {
        match self {
            Prefix::Not => RawOp::Plain(Op::Not),
            Prefix::Minus => RawOp::Plain(Op::Negate),
        }
    }
}

impl Call {
    /// The place of each part.
    pub fn part(self) -> Hole
        ensures { result ≡ call_hole self }
    {
        match self {
            Call::Bool => Hole::Predicate,
            _ => Hole::Expression,
        }
    }

    pub fn grade(self) -> Grade
        ensures { result ≡ call_grade self }
    {
        match self {
            Call::Finite | Call::Partition => Grade::Literal,
            Call::Bool | Call::Function => Grade::Primary,
        }
    }

    /// Whether one more part may follow so many, where no limit is set to a partition.
    pub fn has_room(self, parts: usize) -> bool
        ensures { result ≡ has_room (call_parts None self) parts }
    {
        match self {
            Call::Partition => true,
            _ => parts < 1,
        }
    }
}

impl Binding {
    pub fn grade(self) -> Grade
        ensures { result ≡ binding_grade self }
    {
        match self {
            Binding::Set => Grade::Primary,
            Binding::Quantified(_) => Grade::Literal,
            Binding::Reaching(_) => Grade::Reaching,
            Binding::Lambda => Grade::Reaching,
        }
    }

    /// The binder of the form with bound names.
    pub fn binder(self) -> RawBinder
        ensures { result ≡ binder_of self }
    {
        match self {
            Binding::Set => RawBinder::Plain(Binder::Comprehension),
            Binding::Quantified(binder) => RawBinder::Plain(binder),
            Binding::Reaching(binder) => RawBinder::Plain(binder),
            Binding::Lambda => RawBinder::Lambda,
        }
    }

    /// The binder of the form that binds the free names of its expression.
    pub fn implicit(self) -> RawBinder
        ensures { result ≡ implicit_of self }
    {
        match self {
            Binding::Set => RawBinder::Implicit(Binder::Comprehension),
            Binding::Quantified(binder) => RawBinder::Implicit(binder),
            Binding::Reaching(binder) => RawBinder::Implicit(binder),
            Binding::Lambda => RawBinder::Lambda,
        }
    }

    /// Whether a predicate follows its names, and nothing behind that.
    pub fn is_quantified(self) -> bool
        ensures { result ≡ is_quantified self }
    {
        matches!(self, Binding::Quantified(_))
    }

    /// Whether a bracket ends it.
    pub fn is_closed(self) -> bool
        ensures { result ≡ is_braced self }
    {
        matches!(self, Binding::Set)
    }
}
