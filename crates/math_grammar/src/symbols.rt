//! The classes of tokens.

ghost use Rattle.std.specs.Prelude.{◌≡◌};
ghost use Rattle.math_grammar.specs.Levels.{infix_of, suffix_of, is_typing, goes_on};

use crate::holes::{Grade, Hole};
use crate::levels::{Binding, Bracket, Call, Level};
use formula_core::{Binder, Op, RawOp};

/// What a token is to the grammar.
#[derive(Clone, Copy, Debug)]
pub enum Symbol {
    /// A word without a meaning of its own: a name, unless it is reserved.
    Word,
    Number(i128),
    /// ⊤ and ⊥.
    Truth(Op),
    Constant(Op),
    Call(Call, RawOp),
    Not,
    Minus,
    /// An operator between two operands, but −.
    Infix(Level, RawOp),
    Binder(Binding),
    Converse,
    Dot,
    Bar,
    Comma,
    Open(Bracket),
    Close(Bracket),
    /// ≔
    Becomes,
    /// :∈
    BecomesIn,
    /// :∣
    BecomesSuch,
}

/// The class of each sign at its number.
pub const SYMBOLS: [Symbol; 76] = [
    Symbol::Truth(Op::Top),
    Symbol::Truth(Op::Bottom),
    Symbol::Not,
    Symbol::Infix(Level::Conjunction, RawOp::Plain(Op::And)),
    Symbol::Infix(Level::Disjunction, RawOp::Plain(Op::Or)),
    Symbol::Infix(Level::Implication, RawOp::Plain(Op::Implies)),
    Symbol::Infix(Level::Implication, RawOp::Plain(Op::Equivalent)),
    Symbol::Binder(Binding::Quantified(Binder::ForAll)),
    Symbol::Binder(Binding::Quantified(Binder::Exists)),
    Symbol::Dot,
    Symbol::Bar,
    Symbol::Infix(Level::Relation, RawOp::Plain(Op::Equal)),
    Symbol::Infix(Level::Relation, RawOp::NotEqual),
    Symbol::Infix(Level::Relation, RawOp::Plain(Op::Member)),
    Symbol::Infix(Level::Relation, RawOp::NotMember),
    Symbol::Infix(Level::Relation, RawOp::Plain(Op::ProperSubset)),
    Symbol::Infix(Level::Relation, RawOp::NotProperSubset),
    Symbol::Infix(Level::Relation, RawOp::Plain(Op::Subset)),
    Symbol::Infix(Level::Relation, RawOp::NotSubset),
    Symbol::Infix(Level::Relation, RawOp::Plain(Op::Less)),
    Symbol::Infix(Level::Relation, RawOp::Plain(Op::LessOrEqual)),
    Symbol::Infix(Level::Relation, RawOp::Greater),
    Symbol::Infix(Level::Relation, RawOp::GreaterOrEqual),
    Symbol::Infix(Level::Maplet, RawOp::Plain(Op::Maplet)),
    Symbol::Infix(Level::Arrow, RawOp::Plain(Op::Relations)),
    Symbol::Infix(Level::Arrow, RawOp::Plain(Op::TotalRelations)),
    Symbol::Infix(Level::Arrow, RawOp::Plain(Op::SurjectiveRelations)),
    Symbol::Infix(Level::Arrow, RawOp::Plain(Op::TotalSurjectiveRelations)),
    Symbol::Infix(Level::Arrow, RawOp::Plain(Op::PartialFunctions)),
    Symbol::Infix(Level::Arrow, RawOp::Plain(Op::TotalFunctions)),
    Symbol::Infix(Level::Arrow, RawOp::Plain(Op::PartialInjections)),
    Symbol::Infix(Level::Arrow, RawOp::Plain(Op::TotalInjections)),
    Symbol::Infix(Level::Arrow, RawOp::Plain(Op::PartialSurjections)),
    Symbol::Infix(Level::Arrow, RawOp::Plain(Op::TotalSurjections)),
    Symbol::Infix(Level::Arrow, RawOp::Plain(Op::Bijections)),
    Symbol::Infix(Level::SetOperator, RawOp::Plain(Op::Union)),
    Symbol::Infix(Level::SetOperator, RawOp::Plain(Op::Intersection)),
    Symbol::Infix(Level::SetOperator, RawOp::Plain(Op::Difference)),
    Symbol::Infix(Level::SetOperator, RawOp::Plain(Op::Product)),
    Symbol::Infix(Level::SetOperator, RawOp::Plain(Op::DomainRestriction)),
    Symbol::Infix(Level::SetOperator, RawOp::Plain(Op::DomainSubtraction)),
    Symbol::Infix(Level::SetOperator, RawOp::Plain(Op::RangeRestriction)),
    Symbol::Infix(Level::SetOperator, RawOp::Plain(Op::RangeSubtraction)),
    Symbol::Infix(Level::SetOperator, RawOp::Plain(Op::Overriding)),
    Symbol::Infix(Level::SetOperator, RawOp::Plain(Op::Composition)),
    Symbol::Infix(Level::SetOperator, RawOp::BackwardComposition),
    Symbol::Infix(Level::SetOperator, RawOp::Plain(Op::ParallelProduct)),
    Symbol::Infix(Level::SetOperator, RawOp::Plain(Op::DirectProduct)),
    Symbol::Infix(Level::Interval, RawOp::Plain(Op::Interval)),
    Symbol::Infix(Level::Additive, RawOp::Plain(Op::Plus)),
    Symbol::Minus,
    Symbol::Infix(Level::Multiplicative, RawOp::Plain(Op::Times)),
    Symbol::Infix(Level::Multiplicative, RawOp::Plain(Op::Divide)),
    Symbol::Infix(Level::Multiplicative, RawOp::Plain(Op::Modulo)),
    Symbol::Infix(Level::Power, RawOp::Plain(Op::Power)),
    Symbol::Converse,
    Symbol::Infix(Level::Typing, RawOp::OfType),
    Symbol::Binder(Binding::Lambda),
    Symbol::Binder(Binding::Reaching(Binder::QuantifiedUnion)),
    Symbol::Binder(Binding::Reaching(Binder::QuantifiedIntersection)),
    Symbol::Constant(Op::Integers),
    Symbol::Constant(Op::Naturals),
    Symbol::Constant(Op::PositiveNaturals),
    Symbol::Call(Call::Function, RawOp::Plain(Op::PowerSet)),
    Symbol::Call(Call::Function, RawOp::Plain(Op::NonEmptyPowerSet)),
    Symbol::Constant(Op::EmptySet),
    Symbol::Becomes,
    Symbol::BecomesIn,
    Symbol::BecomesSuch,
    Symbol::Open(Bracket::Round),
    Symbol::Close(Bracket::Round),
    Symbol::Open(Bracket::Square),
    Symbol::Close(Bracket::Square),
    Symbol::Open(Bracket::Brace),
    Symbol::Close(Bracket::Brace),
    Symbol::Comma,
];

impl Symbol {
    /// The operator between two operands that it is.
    pub fn infix(self) -> Option<(Level, RawOp)>
        ensures { result ≡ infix_of self }
    {
        match self {
            Symbol::Infix(level, op) => Some((level, op)),
            Symbol::Minus => Some((Level::Additive, RawOp::Plain(Op::Minus))),
            _ => None,
        }
    }

    /// The brackets that it opens behind a formula, by the one that closes them and the operator.
    pub fn suffix(self) -> Option<(Bracket, RawOp)>
        ensures { result ≡ suffix_of self }
    {
        match self {
            Symbol::Open(Bracket::Round) => Some((Bracket::Round, RawOp::Plain(Op::Apply))),
            Symbol::Open(Bracket::Square) => Some((Bracket::Square, RawOp::Plain(Op::Image))),
            _ => None,
        }
    }

    /// Whether it is ⦂.
    pub fn is_typing(self) -> bool
        ensures { result ≡ is_typing self }
    {
        matches!(self, Symbol::Infix(Level::Typing, _))
    }

    /// Whether at this place it goes on with a formula of this grade before it.
    pub fn goes_on(self, hole: Hole, grade: Grade) -> bool
        ensures { result ≡ goes_on hole grade self }
    {
        match self {
            Symbol::Open(Bracket::Round) | Symbol::Open(Bracket::Square) | Symbol::Converse => {
                14 <= grade.rank() && hole.reaches(Grade::Suffixed)
            }
            _ => match self.infix() {
                Some((level, _)) => level.takes_left(grade) && hole.reaches(level.grade(grade)),
                None => false,
            },
        }
    }
}
