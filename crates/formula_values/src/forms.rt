//! The forms that are computed over the values of their operands.
ghost use Rattle.std.specs.Prelude.{◌≡◌};
ghost use Rattle.formula_values.specs.Means.{unary_of, binary_of};

use formula_core::Op;

/// The forms of one operand.
#[derive(Clone, Copy, Debug, PartialEq, Eq)]
pub enum Unary {
    Not,
    Finite,
    BoolOf,
    Negate,
    Cardinality,
    Minimum,
    Maximum,
    Converse,
    Domain,
    Range,
}

/// The forms of two operands.
#[derive(Clone, Copy, Debug, PartialEq, Eq)]
pub enum Binary {
    Equivalent,
    Equal,
    Member,
    ProperSubset,
    Subset,
    Less,
    LessOrEqual,
    Maplet,
    Union,
    Intersection,
    Difference,
    Product,
    DomainRestriction,
    DomainSubtraction,
    RangeRestriction,
    RangeSubtraction,
    Overriding,
    Composition,
    Interval,
    Plus,
    Minus,
    Times,
    Divide,
    Modulo,
    Power,
    Apply,
    Image,
}

pub(crate) fn unary_of(op: Op) -> Option<Unary>
    ensures { result ≡ unary_of op }
{
    match op {
        Op::Not => Some(Unary::Not),
        Op::Finite => Some(Unary::Finite),
        Op::BoolOf => Some(Unary::BoolOf),
        Op::Negate => Some(Unary::Negate),
        Op::Cardinality => Some(Unary::Cardinality),
        Op::Minimum => Some(Unary::Minimum),
        Op::Maximum => Some(Unary::Maximum),
        Op::Converse => Some(Unary::Converse),
        Op::Domain => Some(Unary::Domain),
        Op::Range => Some(Unary::Range),
        _ => None,
    }
}

pub(crate) fn binary_of(op: Op) -> Option<Binary>
    ensures { result ≡ binary_of op }
{
    match op {
        Op::Equivalent => Some(Binary::Equivalent),
        Op::Equal => Some(Binary::Equal),
        Op::Member => Some(Binary::Member),
        Op::ProperSubset => Some(Binary::ProperSubset),
        Op::Subset => Some(Binary::Subset),
        Op::Less => Some(Binary::Less),
        Op::LessOrEqual => Some(Binary::LessOrEqual),
        Op::Maplet => Some(Binary::Maplet),
        Op::Union => Some(Binary::Union),
        Op::Intersection => Some(Binary::Intersection),
        Op::Difference => Some(Binary::Difference),
        Op::Product => Some(Binary::Product),
        Op::DomainRestriction => Some(Binary::DomainRestriction),
        Op::DomainSubtraction => Some(Binary::DomainSubtraction),
        Op::RangeRestriction => Some(Binary::RangeRestriction),
        Op::RangeSubtraction => Some(Binary::RangeSubtraction),
        Op::Overriding => Some(Binary::Overriding),
        Op::Composition => Some(Binary::Composition),
        Op::Interval => Some(Binary::Interval),
        Op::Plus => Some(Binary::Plus),
        Op::Minus => Some(Binary::Minus),
        Op::Times => Some(Binary::Times),
        Op::Divide => Some(Binary::Divide),
        Op::Modulo => Some(Binary::Modulo),
        Op::Power => Some(Binary::Power),
        Op::Apply => Some(Binary::Apply),
        Op::Image => Some(Binary::Image),
        _ => None,
    }
}
