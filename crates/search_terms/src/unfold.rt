//! Which law opens a formula at its root.
use formula_core::{Binder, Op};
use rule_table::Law;
use term_bank::{Bank, Head, Id, NONE, Stop, TypeHead};

/// Whether a law brings no quantifier.
pub fn is_plain(law: Law) -> bool {
    match law {
        Law::BoolIsTrue | Law::BoolIsFalse => true,
        Law::MemberOfProduct | Law::MemberOfUnion | Law::MemberOfIntersection => true,
        Law::MemberOfDifference | Law::MemberOfExtension | Law::MemberOfEmpty => true,
        Law::MemberOfNonEmptyPowerSet => true,
        Law::MemberOfConverse | Law::MemberOfDomainRestriction => true,
        Law::MemberOfDomainSubtraction | Law::MemberOfRangeRestriction => true,
        Law::MemberOfRangeSubtraction | Law::MemberOfOverriding => true,
        Law::MemberOfDirectProduct | Law::MemberOfParallelProduct => true,
        Law::MemberOfIdentity | Law::MemberOfFirstProjection => true,
        Law::MemberOfSecondProjection | Law::EqualPairs | Law::MemberOfWhole => true,
        Law::FiniteEmpty | Law::FiniteExtension | Law::FiniteUnion | Law::FiniteInterval => true,
        _ => is_of_integers(law),
    }
}

/// Whether a law opens a membership in a set of integers.
pub fn is_of_integers(law: Law) -> bool {
    match law {
        Law::MemberOfNaturals | Law::MemberOfPositiveNaturals | Law::MemberOfInterval => true,
        Law::MemberOfSuccessor | Law::MemberOfPredecessor => true,
        _ => false,
    }
}

/// Whether a law says of what relates an element to another: it brings an `∃`.
pub fn is_of_partner(law: Law) -> bool {
    match law {
        Law::MemberOfDomain | Law::MemberOfRange | Law::MemberOfImage => true,
        Law::MemberOfComposition => true,
        _ => false,
    }
}

/// The law of a negation, by what is negated.
pub fn negation_law(op: Op) -> Option<Law> {
    match op {
        Op::Not => Some(Law::DoubleNegation),
        Op::And => Some(Law::NegatedAnd),
        Op::Or => Some(Law::NegatedOr),
        Op::Implies => Some(Law::NegatedImplies),
        Op::Equivalent => Some(Law::NegatedEquivalent),
        Op::Less => Some(Law::NegatedLess),
        Op::LessOrEqual => Some(Law::NegatedAtMost),
        _ => None,
    }
}

fn law_of_set(op: Op) -> Option<Law> {
    match op {
        Op::Union => Some(Law::MemberOfUnion),
        Op::Intersection => Some(Law::MemberOfIntersection),
        Op::Difference => Some(Law::MemberOfDifference),
        Op::SetExtension => Some(Law::MemberOfExtension),
        Op::EmptySet => Some(Law::MemberOfEmpty),
        Op::Naturals => Some(Law::MemberOfNaturals),
        Op::PositiveNaturals => Some(Law::MemberOfPositiveNaturals),
        Op::Interval => Some(Law::MemberOfInterval),
        Op::PowerSet => Some(Law::MemberOfPowerSet),
        Op::NonEmptyPowerSet => Some(Law::MemberOfNonEmptyPowerSet),
        Op::Domain => Some(Law::MemberOfDomain),
        Op::Range => Some(Law::MemberOfRange),
        Op::Image => Some(Law::MemberOfImage),
        Op::GeneralUnion => Some(Law::MemberOfGeneralUnion),
        Op::GeneralIntersection => Some(Law::MemberOfGeneralIntersection),
        _ => law_of_arrow(op),
    }
}

fn law_of_arrow(op: Op) -> Option<Law> {
    match op {
        Op::Relations => Some(Law::MemberOfRelations),
        Op::TotalRelations => Some(Law::MemberOfTotalRelations),
        Op::SurjectiveRelations => Some(Law::MemberOfSurjectiveRelations),
        Op::TotalSurjectiveRelations => Some(Law::MemberOfTotalSurjectiveRelations),
        Op::PartialFunctions => Some(Law::MemberOfPartialFunctions),
        Op::TotalFunctions => Some(Law::MemberOfTotalFunctions),
        Op::PartialInjections => Some(Law::MemberOfPartialInjections),
        Op::TotalInjections => Some(Law::MemberOfTotalInjections),
        Op::PartialSurjections => Some(Law::MemberOfPartialSurjections),
        Op::TotalSurjections => Some(Law::MemberOfTotalSurjections),
        Op::Bijections => Some(Law::MemberOfBijections),
        _ => None,
    }
}

fn law_of_pair(op: Op) -> Option<Law> {
    match op {
        Op::Product => Some(Law::MemberOfProduct),
        Op::Converse => Some(Law::MemberOfConverse),
        Op::DomainRestriction => Some(Law::MemberOfDomainRestriction),
        Op::DomainSubtraction => Some(Law::MemberOfDomainSubtraction),
        Op::RangeRestriction => Some(Law::MemberOfRangeRestriction),
        Op::RangeSubtraction => Some(Law::MemberOfRangeSubtraction),
        Op::Overriding => Some(Law::MemberOfOverriding),
        Op::Identity => Some(Law::MemberOfIdentity),
        Op::Predecessor => Some(Law::MemberOfPredecessor),
        Op::Successor => Some(Law::MemberOfSuccessor),
        Op::Composition => Some(Law::MemberOfComposition),
        _ => None,
    }
}

/// Whether an operator makes a set of functions.
pub fn is_arrow(op: Op) -> bool {
    match op {
        Op::PartialFunctions | Op::TotalFunctions | Op::PartialInjections => true,
        Op::TotalInjections | Op::PartialSurjections | Op::TotalSurjections => true,
        Op::Bijections => true,
        _ => false,
    }
}

/// Whether a set is that of all values of its members' type.
pub fn is_whole(bank: &mut Bank, set: Id) -> Result<bool, Stop> {
    let part = bank.members(bank.ty(set));
    if part == NONE {
        return Ok(false);
    }
    let whole = bank.whole(part, 64)?;
    Ok(whole == set)
}

/// The law that opens a formula at its root.
pub fn law_for(bank: &mut Bank, f: Id) -> Result<Option<Law>, Stop> {
    let Some(op) = bank.operator(f) else {
        return Ok(None);
    };
    match op {
        Op::Member => law_for_member(bank, f),
        Op::Subset => Ok(Some(Law::Inclusion)),
        Op::ProperSubset => Ok(Some(Law::ProperInclusion)),
        Op::Equal => Ok(law_for_equal(bank, f)),
        Op::Finite => Ok(law_for_finite(bank, f)),
        _ => Ok(None),
    }
}

fn law_for_member(bank: &mut Bank, f: Id) -> Result<Option<Law>, Stop> {
    let (element, set) = bank.two(f);
    if is_whole(bank, set)? {
        return Ok(Some(Law::MemberOfWhole));
    }
    match bank.term(set).head {
        Head::Bind(binder) => Ok(law_of_binder(binder)),
        Head::Node(op) => {
            let law = law_of_set(op);
            if law.is_some() {
                return Ok(law);
            }
            Ok(law_for_pair(bank, element, op))
        }
        _ => Ok(None),
    }
}

fn law_for_pair(bank: &Bank, element: Id, op: Op) -> Option<Law> {
    if !bank.is(element, Op::Maplet) {
        return None;
    }
    let (left, right) = bank.two(element);
    let is_left = bank.is(left, Op::Maplet);
    let is_right = bank.is(right, Op::Maplet);
    match op {
        Op::DirectProduct if is_right => Some(Law::MemberOfDirectProduct),
        Op::ParallelProduct if is_left && is_right => Some(Law::MemberOfParallelProduct),
        Op::FirstProjection if is_left => Some(Law::MemberOfFirstProjection),
        Op::SecondProjection if is_left => Some(Law::MemberOfSecondProjection),
        _ => law_of_pair(op),
    }
}

fn law_for_equal(bank: &Bank, f: Id) -> Option<Law> {
    let (left, right) = bank.two(f);
    if bank.is(left, Op::BoolOf) {
        if bank.is(right, Op::TrueValue) {
            return Some(Law::BoolIsTrue);
        }
        if bank.is(right, Op::FalseValue) {
            return Some(Law::BoolIsFalse);
        }
    }
    if bank.is(left, Op::Maplet) && bank.is(right, Op::Maplet) {
        return Some(Law::EqualPairs);
    }
    match bank.type_head(bank.ty(left)) {
        TypeHead::Pow(_) => law_for_equal_sets(bank, left, right),
        _ => None,
    }
}

fn law_for_equal_sets(bank: &Bank, left: Id, right: Id) -> Option<Law> {
    if bank.is(right, Op::EmptySet) {
        Some(Law::EqualToEmpty)
    } else if bank.is(left, Op::EmptySet) {
        Some(Law::EqualTurned)
    } else {
        Some(Law::EqualSets)
    }
}

fn law_for_finite(bank: &Bank, f: Id) -> Option<Law> {
    match bank.operator(bank.part(f, 0)) {
        Some(Op::EmptySet) => Some(Law::FiniteEmpty),
        Some(Op::SetExtension) => Some(Law::FiniteExtension),
        Some(Op::Union) => Some(Law::FiniteUnion),
        Some(Op::Interval) => Some(Law::FiniteInterval),
        _ => None,
    }
}

fn law_of_binder(binder: Binder) -> Option<Law> {
    match binder {
        Binder::Comprehension => Some(Law::MemberOfComprehension),
        Binder::QuantifiedUnion => Some(Law::MemberOfQuantifiedUnion),
        Binder::QuantifiedIntersection => Some(Law::MemberOfQuantifiedIntersection),
        _ => None,
    }
}
