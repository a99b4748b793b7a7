//! The laws by which formulas are rewritten.
ghost use Rattle.std.specs.Prelude.{◌≡◌, ◌<◌, Some, slice_get};
ghost use Rattle.rule_table.specs.declared.law.TheConstants.{LAWS};
ghost use Rattle.rule_table.specs.Rewriting.{law_of};

/// The laws, in the order of their numbers.
#[derive(Clone, Copy, Debug, PartialEq, Eq)]
pub enum Law {
    DoubleNegation,
    NegatedAnd,
    NegatedOr,
    NegatedImplies,
    NegatedEquivalent,
    NegatedForAll,
    NegatedExists,
    BoolIsTrue,
    BoolIsFalse,
    EqualTurned,
    MemberOfProduct,
    MemberOfUnion,
    MemberOfIntersection,
    MemberOfDifference,
    MemberOfExtension,
    MemberOfEmpty,
    Inclusion,
    ProperInclusion,
    EqualSets,
    EqualToEmpty,
    MemberOfPowerSet,
    MemberOfNonEmptyPowerSet,
    MemberOfDomain,
    MemberOfRange,
    MemberOfConverse,
    MemberOfDomainRestriction,
    MemberOfDomainSubtraction,
    MemberOfRangeRestriction,
    MemberOfRangeSubtraction,
    MemberOfOverriding,
    MemberOfImage,
    MemberOfComposition,
    MemberOfDirectProduct,
    MemberOfParallelProduct,
    MemberOfRelations,
    MemberOfTotalRelations,
    MemberOfSurjectiveRelations,
    MemberOfTotalSurjectiveRelations,
    MemberOfPartialFunctions,
    MemberOfTotalFunctions,
    MemberOfPartialInjections,
    MemberOfTotalInjections,
    MemberOfPartialSurjections,
    MemberOfTotalSurjections,
    MemberOfBijections,
    MemberOfComprehension,
    MemberOfGeneralUnion,
    MemberOfGeneralIntersection,
    MemberOfQuantifiedUnion,
    MemberOfQuantifiedIntersection,
    MemberOfIdentity,
    MemberOfFirstProjection,
    MemberOfSecondProjection,
    EqualPairs,
    MemberOfWhole,
    FiniteEmpty,
    FiniteExtension,
    FiniteUnion,
    FiniteInterval,
    OverriddenAt,
    MemberOfNaturals,
    MemberOfPositiveNaturals,
    MemberOfInterval,
    MemberOfSuccessor,
    MemberOfPredecessor,
    NegatedLess,
    NegatedAtMost,
    EqualIntegers,
    LessIsAtMost,
    Computed,
}

/// Each law, in the order of their numbers.
pub const LAWS: [Law; 70] = [
    Law::DoubleNegation,
    Law::NegatedAnd,
    Law::NegatedOr,
    Law::NegatedImplies,
    Law::NegatedEquivalent,
    Law::NegatedForAll,
    Law::NegatedExists,
    Law::BoolIsTrue,
    Law::BoolIsFalse,
    Law::EqualTurned,
    Law::MemberOfProduct,
    Law::MemberOfUnion,
    Law::MemberOfIntersection,
    Law::MemberOfDifference,
    Law::MemberOfExtension,
    Law::MemberOfEmpty,
    Law::Inclusion,
    Law::ProperInclusion,
    Law::EqualSets,
    Law::EqualToEmpty,
    Law::MemberOfPowerSet,
    Law::MemberOfNonEmptyPowerSet,
    Law::MemberOfDomain,
    Law::MemberOfRange,
    Law::MemberOfConverse,
    Law::MemberOfDomainRestriction,
    Law::MemberOfDomainSubtraction,
    Law::MemberOfRangeRestriction,
    Law::MemberOfRangeSubtraction,
    Law::MemberOfOverriding,
    Law::MemberOfImage,
    Law::MemberOfComposition,
    Law::MemberOfDirectProduct,
    Law::MemberOfParallelProduct,
    Law::MemberOfRelations,
    Law::MemberOfTotalRelations,
    Law::MemberOfSurjectiveRelations,
    Law::MemberOfTotalSurjectiveRelations,
    Law::MemberOfPartialFunctions,
    Law::MemberOfTotalFunctions,
    Law::MemberOfPartialInjections,
    Law::MemberOfTotalInjections,
    Law::MemberOfPartialSurjections,
    Law::MemberOfTotalSurjections,
    Law::MemberOfBijections,
    Law::MemberOfComprehension,
    Law::MemberOfGeneralUnion,
    Law::MemberOfGeneralIntersection,
    Law::MemberOfQuantifiedUnion,
    Law::MemberOfQuantifiedIntersection,
    Law::MemberOfIdentity,
    Law::MemberOfFirstProjection,
    Law::MemberOfSecondProjection,
    Law::EqualPairs,
    Law::MemberOfWhole,
    Law::FiniteEmpty,
    Law::FiniteExtension,
    Law::FiniteUnion,
    Law::FiniteInterval,
    Law::OverriddenAt,
    Law::MemberOfNaturals,
    Law::MemberOfPositiveNaturals,
    Law::MemberOfInterval,
    Law::MemberOfSuccessor,
    Law::MemberOfPredecessor,
    Law::NegatedLess,
    Law::NegatedAtMost,
    Law::EqualIntegers,
    Law::LessIsAtMost,
    Law::Computed,
];

impl Law {
    /// Its number, from 1 to 70.
    pub fn number(self) -> u8
        ensures number { law_of result ≡ Some self }
    {
        self.place() + 1
    }

    /// Its place in the list of laws.
    fn place(self) -> u8
        ensures below { result < 70 }
        ensures at { slice_get LAWS result ≡ Some self }
    {
        self as u8
    }

    /// The law with a number.
    pub fn of_number(number: u8) -> Option<Law>
        ensures law { result ≡ law_of number }
    {
        if number == 0 {
            return None;
        }
        law_at(&LAWS, number as usize - 1)
    }
}

fn law_at(laws: &[Law], at: usize) -> Option<Law>
    ensures { result ≡ slice_get laws.now at }
{
    laws.get(at).copied()
}
