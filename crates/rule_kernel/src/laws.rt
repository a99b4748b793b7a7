//! The right side of each law.
ghost use Rattle.std.specs.Prelude.{◌≡◌, IfOk};
ghost use Rattle.rule_table.specs.Rewriting.{right_side};

use formula_core::{Formula, OutOfMemory};
use rule_table::Law;
use std::alloc::Global;

/// What a law puts in the place of a formula, if the formula has the form of its left side.
pub fn right_side(alloc: Global, law: Law, f: &Formula) -> Result<Option<Formula>, OutOfMemory>
    ensures right { IfOk result (λ o. o ≡ right_side law f.now) }
{
    match law {
        Law::DoubleNegation => rules_logic::double_negation(alloc, f),
        Law::NegatedAnd => rules_logic::negated_and(alloc, f),
        Law::NegatedOr => rules_logic::negated_or(alloc, f),
        Law::NegatedImplies => rules_logic::negated_implies(alloc, f),
        Law::NegatedEquivalent => rules_logic::negated_equivalent(alloc, f),
        Law::NegatedForAll => rules_logic::negated_for_all(alloc, f),
        Law::NegatedExists => rules_logic::negated_exists(alloc, f),
        Law::BoolIsTrue => rules_logic::bool_is_true(alloc, f),
        Law::BoolIsFalse => rules_logic::bool_is_false(alloc, f),
        Law::EqualTurned => rules_logic::equal_turned(alloc, f),
        Law::MemberOfProduct => rules_sets::member_of_product(alloc, f),
        Law::MemberOfUnion => rules_sets::member_of_union(alloc, f),
        Law::MemberOfIntersection => rules_sets::member_of_intersection(alloc, f),
        Law::MemberOfDifference => rules_sets::member_of_difference(alloc, f),
        Law::MemberOfExtension => rules_sets::member_of_extension(alloc, f),
        Law::MemberOfEmpty => rules_sets::member_of_empty(alloc, f),
        Law::Inclusion => rules_sets::inclusion(alloc, f),
        Law::ProperInclusion => rules_sets::proper_inclusion(alloc, f),
        Law::EqualSets => rules_sets::equal_sets(alloc, f),
        Law::EqualToEmpty => rules_sets::equal_to_empty(alloc, f),
        Law::MemberOfPowerSet => rules_sets::member_of_power_set(alloc, f),
        Law::MemberOfNonEmptyPowerSet => rules_sets::member_of_non_empty_power_set(alloc, f),
        Law::MemberOfDomain => rules_sets::member_of_domain(alloc, f),
        Law::MemberOfRange => rules_sets::member_of_range(alloc, f),
        Law::MemberOfConverse => rules_sets::member_of_converse(alloc, f),
        Law::MemberOfDomainRestriction => rules_sets::member_of_domain_restriction(alloc, f),
        Law::MemberOfDomainSubtraction => rules_sets::member_of_domain_subtraction(alloc, f),
        Law::MemberOfRangeRestriction => rules_sets::member_of_range_restriction(alloc, f),
        Law::MemberOfRangeSubtraction => rules_sets::member_of_range_subtraction(alloc, f),
        Law::MemberOfOverriding => rules_sets::member_of_overriding(alloc, f),
        Law::MemberOfImage => rules_sets::member_of_image(alloc, f),
        Law::MemberOfComposition => rules_sets::member_of_composition(alloc, f),
        Law::MemberOfDirectProduct => rules_sets::member_of_direct_product(alloc, f),
        Law::MemberOfParallelProduct => rules_sets::member_of_parallel_product(alloc, f),
        Law::MemberOfRelations => rules_sets::member_of_relations(alloc, f),
        Law::MemberOfTotalRelations => rules_sets::member_of_total_relations(alloc, f),
        Law::MemberOfSurjectiveRelations => rules_sets::member_of_surjective_relations(alloc, f),
        Law::MemberOfTotalSurjectiveRelations => rules_sets::member_of_total_surjective_relations(
            alloc, f,
        ),
        Law::MemberOfPartialFunctions => rules_sets::member_of_partial_functions(alloc, f),
        Law::MemberOfTotalFunctions => rules_sets::member_of_total_functions(alloc, f),
        Law::MemberOfPartialInjections => rules_sets::member_of_partial_injections(alloc, f),
        Law::MemberOfTotalInjections => rules_sets::member_of_total_injections(alloc, f),
        Law::MemberOfPartialSurjections => rules_sets::member_of_partial_surjections(alloc, f),
        Law::MemberOfTotalSurjections => rules_sets::member_of_total_surjections(alloc, f),
        Law::MemberOfBijections => rules_sets::member_of_bijections(alloc, f),
        Law::MemberOfComprehension => rules_sets::member_of_comprehension(alloc, f),
        Law::MemberOfGeneralUnion => rules_sets::member_of_general_union(alloc, f),
        Law::MemberOfGeneralIntersection => rules_sets::member_of_general_intersection(alloc, f),
        Law::MemberOfQuantifiedUnion => rules_sets::member_of_quantified_union(alloc, f),
        Law::MemberOfQuantifiedIntersection => rules_sets::member_of_quantified_intersection(
            alloc, f,
        ),
        Law::MemberOfIdentity => rules_sets::member_of_identity(alloc, f),
        Law::MemberOfFirstProjection => rules_sets::member_of_first_projection(alloc, f),
        Law::MemberOfSecondProjection => rules_sets::member_of_second_projection(alloc, f),
        Law::EqualPairs => rules_sets::equal_pairs(alloc, f),
        Law::MemberOfWhole => rules_sets::member_of_whole(alloc, f),
        Law::FiniteEmpty => rules_sets::finite_empty(alloc, f),
        Law::FiniteExtension => rules_sets::finite_extension(alloc, f),
        Law::FiniteUnion => rules_sets::finite_union(alloc, f),
        Law::FiniteInterval => rules_sets::finite_interval(alloc, f),
        Law::OverriddenAt => rules_sets::overridden_at(alloc, f),
        Law::MemberOfNaturals => rules_arith::member_of_naturals(alloc, f),
        Law::MemberOfPositiveNaturals => rules_arith::member_of_positive_naturals(alloc, f),
        Law::MemberOfInterval => rules_arith::member_of_interval(alloc, f),
        Law::MemberOfSuccessor => rules_arith::member_of_successor(alloc, f),
        Law::MemberOfPredecessor => rules_arith::member_of_predecessor(alloc, f),
        Law::NegatedLess => rules_arith::negated_less(alloc, f),
        Law::NegatedAtMost => rules_arith::negated_at_most(alloc, f),
        Law::EqualIntegers => rules_arith::equal_integers(alloc, f),
        Law::LessIsAtMost => rules_arith::less_is_at_most(alloc, f),
        Law::Computed => rules_arith::computed(alloc, f),
    }
}
