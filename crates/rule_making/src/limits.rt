//! Whether the parts of a rule are within the limits.
ghost use Rattle.std.specs.Prelude.{◌≡◌, ◌↔◌, IsTrue};
ghost use Rattle.std.specs.List.{AllByRecursion};
ghost use Rattle.std.specs.Option.{option_to_list};
ghost use Rattle.formula_core.specs.Sizes.{IsWithinLimits};
ghost use Rattle.rule_table.specs.Rules.{body_of};
ghost use Rattle.rule_making.specs.Make.{IsWithinSizes};
ghost use Rattle.rule_kernel.specs.Private.{IsSmallType};
ghost use Rattle.rule_making.specs.Private.{IsSmallAntecedent, HasSmallParts};

use formula_core::{Formula, MOST_TYPE_NODES, Name, Ty};
use rule_table::{Antecedent, Rule};

/// Whether no formula of the rule and no type that it adds is too large.
#[tactic(auto, using(crate::proofs::SmallParts::laws))]
pub(crate) fn is_small(rule: &Rule) -> bool
    ensures { IsTrue result ↔ IsWithinSizes rule.now.kind (body_of rule.now) }
{
    has_small_parts(rule)
}

fn has_small_parts(rule: &Rule) -> bool
    ensures { IsTrue result ↔ HasSmallParts rule.now }
{
    is_goal_small(&rule.needed_goal)
        && are_small(rule.needed_hyps.items())
        && are_small(rule.kind.terms())
        && are_antecedents_small(rule.antecedents.items())
}

fn is_goal_small(goal: &Option<Formula>) -> bool
    ensures { IsTrue result ↔ AllByRecursion IsWithinLimits (option_to_list goal.now) }
{
    match goal {
        Some(formula) => formula.is_within_limits(),
        None => true,
    }
}

fn are_small(formulas: &[Formula]) -> bool
    ensures { IsTrue result ↔ AllByRecursion IsWithinLimits formulas.now }
{
    for formula in formulas {
        if !formula.is_within_limits() {
            return false;
        }
    }
    true
}

fn is_antecedent_small(antecedent: &Antecedent) -> bool
    ensures { IsTrue result ↔ IsSmallAntecedent antecedent.now }
{
    are_small(antecedent.hyps.items())
        && is_goal_small(&antecedent.goal)
        && are_types_small(antecedent.idents.items())
}

fn are_antecedents_small(antecedents: &[Antecedent]) -> bool
    ensures { IsTrue result ↔ AllByRecursion IsSmallAntecedent antecedents.now }
{
    for antecedent in antecedents {
        if !is_antecedent_small(antecedent) {
            return false;
        }
    }
    true
}

fn are_types_small(identifiers: &[(Name, Ty)]) -> bool
    ensures { IsTrue result ↔ AllByRecursion IsSmallType identifiers.now }
{
    for identifier in identifiers {
        if !is_type_small(identifier) {
            return false;
        }
    }
    true
}

fn is_type_small(identifier: &(Name, Ty)) -> bool
    ensures { IsTrue result ↔ IsSmallType identifier.now }
{
    identifier.1.is_within(MOST_TYPE_NODES)
}
