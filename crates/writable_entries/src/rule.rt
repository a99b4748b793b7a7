// Rules that may be written.
ghost use Rattle.std.specs.Prelude.{◌↔◌, IsTrue};
ghost use Rattle.std.specs.List.{AllByRecursion};
ghost use Rattle.proof_codec.specs.Parts.{IsOption, IsList};
ghost use Rattle.proof_codec.specs.Formulas.{IsFitFormula};
ghost use Rattle.proof_codec.specs.Rules.{IsFitIdentifier, IsFitKind, IsFitRule};
ghost use Rattle.proof_codec.specs.Private.{IsFitAntecedent};

use crate::formula::{are_fit_formulas, is_fit_formula, is_fit_type, is_short};
use formula_core::{Formula, Name, Ty};
use rule_table::{Antecedent, Rule, RuleKind};

pub(crate) fn is_fit_rule(rule: &Rule) -> bool
    ensures { IsTrue result ↔ IsFitRule rule.now }
{
    is_fit_kind(&rule.kind)
        && is_fit_goal(&rule.needed_goal)
        && are_fit_formulas(rule.needed_hyps.items())
        && are_fit_identifiers(rule.used.items())
        && are_fit_antecedents(rule.antecedents.items())
}

fn is_fit_kind(kind: &RuleKind) -> bool
    ensures { IsTrue result ↔ IsFitKind kind.now }
{
    match kind {
        RuleKind::AllL(terms) => are_fit_formulas(terms.items()),
        RuleKind::ExR(terms) => are_fit_formulas(terms.items()),
        RuleKind::RwGoal(_, place) => is_short(place.items().len()),
        RuleKind::RwHyp(_, place) => is_short(place.items().len()),
        RuleKind::Linear(multipliers) => is_short(multipliers.items().len()),
        _ => true,
    }
}

fn is_fit_goal(goal: &Option<Formula>) -> bool
    ensures { IsTrue result ↔ IsOption IsFitFormula goal.now }
{
    match goal {
        Some(formula) => is_fit_formula(formula),
        None => true,
    }
}

fn are_fit_identifiers(identifiers: &[(Name, Ty)]) -> bool
    ensures { IsTrue result ↔ IsList IsFitIdentifier identifiers.now }
{
    is_short(identifiers.len()) && each_identifier_is_fit(identifiers)
}

fn each_identifier_is_fit(identifiers: &[(Name, Ty)]) -> bool
    ensures { IsTrue result ↔ AllByRecursion IsFitIdentifier identifiers.now }
{
    for identifier in identifiers {
        if !is_fit_type(&identifier.1) {
            return false;
        }
    }
    true
}

fn are_fit_antecedents(antecedents: &[Antecedent]) -> bool
    ensures { IsTrue result ↔ IsList IsFitAntecedent antecedents.now }
{
    is_short(antecedents.len()) && each_antecedent_is_fit(antecedents)
}

fn each_antecedent_is_fit(antecedents: &[Antecedent]) -> bool
    ensures { IsTrue result ↔ AllByRecursion IsFitAntecedent antecedents.now }
{
    for antecedent in antecedents {
        if !is_fit_antecedent(antecedent) {
            return false;
        }
    }
    true
}

fn is_fit_antecedent(antecedent: &Antecedent) -> bool
    ensures { IsTrue result ↔ IsFitAntecedent antecedent.now }
{
    are_fit_identifiers(antecedent.idents.items())
        && are_fit_formulas(antecedent.hyps.items())
        && is_fit_goal(&antecedent.goal)
}
