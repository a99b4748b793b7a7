//! Whether the parts of a rule are right, whatever its kind.
ghost use Rattle.std.specs.Prelude.{◌≡◌, ◌↔◌, IsTrue, IfOk};
ghost use Rattle.std.specs.List.{AllByRecursion};
ghost use Rattle.std.specs.Option.{option_to_list};
ghost use Rattle.formula_core.specs.Env.{HasDistinctNames};
ghost use Rattle.formula_core.specs.Wellness.{type_of};
ghost use Rattle.rule_table.specs.Rules.{IsAllowed, body_of, needed_formulas};
ghost use Rattle.rule_kernel.specs.Private.{AddsSmallTypes, HasAllowedFormulas, HasSoundParts, IsAllowedAntecedent, IsSmallType};

use crate::parts::terms_of;
use formula_core::{Env, EnvFault, Formula, MOST_TYPE_NODES, Name, OutOfMemory, Ty};
use rule_table::{Antecedent, Rule};
use std::alloc::Global;

/// Whether the formulas of a rule and the types of the names that it adds are right, and no antecedent adds a name
/// twice.
pub(crate) fn has_sound_parts(alloc: Global, rule: &Rule) -> Result<bool, OutOfMemory>
    ensures { IfOk result (λ sound. IsTrue sound ↔ HasSoundParts rule.now) }
{
    if !has_allowed_formulas(rule) || !needs_predicates(rule) {
        return Ok(false);
    }
    if !add_small_types(rule.antecedents.items()) {
        return Ok(false);
    }
    add_distinct_names(alloc, rule.antecedents.items())
}

fn has_allowed_formulas(rule: &Rule) -> bool
    ensures { IsTrue result ↔ HasAllowedFormulas rule.now }
{
    is_goal_allowed(&rule.needed_goal)
        && are_allowed(rule.needed_hyps.items())
        && are_antecedents_allowed(rule.antecedents.items())
        && are_allowed(terms_of(&rule.kind))
}

fn is_goal_allowed(goal: &Option<Formula>) -> bool
    ensures { IsTrue result ↔ AllByRecursion IsAllowed (option_to_list goal.now) }
{
    match goal {
        Some(formula) => is_allowed(formula),
        None => true,
    }
}

fn are_allowed(formulas: &[Formula]) -> bool
    ensures { IsTrue result ↔ AllByRecursion IsAllowed formulas.now }
{
    for formula in formulas {
        if !is_allowed(formula) {
            return false;
        }
    }
    true
}

fn is_allowed(formula: &Formula) -> bool
    ensures { IsTrue result ↔ IsAllowed formula.now }
{
    formula.is_within_limits() && formula.is_well()
}

fn is_antecedent_allowed(antecedent: &Antecedent) -> bool
    ensures { IsTrue result ↔ IsAllowedAntecedent antecedent.now }
{
    are_allowed(antecedent.hyps.items()) && is_goal_allowed(&antecedent.goal)
}

fn are_antecedents_allowed(antecedents: &[Antecedent]) -> bool
    ensures { IsTrue result ↔ AllByRecursion IsAllowedAntecedent antecedents.now }
{
    for antecedent in antecedents {
        if !is_antecedent_allowed(antecedent) {
            return false;
        }
    }
    true
}

/// Whether the goal and the hypotheses are predicates.
fn needs_predicates(rule: &Rule) -> bool
    ensures { IsTrue result ↔ AllByRecursion (λ f. type_of f ≡ Ty.Truth) (needed_formulas (body_of rule.now)) }
{
    match &rule.needed_goal {
        Some(goal) => is_predicate(goal) && are_predicates(rule.needed_hyps.items()),
        None => are_predicates(rule.needed_hyps.items()),
    }
}

fn are_predicates(formulas: &[Formula]) -> bool
    ensures { IsTrue result ↔ AllByRecursion (λ f. type_of f ≡ Ty.Truth) formulas.now }
{
    for formula in formulas {
        if !is_predicate(formula) {
            return false;
        }
    }
    true
}

fn is_predicate(formula: &Formula) -> bool
    ensures { IsTrue result ↔ (type_of formula.now ≡ Ty.Truth) }
{
    let integer = Ty::Int;
    formula.type_of(&integer).same(&Ty::Truth)
}

/// Whether the types of the names that are added are within the limit.
fn add_small_types(antecedents: &[Antecedent]) -> bool
    ensures { IsTrue result ↔ AllByRecursion AddsSmallTypes antecedents.now }
{
    for antecedent in antecedents {
        if !have_small_types(antecedent.idents.items()) {
            return false;
        }
    }
    true
}

fn have_small_types(identifiers: &[(Name, Ty)]) -> bool
    ensures { IsTrue result ↔ AllByRecursion IsSmallType identifiers.now }
{
    for identifier in identifiers {
        if !has_small_type(identifier) {
            return false;
        }
    }
    true
}

fn has_small_type(identifier: &(Name, Ty)) -> bool
    ensures { IsTrue result ↔ IsSmallType identifier.now }
{
    identifier.1.is_within(MOST_TYPE_NODES)
}

/// Whether no antecedent adds a name twice.
fn add_distinct_names(alloc: Global, antecedents: &[Antecedent]) -> Result<bool, OutOfMemory>
    ensures { IfOk result (λ distinct.
        IsTrue distinct ↔ AllByRecursion (λ a. HasDistinctNames a.idents) antecedents.now) }
{
    for antecedent in antecedents {
        if !has_distinct_names(alloc, antecedent.idents.items())? {
            return Ok(false);
        }
    }
    Ok(true)
}

#[tactic(auto, using(crate::proofs::Distinct::twice))]
fn has_distinct_names(alloc: Global, identifiers: &[(Name, Ty)]) -> Result<bool, OutOfMemory>
    ensures { IfOk result (λ distinct. IsTrue distinct ↔ HasDistinctNames identifiers.now) }
{
    let mut env = Env::new(alloc);
    for identifier in identifiers {
        match env.add(identifier.0.copy(alloc)?, identifier.1.copy(alloc)?) {
            Ok(()) => {}
            Err(EnvFault::Taken) => return Ok(false),
            Err(EnvFault::OutOfMemory) => return Err(OutOfMemory),
        }
    }
    Ok(env.entries().len() == identifiers.len())
}
