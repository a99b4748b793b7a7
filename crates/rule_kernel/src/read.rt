//! The main formulas of a rule, read from it.
ghost use Rattle.std.specs.Prelude.{◌≡◌, IfOk, map};
ghost use Rattle.std.specs.Option.{option_copied, option_and_then};
ghost use Rattle.rule_table.specs.Rows.{chosen_in, first_names, last_added, main_of};
ghost use Rattle.rule_table.specs.Rules.{body_of};

use crate::instances::first;
use formula_core::{Formula, List, Name, Op, OutOfMemory, Ty, copy_formulas};
use rule_table::{Antecedent, Main, Rule, RuleKind, operand, two_operands};
use std::alloc::Global;

/// The main formulas from which a rule is made: its goal, its hypotheses, the names that it adds, and the formula that
/// was chosen for it, which stands in what the last antecedent adds.
pub(crate) fn main_of(alloc: Global, rule: &Rule) -> Result<Main, OutOfMemory>
    ensures main { IfOk result (λ m. m ≡ main_of rule.now.kind (body_of rule.now)) }
{
    let goal = copy_found(alloc, rule.needed_goal.as_ref())?;
    let hyps = copy_formulas(alloc, rule.needed_hyps.items())?;
    let names = first_names(alloc, rule.antecedents.items())?;
    let chosen = copy_found(alloc, chosen_of(&rule.kind, rule.antecedents.items()))?;
    Ok(Main {
        goal,
        hyps,
        names,
        chosen,
    })
}

fn copy_found(alloc: Global, found: Option<&Formula>) -> Result<Option<Formula>, OutOfMemory>
    ensures { IfOk result (λ o. o ≡ option_copied found.entry) }
{
    match found {
        Some(f) => Ok(Some(f.copy(alloc)?)),
        None => Ok(None),
    }
}

/// The names that the first antecedent adds.
fn first_names(alloc: Global, antecedents: &[Antecedent]) -> Result<List<Name>, OutOfMemory>
    ensures { IfOk result (λ names. names ≡ first_names antecedents.now) }
{
    match antecedents {
        [] => Ok(List::of(Vec::new(alloc))),
        [a, ..] => copy_names(alloc, a.idents.items()),
    }
}

fn copy_names(alloc: Global, idents: &[(Name, Ty)]) -> Result<List<Name>, OutOfMemory>
    ensures { IfOk result (λ names. names ≡ map (λ x. x.0) idents.now) }
{
    let mut names = Vec::new(alloc);
    for identifier in idents {
        names.push(identifier.0.copy(alloc)?)?;
    }
    Ok(List::of(names))
}

/// The formula that was chosen for a kind.
fn chosen_of<'a>(kind: &RuleKind, antecedents: &'a [Antecedent]) -> Option<&'a Formula>
    ensures { option_copied result ≡ option_and_then (chosen_in kind.now) (last_added antecedents.now) }
{
    match last_added(antecedents) {
        Some(p) => chosen_in(kind, p),
        None => None,
    }
}

/// The hypothesis that the last antecedent adds.
fn last_added(antecedents: &[Antecedent]) -> Option<&Formula>
    ensures { option_copied result ≡ last_added antecedents.now }
{
    if antecedents.is_empty() {
        None
    } else {
        first(antecedents[antecedents.len() - 1].hyps.items())
    }
}

/// The formula that was chosen for a kind, from the hypothesis that the last antecedent adds.
fn chosen_in<'a>(kind: &RuleKind, p: &'a Formula) -> Option<&'a Formula>
    ensures { option_copied result ≡ chosen_in kind.now p.now }
{
    match kind {
        RuleKind::Cut => Some(p),
        RuleKind::Cases => operand(Op::Not, p),
        RuleKind::BoolCases => {
            let (e, _) = two_operands(Op::Equal, p)?;
            Some(e)
        }
        RuleKind::CardNat => {
            let (_, card) = two_operands(Op::LessOrEqual, p)?;
            operand(Op::Cardinality, card)
        }
        RuleKind::FunIn => {
            let (value, _) = two_operands(Op::Member, p)?;
            let (_, e) = two_operands(Op::Apply, value)?;
            Some(e)
        }
        _ => None,
    }
}
