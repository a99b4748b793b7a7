// The sequent at the end of a way, and whether a rule applies to it.
ghost use Rattle.std.specs.Prelude.{◌≡◌, ◌↔◌, IsTrue, IfOk, OnOk};
ghost use Rattle.std.specs.List.{AllByRecursion};
ghost use Rattle.sequent_core.specs.declared.sequent.Sequent.{Sequent};
ghost use Rattle.sequent_core.specs.Trees.{IsFresh, at_end, AreFresh};
ghost use Rattle.proof_tree.specs.Ways.{antecedents_of};
ghost use Rattle.proof_steps.specs.Places.{AppliesTo};
ghost use Rattle.proof_steps.specs.Private.{HaveDistinctIdentifiers};

use formula_core::{Env, Formula, List, Name, OutOfMemory, Ty, copy_formulas, copy_identifiers};
use proof_tree::Way;
use rule_kernel::is_rule;
use sequent_core::{Antecedent, Rule, Sequent};
use std::alloc::Global;

/// Whether the rule applies to the sequent to which the way leads.
pub fn applies_at(
    way: &Way<'_>,
    alloc: Global,
    rule: &Rule,
    sequent: &Sequent,
) -> Result<bool, OutOfMemory>
    requires fresh { AreFresh (antecedents_of way.now) sequent.now }
    ensures { IfOk result (λ applies.
        IsTrue applies ↔ AppliesTo rule.now (at_end (antecedents_of way.now) sequent.now)) }
{
    if !way.meets(rule, sequent) || !are_fresh(&*way, rule.antecedents.items(), sequent) {
        return Ok(false);
    }
    is_rule(alloc, rule)
}

fn are_fresh(way: &Way<'_>, antecedents: &[Antecedent], sequent: &Sequent) -> bool
    requires fresh { AreFresh (antecedents_of way.now) sequent.now }
    ensures { IsTrue result ↔ AllByRecursion (IsFresh (at_end (antecedents_of way.now) sequent.now)) antecedents.now }
{
    for antecedent in antecedents {
        if !way.is_fresh(antecedent, sequent) {
            return false;
        }
    }
    true
}

/// The sequent to which the way leads.
pub fn sequent_at(way: &Way<'_>, alloc: Global, sequent: &Sequent) -> Result<Sequent, OutOfMemory>
    requires fresh { AreFresh (antecedents_of way.now) sequent.now }
    requires distinct { HaveDistinctIdentifiers (antecedents_of way.now) }
    ensures { IfOk result (λ end. end ≡ at_end (antecedents_of way.now) sequent.now) }
{
    let mut entries = copy_identifiers(alloc, sequent.env.entries())?.into_vec();
    add_identifiers(&*way, alloc, &mut entries)?;
    let mut hyps = copy_formulas(alloc, sequent.hyps.items())?.into_vec();
    add_hypotheses(&*way, alloc, &mut hyps)?;
    let goal = copy_goal(&*way, alloc, sequent)?;
    Ok(Sequent {
        env: Env::of(entries),
        hyps: List::of(hyps),
        goal,
    })
}

fn copy_goal(way: &Way<'_>, alloc: Global, sequent: &Sequent) -> Result<Formula, OutOfMemory>
    ensures { IfOk result (λ goal. goal ≡ (at_end (antecedents_of way.now) sequent.now).goal) }
{
    match way.goal() {
        Some(goal) => goal.copy(alloc),
        None => sequent.goal.copy(alloc),
    }
}

/// Adds the identifiers that the way adds, the farthest first.
fn add_identifiers(
    way: &Way<'_>,
    alloc: Global,
    entries: &mut Vec<(Name, Ty)>,
) -> Result<(), OutOfMemory>
    ensures { OnOk result ((s : Sequent) → entries.old.items ≡ s.env
        → entries.new.items ≡ (at_end (antecedents_of way.now) s).env) }
{
    match way {
        Way::Root => Ok(()),
        Way::Below(antecedent, above) => {
            add_identifiers(&**above, alloc, entries)?;
            let added = copy_identifiers(alloc, antecedent.idents.items())?;
            entries.append(&mut added.into_vec())?;
            Ok(())
        }
    }
}

/// Adds the hypotheses that the way adds, the farthest first.
fn add_hypotheses(way: &Way<'_>, alloc: Global, hyps: &mut Vec<Formula>) -> Result<(), OutOfMemory>
    ensures { OnOk result ((s : Sequent) → hyps.old.items ≡ s.hyps
        → hyps.new.items ≡ (at_end (antecedents_of way.now) s).hyps) }
{
    match way {
        Way::Root => Ok(()),
        Way::Below(antecedent, above) => {
            add_hypotheses(&**above, alloc, hyps)?;
            let added = copy_formulas(alloc, antecedent.hyps.items())?;
            hyps.append(&mut added.into_vec())?;
            Ok(())
        }
    }
}
