//! The sequent below an antecedent.
ghost use Rattle.std.specs.Prelude.{◌≡◌, ◌++◌, None, IfOk};
ghost use Rattle.std.specs.List.{AllByRecursion};
ghost use Rattle.formula_core.specs.Env.{HasDistinctNames, type_in};
ghost use Rattle.sequent_core.specs.Trees.{IsFresh, extended, goal_or};

use formula_core::{Env, Formula, List, Name, OutOfMemory, Ty, copy_formulas, copy_identifiers};
use sequent_core::{Antecedent, Sequent};
use std::alloc::Global;

/// The sequent with what an antecedent adds.
pub(crate) fn extended(
    alloc: Global,
    sequent: &Sequent,
    antecedent: &Antecedent,
) -> Result<Sequent, OutOfMemory>
    requires fresh { IsFresh sequent.now antecedent.now }
    requires distinct { HasDistinctNames antecedent.now.idents }
    ensures { IfOk result (λ below. below ≡ extended sequent.now antecedent.now) }
{
    let env = extended_env(alloc, &sequent.env, antecedent.idents.items())?;
    let hyps = joined(alloc, sequent.hyps.items(), antecedent.hyps.items())?;
    let goal = goal_or(alloc, &antecedent.goal, &sequent.goal)?;
    Ok(Sequent { env, hyps, goal })
}

fn extended_env(alloc: Global, env: &Env, idents: &[(Name, Ty)]) -> Result<Env, OutOfMemory>
    requires fresh { AllByRecursion (λ x. type_in env.now x.0 ≡ None) idents.now }
    requires distinct { HasDistinctNames idents.now }
    ensures { IfOk result (λ new. new ≡ env.now ++ idents.now) }
{
    let mut entries = copy_identifiers(alloc, env.entries())?.into_vec();
    let added = copy_identifiers(alloc, idents)?;
    entries.append(&mut added.into_vec())?;
    Ok(Env::of(entries))
}

fn joined(
    alloc: Global,
    first: &[Formula],
    second: &[Formula],
) -> Result<List<Formula>, OutOfMemory>
    ensures { IfOk result (λ all. all ≡ first.now ++ second.now) }
{
    let mut all = copy_formulas(alloc, first)?.into_vec();
    let added = copy_formulas(alloc, second)?;
    all.append(&mut added.into_vec())?;
    Ok(List::of(all))
}

fn goal_or(alloc: Global, new: &Option<Formula>, goal: &Formula) -> Result<Formula, OutOfMemory>
    ensures { IfOk result (λ f. f ≡ goal_or new.now goal.now) }
{
    match new {
        Some(new) => new.copy(alloc),
        None => goal.copy(alloc),
    }
}
