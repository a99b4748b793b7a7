// Whether a sequent can have what was found of a tree.
ghost use Rattle.std.specs.Prelude.{◌≡◌, ◌↔◌, None, IfOk, MatchOption, if◌then◌else◌, Some};
ghost use Rattle.formula_core.specs.Env.{HasDistinctNames};
ghost use Rattle.well_defined.specs.Predicates.{top};
ghost use Rattle.sequent_core.specs.declared.sequent.Sequent.{Sequent};
ghost use Rattle.sequent_core.specs.Trees.{goal_or};
ghost use Rattle.proof_deps.specs.Deps.{FitsIn};
ghost use Rattle.proof_deps.specs.Private.{Allows, IsPossible};

use crate::deps::{Deps, has_none};
use crate::found::Found;
use formula_core::{Formula, List, OutOfMemory, copy_identifiers};
use rule_table::top;
use sequent_core::Sequent;
use sequent_test::is_sequent;
use std::alloc::Global;

/// The dependencies, unless no sequent has what was found: one has it exactly where the least that has it is one.
pub fn settled(alloc: Global, found: Found) -> Result<Option<Deps>, OutOfMemory>
    ensures settled { IfOk result (λ deps. MatchOption deps (IsPossible found → ⊥)
        (λ d. IsPossible found × ((s : Sequent) → Allows found s ↔ FitsIn d s))) }
    ensures distinct { HasDistinctNames found.used }
{
    let used = copy_identifiers(alloc, found.used.entries())?;
    if !found.possible || !has_none(&found.fresh, &found.used) {
        return Ok(None);
    }
    let Found {
        possible: _,
        goal,
        hyps,
        places: _,
        used: env,
        fresh,
    } = found;
    let has_goal = goal.is_some();
    let least = Sequent {
        env,
        hyps: List::of(hyps),
        goal: goal_or_top(alloc, goal),
    };
    if !is_sequent(alloc, &least)? {
        return Ok(None);
    }
    let Sequent { env: _, hyps, goal } = least;
    Ok(Some(Deps {
        goal: goal_if(has_goal, goal),
        hyps,
        used,
        fresh: List::of(fresh),
    }))
}

fn goal_or_top(alloc: Global, goal: Option<Formula>) -> Formula
    ensures { result ≡ goal_or goal top }
{
    match goal {
        Some(formula) => formula,
        None => top(alloc),
    }
}

fn goal_if(needed: bool, goal: Formula) -> Option<Formula>
    ensures { result ≡ (if needed then Some goal else None) }
{
    if needed { Some(goal) } else { None }
}
