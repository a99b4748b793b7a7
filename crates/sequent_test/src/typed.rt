//! Whether formulas are typed in an environment.
ghost use Rattle.std.specs.Prelude.{◌↔◌, IsTrue, IfOk};
ghost use Rattle.std.specs.List.{AllByRecursion};
ghost use Rattle.formula_core.specs.Identifiers.{carriers};
ghost use Rattle.formula_core.specs.Typed.{Stands, IsTypedIn, IsPredicateIn, IsGoodEnv};
ghost use Rattle.formula_core.specs.Types.{is_value_type};
ghost use Rattle.sequent_core.specs.Sequents.{IsSequent};

use formula_core::{Env, Formula, Name, OutOfMemory, Ty};
use sequent_core::Sequent;
use std::alloc::Global;

/// Whether the hypotheses and the goal are predicates typed in the environment, and the environment is a good one.
pub fn is_sequent(alloc: Global, sequent: &Sequent) -> Result<bool, OutOfMemory>
    ensures { IfOk result (λ b. IsTrue b ↔ IsSequent sequent.now) }
{
    if !is_good_env(alloc, &sequent.env)? {
        return Ok(false);
    }
    if !are_predicates(alloc, &sequent.env, sequent.hyps.items())? {
        return Ok(false);
    }
    is_predicate(alloc, &sequent.env, &sequent.goal)
}

fn is_good_env(alloc: Global, env: &Env) -> Result<bool, OutOfMemory>
    ensures { IfOk result (λ b. IsTrue b ↔ IsGoodEnv env.now) }
{
    let entries = env.entries();
    if !have_value_types(entries) {
        return Ok(false);
    }
    all_have_carriers(alloc, env, entries)
}

fn have_value_types(entries: &[(Name, Ty)]) -> bool
    ensures { IsTrue result ↔ AllByRecursion (λ x. IsTrue (is_value_type x.1)) entries.now }
{
    for entry in entries {
        if !entry.1.is_value_type() {
            return false;
        }
    }
    true
}

/// Whether each carrier set of the types stands in the environment.
fn all_have_carriers(alloc: Global, env: &Env, entries: &[(Name, Ty)]) -> Result<bool, OutOfMemory>
    ensures { IfOk result (λ b.
        IsTrue b ↔ AllByRecursion (λ x. AllByRecursion (Stands env.now) (carriers x.1)) entries.now) }
{
    for entry in entries {
        if !has_carriers(alloc, env, &entry.1)? {
            return Ok(false);
        }
    }
    Ok(true)
}

fn has_carriers(alloc: Global, env: &Env, ty: &Ty) -> Result<bool, OutOfMemory>
    ensures { IfOk result (λ b. IsTrue b ↔ AllByRecursion (Stands env.now) (carriers ty.now)) }
{
    let mut found = Vec::new(alloc);
    ty.add_carriers(alloc, &mut found)?;
    Ok(have_places(env, &found))
}

fn are_predicates(alloc: Global, env: &Env, formulas: &[Formula]) -> Result<bool, OutOfMemory>
    ensures { IfOk result (λ b. IsTrue b ↔ AllByRecursion (IsPredicateIn env.now) formulas.now) }
{
    for formula in formulas {
        if !is_predicate(alloc, env, formula)? {
            return Ok(false);
        }
    }
    Ok(true)
}

fn is_predicate(alloc: Global, env: &Env, formula: &Formula) -> Result<bool, OutOfMemory>
    ensures { IfOk result (λ b. IsTrue b ↔ IsPredicateIn env.now formula.now) }
{
    if !formula.type_of(&Ty::Int).is_truth() {
        return Ok(false);
    }
    is_typed(alloc, env, formula)
}

fn is_typed(alloc: Global, env: &Env, formula: &Formula) -> Result<bool, OutOfMemory>
    ensures { IfOk result (λ b. IsTrue b ↔ IsTypedIn env.now formula.now) }
{
    if !formula.is_well() {
        return Ok(false);
    }
    let mut found = Vec::new(alloc);
    formula.add_identifiers(alloc, &mut found)?;
    Ok(have_places(env, &found))
}

/// Whether these stand in the environment.
fn have_places(env: &Env, identifiers: &[(Name, Ty)]) -> bool
    ensures { IsTrue result ↔ AllByRecursion (Stands env.now) identifiers.now }
{
    for identifier in identifiers {
        if !has_place(env, &identifier.0, &identifier.1) {
            return false;
        }
    }
    true
}

fn has_place(env: &Env, name: &Name, ty: &Ty) -> bool
    ensures { IsTrue result ↔ Stands env.now (name.now, ty.now) }
{
    match env.get(name) {
        Some(found) => found.same(ty),
        None => false,
    }
}
