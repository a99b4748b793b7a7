//! The environment in which an event is typed.

ghost use Rattle.std.specs.Prelude.{◌≡◌, ◌++◌, ◌∷◌, [], IfOk, OnOk, Some, map, not, ◌&&◌};
ghost use Rattle.std.specs.List.{filter};
ghost use Rattle.formula_core.specs.Formulas.{joined};
ghost use Rattle.formula_core.specs.Names.{is_identifier};
ghost use Rattle.type_formula.specs.Answers.{with_typed_name};
ghost use Rattle.type_action.specs.CoreActions.{with_all};
ghost use Rattle.check_rules.specs.Visible.{names};
ghost use Rattle.check_rules.specs.Typed.{in_order};
ghost use Rattle.check_rules.specs.Contexts.{names_of};
ghost use Rattle.check_rules.specs.Events.{params_inherited, primed_env};
ghost use Rattle.model_core.specs.Borrowed.{has};
ghost use Rattle.machine_check.specs.PrivateTyped.{HasExactly, ExtendsEntries, event_env_from, witness_env_from};
ghost use Rattle.machine_check.specs.PrivateTyped.{primed_known, type_of_text, typed_there};

use crate::assignments::{add_names_of, texts_of};
use crate::machine_names::add_ref_names;
use crate::param_types::{Types, type_there, types_in};
use context_check::declarations::{Texts, has};
use formula_core::{Env, EnvFault, Name, OutOfMemory, Ref, Ty};
use model_core::{CheckedEvent, RawEvent};
use std::alloc::Global;
use std::collections::BTreeSet;

fn add_name(alloc: Global, env: &mut Env, name: Name, ty: &Ty) -> Result<(), OutOfMemory>
    ensures { OnOk result (env.new ≡ with_typed_name env.old name (Some ty.now)) }
{
    match env.add(name, ty.copy(alloc)?) {
        Ok(()) => Ok(()),
        Err(EnvFault::Taken) => Ok(()),
        Err(EnvFault::OutOfMemory) => Err(OutOfMemory),
    }
}

/// Adds the names that the environment lacks.
fn add_all(alloc: Global, env: &mut Env, names: &[(Name, Ty)]) -> Result<(), OutOfMemory>
    ensures { OnOk result (env.new ≡ with_all env.old names.now) }
{
    for entry in names {
        add_name(alloc, env, entry.0.copy(alloc)?, &entry.1)?;
    }
    Ok(())
}

/// Adds the parameters that have a type there.
fn add_typed_there(
    alloc: Global,
    env: &mut Env,
    types: &Types<'_>,
    params: &[Ref],
) -> Result<(), OutOfMemory>
    ensures { OnOk result (env.new ≡ with_all env.old (typed_there (type_of_text types.now) (names_of params.now))) }
{
    for param in params {
        if let Some(ty) = type_there(types, &param.name) {
            add_name(alloc, env, param.name.copy(alloc)?, ty)?;
        }
    }
    Ok(())
}

/// Adds the parameters that have a type in one of the events.
fn add_flowing(
    alloc: Global,
    env: &mut Env,
    events: &[&CheckedEvent],
    params: &[Ref],
) -> Result<(), OutOfMemory>
    ensures { OnOk result (env.new ≡ with_all env.old
        (in_order (joined (map (λ a. a.now.params) events.now)) (names_of params.now))) }
{
    let types = types_in(alloc, events)?;
    add_typed_there(alloc, env, &types, params)?;
    Ok(())
}

/// The parameters that the event inherits.
pub fn inherited_params<'a>(refined: &[&'a CheckedEvent], event: &RawEvent) -> &'a [(Name, Ty)]
    ensures { result.now ≡ params_inherited event.now (map (λ x. x.now) refined.now) }
{
    if !event.extended {
        return &[];
    }
    match refined.first() {
        Some(extended) => extended.params.items(),
        None => &[],
    }
}

/// Adds what is known of an event before its first guard.
pub fn add_event_names(
    alloc: Global,
    env: &mut Env,
    refined: &[&CheckedEvent],
    event: &RawEvent,
) -> Result<(), OutOfMemory>
    ensures { OnOk result (env.new ≡ event_env_from (map (λ x. x.now) refined.now) event.now env.old) }
{
    add_all(alloc, env, inherited_params(refined, event))?;
    add_flowing(alloc, env, refined, event.params.items())?;
    Ok(())
}

/// The names of an event's parameters, inherited ones and own ones.
fn param_names<'a>(
    alloc: Global,
    inherited: &'a [(Name, Ty)],
    own: &'a [Ref],
) -> Result<Texts<'a>, OutOfMemory>
    ensures { IfOk result (λ found. HasExactly found (names inherited.entry.now ++ names_of own.entry.now)) }
{
    let mut found = BTreeSet::new(alloc);
    add_names_of(&mut found, inherited)?;
    add_ref_names(&mut found, own)?;
    Ok(found)
}

fn is_lost(kept: &Texts<'_>, param: &(Name, Ty)) -> bool
    ensures { result ≡ not (has kept.now param.now.0) }
{
    !has(kept, param.0.as_text())
}

/// Adds those that the event lacks.
fn add_lost(
    alloc: Global,
    env: &mut Env,
    kept: &Texts<'_>,
    params: &[(Name, Ty)],
) -> Result<(), OutOfMemory>
    ensures { OnOk result (env.new ≡ with_all env.old (filter (λ p. not (has kept.now p.0)) params.now)) }
{
    for param in params {
        if is_lost(kept, param) {
            add_name(alloc, env, param.0.copy(alloc)?, &param.1)?;
        }
    }
    Ok(())
}

fn add_all_lost(
    alloc: Global,
    env: &mut Env,
    kept: &Texts<'_>,
    events: &[&CheckedEvent],
) -> Result<(), OutOfMemory>
    ensures { OnOk result (env.new ≡ with_all env.old
        (filter (λ p. not (has kept.now p.0)) (joined (map (λ a. a.now.params) events.now)))) }
{
    for event in events {
        add_lost(alloc, env, kept, event.params.items())?;
    }
    Ok(())
}

/// Whether it is the name of a variable, which has no prime.
fn is_unprimed_variable(variables: &Texts<'_>, name: &Name) -> bool
    ensures { result ≡ (is_identifier name.now && has variables.now name.now) }
{
    !name.is_primed() && has(variables, name.as_text())
}

fn add_primed(
    alloc: Global,
    found: &mut Vec<(Name, Ty)>,
    variables: &Texts<'_>,
    entry: &(Name, Ty),
) -> Result<(), OutOfMemory>
    ensures { OnOk result (found.new.items ≡ found.old.items ++ primed_known (has variables.now) (entry.now ∷ [])) }
{
    if is_unprimed_variable(variables, &entry.0) {
        found.push((entry.0.primed(alloc)?, entry.1.copy(alloc)?))?;
    }
    Ok(())
}

/// The primed names of the variables, with their types.
fn primed_in(
    alloc: Global,
    variables: &Texts<'_>,
    entries: &[(Name, Ty)],
) -> Result<Vec<(Name, Ty)>, OutOfMemory>
    ensures { IfOk result (λ found. found.items ≡ primed_known (has variables.now) entries.now) }
{
    let mut found = Vec::new(alloc);
    for entry in entries {
        add_primed(alloc, &mut found, variables, entry)?;
    }
    Ok(found)
}

/// The environment of a machine with the primed names of the variables.
pub fn primed_env(alloc: Global, env: &Env, variables: &[Name]) -> Result<Env, OutOfMemory>
    ensures { IfOk result (λ all. all ≡ primed_env env.now variables.now) }
{
    let variables = texts_of(alloc, variables)?;
    let primed = primed_in(alloc, &variables, env.entries())?;
    let mut all = env.copy(alloc)?;
    add_all(alloc, &mut all, &primed)?;
    Ok(all)
}

/// Adds what an event's witnesses know beside the machine's names: what the event adds to these, and the parameters
/// that it lacks.
pub fn add_witness_names(
    alloc: Global,
    env: &mut Env,
    refined: &[&CheckedEvent],
    event: &RawEvent,
    added: &[(Name, Ty)],
) -> Result<(), OutOfMemory>
    ensures names { OnOk result (env.new
        ≡ witness_env_from (map (λ x. x.now) refined.now) event.now env.old added.now) }
    ensures grown { OnOk result (ExtendsEntries env.old env.new) }
{
    let inherited = inherited_params(refined, event);
    let kept = param_names(alloc, inherited, event.params.items())?;
    add_all(alloc, env, added)?;
    add_all_lost(alloc, env, &kept, refined)?;
    Ok(())
}
