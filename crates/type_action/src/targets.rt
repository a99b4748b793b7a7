//! The targets of an action.
ghost use Rattle.std.specs.Prelude.{◌≡◌, ◌∷◌, [], fold, IfOk, IfSome, IsTrue, OnOk, Some};
ghost use Rattle.std.specs.Option.{option_copied};
ghost use Rattle.formula_core.specs.Names.{is_identifier};
ghost use Rattle.type_formula.specs.Answers.{with_typed_name};
ghost use Rattle.type_formula.specs.Unknowns.{earlier_name};
ghost use Rattle.type_action.specs.CoreActions.{target_type, typed_targets, unknown_targets, primed_targets, with_all, agree};

use formula_core::{Env, EnvFault, Name, OutOfMemory, Ref, Ty};
use std::alloc::Global;
use type_formula::keep_earlier;

/// The type of a target. One with a prime is unknown.
pub(crate) fn target_type<'a>(env: &'a Env, name: &Name) -> Option<&'a Ty>
    ensures ty { option_copied result ≡ target_type env.now name.now }
    ensures unprimed { IfSome result (λ _. IsTrue (is_identifier name.now)) }
{
    if name.is_primed() {
        return None;
    }
    env.get(name)
}

/// Keeps the earliest of the unknown targets and the name that was found.
pub(crate) fn keep_unknown_targets(
    alloc: Global,
    env: &Env,
    targets: &[Ref],
    found: &mut Option<(Name, u32)>,
) -> Result<(), OutOfMemory>
    ensures { OnOk result (found.new ≡ fold earlier_name found.old (unknown_targets env.now targets.now)) }
{
    for target in targets {
        keep_unknown_target(alloc, env, target, found)?;
    }
    Ok(())
}

fn keep_unknown_target(
    alloc: Global,
    env: &Env,
    target: &Ref,
    found: &mut Option<(Name, u32)>,
) -> Result<(), OutOfMemory>
    ensures { OnOk result (found.new ≡ fold earlier_name found.old (unknown_targets env.now (target.now ∷ []))) }
{
    if target_type(env, &target.name).is_some() {
        return Ok(());
    }
    keep_earlier(alloc, found, &target.name, target.place)
}

/// The known targets with their types.
pub(crate) fn typed_targets(
    alloc: Global,
    env: &Env,
    targets: &[Ref],
) -> Result<Vec<(Name, Ty)>, OutOfMemory>
    ensures { IfOk result (λ v. v.items ≡ typed_targets env.now targets.now) }
{
    let mut typed = Vec::new(alloc);
    for target in targets {
        if let Some(ty) = target_type(env, &target.name) {
            typed.push((target.name.copy(alloc)?, ty.copy(alloc)?))?;
        }
    }
    Ok(typed)
}

/// The known targets with their primes and their types.
pub(crate) fn primed_targets(
    alloc: Global,
    env: &Env,
    targets: &[Ref],
) -> Result<Vec<(Name, Ty)>, OutOfMemory>
    ensures { IfOk result (λ v. v.items ≡ primed_targets env.now targets.now) }
{
    let mut primed = Vec::new(alloc);
    for target in targets {
        if let Some(ty) = target_type(env, &target.name) {
            primed.push((target.name.primed(alloc)?, ty.copy(alloc)?))?;
        }
    }
    Ok(primed)
}

/// An environment with those of the names that it lacks.
pub(crate) fn with_all(alloc: Global, env: &Env, names: &[(Name, Ty)]) -> Result<Env, OutOfMemory>
    ensures { IfOk result (λ e. e ≡ with_all env.now names.now) }
{
    let mut all = env.copy(alloc)?;
    for entry in names {
        add_name(alloc, &mut all, &entry.0, &entry.1)?;
    }
    Ok(all)
}

fn add_name(alloc: Global, env: &mut Env, name: &Name, ty: &Ty) -> Result<(), OutOfMemory>
    ensures { OnOk result (env.new ≡ with_typed_name env.old name.now (Some ty.now)) }
{
    let name = name.copy(alloc)?;
    match env.add(name, ty.copy(alloc)?) {
        Ok(()) => Ok(()),
        Err(EnvFault::Taken) => Ok(()),
        Err(EnvFault::OutOfMemory) => Err(OutOfMemory),
    }
}

/// Whether no name stands in the environment with another type than here.
pub(crate) fn agree(env: &Env, names: &[(Name, Ty)]) -> bool
    ensures { result ≡ agree env.now names.now }
{
    names.iter().all(|entry| agrees(env, &entry.0, &entry.1))
}

fn agrees(env: &Env, name: &Name, ty: &Ty) -> bool
    ensures { result ≡ agree env.now ((name.now, ty.now) ∷ []) }
{
    match env.get(name) {
        Some(other) => ty.same(other),
        None => true,
    }
}
