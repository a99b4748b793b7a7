//! The one typing of a written action.
ghost use Rattle.std.specs.Prelude.{◌≡◌, ℕ, [], ◌∷◌, ◌++◌, List, map, IfErr, IfOk, IsErrOf, IsOk, None, Some};
ghost use Rattle.std.specs.Option.{option_map};
ghost use Rattle.formula_core.specs.Typed.{HasCarriers};
ghost use Rattle.type_formula.specs.CoreForms.{core_form};
ghost use Rattle.type_formula.specs.Unknowns.{first_name_by_place, unknowns};
ghost use Rattle.type_formula.specs.Views.{bare_of};
ghost use Rattle.type_action.specs.Answers.{IsActionTyping};
ghost use Rattle.type_action.specs.Private.{TellsAction, TellsFault};
ghost use Rattle.type_action.specs.CoreActions.{Assign, ChooseIn, ChooseSuch, core_action, overridden, target_type, typed_targets, unknown_in_action, unknown_targets, unknowns_of, primed_targets, env_after};
ghost use Rattle.type_action.specs.Laws.{IsActionIn};
ghost use Rattle.type_action.specs.Results.{HasNone, HasTwo, IsOnly};
ghost use Rattle.type_action.specs.Typings.{IsActionOf, IsWellAction};

use crate::targets::{
    agree, keep_unknown_targets, primed_targets, target_type, typed_targets, with_all,
};
use crate::values::{add_values, keep_unknowns, override_at, read_all, type_as, type_as_predicate};
use formula_core::{Action, Boxed, Env, Formula, List, Name, OutOfMemory, Raw, RawAction, Ref, Ty};
use std::alloc::Global;
use std::slice;
use type_formula::{Tree, TypeFault, keep_unknown, read};

/// Types an action. A target is an identifier of the environment without a prime.
pub fn type_action(alloc: Global, env: &Env, raw: &RawAction) -> Result<Action, TypeFault>
    // The typing, where there is exactly one.
    ensures typed { IfOk result (λ a. IsOnly (IsActionTyping env.now raw.now) a) }
    ensures well { IfOk result (λ a. IsWellAction env.now a) }
    ensures standing { HasCarriers env.now → IfOk result (λ a. IsActionIn env.now a) }
    ensures clash { IsErrOf result TypeFault.Clash → HasNone (IsActionTyping env.now raw.now) }
    ensures untyped { IsErrOf result TypeFault.Untyped → HasTwo (IsActionTyping env.now raw.now) }

    // An unknown name goes first.
    ensures unknown { (name : List ℕ) (place : ℕ) → IsErrOf result (TypeFault.Unknown name place)
        → unknown_in_action env.now raw.now ≡ Some (name, place) }
    ensures known { IsOk result → unknown_in_action env.now raw.now ≡ None }
    ensures known_clash { IsErrOf result TypeFault.Clash → unknown_in_action env.now raw.now ≡ None }
    ensures known_untyped { IsErrOf result TypeFault.Untyped → unknown_in_action env.now raw.now ≡ None }
{
    type_written(alloc, env, raw)
}

fn type_written(alloc: Global, env: &Env, raw: &RawAction) -> Result<Action, TypeFault>
    ensures { TellsAction env.now (core_action raw.now) result }
{
    match raw {
        RawAction::Assign(targets, values) => {
            type_values(alloc, env, targets.items(), values.items())
        }
        RawAction::Apply(target, x, value) => type_value_at(alloc, env, target, x, value),
        RawAction::ChooseIn(target, set) => type_choice_in(alloc, env, target, set),
        RawAction::ChooseSuch(targets, predicate) => {
            type_choice_such(alloc, env, targets.items(), predicate)
        }
    }
}

fn type_values(
    alloc: Global,
    env: &Env,
    targets: &[Ref],
    values: &[Raw],
) -> Result<Action, TypeFault>
    ensures { TellsAction env.now (Assign targets.now (map core_form values.now)) result }
{
    let trees = read_all(alloc, values)?;
    assign(alloc, env, targets, &trees)
}

fn type_value_at(
    alloc: Global,
    env: &Env,
    target: &Ref,
    x: &Raw,
    value: &Raw,
) -> Result<Action, TypeFault>
    ensures { TellsAction env.now
        (Assign (target.now ∷ []) (overridden target.now (core_form x.now) (core_form value.now) ∷ [])) result }
{
    let tree = override_at(alloc, target, x, value)?;
    assign(alloc, env, slice::from_ref(target), slice::from_ref(&tree))
}

fn assign(alloc: Global, env: &Env, targets: &[Ref], trees: &[Tree]) -> Result<Action, TypeFault>
    ensures { TellsAction env.now (Assign targets.now (map bare_of trees.now)) result }
{
    match first_unknown_in_values(alloc, env, targets, trees)? {
        Some((name, place)) => Err(TypeFault::Unknown(name, place)),
        None => assign_known(alloc, env, targets, trees),
    }
}

fn first_unknown_in_values(
    alloc: Global,
    env: &Env,
    targets: &[Ref],
    trees: &[Tree],
) -> Result<Option<(Name, u32)>, OutOfMemory>
    ensures { IfOk result (λ found.
        found ≡ first_name_by_place (unknowns_of env.now (Assign targets.now (map bare_of trees.now)))) }
{
    let mut found = None;
    keep_unknown_targets(alloc, env, targets, &mut found)?;
    keep_unknowns(alloc, env, trees, &mut found)?;
    Ok(found)
}

fn assign_known(
    alloc: Global,
    env: &Env,
    targets: &[Ref],
    trees: &[Tree],
) -> Result<Action, TypeFault>
    ensures typed { IfOk result (λ a. IsOnly (IsActionOf env.now (Assign targets.now (map bare_of trees.now))) a) }
    ensures fault { IfErr result (λ e. TellsFault (IsActionOf env.now (Assign targets.now (map bare_of trees.now))) e) }
{
    let mut pairs = Vec::new(alloc);
    add_values(alloc, env, targets, trees, &mut pairs)?;
    Ok(Action::Assign(List::of(pairs)))
}

fn type_choice_in(alloc: Global, env: &Env, target: &Ref, set: &Raw) -> Result<Action, TypeFault>
    ensures { TellsAction env.now (ChooseIn target.now (core_form set.now)) result }
{
    let tree = read(alloc, set)?;
    choose_in(alloc, env, target, &tree)
}

fn choose_in(alloc: Global, env: &Env, target: &Ref, tree: &Tree) -> Result<Action, TypeFault>
    ensures { TellsAction env.now (ChooseIn target.now (bare_of tree.now)) result }
{
    match first_unknown(alloc, env, slice::from_ref(target), env, tree)? {
        Some((name, place)) => Err(TypeFault::Unknown(name, place)),
        None => choose_in_known(alloc, env, target, tree),
    }
}

/// The first unknown name of targets, and of a tree with an environment of its own.
fn first_unknown(
    alloc: Global,
    env: &Env,
    targets: &[Ref],
    tree_env: &Env,
    tree: &Tree,
) -> Result<Option<(Name, u32)>, OutOfMemory>
    ensures { IfOk result (λ found. found
        ≡ first_name_by_place (unknown_targets env.now targets.now ++ unknowns tree_env.now [] [] (bare_of tree.now))) }
{
    let mut found = None;
    keep_unknown_targets(alloc, env, targets, &mut found)?;
    keep_unknown(alloc, tree_env, tree, &mut found)?;
    Ok(found)
}

fn choose_in_known(alloc: Global, env: &Env, target: &Ref, tree: &Tree) -> Result<Action, TypeFault>
    ensures typed { IfOk result (λ a. IsOnly (IsActionOf env.now (ChooseIn target.now (bare_of tree.now))) a) }
    ensures fault { IfErr result (λ e. TellsFault (IsActionOf env.now (ChooseIn target.now (bare_of tree.now))) e) }
{
    let Some(ty) = target_type(env, &target.name) else {
        return Err(TypeFault::Clash);
    };
    let sets = power_set(alloc, ty)?;
    choose_among(alloc, env, target, tree, &sets)
}

fn power_set(alloc: Global, ty: &Ty) -> Result<Ty, OutOfMemory>
    ensures { IfOk result (λ t. t ≡ Ty.Pow ty.now) }
{
    Ok(Ty::Pow(Boxed::new(alloc, ty.copy(alloc)?)?))
}

/// The choice from a set of this type.
fn choose_among(
    alloc: Global,
    env: &Env,
    target: &Ref,
    tree: &Tree,
    sets: &Ty,
) -> Result<Action, TypeFault>
    requires { option_map Ty.Pow (target_type env.now target.now.name) ≡ Some sets.now }
    ensures typed { IfOk result (λ a. IsOnly (IsActionOf env.now (ChooseIn target.now (bare_of tree.now))) a) }
    ensures fault { IfErr result (λ e. TellsFault (IsActionOf env.now (ChooseIn target.now (bare_of tree.now))) e) }
{
    match type_as(alloc, env, tree, sets) {
        Ok(set) => Ok(Action::ChooseIn(target.name.copy(alloc)?, set)),
        Err(fault) => Err(fault),
    }
}

fn type_choice_such(
    alloc: Global,
    env: &Env,
    targets: &[Ref],
    predicate: &Raw,
) -> Result<Action, TypeFault>
    ensures { TellsAction env.now (ChooseSuch targets.now (core_form predicate.now)) result }
{
    let tree = read(alloc, predicate)?;
    let primed = primed_targets(alloc, env, targets)?;
    let after = with_all(alloc, env, &primed)?;
    choose_such(alloc, env, targets, &primed, &after, &tree)
}

fn choose_such(
    alloc: Global,
    env: &Env,
    targets: &[Ref],
    primed: &[(Name, Ty)],
    after: &Env,
    tree: &Tree,
) -> Result<Action, TypeFault>
    requires primed { primed.now ≡ primed_targets env.now targets.now }
    requires after { after.now ≡ env_after env.now targets.now }
    ensures { TellsAction env.now (ChooseSuch targets.now (bare_of tree.now)) result }
{
    match first_unknown(alloc, env, targets, after, tree)? {
        Some((name, place)) => Err(TypeFault::Unknown(name, place)),
        None => choose_such_known(alloc, env, targets, primed, after, tree),
    }
}

fn choose_such_known(
    alloc: Global,
    env: &Env,
    targets: &[Ref],
    primed: &[(Name, Ty)],
    after: &Env,
    tree: &Tree,
) -> Result<Action, TypeFault>
    requires primed { primed.now ≡ primed_targets env.now targets.now }
    requires after { after.now ≡ env_after env.now targets.now }
    requires known { unknown_targets env.now targets.now ≡ [] }
    ensures typed { IfOk result (λ a. IsOnly (IsActionOf env.now (ChooseSuch targets.now (bare_of tree.now))) a) }
    ensures fault { IfErr result (λ e. TellsFault (IsActionOf env.now (ChooseSuch targets.now (bare_of tree.now))) e) }
{
    if !agree(env, primed) {
        return Err(TypeFault::Clash);
    }
    match type_as_predicate(alloc, after, tree) {
        Ok(predicate) => choice_such(alloc, env, targets, predicate),
        Err(fault) => Err(fault),
    }
}

fn choice_such(
    alloc: Global,
    env: &Env,
    targets: &[Ref],
    predicate: Formula,
) -> Result<Action, TypeFault>
    ensures made { IfOk result (λ a. a ≡ Action.ChooseSuch (typed_targets env.now targets.now) predicate) }
    ensures fault { IfErr result (λ e. e ≡ TypeFault.OutOfMemory) }
{
    let targets = typed_targets(alloc, env, targets)?;
    Ok(Action::ChooseSuch(List::of(targets), predicate))
}
