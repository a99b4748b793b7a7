//! The right sides of an action.
ghost use Rattle.std.specs.Prelude.{◌≡◌, ◌∷◌, [], fold, map, IfErr, IfOk, OnOk};
ghost use Rattle.formula_core.specs.Formulas.{joined};
ghost use Rattle.type_formula.specs.CoreForms.{core_form};
ghost use Rattle.type_formula.specs.Unknowns.{earlier_name, unknowns};
ghost use Rattle.type_formula.specs.Views.{bare_of};
ghost use Rattle.type_action.specs.CoreActions.{overridden};
ghost use Rattle.type_action.specs.Results.{IsOnly};
ghost use Rattle.type_action.specs.Private.{IsAdded, TellsFault};
ghost use Rattle.type_action.specs.Typings.{IsFormulaOf, IsTypedAssignment, AreTypedAssignments};

use crate::targets::target_type;
use formula_core::{Env, Formula, Name, Op, OutOfMemory, Raw, Ref, Ty};
use std::alloc::Global;
use type_formula::{Tree, Trees, TypeFault, before, form, keep_unknown, pair, read, type_tree};

pub(crate) fn read_all(alloc: Global, values: &[Raw]) -> Result<Vec<Tree>, OutOfMemory>
    ensures { IfOk result (λ v. map bare_of v.items ≡ map core_form values.now) }
{
    let mut trees = Vec::new(alloc);
    for value in values {
        trees.push(read(alloc, value)?)?;
    }
    Ok(trees)
}

/// `f <+ {x ↦ E}`.
pub(crate) fn override_at(
    alloc: Global,
    target: &Ref,
    x: &Raw,
    value: &Raw,
) -> Result<Tree, OutOfMemory>
    ensures { IfOk result (λ t. bare_of t ≡ overridden target.now (core_form x.now) (core_form value.now)) }
{
    let x = read(alloc, x)?;
    let member = form(alloc, Op::Maplet, pair(alloc, x, read(alloc, value)?)?)?;
    let members = before(alloc, member, Trees::End)?;
    let change = form(alloc, Op::SetExtension, members)?;
    let function = Tree::Identifier(target.name.copy(alloc)?, target.place);
    form(alloc, Op::Overriding, pair(alloc, function, change)?)
}

/// Keeps the earliest of the unknown names and the name that was found.
pub(crate) fn keep_unknowns(
    alloc: Global,
    env: &Env,
    trees: &[Tree],
    found: &mut Option<(Name, u32)>,
) -> Result<(), OutOfMemory>
    ensures { OnOk result (found.new
        ≡ fold earlier_name found.old (joined (map (unknowns env.now [] []) (map bare_of trees.now)))) }
{
    for tree in trees {
        keep_unknown(alloc, env, tree, found)?;
    }
    Ok(())
}

/// Types a formula of this type.
pub(crate) fn type_as(alloc: Global, env: &Env, tree: &Tree, ty: &Ty) -> Result<Formula, TypeFault>
    ensures typed { IfOk result (λ f. IsOnly (IsFormulaOf env.now (bare_of tree.now) ty.now) f) }
    ensures fault { IfErr result (λ e. TellsFault (IsFormulaOf env.now (bare_of tree.now) ty.now) e) }
{
    type_tree(alloc, env, &[], tree, Some(ty))
}

/// Types a predicate.
pub(crate) fn type_as_predicate(alloc: Global, env: &Env, tree: &Tree) -> Result<Formula, TypeFault>
    ensures typed { IfOk result (λ f. IsOnly (IsFormulaOf env.now (bare_of tree.now) Ty.Truth) f) }
    ensures fault { IfErr result (λ e. TellsFault (IsFormulaOf env.now (bare_of tree.now) Ty.Truth) e) }
{
    type_as(alloc, env, tree, &Ty::Truth)
}

/// The new value of a target.
fn type_value(
    alloc: Global,
    env: &Env,
    target: &Ref,
    tree: &Tree,
) -> Result<(Name, Formula), TypeFault>
    ensures typed { IfOk result (λ p. IsOnly (IsTypedAssignment env.now target.now (bare_of tree.now)) p) }
    ensures fault { IfErr result (λ e. TellsFault (IsTypedAssignment env.now target.now (bare_of tree.now)) e) }
{
    let Some(ty) = target_type(env, &target.name) else {
        return Err(TypeFault::Clash);
    };
    match type_as(alloc, env, tree, ty) {
        Ok(formula) => Ok((target.name.copy(alloc)?, formula)),
        Err(fault) => Err(fault),
    }
}

/// Adds the targets with their new values.
pub(crate) fn add_values(
    alloc: Global,
    env: &Env,
    targets: &[Ref],
    trees: &[Tree],
    pairs: &mut Vec<(Name, Formula)>,
) -> Result<(), TypeFault>
    ensures typed { OnOk result (IsAdded
        (AreTypedAssignments env.now targets.now (map bare_of trees.now)) pairs.old.items pairs.new.items) }
    ensures fault { IfErr result (λ e. TellsFault (AreTypedAssignments env.now targets.now (map bare_of trees.now)) e) }
{
    match targets.split_first() {
        None => no_more(trees),
        Some((target, others)) => match trees.split_first() {
            None => Err(TypeFault::Clash),
            Some((tree, rest)) => match type_value(alloc, env, target, tree) {
                Ok(pair) => {
                    pairs.push(pair)?;
                    add_values(alloc, env, others, rest, pairs)
                }
                Err(TypeFault::Untyped) => match add_values(alloc, env, others, rest, pairs) {
                    Ok(()) => Err(TypeFault::Untyped),
                    Err(fault) => Err(fault),
                },
                Err(TypeFault::Clash) => Err(TypeFault::Clash),
                Err(TypeFault::Unknown(name, place)) => Err(TypeFault::Unknown(name, place)),
                Err(TypeFault::OutOfMemory) => Err(TypeFault::OutOfMemory),
            },
        },
    }
}

/// Values without a target have no typing.
fn no_more(trees: &[Tree]) -> Result<(), TypeFault>
    ensures typed { OnOk result (map bare_of trees.now ≡ []) }
    ensures fault { IfErr result (λ e. TellsFault (AreTypedAssignments [] [] (map bare_of trees.now)) e) }
{
    if trees.is_empty() {
        Ok(())
    } else {
        Err(TypeFault::Clash)
    }
}
