//! The wanted names that occur in a formula.
ghost use Rattle.std.specs.Prelude.{◌≡◌, fold, IfOk, OnOk};
ghost use Rattle.type_formula.specs.PrivateOccurring.{names_in, all_names_in, is_needed, with_wanted, occurring};
ghost use Rattle.type_formula.specs.Views.{bare_of, bares_of};

use crate::free::is_among;
use crate::tree::{Tree, Trees};
use formula_core::{Env, Name, OutOfMemory};
use std::alloc::Global;

/// Those of the wanted names that occur in a formula and are not in the environment, each once.
pub(crate) fn occurring_names(
    alloc: Global,
    env: &Env,
    wanted: &[Name],
    tree: &Tree,
) -> Result<Vec<Name>, OutOfMemory>
    ensures { IfOk result (λ v. v.items ≡ occurring env.now wanted.now (bare_of tree.now)) }
{
    let mut found = Vec::new(alloc);
    add_names(alloc, env, wanted, tree, &mut found)?;
    Ok(found)
}

#[cycle(names)]
fn add_names(
    alloc: Global,
    env: &Env,
    wanted: &[Name],
    tree: &Tree,
    found: &mut Vec<Name>,
) -> Result<(), OutOfMemory>
    ensures { OnOk result (found.new.items
        ≡ fold (with_wanted env.now wanted.now) found.old.items (names_in (bare_of tree.now))) }
{
    match tree {
        Tree::Number(_) => Ok(()),
        Tree::Identifier(name, _) => add_name(alloc, env, wanted, name, found),
        Tree::Form(_, parts) => add_all_names(alloc, env, wanted, parts, found),
        Tree::Partition(parts) => add_all_names(alloc, env, wanted, parts, found),
        Tree::Binding(_, _, parts) => add_all_names(alloc, env, wanted, parts, found),
        Tree::Ascribed(formula, _) => add_names(alloc, env, wanted, formula, found),
        Tree::Broken(_) => Ok(()),
    }
}

#[cycle(names)]
fn add_all_names(
    alloc: Global,
    env: &Env,
    wanted: &[Name],
    parts: &Trees,
    found: &mut Vec<Name>,
) -> Result<(), OutOfMemory>
    ensures { OnOk result (found.new.items
        ≡ fold (with_wanted env.now wanted.now) found.old.items (all_names_in (bares_of parts.now))) }
{
    match parts {
        Trees::End => Ok(()),
        Trees::More(part, rest) => {
            add_names(alloc, env, wanted, part, found)?;
            add_all_names(alloc, env, wanted, rest, found)
        }
    }
}

fn add_name(
    alloc: Global,
    env: &Env,
    wanted: &[Name],
    name: &Name,
    found: &mut Vec<Name>,
) -> Result<(), OutOfMemory>
    ensures { OnOk result (found.new.items ≡ with_wanted env.now wanted.now found.old.items name.now) }
{
    if is_needed(env, wanted, found, name) {
        found.push(name.copy(alloc)?)?;
    }
    Ok(())
}

fn is_needed(env: &Env, wanted: &[Name], found: &[Name], name: &Name) -> bool
    ensures { result ≡ is_needed env.now wanted.now found.now name.now }
{
    if env.get(name).is_some() || is_among(found, name) {
        return false;
    }
    is_among(wanted, name)
}
