//! The first name that is unknown.
ghost use Rattle.std.specs.Prelude.{◌≡◌, ◌++◌, [], fold, OnOk, ℕ};
ghost use Rattle.type_formula.specs.Unknowns.{is_known, unknowns, all_unknowns, type_unknowns, bound_names_in, earlier_name, unknown_in};
ghost use Rattle.type_formula.specs.CoreForms.{core_form};
ghost use Rattle.type_formula.specs.Views.{bare_of, bares_of, bounds_of};

use crate::free::is_among;
use crate::tree::{BoundNames, Tree, Trees};
use formula_core::{Env, Name, OutOfMemory};
use std::alloc::Global;

fn is_known(env: &Env, wanted: &[Name], bound: &[Name], name: &Name) -> bool
    ensures { result ≡ is_known env.now wanted.now bound.now name.now }
{
    is_among(bound, name) || env.get(name).is_some() || is_among(wanted, name)
}

/// Keeps the earlier of the name that was found and one at a place.
pub fn keep_earlier(
    alloc: Global,
    found: &mut Option<(Name, u32)>,
    name: &Name,
    place: u32,
) -> Result<(), OutOfMemory>
    ensures { OnOk result (found.new ≡ earlier_name found.old (name.now, place)) }
{
    let comes_first = match found {
        Some((_, first)) => place < *first,
        None => true,
    };
    if comes_first {
        *found = Some((name.copy(alloc)?, place));
    }
    Ok(())
}

/// Keeps the earlier of the name that was found and the first unknown one of a formula, where no name is wanted.
pub fn keep_unknown(
    alloc: Global,
    env: &Env,
    tree: &Tree,
    found: &mut Option<(Name, u32)>,
) -> Result<(), OutOfMemory>
    ensures { OnOk result (found.new ≡ fold earlier_name found.old (unknowns env.now [] [] (bare_of tree.now))) }
{
    let mut bound = Vec::new(alloc);
    search(alloc, env, &[], &mut bound, tree, found)
}

/// Looks for unknown names, and keeps the one at the lowest place.
#[cycle(search)]
pub(crate) fn search(
    alloc: Global,
    env: &Env,
    wanted: &[Name],
    bound: &mut Vec<Name>,
    tree: &Tree,
    found: &mut Option<(Name, u32)>,
) -> Result<(), OutOfMemory>
    ensures bound { OnOk result (bound.new.items ≡ bound.old.items) }
    ensures found { OnOk result (found.new
        ≡ fold earlier_name found.old (unknowns env.now wanted.now bound.old.items (bare_of tree.now))) }
{
    match tree {
        Tree::Number(_) => Ok(()),
        Tree::Identifier(name, place) => {
            if is_known(env, wanted, bound, name) {
                return Ok(());
            }
            keep_earlier(alloc, found, name, *place)
        }
        Tree::Form(_, parts) => search_all(alloc, env, wanted, bound, parts, found),
        Tree::Partition(parts) => search_all(alloc, env, wanted, bound, parts, found),
        Tree::Binding(_, names, parts) => {
            search_types(alloc, env, wanted, bound, names, found)?;
            let depth = bound.len();
            add_names(alloc, bound, names)?;
            search_all(alloc, env, wanted, bound, parts, found)?;
            bound.truncate(depth);
            Ok(())
        }
        Tree::Ascribed(formula, ty) => {
            search(alloc, env, wanted, bound, formula, found)?;
            search(alloc, env, wanted, bound, ty, found)
        }
        Tree::Broken(parts) => search_all(alloc, env, wanted, bound, parts, found),
    }
}

#[cycle(search)]
fn search_all(
    alloc: Global,
    env: &Env,
    wanted: &[Name],
    bound: &mut Vec<Name>,
    parts: &Trees,
    found: &mut Option<(Name, u32)>,
) -> Result<(), OutOfMemory>
    ensures bound { OnOk result (bound.new.items ≡ bound.old.items) }
    ensures found { OnOk result (found.new
        ≡ fold earlier_name found.old (all_unknowns env.now wanted.now bound.old.items (bares_of parts.now))) }
{
    match parts {
        Trees::End => Ok(()),
        Trees::More(part, rest) => {
            search(alloc, env, wanted, bound, part, found)?;
            search_all(alloc, env, wanted, bound, rest, found)
        }
    }
}

/// The same in the types that are written at the names of a binder.
#[cycle(search)]
fn search_types(
    alloc: Global,
    env: &Env,
    wanted: &[Name],
    bound: &mut Vec<Name>,
    names: &BoundNames,
    found: &mut Option<(Name, u32)>,
) -> Result<(), OutOfMemory>
    ensures bound { OnOk result (bound.new.items ≡ bound.old.items) }
    ensures found { OnOk result (found.new
        ≡ fold earlier_name found.old (type_unknowns env.now wanted.now bound.old.items (bounds_of names.now))) }
{
    match names {
        BoundNames::End => Ok(()),
        BoundNames::Plain(_, rest) => search_types(alloc, env, wanted, bound, rest, found),
        BoundNames::Typed(_, ty, rest) => {
            search(alloc, env, wanted, bound, ty, found)?;
            search_types(alloc, env, wanted, bound, rest, found)
        }
    }
}

fn add_names(alloc: Global, bound: &mut Vec<Name>, names: &BoundNames) -> Result<(), OutOfMemory>
    ensures { OnOk result (bound.new.items ≡ bound.old.items ++ bound_names_in (bounds_of names.now)) }
{
    match names {
        BoundNames::End => Ok(()),
        BoundNames::Plain(name, rest) => {
            bound.push(name.copy(alloc)?)?;
            add_names(alloc, bound, rest)
        }
        BoundNames::Typed(name, _, rest) => {
            bound.push(name.copy(alloc)?)?;
            add_names(alloc, bound, rest)
        }
    }
}
