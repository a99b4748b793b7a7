//! Lists of trees in a row.
ghost use Rattle.std.specs.Prelude.{◌≡◌, map, IfOk};
ghost use Rattle.type_formula.specs.CoreForms.{bounds, bound_before};
ghost use Rattle.type_formula.specs.Views.{bare_of, bares_of, bounds_of};
ghost use Rattle.type_formula.specs.PrivateViews.{bound_of, in_a_row};

use crate::tree::{BoundNames, Tree, Trees, before, plain_name, typed_name};
use formula_core::{Name, OutOfMemory};
use std::alloc::Global;

pub(crate) fn trees_in_a_row(alloc: Global, trees: Vec<Tree>) -> Result<Trees, OutOfMemory>
    ensures { IfOk result (λ ts. bares_of ts ≡ in_a_row (map bare_of trees.items)) }
{
    let mut trees = trees;
    let mut row = Trees::End;
    while let Some(tree) = trees.pop() {
        row = before(alloc, tree, row)?;
    }
    Ok(row)
}

pub(crate) fn names_in_a_row(
    alloc: Global,
    names: Vec<(Name, Option<Tree>)>,
) -> Result<BoundNames, OutOfMemory>
    ensures { IfOk result (λ bound. bounds_of bound ≡ bounds (map bound_of names.items)) }
{
    let mut names = names;
    let mut row = BoundNames::End;
    while let Some((name, ty)) = names.pop() {
        row = name_before(alloc, name, ty, row)?;
    }
    Ok(row)
}

fn name_before(
    alloc: Global,
    name: Name,
    ty: Option<Tree>,
    rest: BoundNames,
) -> Result<BoundNames, OutOfMemory>
    ensures { IfOk result (λ bound. bounds_of bound ≡ bound_before (bound_of (name, ty)) (bounds_of rest)) }
{
    match ty {
        Some(ty) => typed_name(alloc, name, ty, rest),
        None => plain_name(alloc, name, rest),
    }
}
