//! Reads written formulas into their core forms.
ghost use Rattle.std.specs.Prelude.{◌≡◌, map, IfOk, List, Option};
ghost use Rattle.std.specs.Option.{option_map};
ghost use Rattle.type_formula.specs.Bare.{has_names};
ghost use Rattle.type_formula.specs.CoreForms.{core_form, core_of_unnamed, bares, bounds};
ghost use Rattle.type_formula.specs.PrivateViews.{with_core, bound_part, bound_of, in_a_row};
ghost use Rattle.type_formula.specs.Views.{bare_of, bares_of, bounds_of};

use crate::forms::{lambda, make_form, turn};
use crate::free::free_names_once;
use crate::rows::{names_in_a_row, trees_in_a_row};
use crate::tree::{BoundNames, Tree, Trees, binding, broken, has_names};
use formula_core::{Binder, Name, OutOfMemory, Raw, RawBinder, RawBound};
use std::alloc::Global;

/// The core form of a written formula.
#[cycle(read)]
#[tactic(auto, using(crate::proofs::CoreEquations::core_equations))]
pub fn read(alloc: Global, raw: &Raw) -> Result<Tree, OutOfMemory>
    ensures { IfOk result (λ t. bare_of t ≡ core_form raw.now) }
{
    match raw {
        Raw::Int(n, _) => Ok(Tree::Number(*n)),
        Raw::Name(name, place) => Ok(Tree::Identifier(name.copy(alloc)?, *place)),
        Raw::Node(op, parts, _) => make_form(alloc, *op, read_all(alloc, parts.items())?),
        Raw::Bind(binder, bound, parts, _) => {
            let names = read_bound(alloc, bound.items())?;
            match binder {
                RawBinder::Plain(binder) => {
                    binding(alloc, *binder, names, read_all(alloc, parts.items())?)
                }
                RawBinder::Lambda => lambda(alloc, names, read_all(alloc, parts.items())?),
                RawBinder::Implicit(binder) => {
                    if has_names(&names) {
                        return broken(alloc, read_all(alloc, parts.items())?);
                    }
                    read_unnamed(alloc, *binder, parts.items())
                }
            }
        }
    }
}

#[cycle(read)]
fn read_all(alloc: Global, parts: &[Raw]) -> Result<Trees, OutOfMemory>
    ensures { IfOk result (λ ts. bares_of ts ≡ in_a_row (map core_form parts.now)) }
{
    let mut trees = Vec::new(alloc);
    for part in parts {
        trees.push(read(alloc, part)?)?;
    }
    trees_in_a_row(alloc, trees)
}

#[cycle(read)]
fn read_bound(alloc: Global, bound: &[RawBound]) -> Result<BoundNames, OutOfMemory>
    ensures { IfOk result (λ names. bounds_of names ≡ bounds (map bound_part bound.now)) }
{
    let mut names = Vec::new(alloc);
    for b in bound {
        let name = b.name.copy(alloc)?;
        let ty = match &b.ty {
            Some(ty) => Some(read(alloc, ty.get())?),
            None => None,
        };
        names.push((name, ty))?;
    }
    names_in_a_row(alloc, names)
}

/// The binder of the free names of an expression.
#[cycle(read)]
fn read_unnamed(alloc: Global, binder: Binder, parts: &[Raw]) -> Result<Tree, OutOfMemory>
    ensures { IfOk result (λ t. bare_of t ≡ core_of_unnamed binder (map with_core parts.now)) }
{
    if parts.len() != 2 {
        return broken(alloc, read_all(alloc, parts)?);
    }
    let names = free_names_once(alloc, &parts[0])?;
    let parts = turn(alloc, read_all(alloc, parts)?)?;
    binding(alloc, binder, names, parts)
}
