//! The names that `{E∣P}`, `⋃E∣P` and `⋂E∣P` bind.
ghost use Rattle.std.specs.Prelude.{◌≡◌, ◌++◌, ◌∷◌, [], map, fold, bytes_eq, IfOk, OnOk, ℕ, List};
ghost use Rattle.std.specs.List.{list_any};
ghost use Rattle.formula_core.specs.Formulas.{joined};
ghost use Rattle.type_formula.specs.CoreForms.{free_names, free_in_form, free_in_binder, without, once, with_new_name, plain_names};
ghost use Rattle.type_formula.specs.Views.{bounds_of};

use crate::tree::{BoundNames, plain_name};
use formula_core::{Name, OutOfMemory, Raw, RawBinder, RawBound, RawOp};
use std::alloc::Global;

/// The free names of a formula, each once, as names of a binder.
pub(crate) fn free_names_once(alloc: Global, raw: &Raw) -> Result<BoundNames, OutOfMemory>
    ensures { IfOk result (λ names. bounds_of names ≡ plain_names (once (free_names raw.now))) }
{
    let mut found = Vec::new(alloc);
    collect_free(alloc, raw, &mut found)?;
    let names = each_once(alloc, found)?;
    bind_all(alloc, &names)
}

fn each_once(alloc: Global, names: Vec<Name>) -> Result<Vec<Name>, OutOfMemory>
    ensures { IfOk result (λ v. v.items ≡ once names.items) }
{
    let mut kept = Vec::new(alloc);
    for name in names {
        add_new_name(&mut kept, name)?;
    }
    Ok(kept)
}

fn add_new_name(kept: &mut Vec<Name>, name: Name) -> Result<(), OutOfMemory>
    ensures { OnOk result (kept.new.items ≡ with_new_name kept.old.items name) }
{
    if is_among(kept, &name) {
        return Ok(());
    }
    kept.push(name)?;
    Ok(())
}

pub(crate) fn is_among(names: &[Name], name: &Name) -> bool
    ensures { result ≡ list_any (bytes_eq name.now) names.now }
{
    names.iter().any(|x| name.same(x))
}

fn bind_all(alloc: Global, names: &[Name]) -> Result<BoundNames, OutOfMemory>
    ensures { IfOk result (λ bound. bounds_of bound ≡ plain_names names.now) }
{
    match names.split_first() {
        Some((first, rest)) => {
            let bound = bind_all(alloc, rest)?;
            plain_name(alloc, first.copy(alloc)?, bound)
        }
        None => Ok(BoundNames::End),
    }
}

/// Adds the free names of a formula, at each of their places.
#[cycle(free)]
#[tactic(auto, using(crate::proofs::CoreEquations::free_equations))]
fn collect_free(alloc: Global, raw: &Raw, found: &mut Vec<Name>) -> Result<(), OutOfMemory>
    ensures { OnOk result (found.new.items ≡ found.old.items ++ free_names raw.now) }
{
    match raw {
        Raw::Int(_, _) => Ok(()),
        Raw::Name(name, _) => {
            found.push(name.copy(alloc)?)?;
            Ok(())
        }
        Raw::Node(op, parts, _) => collect_form(alloc, *op, parts.items(), found),
        Raw::Bind(binder, bound, parts, _) => {
            let names = names_of(alloc, bound.items())?;
            collect_binder(alloc, *binder, &names, parts.items(), found)
        }
    }
}

#[cycle(free)]
fn collect_all(alloc: Global, parts: &[Raw], found: &mut Vec<Name>) -> Result<(), OutOfMemory>
    ensures { OnOk result (found.new.items ≡ found.old.items ++ joined (map free_names parts.now)) }
{
    for part in parts {
        collect_free(alloc, part, found)?;
    }
    Ok(())
}

#[cycle(free)]
fn collect_form(
    alloc: Global,
    op: RawOp,
    parts: &[Raw],
    found: &mut Vec<Name>,
) -> Result<(), OutOfMemory>
    ensures { OnOk result (found.new.items ≡ found.old.items ++ free_in_form op (map free_names parts.now)) }
{
    match op {
        RawOp::OfType => match parts {
            [formula, _] => collect_free(alloc, formula, found),
            _ => collect_all(alloc, parts, found),
        },
        _ => collect_all(alloc, parts, found),
    }
}

#[cycle(free)]
fn collect_binder(
    alloc: Global,
    binder: RawBinder,
    bound: &[Name],
    parts: &[Raw],
    found: &mut Vec<Name>,
) -> Result<(), OutOfMemory>
    ensures { OnOk result (found.new.items
        ≡ found.old.items ++ free_in_binder binder bound.now (map free_names parts.now)) }
{
    match binder {
        RawBinder::Implicit(_) => match parts {
            [value, condition] => {
                let mut names = Vec::new(alloc);
                collect_free(alloc, value, &mut names)?;
                let mut inner = Vec::new(alloc);
                collect_free(alloc, condition, &mut inner)?;
                add_others(&names, inner, found)
            }
            _ => collect_unbound(alloc, bound, parts, found),
        },
        _ => collect_unbound(alloc, bound, parts, found),
    }
}

#[cycle(free)]
fn collect_unbound(
    alloc: Global,
    bound: &[Name],
    parts: &[Raw],
    found: &mut Vec<Name>,
) -> Result<(), OutOfMemory>
    ensures { OnOk result (found.new.items ≡ found.old.items ++ without bound.now (joined (map free_names parts.now))) }
{
    let mut inner = Vec::new(alloc);
    collect_all(alloc, parts, &mut inner)?;
    add_others(bound, inner, found)
}

fn names_of(alloc: Global, bound: &[RawBound]) -> Result<Vec<Name>, OutOfMemory>
    ensures { IfOk result (λ v. v.items ≡ map (λ b. b.name) bound.now) }
{
    let mut names = Vec::new(alloc);
    for b in bound {
        names.push(b.name.copy(alloc)?)?;
    }
    Ok(names)
}

/// Adds the names that are not bound.
fn add_others(bound: &[Name], names: Vec<Name>, found: &mut Vec<Name>) -> Result<(), OutOfMemory>
    ensures { OnOk result (found.new.items ≡ found.old.items ++ without bound.now names.items) }
{
    for name in names {
        if !is_among(bound, &name) {
            found.push(name)?;
        }
    }
    Ok(())
}
