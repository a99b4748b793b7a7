//! Parts of formulas, at places.
ghost use Rattle.std.specs.Prelude.{◌≡◌, slice_get, slice_set, IfOk};
ghost use Rattle.std.specs.Option.{option_copied};
ghost use Rattle.rule_table.specs.Rewriting.{part, with_part, at_place};
ghost use Rattle.rules_arith.specs.Places.{with_at};

use formula_core::{Formula, List, OutOfMemory, copy_formulas, copy_types};
use std::alloc::Global;

/// The part of a formula at a place.
pub fn at_place<'a>(place: &[u32], f: &'a Formula) -> Option<&'a Formula>
    ensures part { option_copied result ≡ at_place place.now f.now }
{
    match place {
        [] => Some(f),
        [i, rest @ ..] => match part(f, *i) {
            Some(p) => at_place(rest, p),
            None => None,
        },
    }
}

/// The formula with another part at a place, if it has that place.
pub fn with_at(
    alloc: Global,
    place: &[u32],
    f: &Formula,
    new: Formula,
) -> Result<Option<Formula>, OutOfMemory>
    ensures formula { IfOk result (λ o. o ≡ with_at place.now f.now new) }
{
    match place {
        [] => Ok(Some(new)),
        [i, rest @ ..] => {
            let Some(p) = part(f, *i) else {
                return Ok(None);
            };
            let Some(changed) = with_at(alloc, rest, p, new)? else {
                return Ok(None);
            };
            Ok(Some(with_part(alloc, f, *i, changed)?))
        }
    }
}

fn part(f: &Formula, i: u32) -> Option<&Formula>
    ensures { option_copied result ≡ part f.now i }
{
    match f {
        Formula::Node(_, parts, _) => item(parts.items(), i),
        Formula::Bind(_, _, parts, _) => item(parts.items(), i),
        _ => None,
    }
}

fn item(items: &[Formula], i: u32) -> Option<&Formula>
    ensures { option_copied result ≡ slice_get items.now i }
{
    if (i as usize) < items.len() {
        Some(&items[i as usize])
    } else {
        None
    }
}

fn with_part(alloc: Global, f: &Formula, i: u32, new: Formula) -> Result<Formula, OutOfMemory>
    ensures { IfOk result (λ g. g ≡ with_part f.now i new) }
{
    match f {
        Formula::Node(op, parts, ty) => {
            let parts = with_item(alloc, parts.items(), i, new)?;
            Ok(Formula::Node(*op, parts, ty.copy(alloc)?))
        }
        Formula::Bind(binder, types, parts, ty) => {
            let parts = with_item(alloc, parts.items(), i, new)?;
            let types = copy_types(alloc, types.items())?;
            Ok(Formula::Bind(*binder, types, parts, ty.copy(alloc)?))
        }
        _ => f.copy(alloc),
    }
}

#[tactic(auto, using(crate::proofs::Rewriting::set_past))]
fn with_item(
    alloc: Global,
    items: &[Formula],
    i: u32,
    new: Formula,
) -> Result<List<Formula>, OutOfMemory>
    ensures { IfOk result (λ xs. xs ≡ slice_set items.now i new) }
{
    let mut copies = copy_formulas(alloc, items)?.into_vec();
    if (i as usize) >= items.len() {
        return Ok(List::of(copies));
    }
    copies[i as usize] = new;
    Ok(List::of(copies))
}
