//! Hints of items.
ghost use Rattle.std.specs.Prelude.{◌≡◌, ◌++◌, ◌∷◌, [], None, Some, IfOk, OnOk, MatchBool, MatchOption};
ghost use Rattle.sequent_core.specs.declared.hint.Hint.{Hint};
ghost use Rattle.step_items.specs.Hints.{only_law, IsHint};
ghost use Rattle.step_items.specs.Private.{AddsItem, IsUnreadable, AreParts};

use crate::item::Item;
use crate::terms::{read_expression, read_predicate};
use formula_core::{List, Name, OutOfMemory, Raw};
use sequent_core::{Hint, Path};
use std::alloc::Global;

/// The parts of a hint so far.
#[derive(Drop)]
struct Parts {
    hyps: Vec<u32>,
    multipliers: Vec<i128>,
    names: Vec<Name>,
    terms: Vec<Raw>,
    laws: Vec<(u8, Path)>,
}

fn no_parts(alloc: Global) -> Parts
    ensures { AreParts [] result }
{
    Parts {
        hyps: Vec::new(alloc),
        multipliers: Vec::new(alloc),
        names: Vec::new(alloc),
        terms: Vec::new(alloc),
        laws: Vec::new(alloc),
    }
}

fn copied(alloc: Global, place: &Path) -> Result<Path, OutOfMemory>
    ensures { IfOk result (λ copy. copy ≡ place.now) }
{
    let mut copy = Vec::new(alloc);
    copy.extend_from_slice(place.items())?;
    Ok(List::of(copy))
}

/// Adds a copy of a name.
fn add_name(alloc: Global, names: &mut Vec<Name>, name: &Name) -> Result<(), OutOfMemory>
    ensures { OnOk result (names.new.items ≡ names.old.items ++ name.now ∷ []) }
{
    let copy = name.copy(alloc)?;
    names.push(copy)?;
    Ok(())
}

/// Adds an item, unless its formula can't be read.
fn add(alloc: Global, parts: &mut Parts, item: &Item) -> Result<bool, OutOfMemory>
    ensures { IfOk result (λ read. MatchBool read (AddsItem item.now parts.old parts.new) (IsUnreadable item.now)) }
{
    match item {
        Item::Hyp(number) => parts.hyps.push(*number)?,
        Item::Multiplied(number, multiplier) => {
            parts.hyps.push(*number)?;
            parts.multipliers.push(*multiplier)?;
        }
        Item::Fresh(name) => add_name(alloc, &mut parts.names, name)?,
        Item::Expression(bytes) => match read_expression(alloc, bytes.items())? {
            Some(term) => parts.terms.push(term)?,
            None => return Ok(false),
        },
        Item::Predicate(bytes) => match read_predicate(alloc, bytes.items())? {
            Some(term) => parts.terms.push(term)?,
            None => return Ok(false),
        },
        Item::Law(law, place) => parts.laws.push((*law, copied(alloc, place)?))?,
    }
    Ok(true)
}

/// The parts of the items, unless a formula can't be read.
fn parts_of(alloc: Global, items: &[Item]) -> Result<Option<Parts>, OutOfMemory>
    ensures { IfOk result (λ read. MatchOption read ((hint : Hint) → IsHint items.now hint → ⊥) (AreParts items.now)) }
{
    let mut parts = no_parts(alloc);
    for item in items {
        if !add(alloc, &mut parts, item)? {
            return Ok(None);
        }
    }
    Ok(Some(parts))
}

/// The only law, or 0 at the root where there is none.
fn only_law(alloc: Global, laws: Vec<(u8, Path)>) -> Option<(u8, Path)>
    ensures { result ≡ only_law laws.items }
{
    let mut laws = laws;
    match laws.pop() {
        None => Some((0, List::of(Vec::new(alloc)))),
        Some(law) => { if laws.is_empty() { Some(law) } else { None } }
    }
}

/// The hint of these parts, unless they have two laws.
fn hint_from(alloc: Global, parts: Parts) -> Option<Hint>
    ensures { MatchOption result (only_law parts.laws.items ≡ None)
        (λ hint. (hint.hyps ≡ parts.hyps.items)
        × (hint.multipliers ≡ parts.multipliers.items) × (hint.names ≡ parts.names.items)
        × (hint.terms ≡ parts.terms.items) × (only_law parts.laws.items ≡ Some (hint.law, hint.place))) }
{
    let Parts {
        hyps,
        multipliers,
        names,
        terms,
        laws,
    } = parts;
    let (law, place) = only_law(alloc, laws)?;
    Some(Hint {
        hyps: List::of(hyps),
        multipliers: List::of(multipliers),
        names: List::of(names),
        terms: List::of(terms),
        law,
        place,
    })
}

/// The hint that the items give, unless a formula can't be read or two laws are named.
pub fn hint_of(alloc: Global, items: &[Item]) -> Result<Option<Hint>, OutOfMemory>
    ensures { IfOk result (λ read. MatchOption read ((hint : Hint) → IsHint items.now hint → ⊥) (IsHint items.now)) }
{
    match parts_of(alloc, items)? {
        Some(parts) => Ok(hint_from(alloc, parts)),
        None => Ok(None),
    }
}
