//! The places of obligations, by their names.

ghost use Rattle.std.specs.Prelude.{◌≡◌, ◌↔◌, ◌<◌, ◌+◌, length, map, take, IfOk, IsTrue, OnOk};
ghost use Rattle.std.specs.Arc.{arc_value};
ghost use Rattle.build_core.specs.Private.{IndexesTable, obligation_names};

use crate::before::Before;
use crate::numbered::Numbered;
use formula_core::{OutOfMemory, PoName};
use std::alloc::Global;
use std::collections::BTreeMap;
use std::sync::Arc;

/// Notes the place of an obligation, unless one of its name stands before it.
fn note_place(
    alloc: Global,
    places: &mut BTreeMap<PoName, usize>,
    obligations: &[Arc<Numbered>],
    at: usize,
) -> Result<(), OutOfMemory>
    requires within { at < length obligations.now }
    requires places { IndexesTable (map arc_value (take at obligations.now)) places.old.entries }
    ensures { OnOk result (IndexesTable (map arc_value (take (at + 1) obligations.now)) places.new.entries) }
{
    let name = &obligations[at].obligation().name;
    match places.get(name) {
        Some(_) => Ok(()),
        None => {
            places.insert(name.copy(alloc)?, at)?;
            Ok(())
        }
    }
}

/// The place of the first obligation of each name.
fn places_of(
    alloc: Global,
    obligations: &[Arc<Numbered>],
) -> Result<BTreeMap<PoName, usize>, OutOfMemory>
    ensures { IfOk result (λ places. IndexesTable (map arc_value obligations.now) places.entries) }
{
    let mut places = BTreeMap::new(alloc);
    for at in 0..obligations.len() {
        note_place(alloc, &mut places, obligations, at)?;
    }
    Ok(places)
}

/// Whether two tables have the same names at the same places.
fn same_names(one: &[Arc<Numbered>], other: &[Arc<Numbered>]) -> bool
    ensures { IsTrue result ↔
        (obligation_names (map arc_value one.now) ≡ obligation_names (map arc_value other.now)) }
{
    if one.len() != other.len() {
        return false;
    }
    for at in 0..one.len() {
        if !one[at].obligation().name.same(&other[at].obligation().name) {
            return false;
        }
    }
    true
}

/// The places in a table: those of before where each has the name of before, or new ones.
pub fn kept_places(
    alloc: Global,
    before: &Before<'_>,
    table: &[Arc<Numbered>],
) -> Result<Arc<BTreeMap<PoName, usize>>, OutOfMemory>
    requires { IndexesTable (map arc_value before.now.table.now) (arc_value before.now.places.now).entries }
    ensures { IfOk result (λ places. IndexesTable (map arc_value table.now) (arc_value places).entries) }
{
    if same_names(before.table, table) {
        let places = Arc::try_clone(before.places)?;
        return Ok(places);
    }
    let places = places_of(alloc, table)?;
    let places = Arc::new(alloc, places)?;
    Ok(places)
}
