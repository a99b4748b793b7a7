//! The components by their names.

ghost use Rattle.std.specs.Prelude.{◌≡◌, true, IfOk, OnOk};
ghost use Rattle.std.specs.List.{Contains};
ghost use Rattle.static_check.specs.Settling.{has_component, own_name};
ghost use Rattle.build_core.specs.Private.{IsIndex, Sets};

use crate::components::Components;
use formula_core::{Name, OutOfMemory};
use model_core::RawComponent;
use std::alloc::Global;
use std::collections::BTreeMap;

fn add_place(
    alloc: Global,
    index: &mut BTreeMap<Name, usize>,
    component: &RawComponent,
    place: usize,
) -> Result<(), OutOfMemory>
    ensures { OnOk result (Sets index.old.entries (own_name component.now) place index.new.entries) }
{
    let name = component.heading().name.copy(alloc)?;
    index.insert(name, place)?;
    Ok(())
}

/// The place of each component, by its name.
pub fn index_of(
    alloc: Global,
    components: &Components,
) -> Result<BTreeMap<Name, usize>, OutOfMemory>
    ensures { IfOk result (λ index. IsIndex components.now index.entries) }
{
    let mut index = BTreeMap::new(alloc);
    for place in 0..components.len() {
        add_place(alloc, &mut index, components.at(place), place)?;
    }
    Ok(index)
}

/// The component of a name that one has.
pub fn component_of<'a>(
    components: &'a Components,
    index: &BTreeMap<Name, usize>,
    name: &Name,
) -> &'a RawComponent
    requires index { IsIndex components.now index.now.entries }
    requires there { has_component components.now name.now ≡ true }
    ensures there { Contains components.now result.now }
    ensures named { own_name result.now ≡ name.now }
{
    match index.get(name) {
        Some(place) => components.at(*place),
        None => unreachable!(),
    }
}
