//! Reading the texts of a project.

ghost use Rattle.std.specs.Prelude.{◌≡◌, ◌≤◌, Some, Ok, length, bytes_eq, IfOk, IfSome, OnOk};
ghost use Rattle.std.specs.Arc.{arc_value};
ghost use Rattle.std.specs.List.{AllByRecursion, IsDistinct};
ghost use Rattle.std.specs.Map.{keys_of};
ghost use Rattle.component_text.specs.Spelled.{IsRead};
ghost use Rattle.build_core.specs.Projects.{Reading};
ghost use Rattle.build_core.specs.Private.{Collects, AreListed, AreRead, are_same, found};

use crate::before::Before;
use crate::components::Components;
use crate::outcomes::Outcomes;
use component_text::{ReadFault, read};
use formula_core::{Name, OutOfMemory, Text};
use model_core::{Fault, RawComponent};
use std::alloc::Global;
use std::collections::BTreeMap;
use std::sync::Arc;

/// The components that the texts of a project are, and the faults of the texts that are none.
#[derive(Drop)]
pub struct Readings {
    pub components: Components,
    /// By the name of the component. Each is a fault, until the components are checked.
    pub outcomes: Outcomes,
}

/// What the text of a component is read as.
fn read_text(
    alloc: Global,
    name: &Name,
    text: &Text,
) -> Result<Result<RawComponent, Fault>, OutOfMemory>
    requires { length text.now ≤ 65536 }
    ensures { IfOk result (λ reading. IsRead name.now text.now reading) }
{
    match read(alloc, name, text.as_text()) {
        Ok(component) => Ok(Ok(component)),
        Err(ReadFault::Fault(fault)) => Ok(Err(fault)),
        Err(ReadFault::OutOfMemory) => Err(OutOfMemory),
    }
}

fn add_reading(
    alloc: Global,
    readings: &mut Readings,
    name: &Name,
    reading: Result<RawComponent, Fault>,
) -> Result<(), OutOfMemory>
    ensures { OnOk result (Collects name.now reading readings.old.components readings.old.outcomes
        readings.new.components readings.new.outcomes) }
{
    match reading {
        Ok(component) => {
            let component = Arc::new(alloc, component)?;
            readings.components.push(component)?;
            Ok(())
        }
        Err(fault) => {
            let name = name.copy(alloc)?;
            readings.outcomes.add(alloc, name, Err(fault))?;
            Ok(())
        }
    }
}

/// Whether a text is that of before.
fn is_unchanged(before: &BTreeMap<Name, Text>, name: &Name, text: &Text) -> bool
    ensures { result ≡ are_same (found before.now.entries name.now) (Some text.now) }
{
    match before.get(name) {
        None => false,
        Some(old) => old.same(text),
    }
}

/// The component of before of a name whose text is the same.
fn kept_component(
    before: &Before<'_>,
    name: &Name,
    text: &Text,
) -> Result<Option<Arc<RawComponent>>, OutOfMemory>
    requires { AreListed before.now.texts.now.entries before.now.components.now before.now.index.now.entries }
    ensures { IfOk result (λ kept. IfSome kept (λ component. IsRead name.now text.now (Ok (arc_value component)))) }
{
    if !is_unchanged(before.texts, name, text) {
        return Ok(None);
    }
    match before.index.get(name) {
        Some(place) => {
            let component = before.components.share(*place)?;
            Ok(Some(component))
        }
        None => Ok(None),
    }
}

/// Adds what a text is read as. It isn't read again where it is that of before.
fn add_text(
    alloc: Global,
    before: &Before<'_>,
    readings: &mut Readings,
    name: &Name,
    text: &Text,
) -> Result<(), OutOfMemory>
    requires short { length text.now ≤ 65536 }
    requires listed { AreListed before.now.texts.now.entries before.now.components.now before.now.index.now.entries }
    ensures { OnOk result ((reading : Reading) × IsRead name.now text.now reading
        × Collects name.now reading readings.old.components readings.old.outcomes
        readings.new.components readings.new.outcomes) }
{
    let kept = kept_component(before, name, text)?;
    match kept {
        Some(component) => {
            readings.components.push(component)?;
            Ok(())
        }
        None => {
            let reading = read_text(alloc, name, text)?;
            add_reading(alloc, readings, name, reading)?;
            Ok(())
        }
    }
}

/// Reads each text that isn't that of a component of before.
pub fn read_all(
    alloc: Global,
    before: &Before<'_>,
    texts: &BTreeMap<Name, Text>,
) -> Result<Readings, OutOfMemory>
    requires listed { AreListed before.now.texts.now.entries before.now.components.now before.now.index.now.entries }
    requires short { AllByRecursion (λ entry. length entry.1 ≤ 65536) texts.now.entries }
    ensures names { IfOk result (λ _. IsDistinct bytes_eq (keys_of texts.now.entries)) }
    ensures read { IfOk result (λ read. AreRead texts.now.entries read.components read.outcomes) }
{
    let mut readings = Readings {
        components: Components::new(alloc),
        outcomes: Outcomes::new(alloc),
    };
    for (name, text) in texts {
        add_text(alloc, before, &mut readings, name, text)?;
    }
    Ok(readings)
}
