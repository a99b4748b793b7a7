//! The machine that a machine refines.

ghost use Rattle.std.specs.Prelude.{◌≡◌, [], IfOk};
ghost use Rattle.std.specs.Option.{option_copied, option_map, option_map_or};
ghost use Rattle.check_rules.specs.Components.{machine_at};
ghost use Rattle.check_rules.specs.Machines.{abstract_events, abstract_variables, abstract_view};
ghost use Rattle.check_rules.specs.Visible.{of_machine};
ghost use Rattle.context_check.specs.Views.{visible, IsIndexed};

use crate::assignments::{first_items, items_from};
use context_check::visible::{View, note_all, nothing_seen, pairs, push_parts};
use formula_core::{Name, OutOfMemory};
use model_core::{Checked, CheckedEvent, CheckedMachine, Labelled};
use std::alloc::Global;
use std::collections::{BTreeMap, BTreeSet};

/// The machine that stands there, if one does.
pub fn machine_at(part: Option<&Checked>) -> Option<&CheckedMachine>
    ensures { option_copied result ≡ machine_at (option_copied part.entry) }
{
    match part {
        Some(Checked::Machine(machine)) => Some(machine),
        _ => None,
    }
}

pub fn abstract_events(abstraction: Option<&CheckedMachine>) -> &[CheckedEvent]
    ensures { result.now ≡ abstract_events (option_copied abstraction.entry) }
{
    match abstraction {
        Some(machine) => machine.events.items(),
        None => &[],
    }
}

pub fn abstract_variables(abstraction: Option<&CheckedMachine>) -> &[Name]
    ensures { result.now ≡ abstract_variables (option_copied abstraction.entry) }
{
    match abstraction {
        Some(machine) => machine.variables.items(),
        None => &[],
    }
}

pub fn abstract_invariants(abstraction: Option<&CheckedMachine>) -> &[Labelled]
    ensures { result.now ≡ option_map_or (λ a. a.invariants) (option_copied abstraction.entry) [] }
{
    match abstraction {
        Some(machine) => machine.invariants.items(),
        None => &[],
    }
}

pub fn abstract_name(
    alloc: Global,
    abstraction: Option<&CheckedMachine>,
) -> Result<Option<Name>, OutOfMemory>
    ensures { IfOk result (λ name. name ≡ option_map (λ a. a.name) (option_copied abstraction.entry)) }
{
    match abstraction {
        Some(machine) => Ok(Some(machine.name.copy(alloc)?)),
        None => Ok(None),
    }
}

/// What a machine gives to one that refines it.
fn view_of_machine<'a>(alloc: Global, machine: &'a CheckedMachine) -> Result<View<'a>, OutOfMemory>
    ensures seen { IfOk result (λ view. visible view ≡ of_machine machine.entry.now) }
    ensures indexed { IfOk result (λ view. IsIndexed view) }
{
    let from = machine.variables_from;
    let identifiers = pairs(alloc, machine.env.entries(), machine.env_of.items())?;
    let of_axioms = pairs(alloc, machine.axioms.items(), machine.axioms_of.items())?;
    let mut constants = Vec::new(alloc);
    let mut known_constants = BTreeSet::new(alloc);
    let mut variables = Vec::new(alloc);
    let mut axioms = Vec::new(alloc);
    let mut known_axioms = BTreeSet::new(alloc);
    let mut names = BTreeMap::new(alloc);
    push_parts(
        &mut constants,
        &mut known_constants,
        first_items(&identifiers, from),
    )?;
    variables.extend_from_slice(items_from(&identifiers, from))?;
    push_parts(&mut axioms, &mut known_axioms, &of_axioms)?;
    note_all(&mut names, &identifiers)?;
    Ok(View {
        contexts: Vec::new(alloc),
        constants,
        variables,
        axioms,
        known_contexts: BTreeSet::new(alloc),
        known_constants,
        known_axioms,
        names,
    })
}

/// What the abstraction gives.
pub fn abstract_view<'a>(
    alloc: Global,
    abstraction: Option<&'a CheckedMachine>,
) -> Result<View<'a>, OutOfMemory>
    ensures seen { IfOk result (λ view. visible view ≡ abstract_view (option_copied abstraction.entry)) }
    ensures indexed { IfOk result (λ view. IsIndexed view) }
{
    match abstraction {
        Some(machine) => view_of_machine(alloc, machine),
        None => Ok(nothing_seen(alloc)),
    }
}
