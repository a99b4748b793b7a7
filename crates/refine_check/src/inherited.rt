//! Lost variables in what an event inherits.
ghost use Rattle.std.specs.Prelude.{◌≡◌, ◌++◌, map, take, IfOk, OnOk};
ghost use Rattle.formula_core.specs.Formulas.{joined};
ghost use Rattle.std.specs.Option.{option_map};
ghost use Rattle.model_core.specs.declared.fault.FaultKind.TheVariants as kind;
ghost use Rattle.model_core.specs.Faults.{first_by_place, fault_at};
ghost use Rattle.check_rules.specs.Visible.{names};
ghost use Rattle.check_rules.specs.Assignments.{assigned, all_assigned, free_names_of, names_on_right};
ghost use Rattle.check_rules.specs.Refinements.{inherited_names, lost_in_inherited};

use crate::names::{Names, texts_of};
use formula_core::{Action, Formula, Label, Name, OutOfMemory, Ty};
use model_core::{CheckedEvent, Fault, FaultKind, Labelled, RawEvent, fault_at};
use std::alloc::Global;

fn inherited_guards(event: &CheckedEvent) -> &[Labelled]
    ensures { result.now ≡ take event.now.own_guards_from event.now.guards }
{
    let guards = event.guards.items();
    let end = (event.own_guards_from as usize).min(guards.len());
    &guards[..end]
}

fn inherited_actions(event: &CheckedEvent) -> &[(Label, Action)]
    ensures { result.now ≡ take event.now.own_actions_from event.now.actions }
{
    let actions = event.actions.items();
    let end = (event.own_actions_from as usize).min(actions.len());
    &actions[..end]
}

/// Adds copies of the names.
fn add_names(
    alloc: Global,
    identifiers: &[(Name, Ty)],
    found: &mut Vec<Name>,
) -> Result<(), OutOfMemory>
    ensures { OnOk result (found.new.items ≡ found.old.items ++ names identifiers.entry.now) }
{
    for identifier in identifiers {
        found.push(identifier.0.copy(alloc)?)?;
    }
    Ok(())
}

fn add_free(alloc: Global, formula: &Formula, found: &mut Vec<Name>) -> Result<(), OutOfMemory>
    ensures { OnOk result (found.new.items ≡ found.old.items ++ free_names_of formula.entry.now) }
{
    let free = formula.free(alloc)?;
    add_names(alloc, &free, found)
}

fn add_free_of_guards(
    alloc: Global,
    guards: &[Labelled],
    found: &mut Vec<Name>,
) -> Result<(), OutOfMemory>
    ensures { OnOk result (found.new.items
        ≡ found.old.items ++ joined (map (λ g. free_names_of g.formula) guards.entry.now)) }
{
    for guard in guards {
        add_free(alloc, guard.formula.get(), found)?;
    }
    Ok(())
}

fn add_targets(
    alloc: Global,
    values: &[(Name, Formula)],
    found: &mut Vec<Name>,
) -> Result<(), OutOfMemory>
    ensures { OnOk result (found.new.items ≡ found.old.items ++ map (λ p. p.0) values.entry.now) }
{
    for value in values {
        found.push(value.0.copy(alloc)?)?;
    }
    Ok(())
}

fn add_assigned(alloc: Global, action: &Action, found: &mut Vec<Name>) -> Result<(), OutOfMemory>
    ensures { OnOk result (found.new.items ≡ found.old.items ++ assigned action.entry.now) }
{
    match action {
        Action::Assign(values) => add_targets(alloc, values.items(), found),
        Action::ChooseIn(target, _) => {
            found.push(target.copy(alloc)?)?;
            Ok(())
        }
        Action::ChooseSuch(targets, _) => add_names(alloc, targets.items(), found),
    }
}

fn add_all_assigned(
    alloc: Global,
    actions: &[(Label, Action)],
    found: &mut Vec<Name>,
) -> Result<(), OutOfMemory>
    ensures { OnOk result (found.new.items ≡ found.old.items ++ all_assigned actions.entry.now) }
{
    for action in actions {
        add_assigned(alloc, &action.1, found)?;
    }
    Ok(())
}

fn add_free_of_values(
    alloc: Global,
    values: &[(Name, Formula)],
    found: &mut Vec<Name>,
) -> Result<(), OutOfMemory>
    ensures { OnOk result (found.new.items
        ≡ found.old.items ++ joined (map (λ p. free_names_of p.1) values.entry.now)) }
{
    for value in values {
        add_free(alloc, &value.1, found)?;
    }
    Ok(())
}

fn add_on_right(alloc: Global, action: &Action, found: &mut Vec<Name>) -> Result<(), OutOfMemory>
    ensures { OnOk result (found.new.items ≡ found.old.items ++ names_on_right action.entry.now) }
{
    match action {
        Action::Assign(values) => {
            add_free_of_values(alloc, values.items(), found)?;
            Ok(())
        }
        Action::ChooseIn(_, set) => add_free(alloc, set, found),
        Action::ChooseSuch(_, condition) => add_free(alloc, condition, found),
    }
}

fn add_all_on_right(
    alloc: Global,
    actions: &[(Label, Action)],
    found: &mut Vec<Name>,
) -> Result<(), OutOfMemory>
    ensures { OnOk result (found.new.items
        ≡ found.old.items ++ joined (map (λ a. names_on_right a.1) actions.entry.now)) }
{
    for action in actions {
        add_on_right(alloc, &action.1, found)?;
    }
    Ok(())
}

/// The names in the inherited guards and actions of an event.
fn inherited_names(alloc: Global, event: &CheckedEvent) -> Result<Vec<Name>, OutOfMemory>
    ensures { IfOk result (λ found. found.items ≡ inherited_names event.now) }
{
    let mut found = Vec::new(alloc);
    add_free_of_guards(alloc, inherited_guards(event), &mut found)?;
    let actions = inherited_actions(event);
    add_all_assigned(alloc, actions, &mut found)?;
    add_all_on_right(alloc, actions, &mut found)?;
    Ok(found)
}

fn told_lost(
    alloc: Global,
    component: &Name,
    place: u32,
    name: Option<&str>,
) -> Result<Option<Fault>, OutOfMemory>
    ensures { IfOk result (λ first. first ≡ option_map (λ n. fault_at component.now kind.Lost place n.now) name.entry) }
{
    match name {
        None => Ok(None),
        Some(name) => {
            let here = fault_at(alloc, component, FaultKind::Lost, place, name)?;
            Ok(Some(here))
        }
    }
}

/// The first lost variable in the inherited guards and actions of an event.
pub(crate) fn first_lost_in_inherited(
    alloc: Global,
    component: &Name,
    lost: &Names,
    event: &RawEvent,
    typed: &CheckedEvent,
) -> Result<Option<Fault>, OutOfMemory>
    ensures { IfOk result (λ first.
        first ≡ first_by_place (lost_in_inherited component.now lost.now (event.now, typed.now))) }
{
    let names = inherited_names(alloc, typed)?;
    let inherited = texts_of(alloc, &names)?;
    let first = lost.first_among(&inherited);
    told_lost(alloc, component, event.name.place, first)
}
