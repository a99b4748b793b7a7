//! That kept variables are equal to the abstract ones.
ghost use Rattle.std.specs.Prelude.{◌≡◌, ◌&&◌, not, IfOk, OnOk, map};
ghost use Rattle.std.specs.Map.{keys_of};
ghost use Rattle.std.specs.Option.{option_copied};
ghost use Rattle.model_core.specs.Each.{for_each, is_among};
ghost use Rattle.po_rules.specs.Gathering.{gathered};
ghost use Rattle.po_rules.specs.Parts.{actions_of_first, new_values};
ghost use Rattle.po_rules.specs.Rows.{equality_rows, kept_variables};
ghost use Rattle.po_machine.specs.Shared.{view, parts_in};
ghost use Rattle.po_refine.specs.Private.{equality_of, equality_at};

use crate::events::first_one;
use crate::full::is_full;
use crate::targets::Targets;
use formula_core::{Formula, Name, Op, OutOfMemory, Ty};
use model_core::{CheckedEvent, CheckedMachine};
use po_machine::{Gathered, Names, SharedParts, add_from_witnesses, name_part, of_two};
use std::alloc::Global;

/// Which variables are kept from the abstraction, which ones the event changes, and which ones the abstract event.
#[derive(Drop)]
struct Changes<'a> {
    kept: Names<'a>,
    changed: Names<'a>,
    abstractly: Targets<'a>,
}

fn targets_of_first<'a>(
    alloc: Global,
    events: &[&'a CheckedEvent],
) -> Result<Targets<'a>, OutOfMemory>
    ensures { IfOk result (λ t. t ≡ keys_of (for_each new_values (actions_of_first (map (λ x. x.now) events.now)))) }
{
    match first_one(events) {
        Some(event) => Targets::of(alloc, event.actions.items()),
        None => Targets::of(alloc, &[]),
    }
}

fn kept_variables(
    alloc: Global,
    abstraction: Option<&CheckedMachine>,
) -> Result<Names<'_>, OutOfMemory>
    ensures { IfOk result (λ names. names ≡ kept_variables (option_copied abstraction.entry)) }
{
    match abstraction {
        Some(machine) => Names::of_list(alloc, machine.variables.items()),
        None => Names::of_list(alloc, &[]),
    }
}

fn changes_of<'a>(
    alloc: Global,
    values: &'a [(Name, Formula)],
    abstraction: Option<&'a CheckedMachine>,
    refined: &[&'a CheckedEvent],
) -> Result<Changes<'a>, OutOfMemory>
    ensures kept { IfOk result (λ c. c.kept ≡ kept_variables (option_copied abstraction.entry)) }
    ensures changed { IfOk result (λ c. c.changed ≡ keys_of values.entry.now) }
    ensures abstractly { IfOk result (λ c.
        c.abstractly ≡ keys_of (for_each new_values (actions_of_first (map (λ x. x.now) refined.entry.now)))) }
{
    let kept = kept_variables(alloc, abstraction)?;
    let changed = Names::of_pairs(alloc, values)?;
    let abstractly = targets_of_first(alloc, refined)?;
    Ok(Changes {
        kept,
        changed,
        abstractly,
    })
}

/// Whether a variable that was there before is changed here, and not by the abstract event.
fn is_changed_here(changes: &Changes<'_>, name: &Name) -> bool
    ensures { result ≡ (is_among changes.now.kept name.now
        && is_among changes.now.changed name.now && not (is_among changes.now.abstractly name.now)) }
{
    changes.kept.has(name) && changes.changed.has(name) && !changes.abstractly.has(name)
}

fn add_equality(
    alloc: Global,
    out: &mut Gathered,
    parts: &SharedParts<'_>,
    variable: &Name,
    ty: &Ty,
) -> Result<(), OutOfMemory>
    ensures { OnOk result (view out.new
        ≡ gathered (view out.old) (equality_of (parts_in parts.now) variable.now ty.now)) }
{
    let before = Formula::Free(variable.copy(alloc)?, ty.copy(alloc)?);
    let after = before.substitute_any(alloc, &parts.after)?;
    let goal = of_two(alloc, Op::Equal, after, before)?;
    add_from_witnesses(alloc, out, parts, name_part(variable), "EQL", goal)
}

fn add_equality_row(
    alloc: Global,
    out: &mut Gathered,
    parts: &SharedParts<'_>,
    changes: &Changes<'_>,
    variable: &Name,
) -> Result<(), OutOfMemory>
    ensures { OnOk result (view out.new
        ≡ gathered (view out.old) (equality_at changes.now (parts_in parts.now) variable.now)) }
{
    if is_full(out) {
        return Ok(());
    }
    if !is_changed_here(changes, variable) {
        return Ok(());
    }
    match parts.env.get(variable) {
        Some(ty) => add_equality(alloc, out, parts, variable, ty),
        None => Ok(()),
    }
}

fn add_each_equality(
    alloc: Global,
    out: &mut Gathered,
    parts: &SharedParts<'_>,
    changes: &Changes<'_>,
    variables: &[Name],
) -> Result<(), OutOfMemory>
    ensures { OnOk result (view out.new
        ≡ gathered (view out.old) (for_each (equality_at changes.now (parts_in parts.now)) variables.now)) }
{
    for variable in variables {
        add_equality_row(alloc, out, parts, changes, variable)?;
    }
    Ok(())
}

/// Equality of a kept variable: one that the abstraction has too keeps its value, where the event changes it and the
/// abstract event does not.
pub fn add_equality_rows(
    alloc: Global,
    out: &mut Gathered,
    parts: &SharedParts<'_>,
    abstraction: Option<&CheckedMachine>,
    refined: &[&CheckedEvent],
) -> Result<(), OutOfMemory>
    ensures { OnOk result (view out.new ≡ gathered (view out.old)
        (equality_rows parts.now.machine.now (option_copied abstraction.entry) (map (λ x. x.now) refined.now)
        (parts_in parts.now))) }
{
    let changes = changes_of(alloc, &parts.after, abstraction, refined)?;
    let variables = parts.machine.variables.items();
    add_each_equality(alloc, out, parts, &changes, variables)
}
