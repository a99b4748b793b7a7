//! That guards are strengthened.
ghost use Rattle.std.specs.Prelude.{◌≡◌, OnOk, map};
ghost use Rattle.model_core.specs.Each.{for_each};
ghost use Rattle.po_rules.specs.Gathering.{gathered};
ghost use Rattle.po_rules.specs.Rows.{strengthening_rows};
ghost use Rattle.po_machine.specs.Shared.{view, parts_in};
ghost use Rattle.po_refine.specs.Private.{strengthening_row};

use crate::events::{is_extended, only_one};
use crate::full::is_full;
use formula_core::OutOfMemory;
use model_core::{CheckedEvent, Labelled};
use po_machine::{Gathered, SharedParts, add_from_witnesses, label_part};
use std::alloc::Global;

fn add_strengthening_row(
    alloc: Global,
    out: &mut Gathered,
    parts: &SharedParts<'_>,
    guard: &Labelled,
) -> Result<(), OutOfMemory>
    ensures { OnOk result (view out.new ≡ gathered (view out.old) (strengthening_row (parts_in parts.now) guard.now)) }
{
    if is_full(out) {
        return Ok(());
    }
    if guard.theorem {
        return Ok(());
    }
    let goal = guard.formula.get().copy(alloc)?;
    add_from_witnesses(
        alloc,
        out,
        parts,
        label_part(guard.label.get()),
        "GRD",
        goal,
    )
}

fn add_each_guard(
    alloc: Global,
    out: &mut Gathered,
    parts: &SharedParts<'_>,
    guards: &[Labelled],
) -> Result<(), OutOfMemory>
    ensures { OnOk result (view out.new
        ≡ gathered (view out.old) (for_each (strengthening_row (parts_in parts.now)) guards.now)) }
{
    for guard in guards {
        add_strengthening_row(alloc, out, parts, guard)?;
    }
    Ok(())
}

/// Guard strengthening: an event that refines one event, and does not extend it, has each of its guards. Its theorems
/// follow from these.
pub fn add_strengthening_rows(
    alloc: Global,
    out: &mut Gathered,
    parts: &SharedParts<'_>,
    refined: &[&CheckedEvent],
) -> Result<(), OutOfMemory>
    ensures { OnOk result (view out.new ≡ gathered (view out.old)
        (strengthening_rows parts.now.event.now (map (λ x. x.now) refined.now) (parts_in parts.now))) }
{
    if is_extended(parts.event) {
        return Ok(());
    }
    match only_one(refined) {
        Some(event) => add_each_guard(alloc, out, parts, event.guards.items()),
        None => Ok(()),
    }
}
