//! Invariant preservation.
ghost use Rattle.std.specs.Prelude.{◌≡◌, IfOk, OnOk};
ghost use Rattle.std.specs.List.{list_any};
ghost use Rattle.std.specs.Map.{keys_of};
ghost use Rattle.model_core.specs.Each.{is_among};
ghost use Rattle.po_rules.specs.Gathering.{gathered};
ghost use Rattle.po_rules.specs.Rows.{invariant_row, invariant_rows};
ghost use Rattle.po_machine.specs.Shared.{parts_in, view};
ghost use Rattle.po_machine.specs.Private.{has_changed, is_to_keep};

use crate::gathered::Gathered;
use crate::hypotheses::initialises;
use crate::labelled::items_from;
use crate::names::Names;
use crate::needed::{add_from_witnesses, is_full, label_part};
use crate::parts::SharedParts;
use formula_core::{Formula, Name, OutOfMemory, Ty};
use model_core::{CheckedEvent, Labelled};
use std::alloc::Global;

fn is_one_among(changed: &Names<'_>, identifiers: &[(Name, Ty)]) -> bool
    ensures { result ≡ list_any (λ x. is_among changed.now x.0) identifiers.now }
{
    for identifier in identifiers {
        if changed.has(&identifier.0) {
            return true;
        }
    }
    false
}

/// Whether a variable that is free in the formula is changed.
fn has_changed(alloc: Global, changed: &Names<'_>, formula: &Formula) -> Result<bool, OutOfMemory>
    ensures { IfOk result (λ b. b ≡ has_changed changed.now formula.now) }
{
    let free = formula.free(alloc)?;
    Ok(is_one_among(changed, &free))
}

/// Whether the event has to keep the invariant.
fn is_to_keep(
    alloc: Global,
    event: &CheckedEvent,
    changed: &Names<'_>,
    invariant: &Labelled,
) -> Result<bool, OutOfMemory>
    ensures { IfOk result (λ b. b ≡ is_to_keep event.now changed.now invariant.now) }
{
    if invariant.theorem {
        return Ok(false);
    }
    if initialises(event) {
        return Ok(true);
    }
    has_changed(alloc, changed, invariant.formula.get())
}

/// Adds that the event keeps the invariant.
fn add_invariant_row(
    alloc: Global,
    out: &mut Gathered,
    parts: &SharedParts<'_>,
    changed: &Names<'_>,
    invariant: &Labelled,
) -> Result<(), OutOfMemory>
    requires { changed.now ≡ keys_of parts.now.after.items }
    ensures { OnOk result (view out.new
        ≡ gathered (view out.old) (invariant_row parts.now.event.now (parts_in parts.now) invariant.now)) }
{
    if is_full(out) {
        return Ok(());
    }
    if !is_to_keep(alloc, parts.event, changed, invariant)? {
        return Ok(());
    }
    let goal = invariant.formula.get().substitute_any(alloc, &parts.after)?;
    add_from_witnesses(
        alloc,
        out,
        parts,
        label_part(invariant.label.get()),
        "INV",
        goal,
    )
}

/// Adds invariant preservation: of each own invariant that the event may change, and for INITIALISATION of each.
pub fn add_invariant_rows(
    alloc: Global,
    out: &mut Gathered,
    parts: &SharedParts<'_>,
) -> Result<(), OutOfMemory>
    ensures { OnOk result (view out.new
        ≡ gathered (view out.old) (invariant_rows parts.now.machine.now parts.now.event.now (parts_in parts.now))) }
{
    let changed = Names::of_pairs(alloc, &parts.after)?;
    for invariant in items_from(parts.machine.invariants.items(), parts.machine.own_from) {
        add_invariant_row(alloc, out, parts, &changed, invariant)?;
    }
    Ok(())
}
