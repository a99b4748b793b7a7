//! That witnesses are well-defined and feasible.
ghost use Rattle.std.specs.Prelude.{◌≡◌, IfOk, OnOk, map};
ghost use Rattle.std.specs.Option.{option_to_list};
ghost use Rattle.formula_core.specs.Env.{type_in};
ghost use Rattle.po_rules.specs.Gathering.{gathered};
ghost use Rattle.po_rules.specs.Rows.{witness_row, witness_rows};
ghost use Rattle.po_machine.specs.Shared.{view, parts_in};

use crate::full::is_full;
use formula_core::{Env, Formula, Name, OutOfMemory, Ty};
use po_machine::{Gathered, SharedParts, add_from_choices, for_some_of, name_part};
use std::alloc::Global;
use well_defined::wd;

/// The name with its type, where it stands in the environment.
fn known(alloc: Global, env: &Env, name: &Name) -> Result<Vec<(Name, Ty)>, OutOfMemory>
    ensures { IfOk result (λ ids. ids.items ≡ map (λ t. (name.now, t)) (option_to_list (type_in env.now name.now))) }
{
    let mut identifiers = Vec::new(alloc);
    if let Some(ty) = env.get(name) {
        identifiers.push((name.copy(alloc)?, ty.copy(alloc)?))?;
    }
    Ok(identifiers)
}

fn add_witness_row(
    alloc: Global,
    out: &mut Gathered,
    parts: &SharedParts<'_>,
    witness: &(Name, Formula),
) -> Result<(), OutOfMemory>
    ensures { OnOk result (view out.new ≡ gathered (view out.old) (witness_row (parts_in parts.now) witness.now)) }
{
    if is_full(out) {
        return Ok(());
    }
    let label = name_part(&witness.0);
    let goal = wd(alloc, &witness.1)?;
    add_from_choices(alloc, out, parts, label, "WWD", goal)?;
    let identifiers = known(alloc, &parts.env, &witness.0)?;
    let goal = for_some_of(alloc, &identifiers, &witness.1)?;
    add_from_choices(alloc, out, parts, label, "WFIS", goal)
}

/// Witness well-definedness and feasibility: each witness has a meaning, and some value meets it.
pub fn add_witness_rows(
    alloc: Global,
    out: &mut Gathered,
    parts: &SharedParts<'_>,
) -> Result<(), OutOfMemory>
    ensures { OnOk result (view out.new ≡ gathered (view out.old) (witness_rows (parts_in parts.now))) }
{
    for witness in &parts.witnesses {
        add_witness_row(alloc, out, parts, witness)?;
    }
    Ok(())
}
