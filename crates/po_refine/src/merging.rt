//! That events are merged.
ghost use Rattle.std.specs.Prelude.{◌≡◌, IfOk, OnOk, map, not};
ghost use Rattle.std.specs.List.{filter};
ghost use Rattle.po_rules.specs.Gathering.{gathered};
ghost use Rattle.po_rules.specs.Parts.{formulas};
ghost use Rattle.po_rules.specs.Rows.{merging_rows};
ghost use Rattle.po_machine.specs.Shared.{view, parts_in};
ghost use Rattle.po_refine.specs.Private.{enabled};

use crate::chains::chain;
use formula_core::{Formula, Op, OutOfMemory};
use model_core::{CheckedEvent, Labelled};
use po_machine::{Gathered, SharedParts, add_whole_from_base};
use std::alloc::Global;

/// The guards that are no theorems.
fn conditions_of(alloc: Global, guards: &[Labelled]) -> Result<Vec<Formula>, OutOfMemory>
    ensures { IfOk result (λ fs. fs.items ≡ formulas (filter (λ g. not g.theorem) guards.now)) }
{
    let mut conditions = Vec::new(alloc);
    for guard in guards {
        if !guard.theorem {
            conditions.push(guard.formula.get().copy(alloc)?)?;
        }
    }
    Ok(conditions)
}

/// The conjunction of an event's guards.
fn guards_of(alloc: Global, event: &CheckedEvent) -> Result<Formula, OutOfMemory>
    ensures { IfOk result (λ f. f ≡ enabled event.now) }
{
    let conditions = conditions_of(alloc, event.guards.items())?;
    chain(alloc, Op::And, conditions)
}

fn guards_of_each(alloc: Global, events: &[&CheckedEvent]) -> Result<Vec<Formula>, OutOfMemory>
    ensures { IfOk result (λ fs. fs.items ≡ map enabled (map (λ x. x.now) events.now)) }
{
    let mut guards = Vec::new(alloc);
    for event in events {
        guards.push(guards_of(alloc, event)?)?;
    }
    Ok(guards)
}

/// Merging: where an event refines several events, the guards of one of them hold.
pub fn add_merging_rows(
    alloc: Global,
    out: &mut Gathered,
    parts: &SharedParts<'_>,
    refined: &[&CheckedEvent],
) -> Result<(), OutOfMemory>
    ensures { OnOk result (view out.new
        ≡ gathered (view out.old) (merging_rows (map (λ x. x.now) refined.now) (parts_in parts.now))) }
{
    if refined.len() < 2 {
        return Ok(());
    }
    let guards = guards_of_each(alloc, refined)?;
    let goal = chain(alloc, Op::Or, guards)?;
    add_whole_from_base(alloc, out, parts, "MRG", goal)
}
