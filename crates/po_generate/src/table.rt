//! The obligations of a component, in the order of the table.
ghost use Rattle.std.specs.Prelude.{◌≡◌, IfOk, OnOk, map};
ghost use Rattle.std.specs.Option.{option_copied};
ghost use Rattle.model_core.specs.Each.{for_each};
ghost use Rattle.po_rules.specs.Gathering.{gathered};
ghost use Rattle.model_core.specs.declared.checked.Checked.TheVariants.{Machine};
ghost use Rattle.po_rules.specs.Tables.{all_rows, machine_rows, obligations_of, row_of_event};
ghost use Rattle.po_machine.specs.Shared.{view, parts_in};
ghost use Rattle.po_generate.specs.Laws.{begun_at};
ghost use Rattle.po_generate.specs.Lists.{machine_obligations_of, refine_obligations_of, rows_alone, rows_beside};
ghost use Rattle.po_generate.specs.Private.{event_rows_in, invariants_beside, rows_in};

use formula_core::OutOfMemory;
use model_core::{Checked, CheckedEvent, CheckedMachine};
use po_machine::{
    Gathered, SharedParts, TABLE_LIMIT, add_action_rows, add_axiom_rows, add_decrease_rows,
    add_guard_rows, add_invariant_rows, add_own_invariant_rows, add_variant_rows, refined_by,
    shared_parts,
};
use po_refine::{
    add_equality_rows, add_merging_rows, add_simulation_rows, add_strengthening_rows,
    add_witness_rows,
};
use std::alloc::Global;

/// Which rows of an event are wanted.
#[derive(Clone, Copy)]
enum Part {
    Whole,
    Alone,
    Beside,
}

fn add_all_rows(
    alloc: Global,
    out: &mut Gathered,
    parts: &SharedParts<'_>,
    abstraction: Option<&CheckedMachine>,
    refined: &[&CheckedEvent],
) -> Result<(), OutOfMemory>
    ensures { OnOk result (view out.new ≡ gathered (view out.old)
        (for_each (row_of_event parts.now.machine.now (option_copied abstraction.entry) parts.now.event.now
        (map (λ x. x.now) refined.now) (parts_in parts.now)) all_rows)) }
{
    add_guard_rows(alloc, out, parts)?;
    add_witness_rows(alloc, out, parts)?;
    add_strengthening_rows(alloc, out, parts, refined)?;
    add_merging_rows(alloc, out, parts, refined)?;
    add_action_rows(alloc, out, parts)?;
    add_simulation_rows(alloc, out, parts, refined)?;
    add_equality_rows(alloc, out, parts, abstraction, refined)?;
    add_invariant_rows(alloc, out, parts)?;
    add_decrease_rows(alloc, out, parts, refined)?;
    Ok(())
}

/// Adds what an event owes by itself.
fn add_rows_alone(
    alloc: Global,
    out: &mut Gathered,
    parts: &SharedParts<'_>,
    abstraction: Option<&CheckedMachine>,
    refined: &[&CheckedEvent],
) -> Result<(), OutOfMemory>
    ensures { OnOk result (view out.new ≡ gathered (view out.old)
        (for_each (row_of_event parts.now.machine.now (option_copied abstraction.entry) parts.now.event.now
        (map (λ x. x.now) refined.now) (parts_in parts.now)) (rows_alone (map (λ x. x.now) refined.now)))) }
{
    add_guard_rows(alloc, out, parts)?;
    add_action_rows(alloc, out, parts)?;
    if !refined.is_empty() {
        return Ok(());
    }
    add_invariant_rows(alloc, out, parts)?;
    Ok(())
}

/// Adds the invariants that an event preserves, if it refines others.
fn add_invariants_beside(
    alloc: Global,
    out: &mut Gathered,
    parts: &SharedParts<'_>,
    refined: &[&CheckedEvent],
) -> Result<(), OutOfMemory>
    ensures { OnOk result (view out.new ≡ gathered (view out.old) (invariants_beside
        parts.now.machine.now parts.now.event.now (map (λ x. x.now) refined.now) (parts_in parts.now))) }
{
    if refined.is_empty() {
        return Ok(());
    }
    add_invariant_rows(alloc, out, parts)?;
    Ok(())
}

/// Adds what an event owes to the variant and to the events that it refines.
fn add_rows_beside(
    alloc: Global,
    out: &mut Gathered,
    parts: &SharedParts<'_>,
    abstraction: Option<&CheckedMachine>,
    refined: &[&CheckedEvent],
) -> Result<(), OutOfMemory>
    ensures { OnOk result (view out.new ≡ gathered (view out.old)
        (for_each (row_of_event parts.now.machine.now (option_copied abstraction.entry) parts.now.event.now
        (map (λ x. x.now) refined.now) (parts_in parts.now)) (rows_beside (map (λ x. x.now) refined.now)))) }
{
    add_witness_rows(alloc, out, parts)?;
    add_strengthening_rows(alloc, out, parts, refined)?;
    add_merging_rows(alloc, out, parts, refined)?;
    add_simulation_rows(alloc, out, parts, refined)?;
    add_equality_rows(alloc, out, parts, abstraction, refined)?;
    add_invariants_beside(alloc, out, parts, refined)?;
    add_decrease_rows(alloc, out, parts, refined)?;
    Ok(())
}

fn add_rows(
    alloc: Global,
    out: &mut Gathered,
    part: Part,
    parts: &SharedParts<'_>,
    abstraction: Option<&CheckedMachine>,
    refined: &[&CheckedEvent],
) -> Result<(), OutOfMemory>
    ensures { OnOk result (view out.new ≡ gathered (view out.old)
        (for_each (row_of_event parts.now.machine.now (option_copied abstraction.entry) parts.now.event.now
        (map (λ x. x.now) refined.now) (parts_in parts.now)) (rows_in part (map (λ x. x.now) refined.now)))) }
{
    match part {
        Part::Whole => add_all_rows(alloc, out, parts, abstraction, refined),
        Part::Alone => add_rows_alone(alloc, out, parts, abstraction, refined),
        Part::Beside => add_rows_beside(alloc, out, parts, abstraction, refined),
    }
}

/// Adds the rows of one event, unless too many nodes were counted before.
fn add_event_rows(
    alloc: Global,
    out: &mut Gathered,
    part: Part,
    machine: &CheckedMachine,
    abstraction: Option<&CheckedMachine>,
    event: &CheckedEvent,
) -> Result<(), OutOfMemory>
    ensures { OnOk result (view out.new
        ≡ gathered (view out.old) (event_rows_in part machine.now (option_copied abstraction.entry) event.now)) }
{
    if out.nodes > TABLE_LIMIT {
        return Ok(());
    }
    let refined = refined_by(alloc, abstraction, event)?;
    let parts = shared_parts(alloc, machine, event, &refined)?;
    add_rows(alloc, out, part, &parts, abstraction, &refined)?;
    Ok(())
}

fn add_each_event(
    alloc: Global,
    out: &mut Gathered,
    part: Part,
    machine: &CheckedMachine,
    abstraction: Option<&CheckedMachine>,
    events: &[CheckedEvent],
) -> Result<(), OutOfMemory>
    ensures { OnOk result (view out.new ≡ gathered
        (view out.old) (for_each (event_rows_in part machine.now (option_copied abstraction.entry)) events.now)) }
{
    for event in events {
        add_event_rows(alloc, out, part, machine, abstraction, event)?;
    }
    Ok(())
}

fn add_machine_rows(
    alloc: Global,
    out: &mut Gathered,
    machine: &CheckedMachine,
    abstraction: Option<&CheckedMachine>,
) -> Result<(), OutOfMemory>
    ensures { OnOk result (view out.new
        ≡ gathered (view out.old) (machine_rows machine.now (option_copied abstraction.entry))) }
{
    add_own_invariant_rows(alloc, out, machine)?;
    add_variant_rows(alloc, out, machine)?;
    let events = machine.events.items();
    add_each_event(alloc, out, Part::Whole, machine, abstraction, events)?;
    Ok(())
}

/// Adds the obligations of a component, in the order of the table. Of a machine that refines another, that one is its
/// abstraction.
pub fn add_obligations(
    alloc: Global,
    out: &mut Gathered,
    checked: &Checked,
    abstraction: Option<&CheckedMachine>,
) -> Result<(), OutOfMemory>
    ensures { OnOk result (view out.new
        ≡ gathered (view out.old) (obligations_of checked.now (option_copied abstraction.entry))) }
{
    match checked {
        Checked::Context(context) => add_axiom_rows(alloc, out, context),
        Checked::Machine(machine) => add_machine_rows(alloc, out, machine, abstraction),
    }
}

fn nothing(alloc: Global) -> Gathered
    ensures { view result ≡ begun_at 0 }
{
    Gathered {
        obligations: Vec::new(alloc),
        nodes: 0,
    }
}

/// The obligations of a component, in the order of the table. They are all of them where their formula nodes are at most
/// [`TABLE_LIMIT`]. Of a machine that refines another, that one is its abstraction.
pub fn obligations(
    alloc: Global,
    checked: &Checked,
    abstraction: Option<&CheckedMachine>,
) -> Result<Gathered, OutOfMemory>
    ensures { IfOk result (λ out.
        view out ≡ gathered (begun_at 0) (obligations_of checked.now (option_copied abstraction.entry))) }
{
    let mut out = nothing(alloc);
    add_obligations(alloc, &mut out, checked, abstraction)?;
    Ok(out)
}

fn add_machine_obligations(
    alloc: Global,
    out: &mut Gathered,
    machine: &CheckedMachine,
    abstraction: Option<&CheckedMachine>,
) -> Result<(), OutOfMemory>
    ensures { OnOk result (view out.new
        ≡ gathered (view out.old) (machine_obligations_of (Machine machine.now) (option_copied abstraction.entry))) }
{
    add_own_invariant_rows(alloc, out, machine)?;
    let events = machine.events.items();
    add_each_event(alloc, out, Part::Alone, machine, abstraction, events)?;
    Ok(())
}

fn add_obligations_alone(
    alloc: Global,
    out: &mut Gathered,
    checked: &Checked,
    abstraction: Option<&CheckedMachine>,
) -> Result<(), OutOfMemory>
    ensures { OnOk result (view out.new
        ≡ gathered (view out.old) (machine_obligations_of checked.now (option_copied abstraction.entry))) }
{
    match checked {
        Checked::Context(context) => add_axiom_rows(alloc, out, context),
        Checked::Machine(machine) => add_machine_obligations(alloc, out, machine, abstraction),
    }
}

/// Of the obligations of a component those that it owes by itself: well-definedness, theorems, feasibility, and the
/// invariants that its events preserve, but for events that refine others.
pub fn machine_obligations(
    alloc: Global,
    checked: &Checked,
    abstraction: Option<&CheckedMachine>,
) -> Result<Gathered, OutOfMemory>
    ensures { IfOk result (λ out.
        view out ≡ gathered (begun_at 0) (machine_obligations_of checked.now (option_copied abstraction.entry))) }
{
    let mut out = nothing(alloc);
    add_obligations_alone(alloc, &mut out, checked, abstraction)?;
    Ok(out)
}

fn add_refine_obligations(
    alloc: Global,
    out: &mut Gathered,
    machine: &CheckedMachine,
    abstraction: Option<&CheckedMachine>,
) -> Result<(), OutOfMemory>
    ensures { OnOk result (view out.new
        ≡ gathered (view out.old) (refine_obligations_of (Machine machine.now) (option_copied abstraction.entry))) }
{
    add_variant_rows(alloc, out, machine)?;
    let events = machine.events.items();
    add_each_event(alloc, out, Part::Beside, machine, abstraction, events)?;
    Ok(())
}

fn add_obligations_beside(
    alloc: Global,
    out: &mut Gathered,
    checked: &Checked,
    abstraction: Option<&CheckedMachine>,
) -> Result<(), OutOfMemory>
    ensures { OnOk result (view out.new
        ≡ gathered (view out.old) (refine_obligations_of checked.now (option_copied abstraction.entry))) }
{
    match checked {
        Checked::Context(_) => Ok(()),
        Checked::Machine(machine) => add_refine_obligations(alloc, out, machine, abstraction),
    }
}

/// The others of its obligations: those of its variant, those of witnesses, and those by which its events refine others,
/// with the invariants that these preserve. A context has none.
pub fn refine_obligations(
    alloc: Global,
    checked: &Checked,
    abstraction: Option<&CheckedMachine>,
) -> Result<Gathered, OutOfMemory>
    ensures { IfOk result (λ out.
        view out ≡ gathered (begun_at 0) (refine_obligations_of checked.now (option_copied abstraction.entry))) }
{
    let mut out = nothing(alloc);
    add_obligations_beside(alloc, &mut out, checked, abstraction)?;
    Ok(out)
}
