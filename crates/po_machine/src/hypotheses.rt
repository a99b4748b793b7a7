//! Hypotheses, by reference: they are copied when an obligation is put into the table.
ghost use Rattle.std.specs.Prelude.{◌≡◌, ◌++◌, IfOk, OnOk, map};
ghost use Rattle.po_rules.specs.Parts.{base, formulas, initialises, machine_hyps};
ghost use Rattle.po_machine.specs.Shared.{parts_in};
ghost use Rattle.po_machine.specs.Private.{referenced};

use crate::parts::SharedParts;
use formula_core::{Formula, Name, OutOfMemory};
use model_core::{CheckedEvent, CheckedMachine, Labelled};
use std::alloc::Global;

pub(crate) fn initialises(event: &CheckedEvent) -> bool
    ensures { result ≡ initialises event.now }
{
    event.name.as_text() == "INITIALISATION"
}

/// Adds labelled formulas.
pub(crate) fn add_labelled<'a>(
    labelled: &'a [Labelled],
    found: &mut Vec<&'a Formula>,
) -> Result<(), OutOfMemory>
    ensures { OnOk result (referenced found.new.items ≡ referenced found.old.items ++ formulas labelled.entry.now) }
{
    for one in labelled {
        found.push(one.formula.get())?;
    }
    Ok(())
}

fn add_formulas<'a>(more: &'a [Formula], found: &mut Vec<&'a Formula>) -> Result<(), OutOfMemory>
    ensures { OnOk result (referenced found.new.items ≡ referenced found.old.items ++ more.entry.now) }
{
    for formula in more {
        found.push(formula)?;
    }
    Ok(())
}

fn add_witnesses<'a>(
    witnesses: &'a [(Name, Formula)],
    found: &mut Vec<&'a Formula>,
) -> Result<(), OutOfMemory>
    ensures { OnOk result (referenced found.new.items
        ≡ referenced found.old.items ++ map (λ w. w.1) witnesses.entry.now) }
{
    for witness in witnesses {
        found.push(&witness.1)?;
    }
    Ok(())
}

/// The formulas of a list.
pub(crate) fn labelled_hypotheses<'a>(
    alloc: Global,
    labelled: &'a [Labelled],
) -> Result<Vec<&'a Formula>, OutOfMemory>
    ensures { IfOk result (λ hyps. referenced hyps.items ≡ formulas labelled.now) }
{
    let mut hyps = Vec::new(alloc);
    add_labelled(labelled, &mut hyps)?;
    Ok(hyps)
}

/// Axioms and invariants.
pub(crate) fn machine_hypotheses<'a>(
    alloc: Global,
    machine: &'a CheckedMachine,
) -> Result<Vec<&'a Formula>, OutOfMemory>
    ensures { IfOk result (λ hyps. referenced hyps.items ≡ machine_hyps machine.now) }
{
    let mut hyps = labelled_hypotheses(alloc, machine.axioms.items())?;
    add_labelled(machine.invariants.items(), &mut hyps)?;
    Ok(hyps)
}

/// Axioms, invariants and guards.
fn guarded_hypotheses<'a>(
    alloc: Global,
    machine: &'a CheckedMachine,
    event: &'a CheckedEvent,
) -> Result<Vec<&'a Formula>, OutOfMemory>
    ensures { IfOk result (λ hyps. referenced hyps.items ≡ machine_hyps machine.now ++ formulas event.now.guards) }
{
    let mut hyps = machine_hypotheses(alloc, machine)?;
    add_labelled(event.guards.items(), &mut hyps)?;
    Ok(hyps)
}

/// Axioms, invariants and guards, for INITIALISATION the axioms alone.
fn base_of<'a>(
    alloc: Global,
    machine: &'a CheckedMachine,
    event: &'a CheckedEvent,
) -> Result<Vec<&'a Formula>, OutOfMemory>
    ensures { IfOk result (λ hyps. referenced hyps.items ≡ base machine.now event.now) }
{
    if initialises(event) {
        return labelled_hypotheses(alloc, machine.axioms.items());
    }
    guarded_hypotheses(alloc, machine, event)
}

pub(crate) fn base_hypotheses<'a>(
    alloc: Global,
    parts: &'a SharedParts<'_>,
) -> Result<Vec<&'a Formula>, OutOfMemory>
    ensures { IfOk result (λ hyps. referenced hyps.items ≡ (parts_in parts.now).base) }
{
    base_of(alloc, parts.machine, parts.event)
}

/// The base and the before-after predicates.
pub(crate) fn choice_hypotheses<'a>(
    alloc: Global,
    parts: &'a SharedParts<'_>,
) -> Result<Vec<&'a Formula>, OutOfMemory>
    ensures { IfOk result (λ hyps. referenced hyps.items ≡ (parts_in parts.now).base ++ (parts_in parts.now).choices) }
{
    let mut hyps = base_hypotheses(alloc, parts)?;
    add_formulas(&parts.choices, &mut hyps)?;
    Ok(hyps)
}

/// The base, the before-after predicates and the witnesses.
pub(crate) fn witness_hypotheses<'a>(
    alloc: Global,
    parts: &'a SharedParts<'_>,
) -> Result<Vec<&'a Formula>, OutOfMemory>
    ensures { IfOk result (λ hyps. referenced hyps.items
        ≡ (parts_in parts.now).base ++ (parts_in parts.now).choices ++ map (λ w. w.1) (parts_in parts.now).witnesses) }
{
    let mut hyps = choice_hypotheses(alloc, parts)?;
    add_witnesses(&parts.witnesses, &mut hyps)?;
    Ok(hyps)
}
