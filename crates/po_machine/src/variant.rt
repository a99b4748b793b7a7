//! Variants.
ghost use Rattle.std.specs.Prelude.{◌≡◌, ◌||◌, ◌++◌, ◌∷◌, [], IfOk, OnOk, IsTrue, map};
ghost use Rattle.std.specs.List.{list_all};
ghost use Rattle.std.specs.Option.{option_to_list};
ghost use Rattle.formula_core.specs.Texts.{is_kind};
ghost use Rattle.formula_core.specs.Types.{is_integer};
ghost use Rattle.formula_core.specs.declared.formula.Formula.{Formula};
ghost use Rattle.formula_core.specs.Wellness.{type_of};
ghost use Rattle.model_core.specs.Components.{is_convergent, is_ordinary};
ghost use Rattle.model_core.specs.Each.{for_each};
ghost use Rattle.well_defined.specs.Predicates.{predicate};
ghost use Rattle.po_rules.specs.Gathering.{gathered};
ghost use Rattle.po_rules.specs.Parts.{machine_hyps, path_with};
ghost use Rattle.po_rules.specs.Rows.{decrease, decrease_rows, needed, variant_rows, was_convergent};
ghost use Rattle.po_machine.specs.Shared.{parts_in, view};
ghost use Rattle.po_machine.specs.Private.{decrease_row, finite_row, natural_row};

use crate::gathered::Gathered;
use crate::hypotheses::machine_hypotheses;
use crate::needed::{add_one, add_whole_from_base, add_whole_from_choices, is_full, is_idle};
use crate::parts::SharedParts;
use crate::predicates::{instead_of, natural, of_one, of_two};
use formula_core::{Formula, Op, OutOfMemory, PoName, Ty};
use model_core::{CheckedEvent, CheckedMachine, Convergence};
use std::alloc::Global;
use well_defined::wd;

fn is_integer(formula: &Formula) -> bool
    ensures { result ≡ is_integer (type_of formula.now) }
{
    let integer = Ty::Int;
    formula.type_of(&integer).is_integer()
}

/// Adds an obligation of the whole machine, from its axioms and invariants.
fn add_of_machine(
    alloc: Global,
    out: &mut Gathered,
    machine: &CheckedMachine,
    kind: &str,
    goal: Formula,
) -> Result<(), OutOfMemory>
    requires { IsTrue (is_kind kind.now) }
    ensures { OnOk result (view out.new ≡ gathered
        (view out.old) (needed (path_with machine.now.name kind.now) machine.now.env (machine_hyps machine.now) goal)) }
{
    if is_idle(out, &goal) {
        return instead_of(goal, Ok(()));
    }
    let Ok(name) = PoName::of_component(alloc, &machine.name, kind) else {
        return instead_of(goal, Err(OutOfMemory));
    };
    let Ok(hyps) = machine_hypotheses(alloc, machine) else {
        return instead_of(goal, Err(OutOfMemory));
    };
    add_one(alloc, out, name, &machine.env, &hyps, goal)
}

/// Adds that a variant which is a set is finite.
fn add_finite(
    alloc: Global,
    out: &mut Gathered,
    machine: &CheckedMachine,
    variant: &Formula,
) -> Result<(), OutOfMemory>
    ensures { OnOk result (view out.new ≡ gathered (view out.old) (finite_row machine.now variant.now)) }
{
    if is_integer(variant) {
        return Ok(());
    }
    let goal = of_one(alloc, Op::Finite, variant.copy(alloc)?)?;
    add_of_machine(alloc, out, machine, "FIN", goal)
}

fn add_variant_row(
    alloc: Global,
    out: &mut Gathered,
    machine: &CheckedMachine,
    variant: &Formula,
) -> Result<(), OutOfMemory>
    ensures { OnOk result (view out.new ≡ gathered (view out.old) (variant_rows machine.now variant.now)) }
{
    if is_full(out) {
        return Ok(());
    }
    let goal = wd(alloc, variant)?;
    add_of_machine(alloc, out, machine, "VWD", goal)?;
    add_finite(alloc, out, machine, variant)
}

/// Adds well-definedness of a machine's variant and, where it is a set, that it is finite.
pub fn add_variant_rows(
    alloc: Global,
    out: &mut Gathered,
    machine: &CheckedMachine,
) -> Result<(), OutOfMemory>
    ensures { OnOk result (view out.new
        ≡ gathered (view out.old) (for_each (variant_rows machine.now) (option_to_list machine.now.variant))) }
{
    match &machine.variant {
        Some(variant) => add_variant_row(alloc, out, machine, variant),
        None => Ok(()),
    }
}

fn is_ordinary(event: &CheckedEvent) -> bool
    ensures { result ≡ is_ordinary event.now.convergence }
{
    match event.convergence {
        Convergence::Ordinary => true,
        _ => false,
    }
}

fn is_convergent(event: &CheckedEvent) -> bool
    ensures { result ≡ is_convergent event.now.convergence }
{
    match event.convergence {
        Convergence::Convergent => true,
        _ => false,
    }
}

fn are_convergent(events: &[&CheckedEvent]) -> bool
    ensures { result ≡ list_all (λ r. is_convergent r.convergence) (map (λ x. x.now) events.now) }
{
    for event in events {
        if !is_convergent(event) {
            return false;
        }
    }
    true
}

/// Whether the event is convergent already in the abstraction.
fn was_convergent(event: &CheckedEvent, refined: &[&CheckedEvent]) -> bool
    ensures { result ≡ was_convergent event.now (map (λ x. x.now) refined.now) }
{
    is_convergent(event) && !refined.is_empty() && are_convergent(refined)
}

/// Whether the event has nothing to do with the variant here.
fn is_free(event: &CheckedEvent, refined: &[&CheckedEvent]) -> bool
    ensures { result ≡ (is_ordinary event.now.convergence || was_convergent event.now (map (λ x. x.now) refined.now)) }
{
    is_ordinary(event) || was_convergent(event, refined)
}

/// The relation between the variant after an event and before it.
fn relation(integer: bool, convergent: bool) -> Op
    ensures { (after before : Formula)
        → predicate result (after ∷ before ∷ []) ≡ decrease integer convergent after before }
{
    if integer {
        if convergent {
            Op::Less
        } else {
            Op::LessOrEqual
        }
    } else {
        if convergent {
            Op::ProperSubset
        } else {
            Op::Subset
        }
    }
}

fn decrease(
    alloc: Global,
    convergent: bool,
    after: Formula,
    before: &Formula,
) -> Result<Formula, OutOfMemory>
    ensures { IfOk result (λ f. f ≡ decrease (is_integer (type_of before.now)) convergent after before.now) }
{
    let op = relation(is_integer(before), convergent);
    let Ok(before) = before.copy(alloc) else {
        return instead_of(after, Err(OutOfMemory));
    };
    of_two(alloc, op, after, before)
}

/// Adds that a variant which is an integer is natural.
fn add_natural(
    alloc: Global,
    out: &mut Gathered,
    parts: &SharedParts<'_>,
    variant: &Formula,
) -> Result<(), OutOfMemory>
    ensures { OnOk result (view out.new ≡ gathered (view out.old) (natural_row (parts_in parts.now) variant.now)) }
{
    if !is_integer(variant) {
        return Ok(());
    }
    let goal = natural(alloc, variant)?;
    add_whole_from_base(alloc, out, parts, "NAT", goal)
}

/// Adds that the event decreases the variant or, where it is anticipated, doesn't increase it.
fn add_decrease(
    alloc: Global,
    out: &mut Gathered,
    parts: &SharedParts<'_>,
    variant: &Formula,
) -> Result<(), OutOfMemory>
    ensures { OnOk result (view out.new
        ≡ gathered (view out.old) (decrease_row parts.now.event.now (parts_in parts.now) variant.now)) }
{
    let after = variant.substitute_any(alloc, &parts.after)?;
    let goal = decrease(alloc, is_convergent(parts.event), after, variant)?;
    add_whole_from_choices(alloc, out, parts, "VAR", goal)
}

fn add_both(
    alloc: Global,
    out: &mut Gathered,
    parts: &SharedParts<'_>,
    variant: &Formula,
) -> Result<(), OutOfMemory>
    ensures { OnOk result (view out.new ≡ gathered (view out.old) (natural_row (parts_in parts.now) variant.now
        ++ decrease_row parts.now.event.now (parts_in parts.now) variant.now)) }
{
    if is_full(out) {
        return Ok(());
    }
    add_natural(alloc, out, parts, variant)?;
    add_decrease(alloc, out, parts, variant)
}

fn add_decrease_row(
    alloc: Global,
    out: &mut Gathered,
    parts: &SharedParts<'_>,
    refined: &[&CheckedEvent],
    variant: &Formula,
) -> Result<(), OutOfMemory>
    ensures { OnOk result (view out.new ≡ gathered (view out.old)
        (decrease_rows parts.now.event.now (map (λ x. x.now) refined.now) (parts_in parts.now) variant.now)) }
{
    if is_free(parts.event, refined) {
        return Ok(());
    }
    add_both(alloc, out, parts, variant)
}

/// Adds, for an event that is convergent or anticipated and not convergent already in the abstraction, that the variant
/// is natural where it is an integer, and that the event decreases it or doesn't increase it. `refined` are the events that it refines.
pub fn add_decrease_rows(
    alloc: Global,
    out: &mut Gathered,
    parts: &SharedParts<'_>,
    refined: &[&CheckedEvent],
) -> Result<(), OutOfMemory>
    ensures { OnOk result (view out.new ≡ gathered (view out.old) (for_each
        (decrease_rows parts.now.event.now (map (λ x. x.now) refined.now) (parts_in parts.now))
        (option_to_list parts.now.machine.now.variant))) }
{
    match &parts.machine.variant {
        Some(variant) => add_decrease_row(alloc, out, parts, refined, variant),
        None => Ok(()),
    }
}
