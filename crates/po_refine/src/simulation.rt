//! That abstract actions are simulated.
ghost use Rattle.std.specs.Prelude.{◌≡◌, ◌++◌, ◌∷◌, [], IfOk, OnOk, map};
ghost use Rattle.std.specs.List.{list_any};
ghost use Rattle.formula_core.specs.Formulas.{substituted};
ghost use Rattle.formula_core.specs.Names.{prime, with_prime};
ghost use Rattle.formula_core.specs.Same.{same_action};
ghost use Rattle.well_defined.specs.Predicates.{member};
ghost use Rattle.model_core.specs.Each.{for_each};
ghost use Rattle.po_rules.specs.Gathering.{gathered};
ghost use Rattle.po_rules.specs.Parts.{actions_of, as_term};
ghost use Rattle.po_rules.specs.Rows.{simulated, simulated_value, simulation_row, simulation_rows};
ghost use Rattle.po_machine.specs.Shared.{view, parts_in};
ghost use Rattle.po_refine.specs.Private.{value_of_primed};

use crate::chains::chain;
use crate::events::{first_one, is_extended};
use crate::full::is_full;
use formula_core::{Action, Formula, Label, Name, Op, OutOfMemory, Ty};
use model_core::CheckedEvent;
use po_machine::{Gathered, Names, SharedParts, add_from_witnesses, label_part, of_two, top};
use std::alloc::Global;

/// Whether an action of the event is the same one, but for its label.
fn has_action(event: &CheckedEvent, action: &Action) -> bool
    ensures { result ≡ list_any (same_action action.now) (actions_of event.now) }
{
    for own in event.actions.items() {
        if action.same(&own.1) {
            return true;
        }
    }
    false
}

/// The value of a variable after the event.
fn value_after(
    alloc: Global,
    parts: &SharedParts<'_>,
    name: &Name,
    ty: &Ty,
) -> Result<Formula, OutOfMemory>
    ensures { IfOk result (λ f. f ≡ substituted (parts_in parts.now).after (as_term (name.now, ty.now))) }
{
    let variable = Formula::Free(name.copy(alloc)?, ty.copy(alloc)?);
    variable.substitute_any(alloc, &parts.after)
}

/// Adds `after(x) = E`, where x isn't lost.
fn add_value(
    alloc: Global,
    values: &mut Vec<Formula>,
    parts: &SharedParts<'_>,
    lost: &Names<'_>,
    pair: &(Name, Formula),
) -> Result<(), OutOfMemory>
    requires { lost.now ≡ parts.now.machine.now.lost }
    ensures { OnOk result (values.new.items
        ≡ values.old.items ++ simulated_value parts.now.machine.now (parts_in parts.now) pair.now) }
{
    if lost.has(&pair.0) {
        return Ok(());
    }
    let integer = Ty::Int;
    let after = value_after(alloc, parts, &pair.0, pair.1.type_of(&integer))?;
    let value = of_two(alloc, Op::Equal, after, pair.1.copy(alloc)?)?;
    values.push(value)?;
    Ok(())
}

fn values_of(
    alloc: Global,
    parts: &SharedParts<'_>,
    lost: &Names<'_>,
    pairs: &[(Name, Formula)],
) -> Result<Vec<Formula>, OutOfMemory>
    requires { lost.now ≡ parts.now.machine.now.lost }
    ensures { IfOk result (λ fs.
        fs.items ≡ for_each (simulated_value parts.now.machine.now (parts_in parts.now)) pairs.now) }
{
    let mut values = Vec::new(alloc);
    for pair in pairs {
        add_value(alloc, &mut values, parts, lost, pair)?;
    }
    Ok(values)
}

/// `x'`. No target of a checked component has a prime, which is not proved here: for one that has, this answers
/// `OutOfMemory`.
fn primed(alloc: Global, name: &Name) -> Result<Name, OutOfMemory>
    ensures { IfOk result (λ n. n ≡ name.now ++ prime ∷ []) }
{
    if name.is_primed() {
        return Err(OutOfMemory);
    }
    name.primed(alloc)
}

/// `x'` with the value of x after the event.
fn value_of_primed(
    alloc: Global,
    parts: &SharedParts<'_>,
    name: &Name,
    ty: &Ty,
) -> Result<(Name, Formula), OutOfMemory>
    ensures { IfOk result (λ pair. pair ≡ value_of_primed (parts_in parts.now) (name.now, ty.now)) }
{
    let after = value_after(alloc, parts, name, ty)?;
    Ok((primed(alloc, name)?, after))
}

fn values_of_primed(
    alloc: Global,
    parts: &SharedParts<'_>,
    targets: &[(Name, Ty)],
) -> Result<Vec<(Name, Formula)>, OutOfMemory>
    ensures { IfOk result (λ pairs. pairs.items ≡ map (value_of_primed (parts_in parts.now)) targets.now) }
{
    let mut pairs = Vec::new(alloc);
    for target in targets {
        pairs.push(value_of_primed(alloc, parts, &target.0, &target.1)?)?;
    }
    Ok(pairs)
}

/// `x' ∈ S`.
fn is_chosen_in(alloc: Global, name: &Name, ty: &Ty, set: &Formula) -> Result<Formula, OutOfMemory>
    ensures { IfOk result (λ f. f ≡ member (as_term (with_prime (name.now, ty.now))) set.now) }
{
    let chosen = Formula::Free(primed(alloc, name)?, ty.copy(alloc)?);
    of_two(alloc, Op::Member, chosen, set.copy(alloc)?)
}

/// `x' ∈ S`, of the value of x after the event.
fn simulated_choice(
    alloc: Global,
    parts: &SharedParts<'_>,
    name: &Name,
    ty: &Ty,
    set: &Formula,
) -> Result<Formula, OutOfMemory>
    ensures { IfOk result (λ f. f ≡ substituted (value_of_primed (parts_in parts.now) (name.now, ty.now) ∷ [])
        (member (as_term (with_prime (name.now, ty.now))) set.now)) }
{
    let mut pairs = Vec::new(alloc);
    pairs.push(value_of_primed(alloc, parts, name, ty)?)?;
    let chosen = is_chosen_in(alloc, name, ty, set)?;
    chosen.substitute_any(alloc, &pairs)
}

fn simulated_in(
    alloc: Global,
    parts: &SharedParts<'_>,
    name: &Name,
    set: &Formula,
) -> Result<Formula, OutOfMemory>
    ensures { IfOk result (λ f.
        f ≡ simulated parts.now.machine.now (parts_in parts.now) (Action.ChooseIn name.now set.now)) }
{
    let integer = Ty::Int;
    match set.type_of(&integer).members() {
        Some(ty) => simulated_choice(alloc, parts, name, ty, set),
        None => Ok(top(alloc)),
    }
}

/// What an abstract action says of the values after the event.
fn simulated(
    alloc: Global,
    parts: &SharedParts<'_>,
    lost: &Names<'_>,
    action: &Action,
) -> Result<Formula, OutOfMemory>
    requires { lost.now ≡ parts.now.machine.now.lost }
    ensures { IfOk result (λ f. f ≡ simulated parts.now.machine.now (parts_in parts.now) action.now) }
{
    match action {
        Action::Assign(pairs) => {
            let values = values_of(alloc, parts, lost, pairs.items())?;
            chain(alloc, Op::And, values)
        }
        Action::ChooseIn(name, set) => simulated_in(alloc, parts, name, set),
        Action::ChooseSuch(targets, predicate) => {
            let pairs = values_of_primed(alloc, parts, targets.items())?;
            predicate.substitute_any(alloc, &pairs)
        }
    }
}

fn add_simulation_row(
    alloc: Global,
    out: &mut Gathered,
    parts: &SharedParts<'_>,
    lost: &Names<'_>,
    action: &(Label, Action),
) -> Result<(), OutOfMemory>
    requires { lost.now ≡ parts.now.machine.now.lost }
    ensures { OnOk result (view out.new ≡ gathered
        (view out.old) (simulation_row parts.now.machine.now parts.now.event.now (parts_in parts.now) action.now)) }
{
    if is_full(out) {
        return Ok(());
    }
    if has_action(parts.event, &action.1) {
        return Ok(());
    }
    let goal = simulated(alloc, parts, lost, &action.1)?;
    add_from_witnesses(alloc, out, parts, label_part(&action.0), "SIM", goal)
}

fn add_each_action(
    alloc: Global,
    out: &mut Gathered,
    parts: &SharedParts<'_>,
    actions: &[(Label, Action)],
) -> Result<(), OutOfMemory>
    ensures { OnOk result (view out.new ≡ gathered (view out.old)
        (for_each (simulation_row parts.now.machine.now parts.now.event.now (parts_in parts.now)) actions.now)) }
{
    let lost = Names::of_list(alloc, parts.machine.lost.items())?;
    for action in actions {
        add_simulation_row(alloc, out, parts, &lost, action)?;
    }
    Ok(())
}

/// Simulation: an event that refines another, and does not extend it, does what each of its actions says. Of several
/// refined events the first one counts.
pub fn add_simulation_rows(
    alloc: Global,
    out: &mut Gathered,
    parts: &SharedParts<'_>,
    refined: &[&CheckedEvent],
) -> Result<(), OutOfMemory>
    ensures { OnOk result (view out.new ≡ gathered (view out.old)
        (simulation_rows parts.now.machine.now parts.now.event.now (map (λ x. x.now) refined.now)
        (parts_in parts.now))) }
{
    if is_extended(parts.event) {
        return Ok(());
    }
    match first_one(refined) {
        Some(event) => add_each_action(alloc, out, parts, event.actions.items()),
        None => Ok(()),
    }
}
