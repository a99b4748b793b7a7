//! The variables that a machine no longer has, and where it still names them.
ghost use Rattle.std.specs.Prelude.{◌≡◌, ◌&&◌, ◌++◌, ◌∷◌, [], not, map, bytes_eq, IfOk, OnOk};
ghost use Rattle.std.specs.List.{filter, list_any};
ghost use Rattle.std.specs.Option.{option_copied};
ghost use Rattle.formula_core.specs.Formulas.{joined};
ghost use Rattle.type_formula.specs.Unknowns.{unknowns, all_unknowns, type_unknowns, bound_names_in};
ghost use Rattle.type_formula.specs.Views.{bare_of, bares_of, bounds_of};
ghost use Rattle.type_action.specs.CoreActions.{core_action, unknowns_of};
ghost use Rattle.model_core.specs.Each.{is_among};
ghost use Rattle.model_core.specs.Faults.{first_by_place};
ghost use Rattle.check_rules.specs.Visible.{names, entries, of_machine};
ghost use Rattle.check_rules.specs.Contexts.{names_of};
ghost use Rattle.check_rules.specs.Refinements.{lost_among, unknowns_in, lost_in_own, lost_in_variant};
ghost use Rattle.refine_check.specs.Private.{used_at, lost_of};
ghost use Rattle.model_core.specs.Borrowed.{texts};

use crate::names::{Names, texts_of, texts_of_refs};
use formula_core::{Name, OutOfMemory, Raw, RawAction, Ref, Ty};
use model_core::{
    CheckedMachine, Fault, FaultKind, RawEvent, RawLabelled, RawStep, RawVariant, earlier, fault_at,
};
use std::alloc::Global;
use type_formula::{BoundNames, Tree, Trees, read};

/// The variables of a machine and of all that it refines, with their types.
fn variables_of(machine: &CheckedMachine) -> &[(Name, Ty)]
    ensures { result.now ≡ entries (of_machine machine.now).variables }
{
    let all = machine.env.entries();
    let end = all.len().min(machine.env_of.items().len());
    let from = (machine.variables_from as usize).min(end);
    &all[from..end]
}

fn is_lost(old: &Names, own: &Names, name: &str) -> bool
    ensures { result ≡ (is_among old.now name.now && not (is_among own.now name.now)) }
{
    old.has(name) && !own.has(name)
}

fn add_lost<'a>(
    old: &Names,
    own: &Names,
    entries: &'a [(Name, Ty)],
    found: &mut Vec<&'a str>,
) -> Result<(), OutOfMemory>
    ensures { OnOk result (texts found.new.items ≡ texts found.old.items
        ++ filter (λ n. is_among old.entry.now n && not (is_among own.entry.now n)) (names entries.entry.now)) }
{
    for entry in entries {
        if is_lost(old, own, entry.0.as_text()) {
            found.push(entry.0.as_text())?;
        }
    }
    Ok(())
}

/// The variables of a machine that one with these variables hasn't.
pub(crate) fn lost_of<'a>(
    alloc: Global,
    machine: &'a CheckedMachine,
    variables: &[Ref],
) -> Result<Names<'a>, OutOfMemory>
    ensures { IfOk result (λ lost. lost ≡ lost_of machine.now (names_of variables.now)) }
{
    let old = Names::of(alloc, texts_of(alloc, machine.variables.items())?)?;
    let own = Names::of(alloc, texts_of_refs(alloc, variables)?)?;
    let mut found = Vec::new(alloc);
    add_lost(&old, &own, variables_of(machine), &mut found)?;
    Names::of(alloc, found)
}

fn first_lost_at(
    alloc: Global,
    component: &Name,
    lost: &Names,
    name: &Name,
    place: u32,
) -> Result<Option<Fault>, OutOfMemory>
    ensures { IfOk result (λ first.
        first ≡ first_by_place (lost_among component.now lost.now ((name.now, place) ∷ []))) }
{
    if !lost.has(name.as_text()) {
        return Ok(None);
    }
    let here = fault_at(alloc, component, FaultKind::Lost, place, name.as_text())?;
    Ok(Some(here))
}

fn has_text(bound: &[&str], name: &Name) -> bool
    ensures { result ≡ list_any (λ b. bytes_eq name.now b.now) bound.now }
{
    bound.iter().any(|b| name.as_text() == *b)
}

fn is_bound(bound: &[&str], name: &Name) -> bool
    ensures { result ≡ is_among (texts bound.now) name.now }
{
    has_text(bound, name)
}

/// The first lost variable that a formula names, but for what is bound.
#[cycle(first_lost)]
#[tactic(auto, using(crate::proofs::Faults::lost_split))]
fn first_lost<'a>(
    alloc: Global,
    component: &Name,
    lost: &Names,
    bound: &mut Vec<&'a str>,
    tree: &'a Tree,
) -> Result<Option<Fault>, OutOfMemory>
    ensures bound { OnOk result (texts bound.new.items ≡ texts bound.old.items) }
    ensures first { IfOk result (λ first. first ≡ first_by_place (lost_among component.entry.now lost.entry.now
        (unknowns [] [] (texts bound.old.items) (bare_of tree.entry.now)))) }
{
    match tree {
        Tree::Number(_) => Ok(None),
        Tree::Identifier(name, place) => {
            if is_bound(bound, name) {
                return Ok(None);
            }
            first_lost_at(alloc, component, lost, name, *place)
        }
        Tree::Form(_, parts) => first_lost_in_all(alloc, component, lost, bound, parts),
        Tree::Partition(parts) => first_lost_in_all(alloc, component, lost, bound, parts),
        Tree::Binding(_, names, parts) => {
            let first = first_lost_in_types(alloc, component, lost, bound, names)?;
            let depth = bound.len();
            add_bound(bound, names)?;
            let second = first_lost_in_all(alloc, component, lost, bound, parts)?;
            bound.truncate(depth);
            Ok(earlier(first, second))
        }
        Tree::Ascribed(formula, ty) => {
            let first = first_lost(alloc, component, lost, bound, formula)?;
            let second = first_lost(alloc, component, lost, bound, ty)?;
            Ok(earlier(first, second))
        }
        Tree::Broken(parts) => first_lost_in_all(alloc, component, lost, bound, parts),
    }
}

#[cycle(first_lost)]
#[tactic(auto, using(crate::proofs::Faults::lost_split))]
fn first_lost_in_all<'a>(
    alloc: Global,
    component: &Name,
    lost: &Names,
    bound: &mut Vec<&'a str>,
    parts: &'a Trees,
) -> Result<Option<Fault>, OutOfMemory>
    ensures bound { OnOk result (texts bound.new.items ≡ texts bound.old.items) }
    ensures first { IfOk result (λ first. first ≡ first_by_place (lost_among component.entry.now lost.entry.now
        (all_unknowns [] [] (texts bound.old.items) (bares_of parts.entry.now)))) }
{
    match parts {
        Trees::End => Ok(None),
        Trees::More(part, rest) => {
            let first = first_lost(alloc, component, lost, bound, part)?;
            let second = first_lost_in_all(alloc, component, lost, bound, rest)?;
            Ok(earlier(first, second))
        }
    }
}

/// The same in the types that are written at the names of a binder.
#[cycle(first_lost)]
#[tactic(auto, using(crate::proofs::Faults::lost_split))]
fn first_lost_in_types<'a>(
    alloc: Global,
    component: &Name,
    lost: &Names,
    bound: &mut Vec<&'a str>,
    names: &'a BoundNames,
) -> Result<Option<Fault>, OutOfMemory>
    ensures bound { OnOk result (texts bound.new.items ≡ texts bound.old.items) }
    ensures first { IfOk result (λ first. first ≡ first_by_place (lost_among component.entry.now lost.entry.now
        (type_unknowns [] [] (texts bound.old.items) (bounds_of names.entry.now)))) }
{
    match names {
        BoundNames::End => Ok(None),
        BoundNames::Plain(_, rest) => first_lost_in_types(alloc, component, lost, bound, rest),
        BoundNames::Typed(_, ty, rest) => {
            let first = first_lost(alloc, component, lost, bound, ty)?;
            let second = first_lost_in_types(alloc, component, lost, bound, rest)?;
            Ok(earlier(first, second))
        }
    }
}

fn add_bound<'a>(bound: &mut Vec<&'a str>, names: &'a BoundNames) -> Result<(), OutOfMemory>
    ensures { OnOk result (texts bound.new.items
        ≡ texts bound.old.items ++ bound_names_in (bounds_of names.entry.now)) }
{
    match names {
        BoundNames::End => Ok(()),
        BoundNames::Plain(name, rest) => {
            bound.push(name.as_text())?;
            add_bound(bound, rest)
        }
        BoundNames::Typed(name, _, rest) => {
            bound.push(name.as_text())?;
            add_bound(bound, rest)
        }
    }
}

fn first_lost_in_formula(
    alloc: Global,
    component: &Name,
    lost: &Names,
    formula: &Raw,
) -> Result<Option<Fault>, OutOfMemory>
    ensures { IfOk result (λ first.
        first ≡ first_by_place (lost_among component.now lost.now (unknowns_in formula.now))) }
{
    let tree = read(alloc, formula)?;
    let mut bound = Vec::new(alloc);
    first_lost(alloc, component, lost, &mut bound, &tree)
}

fn first_lost_in_all_formulas(
    alloc: Global,
    component: &Name,
    lost: &Names,
    formulas: &[Raw],
) -> Result<Option<Fault>, OutOfMemory>
    ensures { IfOk result (λ first.
        first ≡ first_by_place (joined (map (λ f. lost_among component.now lost.now (unknowns_in f)) formulas.now))) }
{
    let mut first = None;
    for formula in formulas {
        let here = first_lost_in_formula(alloc, component, lost, formula)?;
        first = earlier(first, here);
    }
    Ok(first)
}

fn first_lost_target(
    alloc: Global,
    component: &Name,
    lost: &Names,
    targets: &[Ref],
) -> Result<Option<Fault>, OutOfMemory>
    ensures { IfOk result (λ first.
        first ≡ first_by_place (joined (map (λ r. lost_among component.now lost.now (used_at r ∷ [])) targets.now))) }
{
    let mut first = None;
    for target in targets {
        let here = first_lost_at(alloc, component, lost, &target.name, target.place)?;
        first = earlier(first, here);
    }
    Ok(first)
}

fn first_lost_in_action(
    alloc: Global,
    component: &Name,
    lost: &Names,
    action: &RawAction,
) -> Result<Option<Fault>, OutOfMemory>
    ensures { IfOk result (λ first.
        first ≡ first_by_place (lost_among component.now lost.now (unknowns_of [] (core_action action.now)))) }
{
    match action {
        RawAction::Assign(targets, values) => {
            let first = first_lost_target(alloc, component, lost, targets.items())?;
            let second = first_lost_in_all_formulas(alloc, component, lost, values.items())?;
            Ok(earlier(first, second))
        }
        RawAction::Apply(target, x, value) => {
            let first = first_lost_at(alloc, component, lost, &target.name, target.place)?;
            let second = first_lost_in_formula(alloc, component, lost, x)?;
            let third = first_lost_in_formula(alloc, component, lost, value)?;
            Ok(earlier(first, earlier(second, third)))
        }
        RawAction::ChooseIn(target, set) => {
            let first = first_lost_at(alloc, component, lost, &target.name, target.place)?;
            let second = first_lost_in_formula(alloc, component, lost, set)?;
            Ok(earlier(first, second))
        }
        RawAction::ChooseSuch(targets, predicate) => {
            let first = first_lost_target(alloc, component, lost, targets.items())?;
            let second = first_lost_in_formula(alloc, component, lost, predicate)?;
            Ok(earlier(first, second))
        }
    }
}

fn first_lost_in_guards(
    alloc: Global,
    component: &Name,
    lost: &Names,
    guards: &[RawLabelled],
) -> Result<Option<Fault>, OutOfMemory>
    ensures { IfOk result (λ first. first
        ≡ first_by_place (joined (map (λ g. lost_among component.now lost.now (unknowns_in g.formula)) guards.now))) }
{
    let mut first = None;
    for guard in guards {
        let here = first_lost_in_formula(alloc, component, lost, &guard.formula)?;
        first = earlier(first, here);
    }
    Ok(first)
}

fn first_lost_in_actions(
    alloc: Global,
    component: &Name,
    lost: &Names,
    actions: &[RawStep],
) -> Result<Option<Fault>, OutOfMemory>
    ensures { IfOk result (λ first. first ≡ first_by_place
        (joined (map (λ s. lost_among component.now lost.now (unknowns_of [] (core_action s.action))) actions.now))) }
{
    let mut first = None;
    for step in actions {
        let here = first_lost_in_action(alloc, component, lost, &step.action)?;
        first = earlier(first, here);
    }
    Ok(first)
}

/// The first lost variable in an event's own guards and actions.
pub(crate) fn first_lost_in_own(
    alloc: Global,
    component: &Name,
    lost: &Names,
    event: &RawEvent,
) -> Result<Option<Fault>, OutOfMemory>
    ensures { IfOk result (λ first. first ≡ first_by_place (lost_in_own component.now lost.now event.now)) }
{
    let first = first_lost_in_guards(alloc, component, lost, event.guards.items())?;
    let second = first_lost_in_actions(alloc, component, lost, event.actions.items())?;
    Ok(earlier(first, second))
}

/// The first lost variable in a variant.
pub(crate) fn first_lost_in_variant(
    alloc: Global,
    component: &Name,
    lost: &Names,
    variant: &Option<RawVariant>,
) -> Result<Option<Fault>, OutOfMemory>
    ensures { IfOk result (λ first. first ≡ first_by_place (lost_in_variant component.now lost.now variant.now)) }
{
    match variant {
        Some(variant) => first_lost_in_formula(alloc, component, lost, &variant.formula),
        None => Ok(None),
    }
}
