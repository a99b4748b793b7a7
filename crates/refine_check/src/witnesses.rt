//! `bad witness NAME`.
ghost use Rattle.std.specs.Prelude.{◌≡◌, ◌++◌, ◌∷◌, [], not, map, IfOk, OnOk};
ghost use Rattle.std.specs.List.{filter};
ghost use Rattle.formula_core.specs.Formulas.{joined};
ghost use Rattle.type_action.specs.CoreActions.{primed};
ghost use Rattle.model_core.specs.Each.{is_among};
ghost use Rattle.std.specs.Option.{option_map};
ghost use Rattle.model_core.specs.declared.fault.FaultKind.TheVariants as kind;
ghost use Rattle.model_core.specs.Faults.{first_by_place, fault_at};
ghost use Rattle.check_rules.specs.Visible.{names};
ghost use Rattle.check_rules.specs.Events.{params_inherited};
ghost use Rattle.check_rules.specs.Refinements.{chosen, all_chosen, without_labels, missing_witness_row, superfluous_witness_row};
ghost use Rattle.refine_check.specs.Private.{kept_params, lost_param_names, chosen_first, needed_params_of, needed_of, bad_witnesses_of};
ghost use Rattle.model_core.specs.Borrowed.{texts};

use crate::names::{Names, add_entries, add_refs};
use formula_core::{Action, Label, Name, OutOfMemory, Text, Ty};
use model_core::{CheckedEvent, Fault, FaultKind, RawEvent, RawLabelled, earlier, fault_at};
use std::alloc::Global;

/// The parameters that an event inherits.
fn inherited_params<'a>(refined: &[&'a CheckedEvent], event: &RawEvent) -> &'a [(Name, Ty)]
    ensures { result.now ≡ params_inherited event.now (map (λ x. x.now) refined.now) }
{
    if !event.extended {
        return &[];
    }
    match refined.first() {
        Some(extended) => extended.params.items(),
        None => &[],
    }
}

/// The parameters of an event, inherited ones first.
pub(crate) fn param_names<'a>(
    alloc: Global,
    refined: &[&'a CheckedEvent],
    event: &'a RawEvent,
) -> Result<Names<'a>, OutOfMemory>
    ensures { IfOk result (λ found. found ≡ kept_params (map (λ x. x.now) refined.now) event.now) }
{
    let mut found = Vec::new(alloc);
    add_entries(inherited_params(refined, event), &mut found)?;
    add_refs(event.params.items(), &mut found)?;
    Names::of(alloc, found)
}

fn add_lost_params(
    alloc: Global,
    kept: &Names,
    params: &[(Name, Ty)],
    found: &mut Vec<Text>,
) -> Result<(), OutOfMemory>
    ensures { OnOk result (found.new.items
        ≡ found.old.items ++ filter (λ p. not (is_among kept.entry.now p)) (names params.entry.now)) }
{
    for param in params {
        if !kept.has(param.0.as_text()) {
            found.push(Text::of(alloc, param.0.as_text())?)?;
        }
    }
    Ok(())
}

/// Adds the parameters of the refined events that aren't kept.
fn add_all_lost_params(
    alloc: Global,
    kept: &Names,
    refined: &[&CheckedEvent],
    found: &mut Vec<Text>,
) -> Result<(), OutOfMemory>
    ensures { OnOk result (found.new.items
        ≡ found.old.items ++ lost_param_names kept.entry.now (map (λ x. x.now) refined.entry.now)) }
{
    for event in refined {
        add_lost_params(alloc, kept, event.params.items(), found)?;
    }
    Ok(())
}

/// Adds such parameters, where they want witnesses.
fn add_needed_params(
    alloc: Global,
    kept: &Names,
    refined: &[&CheckedEvent],
    event: &RawEvent,
    found: &mut Vec<Text>,
) -> Result<(), OutOfMemory>
    ensures { OnOk result (found.new.items
        ≡ found.old.items ++ needed_params_of (map (λ x. x.now) refined.entry.now) kept.entry.now event.entry.now) }
{
    if event.refines.items().len() != 1 || event.extended {
        return Ok(());
    }
    add_all_lost_params(alloc, kept, refined, found)
}

fn add_chosen<'a>(action: &'a Action, found: &mut Vec<&'a str>) -> Result<(), OutOfMemory>
    ensures { OnOk result (texts found.new.items ≡ texts found.old.items ++ chosen action.entry.now) }
{
    match action {
        Action::Assign(_) => Ok(()),
        Action::ChooseIn(name, _) => {
            found.push(name.as_text())?;
            Ok(())
        }
        Action::ChooseSuch(targets, _) => add_entries(targets.items(), found),
    }
}

/// Adds the variables that actions assign nondeterministically.
fn add_all_chosen<'a>(
    actions: &'a [(Label, Action)],
    found: &mut Vec<&'a str>,
) -> Result<(), OutOfMemory>
    ensures { OnOk result (texts found.new.items
        ≡ texts found.old.items ++ all_chosen (without_labels actions.entry.now)) }
{
    for action in actions {
        add_chosen(&action.1, found)?;
    }
    Ok(())
}

/// The variables that the first of the refined events assigns nondeterministically.
fn chosen_first<'a>(
    alloc: Global,
    refined: &[&'a CheckedEvent],
) -> Result<Vec<&'a str>, OutOfMemory>
    ensures { IfOk result (λ found. texts found.items ≡ chosen_first (map (λ x. x.now) refined.now)) }
{
    let mut found = Vec::new(alloc);
    if let Some(first) = refined.first() {
        add_all_chosen(first.actions.items(), &mut found)?;
    }
    Ok(found)
}

fn primed(alloc: Global, name: &str) -> Result<Text, OutOfMemory>
    ensures { IfOk result (λ text. text ≡ primed name.now) }
{
    let mut text = String::from_str(alloc, name)?;
    text.push_str("'")?;
    Text::of(alloc, text.as_str())
}

/// Adds the primed names of lost variables, of those that are chosen.
fn add_primed(
    alloc: Global,
    lost: &Names,
    chosen: &[&str],
    found: &mut Vec<Text>,
) -> Result<(), OutOfMemory>
    ensures { OnOk result (found.new.items
        ≡ found.old.items ++ map primed (filter (is_among lost.entry.now) (texts chosen.entry.now))) }
{
    for name in chosen {
        if lost.has(name) {
            found.push(primed(alloc, name)?)?;
        }
    }
    Ok(())
}

fn index_of(alloc: Global, needed: &[Text]) -> Result<Names<'_>, OutOfMemory>
    ensures { IfOk result (λ found. found ≡ needed.now) }
{
    let mut found = Vec::new(alloc);
    for name in needed {
        found.push(name.as_text())?;
    }
    Names::of(alloc, found)
}

fn labels_of(alloc: Global, witnesses: &[RawLabelled]) -> Result<Names<'_>, OutOfMemory>
    ensures { IfOk result (λ found. found ≡ map (λ w. w.label) witnesses.now) }
{
    let mut found = Vec::new(alloc);
    for witness in witnesses {
        found.push(witness.label.as_text())?;
    }
    Names::of(alloc, found)
}

fn missing_at(
    alloc: Global,
    component: &Name,
    place: u32,
    labels: &Names,
    name: &Text,
) -> Result<Option<Fault>, OutOfMemory>
    ensures { IfOk result (λ here.
        here ≡ first_by_place (missing_witness_row component.now place labels.now [] name.now)) }
{
    if labels.has(name.as_text()) {
        return Ok(None);
    }
    let here = fault_at(
        alloc,
        component,
        FaultKind::BadWitness,
        place,
        name.as_text(),
    )?;
    Ok(Some(here))
}

/// The first witness that is missing.
fn first_missing(
    alloc: Global,
    component: &Name,
    place: u32,
    labels: &Names,
    needed: &[Text],
) -> Result<Option<Fault>, OutOfMemory>
    ensures { IfOk result (λ first.
        first ≡ first_by_place (joined (map (missing_witness_row component.now place labels.now []) needed.now))) }
{
    let mut first = None;
    for name in needed {
        let here = missing_at(alloc, component, place, labels, name)?;
        first = earlier(first, here);
    }
    Ok(first)
}

fn is_unwitnessed(alloc: Global, labels: &Names, name: &str) -> Result<bool, OutOfMemory>
    ensures { IfOk result (λ lacking. lacking ≡ not (is_among labels.now (primed name.now))) }
{
    let wanted = primed(alloc, name)?;
    Ok(!labels.has(wanted.as_text()))
}

/// Those of the variables whose primed names have no witness.
fn unwitnessed<'a>(
    alloc: Global,
    labels: &Names,
    chosen: &[&'a str],
) -> Result<Vec<&'a str>, OutOfMemory>
    ensures { IfOk result (λ found.
        texts found.items ≡ filter (λ n. not (is_among labels.now (primed n))) (texts chosen.now)) }
{
    let mut found = Vec::new(alloc);
    for name in chosen {
        if is_unwitnessed(alloc, labels, name)? {
            found.push(*name)?;
        }
    }
    Ok(found)
}

fn told_missing(
    alloc: Global,
    component: &Name,
    place: u32,
    name: Option<&str>,
) -> Result<Option<Fault>, OutOfMemory>
    ensures { IfOk result (λ here.
        here ≡ option_map (λ n. fault_at component.now kind.BadWitness place (primed n.now)) name.entry) }
{
    match name {
        None => Ok(None),
        Some(name) => {
            let words = primed(alloc, name)?;
            let here = fault_at(
                alloc,
                component,
                FaultKind::BadWitness,
                place,
                words.as_text(),
            )?;
            Ok(Some(here))
        }
    }
}

/// The first lost variable, of those that are chosen, whose primed name has no witness.
fn first_missing_primed(
    alloc: Global,
    component: &Name,
    place: u32,
    labels: &Names,
    lost: &Names,
    chosen: &[&str],
) -> Result<Option<Fault>, OutOfMemory>
    ensures { IfOk result (λ first.
        first ≡ first_by_place (joined (map (missing_witness_row component.now place labels.now [])
        (map primed (filter (is_among (texts chosen.now)) lost.now))))) }
{
    let without = unwitnessed(alloc, labels, chosen)?;
    let first = lost.first_among(&without);
    told_missing(alloc, component, place, first)
}

fn superfluous_at(
    alloc: Global,
    component: &Name,
    needed: &Names,
    witness: &RawLabelled,
) -> Result<Option<Fault>, OutOfMemory>
    ensures { IfOk result (λ here.
        here ≡ first_by_place (superfluous_witness_row component.now needed.now [] witness.now)) }
{
    if needed.has(witness.label.as_text()) {
        return Ok(None);
    }
    let label = witness.label.as_text();
    let here = fault_at(
        alloc,
        component,
        FaultKind::BadWitness,
        witness.place,
        label,
    )?;
    Ok(Some(here))
}

/// The first witness that is superfluous.
fn first_superfluous(
    alloc: Global,
    component: &Name,
    needed: &Names,
    witnesses: &[RawLabelled],
) -> Result<Option<Fault>, OutOfMemory>
    ensures { IfOk result (λ first.
        first ≡ first_by_place (joined (map (superfluous_witness_row component.now needed.now []) witnesses.now))) }
{
    let mut first = None;
    for witness in witnesses {
        let here = superfluous_at(alloc, component, needed, witness)?;
        first = earlier(first, here);
    }
    Ok(first)
}

/// The first witness that an event lacks, or has and doesn't want.
pub(crate) fn first_bad_witness(
    alloc: Global,
    component: &Name,
    kept: &Names,
    lost: &Names,
    refined: &[&CheckedEvent],
    event: &RawEvent,
) -> Result<Option<Fault>, OutOfMemory>
    ensures { IfOk result (λ first. first ≡ first_by_place (bad_witnesses_of component.now
        (needed_of (map (λ x. x.now) refined.now) kept.now lost.now event.now) event.now)) }
{
    let place = event.name.place;
    let witnesses = event.witnesses.items();
    let labels = labels_of(alloc, witnesses)?;
    let chosen = chosen_first(alloc, refined)?;
    let mut needed = Vec::new(alloc);
    add_needed_params(alloc, kept, refined, event, &mut needed)?;
    let param = first_missing(alloc, component, place, &labels, &needed)?;
    let variable = first_missing_primed(alloc, component, place, &labels, lost, &chosen)?;
    add_primed(alloc, lost, &chosen, &mut needed)?;
    let index = index_of(alloc, &needed)?;
    let superfluous = first_superfluous(alloc, component, &index, witnesses)?;
    let missing = earlier(param, variable);
    Ok(earlier(missing, superfluous))
}
