//! `merged events differ`.
ghost use Rattle.std.specs.Prelude.{◌≡◌, ◌++◌, ◌||◌, [], not, IfOk, OnOk};
ghost use Rattle.std.specs.List.{filter_map, list_all};
ghost use Rattle.formula_core.specs.Same.{same_actions};
ghost use Rattle.formula_core.specs.declared.raw.Ref.{Ref as Reference};
ghost use Rattle.model_core.specs.Each.{at_each, is_among};
ghost use Rattle.model_core.specs.Faults.{first_by_place};
ghost use Rattle.check_rules.specs.Visible.{names};
ghost use Rattle.check_rules.specs.Events.{with_event};
ghost use Rattle.check_rules.specs.Refinements.{without_labels, first_actions, differs_in_merge, merged_differ_row};
ghost use Rattle.refine_check.specs.Private.{found_at, HasTypesOf, merged_differ_of};

use crate::names::Names;
use crate::param_types::{Types, has_other_there, note_types};
use check_rules::AbstractEvents;
use formula_core::{Name, OutOfMemory, Ref, Ty, same_labelled_actions};
use model_core::{CheckedEvent, Fault, FaultKind, RawEvent, earlier, fault_at};
use std::alloc::Global;
use std::collections::BTreeMap;

/// A reference of an event with the abstract event of that name.
type Found<'r, 'e> = (&'r Ref, &'e CheckedEvent);

fn add_found<'r, 'e>(
    events: &AbstractEvents<'e>,
    references: &'r [Ref],
    found: &mut Vec<Found<'r, 'e>>,
) -> Result<(), OutOfMemory>
    ensures { OnOk result (found_at found.new.items
        ≡ found_at found.old.items ++ filter_map (with_event events.now) references.entry.now) }
{
    for reference in references {
        if let Some(event) = events.event_named(reference.name.as_text()) {
            found.push((reference, event))?;
        }
    }
    Ok(())
}

/// The first of the merged events.
fn first_of<'e>(before: &[Found<'_, 'e>], event: &'e CheckedEvent) -> &'e CheckedEvent
    ensures { (reference : Reference)
        → first_actions (found_at before.now) (reference, event.now) ≡ without_labels result.now.actions }
{
    match before.first() {
        Some(found) => found.1,
        None => event,
    }
}

fn have_same_actions(before: &[Found], event: &CheckedEvent) -> bool
    ensures { (reference : Reference) → result
        ≡ same_actions (first_actions (found_at before.now) (reference, event.now)) (without_labels event.now.actions) }
{
    let first = first_of(before, event);
    same_labelled_actions(first.actions.items(), event.actions.items())
}

fn are_all_kept(kept: &Names, params: &[(Name, Ty)]) -> bool
    ensures { result ≡ list_all (λ p. is_among kept.now p.0) params.now }
{
    params.iter().all(|p| kept.has(p.0.as_text()))
}

fn is_any(same: bool, kept: bool, other: bool) -> bool
    ensures { result ≡ (not same || not kept || other) }
{
    !same || !kept || other
}

/// Whether an event can't be merged with those before it, whose parameters have these types.
fn differs(kept: &Names, before: &[Found], types: &Types<'_>, event: &CheckedEvent) -> bool
    requires { HasTypesOf types.now (found_at before.now) }
    ensures { (reference : Reference)
        → result ≡ differs_in_merge kept.now (found_at before.now) (reference, event.now) }
{
    let params = event.params.items();
    let same = have_same_actions(before, event);
    let all_kept = are_all_kept(kept, params);
    let other = has_other_there(types, params);
    is_any(same, all_kept, other)
}

fn difference_at(
    alloc: Global,
    component: &Name,
    kept: &Names,
    before: &[Found],
    types: &Types<'_>,
    reference: &Ref,
    event: &CheckedEvent,
) -> Result<Option<Fault>, OutOfMemory>
    requires { HasTypesOf types.now (found_at before.now) }
    ensures { IfOk result (λ here. here
        ≡ first_by_place (merged_differ_row component.now kept.now (found_at before.now) (reference.now, event.now))) }
{
    if !differs(kept, before, types, event) {
        return Ok(None);
    }
    let here = fault_at(
        alloc,
        component,
        FaultKind::MergedDiffer,
        reference.place,
        "",
    )?;
    Ok(Some(here))
}

fn first_difference_of(
    alloc: Global,
    component: &Name,
    kept: &Names,
    found: &[Found],
) -> Result<Option<Fault>, OutOfMemory>
    ensures { IfOk result (λ first.
        first ≡ first_by_place (at_each (merged_differ_row component.now kept.now) [] (found_at found.now))) }
{
    let mut first = None;
    let mut types = BTreeMap::new(alloc);
    for at in 0..found.len() {
        let one = found[at];
        let before = &found[..at];
        let here = difference_at(alloc, component, kept, before, &types, one.0, one.1)?;
        first = earlier(first, here);
        note_types(&mut types, one.1.params.items())?;
    }
    Ok(first)
}

/// The first of several refined events that can't be merged with those before it.
pub(crate) fn first_difference(
    alloc: Global,
    component: &Name,
    events: &AbstractEvents<'_>,
    kept: &Names,
    event: &RawEvent,
) -> Result<Option<Fault>, OutOfMemory>
    ensures { IfOk result (λ first.
        first ≡ first_by_place (merged_differ_of component.now events.now kept.now event.now)) }
{
    let references = event.refines.items();
    if references.len() < 2 {
        return Ok(None);
    }
    let mut found = Vec::new(alloc);
    add_found(events, references, &mut found)?;
    first_difference_of(alloc, component, kept, &found)
}
