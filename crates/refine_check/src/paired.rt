//! `no abstract event NAME`.
ghost use Rattle.std.specs.Prelude.{◌≡◌, ◌&&◌, IfOk, is_some};
ghost use Rattle.model_core.specs.Faults.{first_by_place};
ghost use Rattle.check_rules.specs.Events.{event_named};
ghost use Rattle.check_rules.specs.Refinements.{is_paired, no_abstract_event_row, no_abstract_events};

use check_rules::{AbstractEvents, is_initialisation};
use formula_core::{Name, OutOfMemory, Ref};
use model_core::{Fault, FaultKind, RawEvent, earlier, fault_at};
use std::alloc::Global;

fn is_paired(event: &RawEvent, reference: &Ref) -> bool
    ensures { result ≡ is_paired event.now reference.now }
{
    let names_start = reference.name.as_text() == "INITIALISATION";
    if is_initialisation(event) {
        names_start
    } else {
        !names_start
    }
}

fn is_abstract_event(events: &AbstractEvents<'_>, event: &RawEvent, reference: &Ref) -> bool
    ensures { result ≡ (is_some (event_named events.now reference.now.name) && is_paired event.now reference.now) }
{
    events.event_named(reference.name.as_text()).is_some() && is_paired(event, reference)
}

fn no_abstract_event_at(
    alloc: Global,
    component: &Name,
    events: &AbstractEvents<'_>,
    event: &RawEvent,
    reference: &Ref,
) -> Result<Option<Fault>, OutOfMemory>
    ensures { IfOk result (λ here.
        here ≡ first_by_place (no_abstract_event_row component.now events.now event.now reference.now)) }
{
    if is_abstract_event(events, event, reference) {
        return Ok(None);
    }
    let name = reference.name.as_text();
    let here = fault_at(
        alloc,
        component,
        FaultKind::NoAbstractEvent,
        reference.place,
        name,
    )?;
    Ok(Some(here))
}

/// The first reference of an event to an event that isn't in the abstraction, or that it may not refine.
pub(crate) fn first_no_abstract_event(
    alloc: Global,
    component: &Name,
    events: &AbstractEvents<'_>,
    event: &RawEvent,
) -> Result<Option<Fault>, OutOfMemory>
    ensures { IfOk result (λ first. first ≡ first_by_place (no_abstract_events component.now events.now event.now)) }
{
    let mut first = None;
    for reference in event.refines.items() {
        let here = no_abstract_event_at(alloc, component, events, event, reference)?;
        first = earlier(first, here);
    }
    Ok(first)
}
