//! The events of an abstraction by their names, and those that an event refines or extends.
ghost use Rattle.std.specs.Prelude.{◌≡◌, ◌++◌, ℕ, List, IfOk, OnOk, map};
ghost use Rattle.std.specs.List.{filter_map};
ghost use Rattle.std.specs.Option.{option_copied, option_to_list};
ghost use Rattle.check_rules.specs.Events.{event_named, with_event, refined_at, implied_events, is_initialisation, refined};
ghost use Rattle.check_rules.specs.Private.{event_placed};

use formula_core::{Name, OutOfMemory, Ref};
use model_core::{CheckedEvent, RawEvent};
use std::alloc::Global;
use std::collections::BTreeMap;
use std::marker::Model;

/// The events of an abstraction, with an index by their names. Contracts see them as their list.
#[derive(Drop)]
pub struct AbstractEvents<'a> {
    list: &'a [CheckedEvent],
    /// The first place of each name.
    places: BTreeMap<&'a str, usize>,
}

impl<'a> Model for AbstractEvents<'a> {
    ghost use Rattle.std.specs.Prelude.{◌≡◌, ℕ, List};
    ghost use Rattle.std.specs.Coded.{codes};
    ghost use Rattle.model_core.specs.declared.checked.CheckedEvent.{CheckedEvent};
    ghost use Rattle.model_core.specs.contracts.checked.CheckedEvent as event;
    ghost use Rattle.check_rules.specs.Events.{event_named};
    ghost use Rattle.check_rules.specs.Private.{event_placed};

    ghost Value = { List CheckedEvent };

    ghost coded = { Prim.hlevel (codes, event.the_row.coded) };

    ghost view = { λ a. a.list.now };

    ghost invariant = { λ a. (name : List ℕ) → event_placed a.list.now a.places name ≡ event_named a.list.now name };
}

impl<'a> AbstractEvents<'a> {
    pub fn of(alloc: Global, list: &'a [CheckedEvent]) -> Result<AbstractEvents<'a>, OutOfMemory>
        ensures { IfOk result (λ events. events ≡ list.entry.now) }
    {
        let places = places_of(alloc, list)?;
        Ok(AbstractEvents { list, places })
    }

    /// The first event of the name.
    pub fn event_named(&self, name: &str) -> Option<&'a CheckedEvent>
        ensures { option_copied result ≡ event_named self.now name.now }
    {
        let place = self.places.get(name)?;
        self.list.get(*place)
    }
}

/// The first place of each name: the events are noted from the last to the first.
fn places_of<'a>(
    alloc: Global,
    list: &'a [CheckedEvent],
) -> Result<BTreeMap<&'a str, usize>, OutOfMemory>
    ensures { IfOk result (λ places. (name : List ℕ)
        → event_placed list.entry.now places name ≡ event_named list.entry.now name) }
{
    let mut places = BTreeMap::new(alloc);
    for place in (0..list.len()).rev() {
        places.insert(list[place].name.as_text(), place)?;
    }
    Ok(places)
}

pub fn is_initialisation(event: &RawEvent) -> bool
    ensures { result ≡ is_initialisation event.now }
{
    event.name.name.as_text() == "INITIALISATION"
}

/// Adds the events that are named.
fn add_named<'a>(
    events: &AbstractEvents<'a>,
    references: &[Ref],
    found: &mut Vec<&'a CheckedEvent>,
) -> Result<(), OutOfMemory>
    ensures { OnOk result (map (λ x. x.now) found.new.items
        ≡ map (λ x. x.now) found.old.items ++ map (λ x. x.1) (filter_map (with_event events.now) references.now)) }
{
    for reference in references {
        if let Some(event) = events.event_named(reference.name.as_text()) {
            found.push(event)?;
        }
    }
    Ok(())
}

/// Adds the one that INITIALISATION refines where nothing is written.
fn add_implied<'a>(
    events: &AbstractEvents<'a>,
    event: &RawEvent,
    found: &mut Vec<&'a CheckedEvent>,
) -> Result<(), OutOfMemory>
    ensures { OnOk result (map (λ x. x.now) found.new.items
        ≡ map (λ x. x.now) found.old.items ++ implied_events events.now event.now) }
{
    if !is_initialisation(event) || !event.refines.items().is_empty() {
        return Ok(());
    }
    if let Some(start) = events.event_named("INITIALISATION") {
        found.push(start)?;
    }
    Ok(())
}

/// The abstract events that an event refines or extends, of those that are there.
pub fn refined<'a>(
    alloc: Global,
    events: &AbstractEvents<'a>,
    event: &RawEvent,
) -> Result<Vec<&'a CheckedEvent>, OutOfMemory>
    ensures { IfOk result (λ found. map (λ x. x.now) found.items ≡ refined events.now event.now) }
{
    let mut found = Vec::new(alloc);
    add_named(events, event.refines.items(), &mut found)?;
    add_implied(events, event, &mut found)?;
    Ok(found)
}
