//! The names and labels of a machine that are declared twice.

ghost use Rattle.std.specs.Prelude.{◌≡◌, ◌++◌, ◌||◌, ◌∷◌, [], not, ℕ, List, IfOk, OnOk, map};
ghost use Rattle.std.specs.List.{filter};
ghost use Rattle.std.specs.Option.{option_copied};
ghost use Rattle.formula_core.specs.Formulas.{joined};
ghost use Rattle.model_core.specs.Each.{is_among};
ghost use Rattle.model_core.specs.Faults.{first_by_place};
ghost use Rattle.check_rules.specs.Contexts.{names_of};
ghost use Rattle.check_rules.specs.Declarations.{declared_twice};
ghost use Rattle.check_rules.specs.Events.{event_declarations};
ghost use Rattle.check_rules.specs.Machines.{abstract_events};
ghost use Rattle.check_rules.specs.Visible.{entries, all_visible, names};
ghost use Rattle.context_check.specs.Texts.{mark_of, ref_mark};
ghost use Rattle.model_core.specs.Borrowed.{has};
ghost use Rattle.machine_check.specs.PrivateMachine.{own_declarations, written_of};
ghost use Rattle.context_check.specs.Views.{placed, visible};

use crate::assignments::texts_of;
use crate::event_names::first_declared_in_events;
use crate::machine::WrittenMachine;
use crate::refined_machine::abstract_variables;
use check_rules::AbstractEvents;
use context_check::context::first_labelled_twice;
use context_check::declarations::{Mark, Texts, add_refs, first_repeated, has, put};
use context_check::visible::{Placed, View};
use formula_core::{Name, OutOfMemory, Ref, Ty};
use model_core::{CheckedMachine, Fault, FaultKind, RawEvent, earlier};
use std::alloc::Global;
use std::collections::BTreeSet;

fn put_unless<'a>(
    texts: &mut Texts<'a>,
    except: &Texts<'_>,
    text: &'a str,
) -> Result<(), OutOfMemory>
    ensures { OnOk result ((x : List ℕ) → has texts.new x
        ≡ (has texts.old x || is_among (filter (λ n. not (has except.now n)) (text.now ∷ [])) x)) }
{
    if !has(except, text) {
        put(texts, text)?;
    }
    Ok(())
}

/// Adds the names of identifiers, but for some.
fn add_identifiers<'a>(
    texts: &mut Texts<'a>,
    except: &Texts<'_>,
    parts: &'a [Placed<'_, (Name, Ty)>],
) -> Result<(), OutOfMemory>
    ensures { OnOk result ((x : List ℕ) → has texts.new x
        ≡ (has texts.old x || is_among (filter (λ n. not (has except.now n))
        (names (entries (map placed parts.now)))) x)) }
{
    for part in parts {
        put_unless(texts, except, part.0.0.as_text())?;
    }
    Ok(())
}

/// The names that are seen, but for some.
fn names_but<'a>(
    alloc: Global,
    except: &Texts<'_>,
    view: &'a View<'_>,
) -> Result<Texts<'a>, OutOfMemory>
    ensures { IfOk result (λ texts. (x : List ℕ) → has texts x
        ≡ is_among (filter (λ n. not (has except.now n)) (names (entries (all_visible (visible view.now))))) x) }
{
    let mut texts = BTreeSet::new(alloc);
    add_identifiers(&mut texts, except, &view.constants)?;
    add_identifiers(&mut texts, except, &view.variables)?;
    Ok(texts)
}

/// The first variable that is seen and isn't kept, or stands before it.
fn first_variable_twice(
    alloc: Global,
    component: &Name,
    kept: &[Name],
    view: &View<'_>,
    variables: &[Ref],
) -> Result<Option<Fault>, OutOfMemory>
    ensures { IfOk result (λ first. first ≡ first_by_place
        (declared_twice component.now (filter (λ n. not (is_among kept.now n))
        (names (entries (all_visible (visible view.now))))) variables.now)) }
{
    let kept = texts_of(alloc, kept)?;
    let known = names_but(alloc, &kept, view)?;
    let mut marks = Vec::new(alloc);
    add_refs(&mut marks, variables)?;
    let first = first_repeated(
        alloc,
        component,
        FaultKind::DeclaredTwice,
        &known,
        BTreeSet::new(alloc),
        &marks,
    )?;
    Ok(first)
}

/// Adds the names of events with their places.
fn add_events<'a>(marks: &mut Vec<Mark<'a>>, events: &'a [RawEvent]) -> Result<(), OutOfMemory>
    ensures { OnOk result (map mark_of marks.new.items ≡ map mark_of marks.old.items
        ++ map (λ e. ref_mark e.name) events.entry.now) }
{
    for event in events {
        marks.push(Mark {
            text: event.name.name.as_text(),
            place: event.name.place,
        })?;
    }
    Ok(())
}

/// The first event whose name stands before it.
fn first_event_twice(
    alloc: Global,
    component: &Name,
    events: &[RawEvent],
) -> Result<Option<Fault>, OutOfMemory>
    ensures { IfOk result (λ first. first ≡ first_by_place
        (declared_twice component.now [] (map (λ e. e.name) events.now))) }
{
    let known = BTreeSet::new(alloc);
    let mut marks = Vec::new(alloc);
    add_events(&mut marks, events)?;
    let first = first_repeated(
        alloc,
        component,
        FaultKind::DeclaredTwice,
        &known,
        BTreeSet::new(alloc),
        &marks,
    )?;
    Ok(first)
}

/// Adds the names of references.
pub fn add_ref_names<'a>(texts: &mut Texts<'a>, refs: &'a [Ref]) -> Result<(), OutOfMemory>
    ensures { OnOk result ((x : List ℕ) → has texts.new x ≡ (has texts.old x || is_among (names_of refs.entry.now) x)) }
{
    for r in refs {
        put(texts, r.name.as_text())?;
    }
    Ok(())
}

/// The names that are seen, and the machine's variables.
fn all_names<'a>(
    alloc: Global,
    view: &'a View<'_>,
    variables: &'a [Ref],
) -> Result<Texts<'a>, OutOfMemory>
    ensures { IfOk result (λ texts. (x : List ℕ) → has texts x
        ≡ is_among (names (entries (all_visible (visible view.now))) ++ names_of variables.entry.now) x) }
{
    let none = BTreeSet::new(alloc);
    let mut texts = names_but(alloc, &none, view)?;
    add_ref_names(&mut texts, variables)?;
    Ok(texts)
}

/// The first fault of kinds 10 and 11 of the events, where `events` are those of the abstraction.
fn first_in_events(
    alloc: Global,
    component: &Name,
    events: &AbstractEvents<'_>,
    view: &View<'_>,
    variables: &[Ref],
    written: &[RawEvent],
) -> Result<Option<Fault>, OutOfMemory>
    ensures { IfOk result (λ first. first ≡ first_by_place
        (joined (map (event_declarations component.now events.now
        (names (entries (all_visible (visible view.now))) ++ names_of variables.now)) written.now))) }
{
    let known = all_names(alloc, view, variables)?;
    let first = first_declared_in_events(alloc, component, events, &known, written)?;
    Ok(first)
}

/// The first fault of kinds 10 and 11 that no reference to a context brings.
pub fn first_own_declaration(
    alloc: Global,
    abstraction: Option<&CheckedMachine>,
    events: &AbstractEvents<'_>,
    written: &WrittenMachine<'_>,
    view: &View<'_>,
) -> Result<Option<Fault>, OutOfMemory>
    requires { events.now ≡ abstract_events (option_copied abstraction) }
    ensures { IfOk result (λ first. first ≡ first_by_place
        (own_declarations (option_copied abstraction.entry) (written_of written.now) (visible view.now))) }
{
    let component = &written.name.name;
    let kept = abstract_variables(abstraction);
    let variable = first_variable_twice(alloc, component, kept, view, written.variables)?;
    let label = first_labelled_twice(alloc, component, written.invariants)?;
    let event = first_event_twice(alloc, component, written.events)?;
    let in_events = first_in_events(
        alloc,
        component,
        events,
        view,
        written.variables,
        written.events,
    )?;
    Ok(earlier(earlier(earlier(variable, label), event), in_events))
}
