//! The names and labels of events that are declared twice.

ghost use Rattle.std.specs.Prelude.{◌≡◌, ◌++◌, ◌||◌, ◌∷◌, [], ℕ, List, IfOk, OnOk, bytes_eq, map};
ghost use Rattle.std.specs.List.{list_any};
ghost use Rattle.formula_core.specs.Formulas.{joined};
ghost use Rattle.model_core.specs.declared.fault.FaultKind.TheVariants as kind;
ghost use Rattle.model_core.specs.Each.{is_among};
ghost use Rattle.model_core.specs.Faults.{first_by_place};
ghost use Rattle.check_rules.specs.Visible.{names};
ghost use Rattle.check_rules.specs.Events.{event_labels};
ghost use Rattle.context_check.specs.Texts.{mark_of, ref_mark, repeated};
ghost use Rattle.model_core.specs.Borrowed.{has};
ghost use Rattle.machine_check.specs.PrivateNames.{step_mark, clash_of, clash_at, declared_in};

use crate::assignments::{add_names_of, fault_if};
use crate::environment::inherited_params;
use crate::event::{actions_in, extended, guards_in};
use check_rules::{AbstractEvents, refined};
use context_check::declarations::{Mark, Texts, add_labels, add_refs, first_repeated, has, put};
use formula_core::{Action, Label, Name, OutOfMemory, Ref, Ty};
use model_core::{Fault, FaultKind, Labelled, RawEvent, RawStep, earlier};
use std::alloc::Global;
use std::collections::BTreeSet;

fn clash_of(
    alloc: Global,
    component: &Name,
    known: &Texts<'_>,
    place: u32,
    param: &(Name, Ty),
) -> Result<Option<Fault>, OutOfMemory>
    ensures { IfOk result (λ here. here ≡ first_by_place (clash_of component.now (has known.now) place param.now)) }
{
    let text = param.0.as_text();
    let stands = has(known, text);
    fault_if(
        alloc,
        component,
        stands,
        FaultKind::DeclaredTwice,
        place,
        text,
    )
}

/// The first parameter of a refined event that is known here.
fn first_clash_of(
    alloc: Global,
    component: &Name,
    known: &Texts<'_>,
    place: u32,
    params: &[(Name, Ty)],
) -> Result<Option<Fault>, OutOfMemory>
    ensures { IfOk result (λ first. first ≡ first_by_place
        (joined (map (clash_of component.now (has known.now) place) (map (λ p. p) params.now)))) }
{
    let mut first = None;
    for param in params {
        let here = clash_of(alloc, component, known, place, param)?;
        first = earlier(first, here);
    }
    Ok(first)
}

fn clash_at(
    alloc: Global,
    component: &Name,
    events: &AbstractEvents<'_>,
    known: &Texts<'_>,
    reference: &Ref,
) -> Result<Option<Fault>, OutOfMemory>
    ensures { IfOk result (λ here. here ≡ first_by_place
        (clash_at component.now events.now (has known.now) reference.now)) }
{
    match events.event_named(reference.name.as_text()) {
        Some(event) => first_clash_of(
            alloc,
            component,
            known,
            reference.place,
            event.params.items(),
        ),
        None => Ok(None),
    }
}

/// The first reference of an event that brings a parameter which is known here.
fn first_clash(
    alloc: Global,
    component: &Name,
    events: &AbstractEvents<'_>,
    known: &Texts<'_>,
    references: &[Ref],
) -> Result<Option<Fault>, OutOfMemory>
    ensures { IfOk result (λ first. first ≡ first_by_place
        (joined (map (clash_at component.now events.now (has known.now)) (map (λ r. r) references.now)))) }
{
    let mut first = None;
    for reference in references {
        let here = clash_at(alloc, component, events, known, reference)?;
        first = earlier(first, here);
    }
    Ok(first)
}

/// The first parameter of an event that is known, inherited or stands before it.
fn first_param_twice(
    alloc: Global,
    component: &Name,
    known: &Texts<'_>,
    inherited: &[(Name, Ty)],
    params: &[Ref],
) -> Result<Option<Fault>, OutOfMemory>
    ensures { IfOk result (λ first. first ≡ first_by_place
        (repeated kind.DeclaredTwice component.now (λ x. has known.now x || is_among (names inherited.now) x)
        (map ref_mark params.now))) }
{
    let mut seen = BTreeSet::new(alloc);
    add_names_of(&mut seen, inherited)?;
    let mut marks = Vec::new(alloc);
    add_refs(&mut marks, params)?;
    first_repeated(
        alloc,
        component,
        FaultKind::DeclaredTwice,
        known,
        seen,
        &marks,
    )
}

fn add_formula_labels<'a>(
    texts: &mut Texts<'a>,
    labelled: &'a [Labelled],
) -> Result<(), OutOfMemory>
    ensures { OnOk result ((x : List ℕ) → has texts.new x
        ≡ (has texts.old x || list_any (λ l. bytes_eq x l.label) labelled.entry.now)) }
{
    for one in labelled {
        put(texts, one.label.get().as_text())?;
    }
    Ok(())
}

fn add_action_labels<'a>(
    texts: &mut Texts<'a>,
    actions: &'a [(Label, Action)],
) -> Result<(), OutOfMemory>
    ensures { OnOk result ((x : List ℕ) → has texts.new x
        ≡ (has texts.old x || list_any (λ a. bytes_eq x a.0) actions.entry.now)) }
{
    for action in actions {
        put(texts, action.0.as_text())?;
    }
    Ok(())
}

/// The labels that an event inherits.
fn labels_in<'a>(
    alloc: Global,
    guards: &'a [Labelled],
    actions: &'a [(Label, Action)],
) -> Result<Texts<'a>, OutOfMemory>
    ensures { IfOk result (λ texts. (x : List ℕ) → has texts x
        ≡ is_among (map (λ l. l.label) guards.entry.now ++ map (λ a. a.0) actions.entry.now) x) }
{
    let mut texts = BTreeSet::new(alloc);
    add_formula_labels(&mut texts, guards)?;
    add_action_labels(&mut texts, actions)?;
    Ok(texts)
}

/// Adds the labels of actions with their places.
fn add_steps<'a>(marks: &mut Vec<Mark<'a>>, steps: &'a [RawStep]) -> Result<(), OutOfMemory>
    ensures { OnOk result (map mark_of marks.new.items ≡ map mark_of marks.old.items ++ map step_mark steps.entry.now) }
{
    for step in steps {
        marks.push(Mark {
            text: step.label.as_text(),
            place: step.place,
        })?;
    }
    Ok(())
}

/// The labels of an event with their places.
fn label_marks<'a>(alloc: Global, event: &'a RawEvent) -> Result<Vec<Mark<'a>>, OutOfMemory>
    ensures { IfOk result (λ marks. map mark_of marks.items ≡ event_labels event.entry.now) }
{
    let mut marks = Vec::new(alloc);
    add_labels(&mut marks, event.guards.items())?;
    add_labels(&mut marks, event.witnesses.items())?;
    add_steps(&mut marks, event.actions.items())?;
    Ok(marks)
}

/// The first label of an event that is inherited, or stands before it.
fn first_label_twice(
    alloc: Global,
    component: &Name,
    guards: &[Labelled],
    actions: &[(Label, Action)],
    event: &RawEvent,
) -> Result<Option<Fault>, OutOfMemory>
    ensures { IfOk result (λ first. first ≡ first_by_place
        (repeated kind.LabelTwice component.now (is_among (map (λ l. l.label) guards.now ++ map (λ a. a.0) actions.now))
        (event_labels event.now))) }
{
    let inherited = labels_in(alloc, guards, actions)?;
    let marks = label_marks(alloc, event)?;
    let seen = BTreeSet::new(alloc);
    first_repeated(
        alloc,
        component,
        FaultKind::LabelTwice,
        &inherited,
        seen,
        &marks,
    )
}

/// The first fault of kinds 10 and 11 of an event, where `events` are those of the abstraction.
fn first_declared(
    alloc: Global,
    component: &Name,
    events: &AbstractEvents<'_>,
    known: &Texts<'_>,
    event: &RawEvent,
) -> Result<Option<Fault>, OutOfMemory>
    ensures { IfOk result (λ here. here ≡ first_by_place
        (declared_in component.now events.now (has known.now) event.now)) }
{
    let refined = refined(alloc, events, event)?;
    let params = inherited_params(&refined, event);
    let extended = extended(&refined, event);
    let clash = first_clash(alloc, component, events, known, event.refines.items())?;
    let twice = first_param_twice(alloc, component, known, params, event.params.items())?;
    let label = first_label_twice(
        alloc,
        component,
        guards_in(extended),
        actions_in(extended),
        event,
    )?;
    Ok(earlier(earlier(clash, twice), label))
}

/// The first fault of kinds 10 and 11 of the events of a machine.
pub fn first_declared_in_events(
    alloc: Global,
    component: &Name,
    events: &AbstractEvents<'_>,
    known: &Texts<'_>,
    written: &[RawEvent],
) -> Result<Option<Fault>, OutOfMemory>
    ensures { IfOk result (λ first. first ≡ first_by_place
        (joined (map (declared_in component.now events.now (has known.now)) (map (λ e. e) written.now)))) }
{
    let mut first = None;
    for event in written {
        let here = first_declared(alloc, component, events, known, event)?;
        first = earlier(first, here);
    }
    Ok(first)
}
