//! What events assign.

ghost use Rattle.std.specs.Prelude.{◌≡◌, ◌++◌, ◌||◌, ◌∷◌, [], not, ◌==◌, length, ℕ, List, IfOk, OnOk, bytes_eq, map};
ghost use Rattle.std.specs.Prelude.{take, drop, if◌then◌else◌};
ghost use Rattle.std.specs.List.{list_any, list_all, filter, zip};
ghost use Rattle.formula_core.specs.Formulas.{joined};
ghost use Rattle.model_core.specs.declared.fault.FaultKind.TheVariants as kind;
ghost use Rattle.model_core.specs.Each.{is_among};
ghost use Rattle.model_core.specs.Faults.{fault_at, first_by_place};
ghost use Rattle.check_rules.specs.Contexts.{names_of};
ghost use Rattle.check_rules.specs.Events.{is_initialisation};
ghost use Rattle.check_rules.specs.Assignments.{written_targets, targets_in, assigned, all_assigned, names_on_right};
ghost use Rattle.check_rules.specs.Assignments.{free_names_of, is_bad_start, no_start, assignment_faults};
ghost use Rattle.context_check.specs.Texts.{mark_of, ref_mark};
ghost use Rattle.model_core.specs.Borrowed.{has};
ghost use Rattle.machine_check.specs.PrivateEvents.{both_of, no_variable_at, no_variable_in, assigned_twice_in};
ghost use Rattle.machine_check.specs.PrivateEvents.{reads_at, bad_start_in, bad_starts_in};

use check_rules::is_initialisation;
use context_check::declarations::{Mark, Texts, add_refs, first_repeated, has, put};
use context_check::typing::first_token_of_action;
use formula_core::{Action, Formula, Label, Name, OutOfMemory, RawAction, Ref, Ty};
use model_core::{CheckedEvent, Fault, FaultKind, RawEvent, RawStep, earlier, fault_at};
use std::alloc::Global;
use std::collections::BTreeSet;
use std::slice;

/// An event as it is written, and as it is typed.
#[derive(Clone, Copy)]
pub struct EventPair<'w, 't> {
    pub written: &'w RawEvent,
    pub typed: &'t CheckedEvent,
}

fn targets_of(action: &RawAction) -> &[Ref]
    ensures { result.now ≡ written_targets action.now }
{
    match action {
        RawAction::Assign(targets, _) => targets.items(),
        RawAction::Apply(target, _, _) => slice::from_ref(target),
        RawAction::ChooseIn(target, _) => slice::from_ref(target),
        RawAction::ChooseSuch(targets, _) => targets.items(),
    }
}

fn targets_in<'a>(alloc: Global, event: &'a RawEvent) -> Result<Vec<Mark<'a>>, OutOfMemory>
    ensures { IfOk result (λ marks. map mark_of marks.items ≡ map ref_mark (targets_in event.entry.now)) }
{
    let mut marks = Vec::new(alloc);
    for step in event.actions.items() {
        add_refs(&mut marks, targets_of(&step.action))?;
    }
    Ok(marks)
}

/// The fault of a place where something stands.
pub fn fault_if(
    alloc: Global,
    component: &Name,
    stands: bool,
    kind: FaultKind,
    place: u32,
    words: &str,
) -> Result<Option<Fault>, OutOfMemory>
    ensures { IfOk result (λ here. here ≡ first_by_place
        (if stands then fault_at component.now kind place words.now ∷ [] else [])) }
{
    if stands {
        let here = fault_at(alloc, component, kind, place, words)?;
        return Ok(Some(here));
    }
    Ok(None)
}

fn no_variable_at(
    alloc: Global,
    component: &Name,
    variables: &Texts<'_>,
    target: &Mark<'_>,
) -> Result<Option<Fault>, OutOfMemory>
    ensures { IfOk result (λ here. here ≡ first_by_place
        (no_variable_at component.now (has variables.now) (mark_of target.now))) }
{
    let stands = !has(variables, target.text);
    fault_if(
        alloc,
        component,
        stands,
        FaultKind::NoVariable,
        target.place,
        target.text,
    )
}

fn first_no_variable_among(
    alloc: Global,
    component: &Name,
    variables: &Texts<'_>,
    targets: &[Mark<'_>],
) -> Result<Option<Fault>, OutOfMemory>
    ensures { IfOk result (λ first. first ≡ first_by_place
        (joined (map (no_variable_at component.now (has variables.now)) (map mark_of targets.now)))) }
{
    let mut first = None;
    for mark in targets {
        let here = no_variable_at(alloc, component, variables, mark)?;
        first = earlier(first, here);
    }
    Ok(first)
}

fn no_variable_in(
    alloc: Global,
    component: &Name,
    variables: &Texts<'_>,
    event: &EventPair<'_, '_>,
) -> Result<Option<Fault>, OutOfMemory>
    ensures { IfOk result (λ here. here ≡ first_by_place
        (no_variable_in component.now (has variables.now) (both_of event.now))) }
{
    let targets = targets_in(alloc, event.written)?;
    first_no_variable_among(alloc, component, variables, &targets)
}

/// The first target that is no variable.
fn first_no_variable(
    alloc: Global,
    component: &Name,
    variables: &Texts<'_>,
    events: &[EventPair<'_, '_>],
) -> Result<Option<Fault>, OutOfMemory>
    ensures { IfOk result (λ first. first ≡ first_by_place
        (joined (map (no_variable_in component.now (has variables.now)) (map both_of events.now)))) }
{
    let mut first = None;
    for event in events {
        let here = no_variable_in(alloc, component, variables, event)?;
        first = earlier(first, here);
    }
    Ok(first)
}

/// The first items, so many or all.
pub fn first_items<T>(items: &[T], count: u32) -> &[T]
    ensures { result.now ≡ take count items.now }
{
    match items.get(..count as usize) {
        Some(first) => first,
        None => items,
    }
}

/// The items behind so many.
pub fn items_from<T>(items: &[T], from: u32) -> &[T]
    ensures { result.now ≡ drop from items.now }
{
    match items.get(from as usize..) {
        Some(rest) => rest,
        None => &[],
    }
}

/// Adds the names of pairs.
pub fn add_names_of<'a, T>(texts: &mut Texts<'a>, pairs: &'a [(Name, T)]) -> Result<(), OutOfMemory>
    ensures { OnOk result ((x : List ℕ) → has texts.new x
        ≡ (has texts.old x || list_any (λ p. bytes_eq x p.0) pairs.entry.now)) }
{
    for pair in pairs {
        put(texts, pair.0.as_text())?;
    }
    Ok(())
}

/// Adds the names that an action assigns.
fn add_assigned<'a>(texts: &mut Texts<'a>, action: &'a Action) -> Result<(), OutOfMemory>
    ensures { OnOk result ((x : List ℕ) → has texts.new x
        ≡ (has texts.old x || is_among (assigned action.entry.now) x)) }
{
    match action {
        Action::Assign(pairs) => add_names_of(texts, pairs.items()),
        Action::ChooseIn(name, _) => put(texts, name.as_text()),
        Action::ChooseSuch(targets, _) => add_names_of(texts, targets.items()),
    }
}

fn add_all_assigned<'a>(
    texts: &mut Texts<'a>,
    actions: &'a [(Label, Action)],
) -> Result<(), OutOfMemory>
    ensures { OnOk result ((x : List ℕ) → has texts.new x
        ≡ (has texts.old x || list_any (λ a. is_among (assigned a.1) x) actions.entry.now)) }
{
    for action in actions {
        add_assigned(texts, &action.1)?;
    }
    Ok(())
}

/// The names that the actions assign.
fn assigned_in<'a>(alloc: Global, actions: &'a [(Label, Action)]) -> Result<Texts<'a>, OutOfMemory>
    ensures { IfOk result (λ texts. (x : List ℕ) → has texts x ≡ is_among (all_assigned actions.entry.now) x) }
{
    let mut texts = BTreeSet::new(alloc);
    add_all_assigned(&mut texts, actions)?;
    Ok(texts)
}

fn assigned_twice_in(
    alloc: Global,
    component: &Name,
    event: &EventPair<'_, '_>,
) -> Result<Option<Fault>, OutOfMemory>
    ensures { IfOk result (λ here. here ≡ first_by_place (assigned_twice_in component.now (both_of event.now))) }
{
    let typed = event.typed;
    let inherited = assigned_in(
        alloc,
        first_items(typed.actions.items(), typed.own_actions_from),
    )?;
    let targets = targets_in(alloc, event.written)?;
    let seen = BTreeSet::new(alloc);
    first_repeated(
        alloc,
        component,
        FaultKind::AssignedTwice,
        &inherited,
        seen,
        &targets,
    )
}

/// The first target that is assigned twice.
fn first_assigned_twice(
    alloc: Global,
    component: &Name,
    events: &[EventPair<'_, '_>],
) -> Result<Option<Fault>, OutOfMemory>
    ensures { IfOk result (λ first. first ≡ first_by_place
        (joined (map (assigned_twice_in component.now) (map both_of events.now)))) }
{
    let mut first = None;
    for event in events {
        let here = assigned_twice_in(alloc, component, event)?;
        first = earlier(first, here);
    }
    Ok(first)
}

fn any_known(variables: &Texts<'_>, identifiers: &[(Name, Ty)]) -> bool
    ensures { result ≡ list_any (λ x. has variables.now x.0) identifiers.now }
{
    identifiers.iter().any(|x| has(variables, x.0.as_text()))
}

/// Whether a formula has a variable without prime.
fn reads(alloc: Global, variables: &Texts<'_>, formula: &Formula) -> Result<bool, OutOfMemory>
    ensures { IfOk result (λ r. r ≡ list_any (has variables.now) (free_names_of formula.now)) }
{
    let free = formula.free(alloc)?;
    Ok(any_known(variables, &free))
}

fn one_reads(
    alloc: Global,
    variables: &Texts<'_>,
    pairs: &[(Name, Formula)],
) -> Result<bool, OutOfMemory>
    ensures { IfOk result (λ r. r ≡ list_any (λ p. list_any (has variables.now) (free_names_of p.1)) pairs.now) }
{
    let mut found = false;
    for pair in pairs {
        let here = reads(alloc, variables, &pair.1)?;
        found = found || here;
    }
    Ok(found)
}

/// Whether an action has a variable without prime on its right side.
fn reads_on_right(
    alloc: Global,
    variables: &Texts<'_>,
    action: &Action,
) -> Result<bool, OutOfMemory>
    ensures { IfOk result (λ r. r ≡ list_any (has variables.now) (names_on_right action.now)) }
{
    match action {
        Action::Assign(pairs) => one_reads(alloc, variables, pairs.items()),
        Action::ChooseIn(_, set) => reads(alloc, variables, set),
        Action::ChooseSuch(_, predicate) => reads(alloc, variables, predicate),
    }
}

fn reads_at(
    alloc: Global,
    component: &Name,
    variables: &Texts<'_>,
    step: &RawStep,
    action: &(Label, Action),
) -> Result<Option<Fault>, OutOfMemory>
    ensures { IfOk result (λ here. here ≡ first_by_place
        (reads_at component.now (has variables.now) (step.now, action.now))) }
{
    let stands = reads_on_right(alloc, variables, &action.1)?;
    let place = first_token_of_action(&step.action);
    fault_if(
        alloc,
        component,
        stands,
        FaultKind::BadInitialisation,
        place,
        "",
    )
}

/// The first action that reads a variable.
fn first_reading(
    alloc: Global,
    component: &Name,
    variables: &Texts<'_>,
    steps: &[RawStep],
    actions: &[(Label, Action)],
) -> Result<Option<Fault>, OutOfMemory>
    ensures { IfOk result (λ first. first ≡ first_by_place
        (joined (map (reads_at component.now (has variables.now)) (zip steps.now actions.now)))) }
{
    let mut first = None;
    for (step, action) in steps.iter().zip(actions.iter()) {
        let here = reads_at(alloc, component, variables, step, action)?;
        first = earlier(first, here);
    }
    Ok(first)
}

fn has_parts(event: &CheckedEvent) -> bool
    ensures { result ≡ (not (length event.now.params == 0) || not (length event.now.guards == 0)) }
{
    !event.params.items().is_empty() || !event.guards.items().is_empty()
}

fn all_known(texts: &Texts<'_>, names: &[Ref]) -> bool
    ensures { result ≡ list_all (λ r. has texts.now r.name) names.now }
{
    names.iter().all(|r| has(texts, r.name.as_text()))
}

fn is_bad(has_parts: bool, complete: bool) -> bool
    ensures { result ≡ (has_parts || not complete) }
{
    has_parts || !complete
}

/// Whether INITIALISATION has parameters or guards, or leaves a variable out.
fn is_bad_start(alloc: Global, own: &[Ref], event: &CheckedEvent) -> Result<bool, OutOfMemory>
    ensures { IfOk result (λ bad. bad ≡ is_bad_start (names_of own.now) event.now) }
{
    let texts = assigned_in(alloc, event.actions.items())?;
    let complete = all_known(&texts, own);
    Ok(is_bad(has_parts(event), complete))
}

fn bad_start_in(
    alloc: Global,
    component: &Name,
    own: &[Ref],
    variables: &Texts<'_>,
    event: &EventPair<'_, '_>,
) -> Result<Option<Fault>, OutOfMemory>
    ensures { IfOk result (λ here. here ≡ first_by_place
        (bad_start_in component.now (names_of own.now) (has variables.now) (both_of event.now))) }
{
    let written = event.written;
    let typed = event.typed;
    let bad = is_bad_start(alloc, own, typed)?;
    let at_name = fault_if(
        alloc,
        component,
        bad,
        FaultKind::BadInitialisation,
        written.name.place,
        "",
    )?;
    let actions = items_from(typed.actions.items(), typed.own_actions_from);
    let reading = first_reading(
        alloc,
        component,
        variables,
        written.actions.items(),
        actions,
    )?;
    Ok(earlier(at_name, reading))
}

/// The events of the name INITIALISATION.
fn starts_in<'w, 't>(
    alloc: Global,
    events: &[EventPair<'w, 't>],
) -> Result<Vec<EventPair<'w, 't>>, OutOfMemory>
    ensures { IfOk result (λ starts. map both_of starts.items
        ≡ filter (λ e. is_initialisation e.0) (map both_of events.now)) }
{
    let mut starts = Vec::new(alloc);
    for event in events {
        if is_initialisation(event.written) {
            starts.push(*event)?;
        }
    }
    Ok(starts)
}

fn first_in_starts(
    alloc: Global,
    component: &Name,
    own: &[Ref],
    variables: &Texts<'_>,
    starts: &[EventPair<'_, '_>],
) -> Result<Option<Fault>, OutOfMemory>
    ensures { IfOk result (λ first. first ≡ first_by_place
        (joined (map (bad_start_in component.now (names_of own.now) (has variables.now)) (map both_of starts.now)))) }
{
    let mut first = None;
    for start in starts {
        let here = bad_start_in(alloc, component, own, variables, start)?;
        first = earlier(first, here);
    }
    Ok(first)
}

/// The fault of a machine that has no INITIALISATION.
fn no_start(
    alloc: Global,
    component: &Ref,
    starts: &[EventPair<'_, '_>],
) -> Result<Option<Fault>, OutOfMemory>
    ensures { IfOk result (λ here. here ≡ first_by_place
        (no_start component.now.name component.now.place (map both_of starts.now))) }
{
    let name = &component.name;
    let place = component.place;
    if starts.is_empty() {
        let here = fault_at(alloc, name, FaultKind::BadInitialisation, place, "")?;
        return Ok(Some(here));
    }
    Ok(None)
}

fn first_bad_start(
    alloc: Global,
    component: &Ref,
    own: &[Ref],
    variables: &Texts<'_>,
    events: &[EventPair<'_, '_>],
) -> Result<Option<Fault>, OutOfMemory>
    ensures { IfOk result (λ first. first ≡ first_by_place
        (bad_starts_in component.now.name component.now.place (names_of own.now) (has variables.now)
        (filter (λ e. is_initialisation e.0) (map both_of events.now)))) }
{
    let starts = starts_in(alloc, events)?;
    let none = no_start(alloc, component, &starts)?;
    let bad = first_in_starts(alloc, &component.name, own, variables, &starts)?;
    Ok(earlier(none, bad))
}

/// The texts of names.
pub fn texts_of<'a>(alloc: Global, names: &'a [Name]) -> Result<Texts<'a>, OutOfMemory>
    ensures { IfOk result (λ texts. (x : List ℕ) → has texts x ≡ is_among names.entry.now x) }
{
    let mut texts = BTreeSet::new(alloc);
    add_names(&mut texts, names)?;
    Ok(texts)
}

pub fn add_names<'a>(texts: &mut Texts<'a>, names: &'a [Name]) -> Result<(), OutOfMemory>
    ensures { OnOk result ((x : List ℕ) → has texts.new x ≡ (has texts.old x || is_among names.entry.now x)) }
{
    for name in names {
        put(texts, name.as_text())?;
    }
    Ok(())
}

/// The first fault of kinds 17 to 19, where the variables are the own ones and the lost ones.
pub fn first_bad_assignment(
    alloc: Global,
    component: &Ref,
    own: &[Ref],
    variables: &[Name],
    events: &[EventPair<'_, '_>],
) -> Result<Option<Fault>, OutOfMemory>
    ensures { IfOk result (λ first. first ≡ first_by_place
        (assignment_faults component.now.name component.now.place (names_of own.now) variables.now
        (map both_of events.now))) }
{
    let name = &component.name;
    let known = texts_of(alloc, variables)?;
    let unknown = first_no_variable(alloc, name, &known, events)?;
    let twice = first_assigned_twice(alloc, name, events)?;
    let start = first_bad_start(alloc, component, own, &known, events)?;
    Ok(earlier(earlier(unknown, twice), start))
}
