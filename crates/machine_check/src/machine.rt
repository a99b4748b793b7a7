//! Checks a machine by itself.

ghost use Rattle.std.specs.Prelude.{◌≡◌, false, Ok, Err, IsErrOf, IfOk, map};
ghost use Rattle.std.specs.List.{zip};
ghost use Rattle.std.specs.Option.{option_copied};
ghost use Rattle.model_core.specs.declared.fault.Fault.{Fault as Told};
ghost use Rattle.model_core.specs.Faults.{first_by_place};
ghost use Rattle.check_rules.specs.Assignments.{assignment_faults};
ghost use Rattle.check_rules.specs.Components.{AreByName, AreContextsOf, ChecksApart, is_context};
ghost use Rattle.check_rules.specs.Contexts.{names_of};
ghost use Rattle.check_rules.specs.Machines.{ChecksFormulasApart, ChecksMachineApart, abstract_events, abstract_view, all_variables};
ghost use Rattle.machine_check.specs.PrivateEvents.{both_of};
ghost use Rattle.machine_check.specs.PrivateMachine.{IsTypedMachineSoFar, written_of};
ghost use Rattle.context_check.specs.Views.{visible};

use crate::assignments::{EventPair, first_bad_assignment};
use crate::event::type_events;
use crate::machine_names::first_own_declaration;
use crate::machine_parts::{add_lost_variables, machine_env, machine_of, new_variables};
use crate::refined_machine::{abstract_events, abstract_variables, abstract_view, machine_at};
use check_rules::AbstractEvents;
use context_check::CheckFault;
use context_check::context::contexts_in;
use context_check::copies::names_of;
use context_check::typing::{first_never_typed, type_all, type_variant};
use context_check::visible::{View, add_referenced};
use formula_core::{Name, OutOfMemory, Ref};
use model_core::{
    Checked, CheckedContext, CheckedEvent, CheckedMachine, Fault, RawComponent, RawEvent,
    RawLabelled, RawVariant, earlier,
};
use std::alloc::Global;

/// A machine as it is written.
#[derive(Clone, Copy)]
pub struct WrittenMachine<'a> {
    pub name: &'a Ref,
    pub sees: &'a [Ref],
    pub variables: &'a [Ref],
    pub invariants: &'a [RawLabelled],
    pub variant: Option<&'a RawVariant>,
    pub events: &'a [RawEvent],
}

/// Own and lost variables.
fn all_variables(
    alloc: Global,
    abstraction: Option<&CheckedMachine>,
    written: &WrittenMachine<'_>,
    view: &View<'_>,
) -> Result<Vec<Name>, OutOfMemory>
    requires { (visible view.now).variables ≡ (abstract_view (option_copied abstraction)).variables }
    ensures { IfOk result (λ names. names.items
        ≡ all_variables (option_copied abstraction.entry) (written_of written.now)) }
{
    let kept = abstract_variables(abstraction);
    let mut all = names_of(alloc, written.variables)?;
    add_lost_variables(alloc, &mut all, kept, written.variables, view)?;
    Ok(all)
}

/// Types a machine, where `variables` are own and lost ones. The first fault of its formulas is answered beside it.
fn type_machine(
    alloc: Global,
    abstraction: Option<&CheckedMachine>,
    events: &AbstractEvents<'_>,
    written: &WrittenMachine<'_>,
    view: &View<'_>,
    variables: &[Name],
) -> Result<(CheckedMachine, Option<Fault>), OutOfMemory>
    requires events { events.now ≡ abstract_events (option_copied abstraction) }
    requires all { variables.now ≡ all_variables (option_copied abstraction) (written_of written.now) }
    requires variables { (visible view.now).variables ≡ (abstract_view (option_copied abstraction)).variables }
    ensures { IfOk result (λ one. IsTypedMachineSoFar (option_copied abstraction.entry) (written_of written.now)
        (visible view.now) one.0 one.1) }
{
    let component = &written.name.name;
    let kept = abstract_variables(abstraction);
    let mut env = machine_env(alloc, kept, view)?;
    let wanted = new_variables(alloc, kept, written.variables)?;
    let invariants = type_all(alloc, component, &mut env, &wanted, written.invariants)?;
    let untyped = first_never_typed(alloc, component, &env, written.variables)?;
    let variant = type_variant(alloc, component, &env, written.variant)?;
    let of_events = type_events(
        alloc,
        component,
        events,
        variables,
        &mut env,
        written.events,
    )?;
    let first = earlier(
        earlier(earlier(invariants.first, untyped), variant.first),
        of_events.first,
    );
    let typed = machine_of(
        alloc,
        abstraction,
        written,
        view,
        &env,
        &wanted,
        invariants.typed,
        variant.typed,
        of_events.typed,
    )?;
    Ok((typed, first))
}

/// Each event as it is written, and as it is typed.
fn pair_events<'w, 't>(
    alloc: Global,
    written: &'w [RawEvent],
    typed: &'t [CheckedEvent],
) -> Result<Vec<EventPair<'w, 't>>, OutOfMemory>
    ensures { IfOk result (λ pairs. map both_of pairs.items ≡ zip written.entry.now typed.entry.now) }
{
    let mut pairs = Vec::new(alloc);
    for (written, typed) in written.iter().zip(typed.iter()) {
        pairs.push(EventPair { written, typed })?;
    }
    Ok(pairs)
}

/// The first fault of kinds 17 to 19.
fn first_assignment(
    alloc: Global,
    written: &WrittenMachine<'_>,
    variables: &[Name],
    events: &[CheckedEvent],
) -> Result<Option<Fault>, OutOfMemory>
    ensures { IfOk result (λ first. first ≡ first_by_place
        (assignment_faults written.now.name.now.name written.now.name.now.place
        (names_of written.now.variables.now) variables.now (zip written.now.events.now events.now))) }
{
    let pairs = pair_events(alloc, written.events, events)?;
    let first = first_bad_assignment(alloc, written.name, written.variables, variables, &pairs)?;
    Ok(first)
}

/// Kinds 13 to 16, or else the machine and its first fault of kinds 17 to 19.
fn check_formulas(
    alloc: Global,
    abstraction: Option<&CheckedMachine>,
    events: &AbstractEvents<'_>,
    written: &WrittenMachine<'_>,
    view: &View<'_>,
) -> Result<Result<(CheckedMachine, Option<Fault>), Fault>, OutOfMemory>
    requires events { events.now ≡ abstract_events (option_copied abstraction) }
    requires variables { (visible view.now).variables ≡ (abstract_view (option_copied abstraction)).variables }
    ensures { IfOk result (λ answer. ChecksFormulasApart (option_copied abstraction.entry) (written_of written.now)
        (visible view.now) answer) }
{
    let variables = all_variables(alloc, abstraction, written, view)?;
    let (typed, first) = type_machine(alloc, abstraction, events, written, view, &variables)?;
    match first {
        Some(fault) => Ok(Err(fault)),
        None => {
            let later = first_assignment(alloc, written, &variables, typed.events.items())?;
            Ok(Ok((typed, later)))
        }
    }
}

/// Checks a machine beside the contexts that it sees and the machine that it refines.
fn check_apart<'a>(
    alloc: Global,
    abstraction: Option<&'a CheckedMachine>,
    written: &WrittenMachine<'_>,
    seen: &[&'a CheckedContext],
) -> Result<Result<(CheckedMachine, Option<Fault>), Fault>, OutOfMemory>
    requires { AreByName written.now.sees.now (map (λ c. c.now) seen.now) }
    ensures { IfOk result (λ answer. ChecksMachineApart (option_copied abstraction.entry) (written_of written.now)
        (map (λ c. c.now) seen.now) answer) }
{
    let component = &written.name.name;
    let events = AbstractEvents::of(alloc, abstract_events(abstraction))?;
    let mut view = abstract_view(alloc, abstraction)?;
    let clash = add_referenced(alloc, component, &mut view, written.sees, seen)?;
    let own = first_own_declaration(alloc, abstraction, &events, written, &view)?;
    match earlier(clash, own) {
        Some(fault) => Ok(Err(fault)),
        None => {
            let answer = check_formulas(alloc, abstraction, &events, written, &view)?;
            Ok(answer)
        }
    }
}

fn outcome_of(
    alloc: Global,
    raw: &RawComponent,
    seen: &[&Checked],
    abstraction: Option<&Checked>,
) -> Result<Result<(CheckedMachine, Option<Fault>), Fault>, OutOfMemory>
    requires machine { is_context raw.now ≡ false }
    requires seen { AreContextsOf raw.now (map (λ p. p.now) seen.now) }
    ensures { IfOk result (λ answer. ChecksApart raw.now (map (λ p. p.now) seen.now)
        (option_copied abstraction.entry) answer) }
{
    let RawComponent::Machine {
        name,
        sees,
        variables,
        invariants,
        variant,
        events,
        ..
    } = raw
    else {
        unreachable!()
    };
    let written = WrittenMachine {
        name,
        sees: sees.items(),
        variables: variables.items(),
        invariants: invariants.items(),
        variant: variant.as_ref(),
        events: events.items(),
    };
    let seen = contexts_in(alloc, seen)?;
    let answer = check_apart(alloc, machine_at(abstraction), &written, &seen)?;
    Ok(answer)
}

/// Checks a machine beside the contexts that it sees, in the order of its references, and the machine that it refines,
/// if it refines one. The answer is its first fault of kinds 10 to 16, or the machine and its first fault of kinds 17
/// to 19.
pub fn check_machine(
    alloc: Global,
    raw: &RawComponent,
    seen: &[&Checked],
    abstraction: Option<&Checked>,
) -> Result<(CheckedMachine, Option<Fault>), CheckFault>
    requires machine { is_context raw.now ≡ false }
    requires seen { AreContextsOf raw.now (map (λ p. p.now) seen.now) }
    ensures checked { IfOk result (λ r. ChecksApart raw.now (map (λ p. p.now) seen.now)
        (option_copied abstraction.entry) (Ok r)) }
    ensures fault { (f : Told) → IsErrOf result (CheckFault.Fault f)
        → ChecksApart raw.now (map (λ p. p.now) seen.now) (option_copied abstraction.entry) (Err f) }
{
    let outcome = outcome_of(alloc, raw, seen, abstraction)?;
    match outcome {
        Ok(checked) => Ok(checked),
        Err(fault) => Err(CheckFault::Fault(fault)),
    }
}
