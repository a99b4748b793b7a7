//! Kinds 20 to 24 of a machine.
ghost use Rattle.std.specs.Prelude.{◌≡◌, map, [], IfOk, is_some};
ghost use Rattle.std.specs.List.{zip};
ghost use Rattle.std.specs.Option.{option_copied, option_map_or};
ghost use Rattle.formula_core.specs.Formulas.{joined};
ghost use Rattle.model_core.specs.Faults.{first_by_place};
ghost use Rattle.check_rules.specs.Contexts.{names_of};
ghost use Rattle.check_rules.specs.Machines.{abstract_events};
ghost use Rattle.check_rules.specs.Components.{machine_at, refinements_of};
ghost use Rattle.check_rules.specs.Refinements.{refinement_row, refinement_faults};
ghost use Rattle.refine_check.specs.Private.{lost_of, event_row};

use crate::convergence::{bad_convergence, bad_variant};
use crate::inherited::first_lost_in_inherited;
use crate::lost::{first_lost_in_own, first_lost_in_variant, lost_of};
use crate::merged::first_difference;
use crate::names::Names;
use crate::paired::first_no_abstract_event;
use crate::witnesses::{first_bad_witness, param_names};
use check_rules::{AbstractEvents, refined};
use formula_core::{Formula, Name, OutOfMemory, Ref};
use model_core::{
    Checked, CheckedEvent, CheckedMachine, Fault, RawComponent, RawEvent, RawVariant, earlier,
};
use std::alloc::Global;

fn machine_of(abstraction: Option<&Checked>) -> Option<&CheckedMachine>
    ensures { option_copied result ≡ machine_at (option_copied abstraction.entry) }
{
    match abstraction {
        Some(Checked::Machine(machine)) => Some(machine),
        _ => None,
    }
}

fn events_of(abstraction: Option<&CheckedMachine>) -> &[CheckedEvent]
    ensures { result.now ≡ abstract_events (option_copied abstraction.entry) }
{
    match abstraction {
        Some(machine) => machine.events.items(),
        None => &[],
    }
}

fn lost_variables<'a>(
    alloc: Global,
    abstraction: Option<&'a CheckedMachine>,
    variables: &[Ref],
) -> Result<Names<'a>, OutOfMemory>
    ensures { IfOk result (λ lost.
        lost ≡ option_map_or (λ m. lost_of m (names_of variables.now)) (option_copied abstraction.entry) []) }
{
    match abstraction {
        Some(machine) => lost_of(alloc, machine, variables),
        None => Names::of(alloc, Vec::new(alloc)),
    }
}

/// What a machine's events are checked beside: its name, the events of its abstraction, the variables that it no longer has, and whether it has a variant.
#[derive(Drop)]
struct Beside<'a, 'b, 'c> {
    component: &'a Name,
    events: &'c AbstractEvents<'b>,
    lost: &'c Names<'b>,
    has_variant: bool,
}

fn first_of_event(
    alloc: Global,
    beside: &Beside,
    refined: &[&CheckedEvent],
    event: &RawEvent,
    typed: &CheckedEvent,
) -> Result<Option<Fault>, OutOfMemory>
    ensures { IfOk result (λ first. first ≡ first_by_place (event_row beside.now.component.now beside.now.events.now
        (map (λ x. x.now) refined.now) beside.now.lost.now beside.now.has_variant (event.now, typed.now))) }
{
    let component = beside.component;
    let kept = param_names(alloc, refined, event)?;
    let unpaired = first_no_abstract_event(alloc, component, beside.events, event)?;
    let merged = first_difference(alloc, component, beside.events, &kept, event)?;
    let witness = first_bad_witness(alloc, component, &kept, beside.lost, refined, event)?;
    let own = first_lost_in_own(alloc, component, beside.lost, event)?;
    let inherited = first_lost_in_inherited(alloc, component, beside.lost, event, typed)?;
    let badly = bad_convergence(alloc, component, refined, beside.has_variant, event)?;
    let two = earlier(unpaired, merged);
    let three = earlier(two, witness);
    let four = earlier(three, own);
    let five = earlier(four, inherited);
    Ok(earlier(five, badly))
}

fn first_at_event(
    alloc: Global,
    beside: &Beside,
    event: &RawEvent,
    typed: &CheckedEvent,
) -> Result<Option<Fault>, OutOfMemory>
    ensures { IfOk result (λ first. first ≡ first_by_place (refinement_row beside.now.component.now
        beside.now.events.now beside.now.lost.now beside.now.has_variant (event.now, typed.now))) }
{
    let refined = refined(alloc, beside.events, event)?;
    first_of_event(alloc, beside, &refined, event, typed)
}

fn first_in_events(
    alloc: Global,
    beside: &Beside,
    written: &[RawEvent],
    typed: &[CheckedEvent],
) -> Result<Option<Fault>, OutOfMemory>
    ensures { IfOk result (λ first. first ≡ first_by_place (joined (map (refinement_row beside.now.component.now
        beside.now.events.now beside.now.lost.now beside.now.has_variant) (zip written.now typed.now)))) }
{
    let mut first = None;
    for (event, one) in written.iter().zip(typed.iter()) {
        let here = first_at_event(alloc, beside, event, one)?;
        first = earlier(first, here);
    }
    Ok(first)
}

fn first_in_machine(
    alloc: Global,
    beside: &Beside,
    written: &Option<RawVariant>,
    variant: &Option<Formula>,
    events: &[RawEvent],
    typed: &[CheckedEvent],
) -> Result<Option<Fault>, OutOfMemory>
    requires { beside.now.has_variant ≡ is_some written.now }
    ensures { IfOk result (λ first. first ≡ first_by_place (refinement_faults beside.now.component.now
        beside.now.events.now beside.now.lost.now written.now variant.now (zip events.now typed.now))) }
{
    let component = beside.component;
    let lost = first_lost_in_variant(alloc, component, beside.lost, written)?;
    let bad = bad_variant(alloc, component, written, variant)?;
    let of_events = first_in_events(alloc, beside, events, typed)?;
    let of_variant = earlier(lost, bad);
    Ok(earlier(of_variant, of_events))
}

/// The first fault of a machine against its abstraction, where this is the machine that its text is checked to.
pub fn check_refinement(
    alloc: Global,
    raw: &RawComponent,
    checked: &CheckedMachine,
    abstraction: Option<&Checked>,
) -> Result<Option<Fault>, OutOfMemory>
    ensures first { IfOk result (λ first.
        first ≡ first_by_place (refinements_of raw.now checked.now (option_copied abstraction.entry))) }
{
    match raw {
        RawComponent::Context { .. } => Ok(None),
        RawComponent::Machine {
            name,
            variables,
            variant,
            events,
            ..
        } => {
            let refined = machine_of(abstraction);
            let abstract_events = AbstractEvents::of(alloc, events_of(refined))?;
            let lost = lost_variables(alloc, refined, variables.items())?;
            let beside = Beside {
                component: &name.name,
                events: &abstract_events,
                lost: &lost,
                has_variant: variant.is_some(),
            };
            let typed = checked.events.items();
            first_in_machine(
                alloc,
                &beside,
                variant,
                &checked.variant,
                events.items(),
                typed,
            )
        }
    }
}
