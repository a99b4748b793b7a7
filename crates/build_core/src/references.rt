//! What is wrong with the references of a component.

ghost use Rattle.std.specs.Prelude.{◌≡◌, false, IfOk};
ghost use Rattle.std.specs.Option.{option_copied, option_to_list};
ghost use Rattle.model_core.specs.Components.{heading};
ghost use Rattle.model_core.specs.Faults.{first_by_place};
ghost use Rattle.build_core.specs.Projects.{is_wanted, reference_row, wanted_references, wanting};
ghost use Rattle.build_core.specs.Private.{faults_at, found, wrong_kind};

use crate::outcomes::Outcomes;
use formula_core::{Name, OutOfMemory, Ref};
use model_core::{Checked, Fault, FaultKind, RawComponent, earlier, fault_at};
use std::alloc::Global;

fn is_wanted(context: bool, part: &Checked) -> bool
    ensures { result ≡ is_wanted context part.now }
{
    match part {
        Checked::Context(_) => context,
        Checked::Machine(_) => !context,
    }
}

/// What is wrong with a reference to a context, or else to a machine, by the outcome there.
fn wrong_kind(context: bool, part: Option<&Result<Checked, Fault>>) -> Option<FaultKind>
    ensures { result ≡ wrong_kind context (option_copied part.entry) }
{
    match part {
        None => Some(FaultKind::NoComponent),
        Some(Err(_)) => Some(FaultKind::Blocked),
        Some(Ok(checked)) => {
            if is_wanted(context, checked) {
                None
            } else {
                Some(FaultKind::WrongKind)
            }
        }
    }
}

fn reference_fault(
    alloc: Global,
    component: &Name,
    reference: &Ref,
    context: bool,
    outcomes: &Outcomes,
) -> Result<Option<Fault>, OutOfMemory>
    ensures { IfOk result (λ fault. option_to_list fault
        ≡ reference_row component.now (reference.now, context) (found outcomes.now reference.now.name)) }
{
    let kind = wrong_kind(context, outcomes.get(&reference.name));
    match kind {
        None => Ok(None),
        Some(kind) => {
            let words = reference.name.as_text();
            let fault = fault_at(alloc, component, kind, reference.place, words)?;
            Ok(Some(fault))
        }
    }
}

/// The first fault of references that want contexts, or else machines.
fn first_in_references(
    alloc: Global,
    component: &Name,
    references: &[Ref],
    context: bool,
    outcomes: &Outcomes,
) -> Result<Option<Fault>, OutOfMemory>
    ensures { IfOk result (λ first. first
        ≡ first_by_place (faults_at outcomes.now component.now (wanting context references.now))) }
{
    let mut first = None;
    for reference in references {
        let fault = reference_fault(alloc, component, reference, context, outcomes)?;
        first = earlier(first, fault);
    }
    Ok(first)
}

fn first_of_refined(
    alloc: Global,
    component: &Name,
    refines: &Option<Ref>,
    outcomes: &Outcomes,
) -> Result<Option<Fault>, OutOfMemory>
    ensures { IfOk result (λ first. first
        ≡ first_by_place
        (faults_at outcomes.now component.now (wanting false (option_to_list refines.now)))) }
{
    match refines {
        None => Ok(None),
        Some(reference) => {
            let fault = reference_fault(alloc, component, reference, false, outcomes)?;
            Ok(fault)
        }
    }
}

/// The first fault of the references of a component, by place.
pub fn first_reference_fault(
    alloc: Global,
    raw: &RawComponent,
    outcomes: &Outcomes,
) -> Result<Option<Fault>, OutOfMemory>
    ensures { IfOk result (λ first. first
        ≡ first_by_place (faults_at outcomes.now (heading raw.now).name (wanted_references raw.now))) }
{
    let component = &raw.heading().name;
    match raw {
        RawComponent::Context { extends, .. } => {
            let first = first_in_references(alloc, component, extends.items(), true, outcomes)?;
            Ok(first)
        }
        RawComponent::Machine { refines, sees, .. } => {
            let refined = first_of_refined(alloc, component, refines, outcomes)?;
            let seen = first_in_references(alloc, component, sees.items(), true, outcomes)?;
            Ok(earlier(refined, seen))
        }
    }
}
