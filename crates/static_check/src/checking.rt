//! Checks a component beside its parts.
ghost use Rattle.std.specs.Prelude.{◌≡◌, ◌+◌, false, Ok, Err, IsErrOf, IfOk, map};
ghost use Rattle.std.specs.Option.{option_copied};
ghost use Rattle.model_core.specs.declared.fault.Fault.{Fault};
ghost use Rattle.check_rules.specs.Components.{AreContextsOf, ChecksBeside, is_context};
ghost use Rattle.static_check.specs.Parts.{ArePartsOf};
ghost use Rattle.static_check.specs.PrivateChecks.{ChecksWith};

use context_check::{CheckFault, check_context};
use formula_core::Steps;
use machine_check::check_machine;
use model_core::{Checked, RawComponent, earlier};
use refine_check::check_refinement;
use std::alloc::Global;
use std::sync::ledger::Ledger;

/// Checks a machine by itself, and then against its abstraction.
fn check_machine_beside(
    alloc: Global,
    raw: &RawComponent,
    seen: &[&Checked],
    abstraction: Option<&Checked>,
) -> Result<Checked, CheckFault>
    requires machine { is_context raw.now ≡ false }
    requires seen { AreContextsOf raw.now (map (λ p. p.now) seen.now) }
    ensures checked { IfOk result (λ c.
        ChecksWith raw.now (map (λ p. p.now) seen.now) (option_copied abstraction.entry) (Ok c)) }
    ensures fault { (f : Fault) → IsErrOf result (CheckFault.Fault f) →
        ChecksWith raw.now (map (λ p. p.now) seen.now) (option_copied abstraction.entry) (Err f) }
{
    let (machine, assignment) = check_machine(alloc, raw, seen, abstraction)?;
    let refinement = check_refinement(alloc, raw, &machine, abstraction)?;
    match earlier(assignment, refinement) {
        None => Ok(Checked::Machine(machine)),
        Some(fault) => Err(CheckFault::Fault(fault)),
    }
}

/// Checks a component beside its parts.
fn check_beside(
    alloc: Global,
    raw: &RawComponent,
    parts: &[&Checked],
) -> Result<Checked, CheckFault>
    requires parts { ArePartsOf raw.now (map (λ p. p.now) parts.now) }
    ensures checked { IfOk result (λ c. ChecksBeside raw.now (map (λ p. p.now) parts.now) (Ok c)) }
    ensures fault { (f : Fault) → IsErrOf result (CheckFault.Fault f) →
        ChecksBeside raw.now (map (λ p. p.now) parts.now) (Err f) }
{
    match raw {
        RawComponent::Context { .. } => check_context(alloc, raw, parts),
        RawComponent::Machine { refines, .. } => {
            if refines.is_some() {
                check_machine_beside(alloc, raw, &parts[1..], Some(parts[0]))
            } else {
                check_machine_beside(alloc, raw, parts, None)
            }
        }
    }
}

/// Checks a component beside those that it references, one part for each reference and in their order: first the machine
/// that it refines, if it refines one, and then the contexts that it sees or extends, the same one where a name is repeated.
/// The answer is the component without fault, or its first fault of kinds 10 to 24. A call is one step of the counter.
pub fn check<L: Ledger>(
    alloc: Global,
    raw: &RawComponent,
    parts: &[&Checked],
    steps: &mut Steps<L>,
) -> Result<Checked, CheckFault>
    requires parts { ArePartsOf raw.now (map (λ p. p.now) parts.now) }
    ensures checked { IfOk result (λ c. ChecksBeside raw.now (map (λ p. p.now) parts.now) (Ok c)) }
    ensures fault { (f : Fault) → IsErrOf result (CheckFault.Fault f) →
        ChecksBeside raw.now (map (λ p. p.now) parts.now) (Err f) }
    ensures steps { steps.new ≡ steps.old + 1 }
{
    steps.tick();
    check_beside(alloc, raw, parts)
}
