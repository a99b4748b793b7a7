//! The parts of a component: the checked components at its references.

ghost use Rattle.std.specs.Prelude.{◌≡◌, ◌++◌, ◌∷◌, [], true, false, map, IfOk, OnOk};
ghost use Rattle.std.specs.List.{filter_map};
ghost use Rattle.std.specs.Option.{option_copied, option_to_list};
ghost use Rattle.build_core.specs.Projects.{checked_in, wanted_references, wanting};
ghost use Rattle.build_core.specs.Private.{parts_at};

use crate::outcomes::Outcomes;
use formula_core::{Name, OutOfMemory, Ref};
use model_core::{Checked, Fault, RawComponent};
use std::alloc::Global;

fn add_part<'a>(
    parts: &mut Vec<&'a Checked>,
    outcome: Option<&'a Result<Checked, Fault>>,
) -> Result<(), OutOfMemory>
    ensures { OnOk result (map (λ p. p.now) parts.new.items
        ≡ map (λ p. p.now) parts.old.items ++ filter_map checked_in (option_copied outcome.entry ∷ [])) }
{
    match outcome {
        Some(Ok(checked)) => {
            parts.push(checked)?;
            Ok(())
        }
        _ => Ok(()),
    }
}

fn add_parts<'a>(
    parts: &mut Vec<&'a Checked>,
    references: &[Ref],
    outcomes: &'a Outcomes,
) -> Result<(), OutOfMemory>
    ensures { OnOk result (map (λ p. p.now) parts.new.items
        ≡ map (λ p. p.now) parts.old.items ++ parts_at outcomes.now (wanting true references.now)) }
{
    for reference in references {
        add_part(parts, outcomes.get(&reference.name))?;
    }
    Ok(())
}

fn add_refined<'a>(
    parts: &mut Vec<&'a Checked>,
    refines: &Option<Ref>,
    outcomes: &'a Outcomes,
) -> Result<(), OutOfMemory>
    ensures { OnOk result (map (λ p. p.now) parts.new.items
        ≡ map (λ p. p.now) parts.old.items
        ++ parts_at outcomes.now (wanting false (option_to_list refines.now))) }
{
    match refines {
        None => Ok(()),
        Some(refines) => {
            add_part(parts, outcomes.get(&refines.name))?;
            Ok(())
        }
    }
}

/// The checked components at the references, in their order.
pub fn parts_of<'a>(
    alloc: Global,
    raw: &RawComponent,
    outcomes: &'a Outcomes,
) -> Result<Vec<&'a Checked>, OutOfMemory>
    ensures { IfOk result (λ parts. map (λ p. p.now) parts.items
        ≡ parts_at outcomes.now (wanted_references raw.now)) }
{
    let mut parts = Vec::new(alloc);
    match raw {
        RawComponent::Context { extends, .. } => {
            add_parts(&mut parts, extends.items(), outcomes)?;
            Ok(parts)
        }
        RawComponent::Machine { refines, sees, .. } => {
            add_refined(&mut parts, refines, outcomes)?;
            add_parts(&mut parts, sees.items(), outcomes)?;
            Ok(parts)
        }
    }
}
