//! Copies of parts of events.

ghost use Rattle.std.specs.Prelude.{◌≡◌, ◌++◌, ◌∷◌, [], IfOk, OnOk, map};
ghost use Rattle.check_rules.specs.Contexts.{names_of};
ghost use Rattle.check_rules.specs.Typed.{in_order};
ghost use Rattle.check_rules.specs.Events.{witnesses_of};

use context_check::copies::copy_labelled;
use context_check::typing::add_in_order;
use formula_core::{
    Action, Env, Formula, Label, List, Name, NameFault, OutOfMemory, Ref, Ty, copy_identifiers,
    copy_labelled_actions,
};
use model_core::{CheckedEvent, Labelled};
use std::alloc::Global;

/// The names of events.
pub fn event_names(alloc: Global, events: &[&CheckedEvent]) -> Result<List<Name>, OutOfMemory>
    ensures { IfOk result (λ names. names ≡ map (λ x. x.now.name) events.now) }
{
    let mut names = Vec::new(alloc);
    for event in events {
        names.push(event.name.copy(alloc)?)?;
    }
    Ok(List::of(names))
}

fn copy_all_labelled(alloc: Global, items: &[Labelled]) -> Result<Vec<Labelled>, OutOfMemory>
    ensures { IfOk result (λ copies. copies.items ≡ items.now) }
{
    let mut copies = Vec::new(alloc);
    for item in items {
        copies.push(copy_labelled(item)?)?;
    }
    Ok(copies)
}

/// Inherited formulas, and then own ones.
pub fn with_labelled(
    alloc: Global,
    inherited: &[Labelled],
    own: Vec<Labelled>,
) -> Result<List<Labelled>, OutOfMemory>
    ensures { IfOk result (λ all. all ≡ inherited.now ++ own.items) }
{
    let mut own = own;
    let mut all = copy_all_labelled(alloc, inherited)?;
    all.append(&mut own)?;
    Ok(List::of(all))
}

/// Inherited actions, and then own ones.
pub fn with_actions(
    alloc: Global,
    inherited: &[(Label, Action)],
    own: Vec<(Label, Action)>,
) -> Result<List<(Label, Action)>, OutOfMemory>
    ensures { IfOk result (λ all. all ≡ inherited.now ++ own.items) }
{
    let mut own = own;
    let mut all = copy_labelled_actions(alloc, inherited)?.into_vec();
    all.append(&mut own)?;
    Ok(List::of(all))
}

/// Inherited names, and then own ones with the types that they have here.
pub fn with_params(
    alloc: Global,
    inherited: &[(Name, Ty)],
    env: &Env,
    own: &[Ref],
) -> Result<List<(Name, Ty)>, OutOfMemory>
    ensures { IfOk result (λ all. all ≡ inherited.now ++ in_order env.now (names_of own.now)) }
{
    let mut all = copy_identifiers(alloc, inherited)?.into_vec();
    add_in_order(alloc, &mut all, env, own)?;
    Ok(List::of(all))
}

/// Adds a witness whose label is a name.
fn add_witness(
    alloc: Global,
    found: &mut Vec<(Name, Formula)>,
    witness: Labelled,
) -> Result<(), OutOfMemory>
    ensures { OnOk result (found.new.items ≡ found.old.items ++ witnesses_of (witness ∷ [])) }
{
    match Name::read(alloc, witness.label.get().as_text()) {
        Ok(name) => {
            found.push((name, witness.formula.get().copy(alloc)?))?;
            Ok(())
        }
        Err(NameFault::BadName) => Ok(()),
        Err(NameFault::OutOfMemory) => Err(OutOfMemory),
    }
}

/// The witnesses whose labels are names.
pub fn witnesses_of(
    alloc: Global,
    witnesses: Vec<Labelled>,
) -> Result<List<(Name, Formula)>, OutOfMemory>
    ensures { IfOk result (λ found. found ≡ witnesses_of witnesses.items) }
{
    let mut found = Vec::new(alloc);
    for witness in witnesses {
        add_witness(alloc, &mut found, witness)?;
    }
    Ok(List::of(found))
}
