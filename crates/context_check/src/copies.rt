//! Copies of parts of components.

ghost use Rattle.std.specs.Prelude.{◌≡◌, ◌++◌, ◌∷◌, [], IfOk, OnOk, map};
ghost use Rattle.check_rules.specs.Contexts.{carrier_set, names_of};
ghost use Rattle.check_rules.specs.Visible.{entries, origins};
ghost use Rattle.context_check.specs.Views.{placed};

use crate::visible::Placed;
use formula_core::{Boxed, Env, Name, OutOfMemory, Ref, Ty};
use model_core::{Labelled, Shared};
use std::alloc::Global;

/// The names of references.
pub fn names_of(alloc: Global, refs: &[Ref]) -> Result<Vec<Name>, OutOfMemory>
    ensures { IfOk result (λ names. names.items ≡ names_of refs.now) }
{
    let mut names = Vec::new(alloc);
    for r in refs {
        names.push(r.name.copy(alloc)?)?;
    }
    Ok(names)
}

pub(crate) fn copy_names(alloc: Global, names: &[&Name]) -> Result<Vec<Name>, OutOfMemory>
    ensures { IfOk result (λ copies. copies.items ≡ map (λ n. n.now) names.now) }
{
    let mut copies = Vec::new(alloc);
    for name in names {
        copies.push(name.copy(alloc)?)?;
    }
    Ok(copies)
}

/// The components in which the parts stand.
pub fn copy_origins<T>(
    alloc: Global,
    parts: &[Placed<'_, T>],
) -> Result<Vec<Shared<Name>>, OutOfMemory>
    ensures { IfOk result (λ copies. copies.items ≡ origins (map placed parts.now)) }
{
    let mut copies = Vec::new(alloc);
    for part in parts {
        copies.push(part.1.share()?)?;
    }
    Ok(copies)
}

pub fn copy_entries(
    alloc: Global,
    parts: &[Placed<'_, (Name, Ty)>],
) -> Result<Vec<(Name, Ty)>, OutOfMemory>
    ensures { IfOk result (λ copies. copies.items ≡ entries (map placed parts.now)) }
{
    let mut copies = Vec::new(alloc);
    for part in parts {
        copies.push((part.0.0.copy(alloc)?, part.0.1.copy(alloc)?))?;
    }
    Ok(copies)
}

pub fn copy_labelled(labelled: &Labelled) -> Result<Labelled, OutOfMemory>
    ensures { IfOk result (λ copy. copy ≡ labelled.now) }
{
    Ok(Labelled {
        label: labelled.label.share()?,
        theorem: labelled.theorem,
        formula: labelled.formula.share()?,
    })
}

/// The labelled formulas without their components.
pub fn copy_formulas(
    alloc: Global,
    parts: &[Placed<'_, Labelled>],
) -> Result<Vec<Labelled>, OutOfMemory>
    ensures { IfOk result (λ copies. copies.items ≡ map (λ x. x.0) (map placed parts.now)) }
{
    let mut copies = Vec::new(alloc);
    for part in parts {
        copies.push(copy_labelled(part.0)?)?;
    }
    Ok(copies)
}

/// Adds the name as often as there are items.
pub fn add_for_each<T>(
    alloc: Global,
    names: &mut Vec<Shared<Name>>,
    name: &Name,
    items: &[T],
) -> Result<(), OutOfMemory>
    ensures { OnOk result (names.new.items ≡ names.old.items ++ map (λ x. name.now) items.now) }
{
    let origin = Shared::new(alloc, name.copy(alloc)?)?;
    for _item in items {
        names.push(origin.share()?)?;
    }
    Ok(())
}

fn carrier_set(alloc: Global, set: &Ref) -> Result<(Name, Ty), OutOfMemory>
    ensures { IfOk result (λ entry. entry ≡ carrier_set set.now) }
{
    let member = Boxed::new(alloc, Ty::Given(set.name.copy(alloc)?))?;
    Ok((set.name.copy(alloc)?, Ty::Pow(member)))
}

/// Adds carrier sets with their types.
pub(crate) fn add_carrier_sets(
    alloc: Global,
    entries: &mut Vec<(Name, Ty)>,
    sets: &[Ref],
) -> Result<(), OutOfMemory>
    ensures { OnOk result (entries.new.items ≡ entries.old.items ++ map carrier_set sets.now) }
{
    for set in sets {
        entries.push(carrier_set(alloc, set)?)?;
    }
    Ok(())
}

fn add_entry(env: &mut Env, entry: (Name, Ty)) -> Result<(), OutOfMemory>
    ensures { OnOk result (env.new ≡ env.old ++ entry ∷ []) }
{
    match env.add(entry.0, entry.1) {
        Ok(()) => Ok(()),
        Err(_) => Err(OutOfMemory),
    }
}

/// The environment of these entries, whose names are distinct.
pub fn env_of(alloc: Global, entries: Vec<(Name, Ty)>) -> Result<Env, OutOfMemory>
    ensures { IfOk result (λ env. env ≡ entries.items) }
{
    let mut env = Env::new(alloc);
    for entry in entries {
        add_entry(&mut env, entry)?;
    }
    Ok(env)
}

/// How many, where there are fewer than 2 ^ 32.
pub fn count(len: usize) -> Result<u32, OutOfMemory>
    ensures { IfOk result (λ n. n ≡ len) }
{
    if len > u32::MAX as usize {
        return Err(OutOfMemory);
    }
    Ok(len as u32)
}
