//! The state's entries, listed.
ghost use Rattle.std.specs.Prelude.{◌≡◌, ◌++◌, ◌∷◌, [], map, OnOk, IfOk};
ghost use Rattle.std.specs.FinMap as finite;
ghost use Rattle.proof_entries.specs.declared.Entry.{Entry};
ghost use Rattle.core_steps.specs.StateEntries.{build_of, state_entries};

use crate::changes::add_changes;
use core_steps::{Durable, Entry, PoMap, Project, StoredProof};
use formula_core::{OutOfMemory, PoName};
use std::alloc::Global;

/// The entries that lead from nothing to what lasts: those of a checkpoint, and of the digest.
pub fn state_entries(alloc: Global, durable: &Durable) -> Result<Vec<Entry>, OutOfMemory>
    ensures entries { IfOk result (λ listed. listed.items ≡ state_entries durable.now) }
{
    let mut listed = text_entries(alloc, durable)?;
    add_proofs(alloc, &durable.proofs, &mut listed)?;
    Ok(listed)
}

/// Those before the proofs.
pub(crate) fn text_entries(alloc: Global, durable: &Durable) -> Result<Vec<Entry>, OutOfMemory>
    ensures { IfOk result (λ listed. listed.items
        ++ map (λ e. Entry.SetProof e.0 e.1) (finite.entries durable.now.proofs) ≡ state_entries durable.now) }
{
    let mut listed = Vec::new(alloc);
    add_built(alloc, &durable.built, &mut listed)?;
    if !listed.is_empty() {
        listed.push(Entry::Build)?;
    }
    add_changes(alloc, &durable.built, &durable.texts, &mut listed)?;
    Ok(listed)
}

fn add_built(alloc: Global, built: &Project, listed: &mut Vec<Entry>) -> Result<(), OutOfMemory>
    ensures { OnOk result (listed.new.items
        ≡ listed.old.items ++ map (λ e. Entry.Put e.0 e.1) (finite.entries built.now)) }
{
    for (name, text) in built.texts() {
        listed.push(Entry::Put(name.copy(alloc)?, text.copy()?))?;
    }
    Ok(())
}

fn add_proofs(
    alloc: Global,
    proofs: &PoMap<StoredProof>,
    listed: &mut Vec<Entry>,
) -> Result<(), OutOfMemory>
    ensures { OnOk result (listed.new.items
        ≡ listed.old.items ++ map (λ e. Entry.SetProof e.0 e.1) (finite.entries proofs.now)) }
{
    for (name, stored) in proofs.entries() {
        listed.push(proof_entry(alloc, name, stored)?)?;
    }
    Ok(())
}

/// The entry of a proof.
pub(crate) fn proof_entry(
    alloc: Global,
    name: &PoName,
    stored: &StoredProof,
) -> Result<Entry, OutOfMemory>
    ensures { IfOk result (λ entry. entry ≡ Entry.SetProof name.now stored.now) }
{
    Ok(Entry::SetProof(name.copy(alloc)?, stored.proof().copy(alloc)?))
}
