// What entries make of a project.
ghost use Rattle.std.specs.Prelude.{◌≡◌, OnOk};
ghost use Rattle.core_steps.specs.State.{entered};
ghost use Rattle.project_store.specs.Records.{after_all};

use core_steps::{Durable, Project, StoredProof};
use formula_core::{OutOfMemory, Steps};
use proof_entries::Entry;
use std::alloc::Global;
use std::sync::ledger::Ledger;

/// The durable after these entries. Each proof is looked through. After a refusal the durable is of no use.
pub(crate) fn enter_all<L: Ledger>(
    alloc: Global,
    durable: &mut Durable,
    entries: Vec<Entry>,
    steps: &mut Steps<L>,
) -> Result<(), OutOfMemory>
    ensures { OnOk result (durable.new ≡ after_all durable.old entries.items) }
{
    for entry in entries {
        enter(alloc, durable, entry, steps)?;
    }
    Ok(())
}

fn enter<L: Ledger>(
    alloc: Global,
    durable: &mut Durable,
    entry: Entry,
    steps: &mut Steps<L>,
) -> Result<(), OutOfMemory>
    ensures { OnOk result (durable.new ≡ entered durable.old entry) }
{
    match entry {
        Entry::Put(name, text) => durable.texts.put(name, text),
        Entry::Drop(name) => {
            durable.texts.remove(&name);
            Ok(())
        }
        Entry::Build => {
            durable.built = Project::of(alloc, &durable.texts)?;
            Ok(())
        }
        Entry::SetProof(name, proof) => {
            let stored = StoredProof::of(alloc, proof, steps)?;
            durable.proofs.put(name, stored)
        }
        Entry::Purge(names) => {
            durable.proofs.remove_all(names.items());
            Ok(())
        }
    }
}
