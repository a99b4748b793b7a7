// The bodies of records.
ghost use Rattle.std.specs.Prelude.{◌≡◌, ◌++◌, ◌∷◌, [], IfOk, OnOk};
ghost use Rattle.std.specs.List.{flat_map, AllByRecursion};
ghost use Rattle.proof_codec.specs.Entries.{entry_bytes, IsEntry};
ghost use Rattle.project_store.specs.Records.{record_body, checkpoint_entries, or_build, IsBody};

use core_steps::Durable;
use durable_entries::state_entries;
use formula_core::OutOfMemory;
use proof_codec::{Entry, write_entry};
use std::alloc::Global;
use writable_entries::is_writable;

/// The byte of the version that is written.
const VERSION: u8 = 2;

/// The body of a record of one entry.
#[tactic(auto, using(crate::proofs::Bodies::one_entry, crate::proofs::Bodies::one_good))]
pub(crate) fn entry_body(alloc: Global, entry: &Entry) -> Result<Vec<u8>, OutOfMemory>
    ensures body { IfOk result (λ body. body.items ≡ record_body (entry.now ∷ [])) }
    ensures good { IfOk result (λ body. IsBody body.items (entry.now ∷ [])) }
{
    let mut body = Vec::new(alloc);
    body.push(VERSION)?;
    write(entry, &mut body)?;
    Ok(body)
}

/// The body of a checkpoint.
#[tactic(auto, using(crate::proofs::Bodies::all_good))]
pub(crate) fn checkpoint_body(alloc: Global, durable: &Durable) -> Result<Vec<u8>, OutOfMemory>
    ensures body { IfOk result (λ body. body.items ≡ record_body (checkpoint_entries durable.now)) }
    ensures good { IfOk result (λ body. IsBody body.items (checkpoint_entries durable.now)) }
{
    let entries = or_build(state_entries(alloc, durable)?)?;
    let mut body = Vec::new(alloc);
    body.push(VERSION)?;
    write_all(&entries, &mut body)?;
    Ok(body)
}

// These entries, or a build where there are none.
#[tactic(auto, using(crate::proofs::Bodies::build_alone, crate::proofs::Bodies::as_listed))]
fn or_build(entries: Vec<Entry>) -> Result<Vec<Entry>, OutOfMemory>
    ensures { IfOk result (λ listed. listed.items ≡ or_build entries.items) }
{
    let mut listed = entries;
    if listed.is_empty() {
        listed.push(Entry::Build)?;
        return Ok(listed);
    }
    Ok(listed)
}

fn write_all(entries: &[Entry], body: &mut Vec<u8>) -> Result<(), OutOfMemory>
    ensures bytes { OnOk result (body.new.items ≡ body.old.items ++ flat_map entry_bytes entries.now) }
    ensures good { OnOk result (AllByRecursion IsEntry entries.now) }
{
    for entry in entries {
        write(entry, body)?;
    }
    Ok(())
}

// An entry of the core is one that may be written. Here it is tested, so that no more is asked of the core.
fn write(entry: &Entry, body: &mut Vec<u8>) -> Result<(), OutOfMemory>
    ensures bytes { OnOk result (body.new.items ≡ body.old.items ++ entry_bytes entry.now) }
    ensures good { OnOk result (IsEntry entry.now) }
{
    if !is_writable(entry) {
        return Err(OutOfMemory);
    }
    write_entry(entry, body)
}
