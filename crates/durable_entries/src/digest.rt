//! The digest of what lasts.
ghost use Rattle.std.specs.Prelude.{◌≡◌, ◌++◌, map, IfOk, OnOk};
ghost use Rattle.std.specs.FinMap as finite;
ghost use Rattle.std.specs.List.{flat_map};
ghost use Rattle.sha2.specs.Sha256.{sha256};
ghost use Rattle.proof_entries.specs.declared.Entry.{Entry};
ghost use Rattle.proof_codec.specs.Entries.{entry_bytes};
ghost use Rattle.core_steps.specs.StateDigest.{state_digest};

use crate::listed::{proof_entry, text_entries};
use core_steps::{Durable, Entry, PoMap, StoredProof};
use formula_core::OutOfMemory;
use proof_codec::write_entry;
use sha2::{Digest, Sha256};
use std::alloc::Global;
use writable_entries::is_writable;

/// SHA-256 of the bytes of the state's entries.
pub fn state_digest(alloc: Global, durable: &Durable) -> Result<[u8; 32], OutOfMemory>
    ensures digest { IfOk result (λ digest. digest ≡ state_digest durable.now) }
{
    let entries = text_entries(alloc, durable)?;
    digest_of(alloc, &entries, &durable.proofs)
}

// SHA-256 of the bytes of these entries, then of those of the proofs. One after another is written and hashed, so that
// the bytes of one alone take memory; a proof is copied only while it is.
fn digest_of(
    alloc: Global,
    entries: &[Entry],
    proofs: &PoMap<StoredProof>,
) -> Result<[u8; 32], OutOfMemory>
    ensures { IfOk result (λ digest. digest ≡ sha256 (flat_map entry_bytes
        (entries.now ++ map (λ e. Entry.SetProof e.0 e.1) (finite.entries proofs.now)))) }
{
    let mut hasher = Sha256::new();
    let mut bytes = Vec::new(alloc);
    for entry in entries {
        write_alone(entry, &mut bytes)?;
        hasher.update(bytes.as_slice());
    }
    for (name, stored) in proofs.entries() {
        write_alone(&proof_entry(alloc, name, stored)?, &mut bytes)?;
        hasher.update(bytes.as_slice());
    }
    Ok(hasher.finalize())
}

// The entry in place of the bytes. No contract of a state says that its entries may be written, so each is tested.
fn write_alone(entry: &Entry, bytes: &mut Vec<u8>) -> Result<(), OutOfMemory>
    ensures { OnOk result (bytes.new.items ≡ entry_bytes entry.now) }
{
    if !is_writable(entry) {
        return Err(OutOfMemory);
    }
    bytes.clear();
    write_entry(entry, bytes)
}
